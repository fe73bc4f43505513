// The registers of a domain's control region.
#![tactic(auto)]

ghost use Rattle.std.specs.Prelude.{◌≡◌};
ghost use Rattle.register.specs.Register.{pending_register, enable_register, register_of, idc_of};

// The registers of pending and enable bits. A `bool` says which of an array's two registers it is: true for sources 32 to 63.
#[derive(Clone, Copy, Debug, PartialEq, Eq)]
pub enum BitRegister {
    SetIp(bool),
    SetIpNum,
    InClrIp(bool),
    ClrIpNum,
    SetIe(bool),
    SetIeNum,
    ClrIe(bool),
    ClrIeNum,
}

// A map of offsets: Nothing is one of its cases, and an Option would be no plainer.
#[derive(Clone, Copy, Debug, PartialEq, Eq)]
pub enum Register {
    DomainCfg,
    SourceCfg(u64),
    OfBits(BitRegister),
    Target(u64),
    Nothing,
}

// The registers of a hart but claimi, which is the one that changes by being read.
#[derive(Clone, Copy, Debug, PartialEq, Eq)]
pub enum HartRegister {
    IDelivery,
    IForce,
    IThreshold,
    TopI,
}

// What is in the array of interrupt delivery control structures: a hart's number, and its register. Reserved is a case of the map, as Nothing is.
#[derive(Clone, Copy, Debug, PartialEq, Eq)]
pub enum Idc {
    OfHart(u64, HartRegister),
    ClaimI(u64),
    Reserved,
}

// Inlined, as all of a C function is: none calls another.
#[tactic(auto, unfolding(crate::specs::Register::pending_register))]
#[inline(always)]
fn pending_register(offset: u64) -> Register
    ensures { result ≡ pending_register offset }
{
    match offset {
        0x1c00 => Register::OfBits(BitRegister::SetIp(false)),
        0x1c04 => Register::OfBits(BitRegister::SetIp(true)),
        0x1cdc => Register::OfBits(BitRegister::SetIpNum),
        0x1d00 => Register::OfBits(BitRegister::InClrIp(false)),
        0x1d04 => Register::OfBits(BitRegister::InClrIp(true)),
        0x1ddc => Register::OfBits(BitRegister::ClrIpNum),
        _ => Register::Nothing,
    }
}

#[tactic(auto, unfolding(crate::specs::Register::enable_register))]
#[inline(always)]
fn enable_register(offset: u64) -> Register
    ensures { result ≡ enable_register offset }
{
    match offset {
        0x1e00 => Register::OfBits(BitRegister::SetIe(false)),
        0x1e04 => Register::OfBits(BitRegister::SetIe(true)),
        0x1edc => Register::OfBits(BitRegister::SetIeNum),
        0x1f00 => Register::OfBits(BitRegister::ClrIe(false)),
        0x1f04 => Register::OfBits(BitRegister::ClrIe(true)),
        0x1fdc => Register::OfBits(BitRegister::ClrIeNum),
        _ => Register::Nothing,
    }
}

// The register at an offset; Nothing reads zero and ignores writes.
#[tactic(auto, unfolding(crate::specs::Register::register_of))]
pub fn register_at(offset: u64) -> Register
    ensures { result ≡ register_of offset }
{
    if offset % 4 != 0 {
        return Register::Nothing;
    }
    match offset {
        0 => Register::DomainCfg,
        0x4..0x100 => Register::SourceCfg(offset / 4),
        0x100..0x1e00 => pending_register(offset),
        0x1e00..0x2000 => enable_register(offset),
        0x2000 => Register::OfBits(BitRegister::SetIpNum),
        0x3004..0x3100 => Register::Target((offset - 0x3000) / 4),
        _ => Register::Nothing,
    }
}

// The register of a hart at an offset.
#[tactic(auto, unfolding(crate::specs::Register::idc_of))]
pub fn idc_at(offset: u64) -> Idc
    ensures { result ≡ idc_of offset }
{
    if offset < 0x4000 || offset >= 0x4200 {
        return Idc::Reserved;
    }
    let hart = (offset - 0x4000) / 32;
    match offset % 32 {
        0x00 => Idc::OfHart(hart, HartRegister::IDelivery),
        0x04 => Idc::OfHart(hart, HartRegister::IForce),
        0x08 => Idc::OfHart(hart, HartRegister::IThreshold),
        0x18 => Idc::OfHart(hart, HartRegister::TopI),
        0x1c => Idc::ClaimI(hart),
        _ => Idc::Reserved,
    }
}
