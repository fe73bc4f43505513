// What the calls of a domain do to its sources and registers, for the domain by value and for lent words.
#![tactic(auto)]

ghost use Rattle.std.specs.Prelude.{◌≡◌, ◌<◌};
ghost use Rattle.word.specs.Word.{is_source};
ghost use Rattle.hart.specs.Hart.{in_domain};
ghost use Rattle.source.specs.Source.{number_of};
ghost use Rattle.sources.specs.Sources.{source_of, Acts};
ghost use Rattle.aplic_calls.specs.Calls.{concerned, change, domain_word, msi_of};
ghost use Rattle.aplic_calls.specs.Code.{Shows};

use refusal::Refusal;
use register::BitRegister;
use source::Delivery;
use sources::Sources;

// What is sent for a source: the identity, to a hart's interrupt file or to that of a guest there.
#[derive(Clone, Copy, Debug, PartialEq, Eq)]
pub struct Msi {
    pub hart: u32,
    pub guest: u32,
    pub identity: u32,
}

// A target's fields.
impl From<u32> for Msi {
    ghost from_gives = { λ target m. m ≡ msi_of target };

    fn from(target: u32) -> Msi {
        Msi {
            hart: target / 0x4_0000 % 0x4000,
            guest: target / 0x1000 % 64,
            identity: target % 2048,
        }
    }
}

// A call of a domain: a wire takes a level, a register is written or read by its offset, a source is forwarded, a hart claims, or is asked for its signal.
#[derive(Clone, Copy, Debug, PartialEq, Eq)]
pub enum Call {
    Wire(u64, bool),
    Write(u64, u32),
    Read(u64),
    Forward,
    Claim(u64),
    Signal(u64),
}

// A write to a register of bits.
#[tactic(auto, using(crate::proofs::Tables::bit_arms))]
pub fn write_bits(s: Sources, d: Delivery, b: BitRegister, v: u32) -> Sources
    ensures { Acts (concerned b v) (change d b) s result }
{
    match b {
        BitRegister::SetIp(high) => s.raise(d, word::mask_of(v, high)),
        BitRegister::SetIpNum => s.raise(d, word::one(v as u64)),
        BitRegister::InClrIp(high) => s.lower(d, word::mask_of(v, high)),
        BitRegister::ClrIpNum => s.lower(d, word::one(v as u64)),
        BitRegister::SetIe(high) => s.allow(word::mask_of(v, high)),
        BitRegister::SetIeNum => s.allow(word::one(v as u64)),
        BitRegister::ClrIe(high) => s.forbid(word::mask_of(v, high)),
        BitRegister::ClrIeNum => s.forbid(word::one(v as u64)),
    }
}

#[tactic(auto, using(crate::proofs::Tables::shows))]
pub fn read_bits(s: Sources, b: BitRegister) -> u32
    ensures { Shows b s result }
{
    match b {
        BitRegister::SetIp(high) => word::half_of(s.pending, high),
        BitRegister::SetIpNum => 0,
        BitRegister::InClrIp(high) => word::half_of(s.inputs(), high),
        BitRegister::ClrIpNum => 0,
        BitRegister::SetIe(high) => word::half_of(s.enable, high),
        BitRegister::SetIeNum => 0,
        BitRegister::ClrIe(_) => 0,
        BitRegister::ClrIeNum => 0,
    }
}

// domaincfg, little-endian.
pub fn domain_word(enable: bool, d: Delivery) -> u32
    ensures { result ≡ domain_word enable d }
{
    match (enable, d) {
        (true, Delivery::Direct) => 0x8000_0100,
        (true, Delivery::Message) => 0x8000_0104,
        (false, Delivery::Direct) => 0x8000_0000,
        (false, Delivery::Message) => 0x8000_0004,
    }
}

// sourcecfg.
pub fn mode_number(s: Sources, n: u64) -> u32
    requires { n < 64 }
    ensures { result ≡ number_of (source_of s n 0).mode }
{
    u32::from(s.row(n, 0).mode)
}

// Wires are those of the sources 1 to 63.
pub fn wire_refusal(n: u64) -> Result<(), Refusal>
    ensures { result ≡ in_domain (is_source n) tt }
{
    hart::in_domain(0 < n && n < 64)
}
