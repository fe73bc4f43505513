// The domain in words that the caller lends, changed in place and never copied. For `capi`, which looks at their number first, and for the domain by value, which has 87.
#![tactic(auto)]

ghost use Rattle.std.specs.Prelude.{◌≡◌, ◌<◌, ◌≤◌, length as length_of, drop, set, false};
ghost use Rattle.register.specs.Register.{register_of, idc_of};
ghost use Rattle.aplic_calls.specs.Calls.{wire_table, read_register, read_table, after_read, forward_table, sent_of};
ghost use Rattle.aplic_calls.specs.Direct.{read_idc, claimed_by, claims};
ghost use Rattle.aplic_words.specs.State.{delivery_in, table_in};

use aplic_calls::Msi;
use register::{Idc, Register};

// A source's wire takes a level.
#[tactic(auto, using(aplic_words::proofs::States::beyond, crate::proofs::Calls::wire_goes))]
pub fn wire(state: &mut [u64], n: u64, level: bool)
    requires { 87 ≤ length_of state.old }
    ensures table { table_in state.new ≡ wire_table n level (table_in state.old) }
    ensures beyond { drop 87 state.new ≡ drop 87 state.old }
{
    let d = aplic_words::delivery_in(state);
    let s = aplic_words::sources_in(state).sense(d, word::one(n), level);
    aplic_words::put_sources(state, s);
}

// What a register of the first 16 KiB tells.
#[tactic(auto, using(crate::proofs::Calls::reads, register::proofs::Known::knowing))]
fn value(state: &[u64], offset: u64) -> u32
    requires { 87 ≤ length_of state.now }
    ensures { result ≡ read_register (register_of offset) (table_in state.now) }
{
    let g = register::register_at(offset);
    match g {
        Register::DomainCfg => {
            let d = aplic_words::delivery_in(state);
            aplic_calls::domain_word(aplic_words::is_enabled(state), d)
        }
        Register::SourceCfg(n) => aplic_calls::mode_number(aplic_words::sources_in(state), n),
        Register::OfBits(b) => aplic_calls::read_bits(aplic_words::sources_in(state), b),
        Register::Target(n) => aplic_words::target_in(state, n),
        Register::Nothing => 0,
    }
}

// A register of a hart is read.
#[tactic(auto, using(register::proofs::Known::knowing, aplic_calls::proofs::Claims::idc_reads, aplic_calls::proofs::Claims::lefts))]
fn read_idc(state: &mut [u64], offset: u64) -> u32
    requires { 87 ≤ length_of state.old }
    ensures value { result ≡ read_idc (idc_of offset) (table_in state.old) }
    ensures table { table_in state.new ≡ claimed_by (idc_of offset) (table_in state.old) }
    ensures beyond { drop 87 state.new ≡ drop 87 state.old }
    ensures same { claims (delivery_in state.old) (idc_of offset) ≡ false → state.new ≡ state.old }
{
    let g = register::idc_at(offset);
    match g {
        Idc::OfHart(h, k) => aplic_hart::hart_value(state, h, k),
        Idc::ClaimI(h) => aplic_hart::claim(state, h),
        Idc::Reserved => 0,
    }
}

// A register is read: any offset.
#[tactic(auto, using(aplic_calls::proofs::Tables::spans))]
pub fn read(state: &mut [u64], offset: u64) -> u32
    requires { 87 ≤ length_of state.old }
    ensures value { result ≡ read_table offset (table_in state.old) }
    ensures table { table_in state.new ≡ after_read offset (table_in state.old) }
    ensures beyond { drop 87 state.new ≡ drop 87 state.old }
    ensures same { claims (delivery_in state.old) (idc_of offset) ≡ false → state.new ≡ state.old }
{
    if offset < 0x4000 {
        return value(state, offset);
    }
    read_idc(state, offset)
}

// The lowest-numbered source that is pending and enabled is handed out, in message delivery, while the domain's enable is set.
#[tactic(auto, using(crate::proofs::Calls::forwards))]
pub fn forward(state: &mut [u64]) -> Option<Msi>
    requires { 87 ≤ length_of state.old }
    ensures sent { result ≡ sent_of (table_in state.old) }
    ensures table { table_in state.new ≡ forward_table (table_in state.old) }
    ensures beyond { drop 87 state.new ≡ drop 87 state.old }
    ensures idle { result ≡ None → state.new ≡ state.old }
{
    let d = aplic_words::delivery_in(state);
    let s = aplic_words::sources_in(state);
    let n = s.first();
    if aplic_words::is_enabled(state) & !d.is_direct() {
        if n < 64 {
            let target = aplic_words::target_in(state, n);
            aplic_words::put_sources(state, s.lower(d, word::one(n)));
            return Some(Msi::from(target));
        }
    }
    None
}
