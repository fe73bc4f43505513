// A write to a register of a domain in lent words, changed in place and never copied.
#![tactic(auto)]

ghost use Rattle.std.specs.Prelude.{◌≡◌, ◌<◌, ◌≤◌, length as length_of, drop, true, false};
ghost use Rattle.word.specs.Word.{only};
ghost use Rattle.register.specs.Register.{register_of, idc_of};
ghost use Rattle.source.specs.Source.{direct_of, configured, aimed};
ghost use Rattle.source.specs.Table.{act};
ghost use Rattle.aplic_calls.specs.Calls.{write_register, write_table, ignores_register, ignores};
ghost use Rattle.aplic_calls.specs.Direct.{write_hart, write_idc, ignores_idc};
ghost use Rattle.aplic_words.specs.State.{delivery_in, table_in};

use register::{HartRegister, Idc, Register};

#[tactic(auto, using(aplic_words::proofs::States::beyond, crate::proofs::Writes::ones))]
fn configure(state: &mut [u64], n: u64, v: u32)
    requires { (87 ≤ length_of state.old) × (0 < n) × (n < 64) }
    ensures table { table_in state.new ≡ act (only n) (configured (delivery_in state.old) v) (table_in state.old) }
    ensures beyond { drop 87 state.new ≡ drop 87 state.old }
{
    let d = aplic_words::delivery_in(state);
    let old = aplic_words::sources_in(state);
    let s = old.row(n, aplic_words::target_in(state, n)).configure(d, v);
    aplic_words::put_sources(state, old.with_row(n, s));
    aplic_words::put_target(state, n, s.target);
}

#[tactic(auto, using(aplic_words::proofs::States::beyond, crate::proofs::Writes::ones))]
fn aim(state: &mut [u64], n: u64, v: u32)
    requires { (87 ≤ length_of state.old) × (0 < n) × (n < 64) }
    ensures table { table_in state.new ≡ act (only n) (aimed (delivery_in state.old) v) (table_in state.old) }
    ensures beyond { drop 87 state.new ≡ drop 87 state.old }
{
    let d = aplic_words::delivery_in(state);
    let s = aplic_words::sources_in(state)
        .row(n, aplic_words::target_in(state, n))
        .aim(d, v);
    aplic_words::put_target(state, n, s.target);
}

#[tactic(auto, using(aplic_words::proofs::States::beyond, crate::proofs::Writes::hart_writes))]
fn write_hart(state: &mut [u64], h: u64, k: HartRegister, v: u32)
    requires { (87 ≤ length_of state.old) × (h < 16) }
    ensures table { table_in state.new ≡ write_hart h k v (table_in state.old) }
    ensures beyond { drop 87 state.new ≡ drop 87 state.old }
    ensures ignored { direct_of (delivery_in state.old) ≡ false → state.new ≡ state.old }
{
    let d = aplic_words::delivery_in(state);
    if d.is_direct() {
        let x = aplic_words::record_in(state, h).wrote(k, v);
        aplic_words::put_record(state, h, x);
    }
}

// A register of the first 16 KiB is written.
#[tactic(auto, using(aplic_words::proofs::States::beyond, crate::proofs::Writes::writes, crate::proofs::Writes::changed, register::proofs::Known::knowing))]
fn write_register(state: &mut [u64], offset: u64, v: u32)
    requires { 87 ≤ length_of state.old }
    ensures table { table_in state.new ≡ write_register (register_of offset) v (table_in state.old) }
    ensures beyond { drop 87 state.new ≡ drop 87 state.old }
    ensures ignored { ignores_register (register_of offset) ≡ true → state.new ≡ state.old }
{
    let g = register::register_at(offset);
    match g {
        Register::DomainCfg => {
            state[0] = (v / 256 % 2) as u64;
        }
        Register::SourceCfg(n) => {
            configure(state, n, v);
        }
        Register::OfBits(b) => {
            let d = aplic_words::delivery_in(state);
            let s = aplic_calls::write_bits(aplic_words::sources_in(state), d, b, v);
            aplic_words::put_sources(state, s);
        }
        Register::Target(n) => {
            aim(state, n, v);
        }
        Register::Nothing => {}
    }
}

// A register of a hart is written.
#[tactic(auto, using(aplic_calls::proofs::Claims::idc_writes, aplic_words::proofs::States::beyond, register::proofs::Known::knowing))]
fn write_idc(state: &mut [u64], offset: u64, v: u32)
    requires { 87 ≤ length_of state.old }
    ensures table { table_in state.new ≡ write_idc (idc_of offset) v (table_in state.old) }
    ensures beyond { drop 87 state.new ≡ drop 87 state.old }
    ensures ignored { ignores_idc (delivery_in state.old) (idc_of offset) ≡ true → state.new ≡ state.old }
{
    let g = register::idc_at(offset);
    match g {
        Idc::OfHart(h, k) => {
            write_hart(state, h, k, v);
        }
        Idc::ClaimI(_) => {}
        Idc::Reserved => {}
    }
}

// A register is written: any offset, any value.
#[tactic(auto, using(aplic_calls::proofs::Tables::spans, crate::proofs::Writes::ignoring))]
pub fn write(state: &mut [u64], offset: u64, v: u32)
    requires { 87 ≤ length_of state.old }
    ensures table { table_in state.new ≡ write_table offset v (table_in state.old) }
    ensures beyond { drop 87 state.new ≡ drop 87 state.old }
    ensures ignored { ignores (delivery_in state.old) offset ≡ true → state.new ≡ state.old }
{
    if offset < 0x4000 {
        write_register(state, offset, v);
    } else {
        write_idc(state, offset, v);
    }
}
