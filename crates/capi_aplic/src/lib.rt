// The routines of an APLIC domain for C and Rust: numbers and lent slices alone. Every input is answered.
// The test of a state's length stands in each: a shell that takes the rest as a closure would need a contract for the closure, and is no plainer.
#![tactic(auto)]

ghost use Rattle.std.specs.Prelude.{◌≡◌, ◌≤◌, true, false, not, eqb, length as length_of, drop, set};
ghost use Rattle.register.specs.Register.{idc_of};
ghost use Rattle.word.specs.Word.{digit};
ghost use Rattle.hart.specs.Hart.{hart_refusal};
ghost use Rattle.aplic_calls.specs.Direct.{claimed, claim_value, claims, signalled};
ghost use Rattle.aplic_calls.specs.Calls.{wire_table, wire_refusal, write_table, ignores, read_table, after_read, forward_table, sent_of};
ghost use Rattle.aplic_words.specs.State.{delivery_in, table_in};
ghost use Rattle.capi_room.specs.Room.{status};
ghost use Rattle.capi_aplic.specs.Wired.{domain_status, room_status, under_status, with_sent};

use aplic_calls::Msi;

// A wire of a domain takes a level: 0 low, any other number high. Status 0, the refusal's number, or 1: `state` has fewer than 87 words; unless it is 0 nothing changed.
#[tactic(auto, using(crate::proofs::Wired::wired_ways, aplic_calls::proofs::Fields::wire_none, aplic_calls::proofs::Fields::wire_number))]
pub fn yasmurekh_aplic_wire(state: &mut [u64], source: u64, level: u64) -> u64
    ensures told { result ≡ domain_status state.old (wire_refusal source) }
    ensures table { table_in state.new ≡ under_status result (table_in state.old) (wire_table source (not (eqb level 0)) (table_in state.old)) }
    ensures beyond { drop 87 state.new ≡ drop 87 state.old }
    ensures refused { (result ≡ 0 → ⊥) → state.new ≡ state.old }
{
    if state.len() < 87 {
        return 1;
    }
    match aplic_calls::wire_refusal(source) {
        Ok(()) => {
            aplic_state::wire(state, source, level != 0);
            0
        }
        Err(refusal) => refusal.number(),
    }
}

// A register of a domain is written. Status 0, or 1 as for a wire.
#[tactic(auto, using(crate::proofs::Wired::wired_ways))]
pub fn yasmurekh_aplic_write(state: &mut [u64], offset: u64, value: u32) -> u64
    ensures told { result ≡ domain_status state.old 0 }
    ensures table { table_in state.new ≡ under_status result (table_in state.old) (write_table offset value (table_in state.old)) }
    ensures beyond { drop 87 state.new ≡ drop 87 state.old }
    ensures refused { (result ≡ 0 → ⊥) → state.new ≡ state.old }
    ensures ignored { ignores (delivery_in state.old) offset ≡ true → state.new ≡ state.old }
{
    if state.len() < 87 {
        return 1;
    }
    aplic_write::write(state, offset, value);
    0
}

// A register of a domain is read. Status 0: `out` holds the value; status 1: `state` or `out` is too short, and nothing changed.
#[tactic(auto, using(crate::proofs::Wired::wired_ways, capi_room::proofs::Rooms::room_ways))]
pub fn yasmurekh_aplic_read(state: &mut [u64], offset: u64, out: &mut [u64]) -> u64
    ensures told { result ≡ domain_status state.old (status 1 out.old) }
    ensures answer { out.new ≡ under_status result out.old (set out.old 0 (read_table offset (table_in state.old))) }
    ensures table { table_in state.new ≡ under_status result (table_in state.old) (after_read offset (table_in state.old)) }
    ensures beyond { drop 87 state.new ≡ drop 87 state.old }
    ensures refused { (result ≡ 0 → ⊥) → state.new ≡ state.old }
    ensures same { claims (delivery_in state.old) (idc_of offset) ≡ false → state.new ≡ state.old }
{
    if state.len() < 87 {
        return 1;
    }
    if out.len() < 1 {
        return 1;
    }
    let value = aplic_state::read(state, offset);
    out[0] = value as u64;
    0
}

// A hart claims its top interrupt. Status 0: `out` holds what a read of its claimi tells; status 1 as for a read, then 2014 for a hart number above 15: nothing changed.
#[tactic(auto, using(crate::proofs::Wired::wired_ways, aplic_calls::proofs::Claims::below_ok, hart::proofs::Refusals::hart_none, hart::proofs::Refusals::hart_number, crate::proofs::Wired::value_told))]
pub fn yasmurekh_aplic_claim(state: &mut [u64], hart: u64, out: &mut [u64]) -> u64
    ensures told { result ≡ domain_status state.old (room_status 1 out.old (hart_refusal hart)) }
    ensures answer { out.new ≡ under_status result out.old (set out.old 0 (claim_value hart (table_in state.old))) }
    ensures table { table_in state.new ≡ under_status result (table_in state.old) (claimed hart (table_in state.old)) }
    ensures beyond { drop 87 state.new ≡ drop 87 state.old }
    ensures refused { (result ≡ 0 → ⊥) → state.new ≡ state.old }
{
    if state.len() < 87 {
        return 1;
    }
    if out.len() < 1 {
        return 1;
    }
    match hart::refusal(hart) {
        Ok(()) => {
            let taken = aplic_hart::claim(state, hart);
            out[0] = taken as u64;
            0
        }
        Err(refusal) => refusal.number(),
    }
}

// Whether a hart is signalled. Status 0: `out` holds 1 where it is, else 0; the other statuses as for a claim.
#[tactic(auto, using(crate::proofs::Wired::wired_ways, aplic_calls::proofs::Claims::below_ok, hart::proofs::Refusals::hart_none, hart::proofs::Refusals::hart_number, crate::proofs::Wired::flag_told))]
pub fn yasmurekh_aplic_signal(state: &mut [u64], hart: u64, out: &mut [u64]) -> u64
    ensures told { result ≡ domain_status state.old (room_status 1 out.old (hart_refusal hart)) }
    ensures answer { out.new ≡ under_status result out.old (set out.old 0 (digit (signalled hart (table_in state.old)))) }
    ensures words { state.new ≡ state.old }
{
    if state.len() < 87 {
        return 1;
    }
    if out.len() < 1 {
        return 1;
    }
    match hart::refusal(hart) {
        Ok(()) => {
            out[0] = u64::from(aplic_hart::signal(state, hart));
            0
        }
        Err(refusal) => refusal.number(),
    }
}

fn put_sent(out: &mut [u64], s: Option<Msi>)
    requires { 4 ≤ length_of out.old }
    ensures { out.new ≡ with_sent out.old s }
{
    match s {
        None => {
            out[0] = 0;
            out[1] = 0;
            out[2] = 0;
            out[3] = 0;
        }
        Some(m) => {
            out[0] = 1;
            out[1] = m.hart as u64;
            out[2] = m.guest as u64;
            out[3] = m.identity as u64;
        }
    }
}

// A source of a domain is forwarded. Status 0: `out` holds 1 and the message's hart index, guest index and identity, or four zeros; status 1 as for a read.
#[tactic(auto, using(crate::proofs::Wired::wired_ways, capi_room::proofs::Rooms::room_ways, crate::proofs::Wired::sent_told, crate::proofs::Wired::idle_kept))]
pub fn yasmurekh_aplic_forward(state: &mut [u64], out: &mut [u64]) -> u64
    ensures told { result ≡ domain_status state.old (status 4 out.old) }
    ensures answer { out.new ≡ under_status result out.old (with_sent out.old (sent_of (table_in state.old))) }
    ensures table { table_in state.new ≡ under_status result (table_in state.old) (forward_table (table_in state.old)) }
    ensures beyond { drop 87 state.new ≡ drop 87 state.old }
    ensures refused { (result ≡ 0 → ⊥) → state.new ≡ state.old }
    ensures idle { sent_of (table_in state.old) ≡ None → state.new ≡ state.old }
{
    if state.len() < 87 {
        return 1;
    }
    if out.len() < 4 {
        return 1;
    }
    let s = aplic_state::forward(state);
    put_sent(out, s);
    0
}
