// The fault queue for C and Rust: where it stands in three lent words, a read-out, and the clearing of the overflow flag.
// Statuses, refusals and flags are numbers in lent words here, since C has no other form for them.
#![tactic(auto)]

ghost use Rattle.std.specs.Prelude.{◌≡◌, ◌≤◌, length as length_of};
ghost use Rattle.capi_room.specs.Room.{status, fitting, fitting_both};
ghost use Rattle.fault_queue.specs.Queue.{queue_of, read_out_of, after_read_out, cleared};
ghost use Rattle.capi_queue.specs.Words.{state_in, flag_word, with_state, with_six, with_read_out};

use fault_queue::{FaultRecord, QueueState};
use refusal::Refusal;

// Head, tail and flag, as the words have them.
pub fn state_in(state: &[u64]) -> QueueState
    requires { 3 ≤ length_of state.now }
    ensures { result ≡ state_in state.now }
{
    QueueState {
        head: state[0],
        tail: state[1],
        overflow: state[2] != 0,
    }
}

// The flag's word after a call, from the word before it.
fn flag_word(before: u64, overflow: bool) -> u64
    ensures { result ≡ flag_word before overflow }
{
    if overflow {
        if before == 0 {
            return 1;
        }
        return before;
    }
    0
}

// Puts where the queue stands into the words.
pub fn put_state(state: &mut [u64], q: QueueState)
    requires { 3 ≤ length_of state.old }
    ensures { state.new ≡ with_state state.old q }
{
    let flag = flag_word(state[2], q.overflow);
    state[0] = q.head;
    state[1] = q.tail;
    state[2] = flag;
}

fn put_six(out: &mut [u64], refusal: u64, handed: u64, r: FaultRecord)
    requires { 6 ≤ length_of out.old }
    ensures { out.new ≡ with_six out.old refusal handed r.transaction r.custom r.iotval r.iotval2 }
{
    out[0] = refusal;
    out[1] = handed;
    out[2] = r.transaction;
    out[3] = r.custom;
    out[4] = r.iotval;
    out[5] = r.iotval2;
}

fn put_read_out(out: &mut [u64], read: Result<Option<FaultRecord>, Refusal>)
    requires { 6 ≤ length_of out.old }
    ensures { out.new ≡ with_read_out out.old read }
{
    match read {
        Ok(Some(r)) => put_six(out, 0, 1, r),
        Ok(None) => put_six(out, 0, 0, FaultRecord::default()),
        Err(refusal) => put_six(out, refusal.number(), 0, FaultRecord::default()),
    }
}

// A read-out. Status 0: `out` holds the refusal or 0, whether a record is handed over, and its four doublewords; status 1: `out` has fewer than six words or `state` fewer than three, and nothing changed.
#[tactic(auto, using(crate::proofs::Words::read_ways))]
pub fn yasmurekh_read_out(queue: &[u8], state: &mut [u64], out: &mut [u64]) -> u64
    ensures told { result ≡ fitting_both 6 out.old 3 state.old 1 0 }
    ensures answer { out.new ≡ fitting_both 6 out.old 3 state.old out.old (with_read_out out.old (read_out_of (queue_of queue.now (state_in state.old)))) }
    ensures state { state.new ≡ fitting_both 6 out.old 3 state.old state.old (with_state state.old (after_read_out (queue_of queue.now (state_in state.old))).state) }
{
    if out.len() < 6 {
        return 1;
    }
    if state.len() < 3 {
        return 1;
    }
    let mut q = state_in(state);
    put_read_out(out, q.read_out(queue));
    put_state(state, q);
    0
}

// The overflow flag is cleared. Status 0, or 1: `state` has fewer than three words, and nothing changed.
#[tactic(auto, using(crate::proofs::Words::clear_ways))]
pub fn yasmurekh_clear_overflow(state: &mut [u64]) -> u64
    ensures told { result ≡ status 3 state.old }
    ensures state { state.new ≡ fitting 3 state.old state.old (with_state state.old (cleared (state_in state.old))) }
{
    if state.len() < 3 {
        return 1;
    }
    let mut q = state_in(state);
    q.clear_overflow();
    put_state(state, q);
    0
}
