// The words that a caller lends as a domain: what each stands for, read and put in place.
// Each function here and in the crates above asks for at least 87 words of a slice: `&mut [u64; 87]` would ask callers for exactly 87. A struct over the lent words that holds this fact is still to be tried.
#![tactic(auto)]

ghost use Rattle.std.specs.Prelude.{◌≡◌, ◌<◌, ◌≤◌, ◌+◌, length as length_of, set};
ghost use Rattle.hart.specs.Kept.{kept_of};
ghost use Rattle.aplic_words.specs.State.{enable_in, sources_in, delivery_in, target_in, record_in, with_sources};

use hart::Hart;
use source::Delivery;
use sources::Sources;

#[tactic(auto, unfolding(crate::specs::State::sources_in))]
pub fn sources_in(state: &[u64]) -> Sources
    requires { 87 ≤ length_of state.now }
    ensures { result ≡ sources_in state.now }
{
    Sources {
        wired: state[1],
        level: state[2],
        low: state[3],
        wires: state[4],
        pending: state[5],
        enable: state[6],
    }
}

#[tactic(auto, unfolding(crate::specs::State::with_sources))]
pub fn put_sources(state: &mut [u64], s: Sources)
    requires { 87 ≤ length_of state.old }
    ensures { state.new ≡ with_sources state.old s }
{
    state[1] = s.wired;
    state[2] = s.level;
    state[3] = s.low;
    state[4] = s.wires;
    state[5] = s.pending;
    state[6] = s.enable;
}

#[tactic(auto, unfolding(crate::specs::State::enable_in))]
pub fn is_enabled(state: &[u64]) -> bool
    requires { 87 ≤ length_of state.now }
    ensures { result ≡ enable_in state.now }
{
    state[0] % 2 == 1
}

#[tactic(auto, unfolding(crate::specs::State::target_in))]
pub fn target_in(state: &[u64], n: u64) -> u32
    requires { (87 ≤ length_of state.now) × (n < 64) }
    ensures { result ≡ target_in state.now n }
{
    (state[7 + n as usize] % 0x1_0000_0000) as u32
}

#[tactic(auto, unfolding(crate::specs::State::delivery_in))]
pub fn delivery_in(state: &[u64]) -> Delivery
    requires { 87 ≤ length_of state.now }
    ensures { result ≡ delivery_in state.now }
{
    if state[7] % 2 == 1 {
        return Delivery::Direct;
    }
    Delivery::Message
}

#[tactic(auto, unfolding(crate::specs::State::record_in))]
pub fn record_in(state: &[u64], h: u64) -> Hart
    requires { (87 ≤ length_of state.now) × (h < 16) }
    ensures { result ≡ record_in state.now h }
{
    Hart::from((state[71 + h as usize] % 0x1_0000_0000) as u32)
}

pub fn put_record(state: &mut [u64], h: u64, x: Hart)
    requires { (87 ≤ length_of state.old) × (h < 16) }
    ensures { state.new ≡ set state.old (71 + h) (kept_of x) }
{
    state[71 + h as usize] = u32::from(x) as u64;
}

pub fn put_target(state: &mut [u64], n: u64, target: u32)
    requires { (87 ≤ length_of state.old) × (n < 64) }
    ensures { state.new ≡ set state.old (7 + n) target }
{
    state[7 + n as usize] = target as u64;
}
