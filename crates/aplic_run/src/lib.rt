// A run: calls of a domain given as words, each one's answer written into a lent buffer.
#![tactic(auto)]

ghost use Rattle.std.specs.Prelude.{◌≡◌, ◌+◌, ◌≤◌, length as length_of};
ghost use Rattle.aplic.specs.Domain.{table_of};
ghost use Rattle.aplic_calls.specs.Run.{after, answer, value, sent};
ghost use Rattle.aplic_run.specs.Words.{call_of, short, pair, wired_reply, claimed_reply, signalled_reply, reply_of, runnable, answered, with_reply};

use aplic::{Answered, Domain};
use aplic_calls::{Call, Msi};
use refusal::Refusal;
use source::Delivery;

// The words of an answer, four as in `iommu_files::Numbers`: a type of its own, since neither crate stands on the other.
#[derive(Clone, Copy, Debug, PartialEq, Eq)]
pub struct Reply {
    pub kind: u64,
    pub first: u64,
    pub second: u64,
    pub third: u64,
}

impl Reply {
    // An answer of at most one value.
    fn short(kind: u64, first: u64) -> Reply
        ensures { result ≡ short kind first }
    {
        Reply {
            kind,
            first,
            second: 0,
            third: 0,
        }
    }

    // An answer of a refusal, or 0, and a value.
    fn pair(kind: u64, first: u64, second: u64) -> Reply
        ensures { result ≡ pair kind first second }
    {
        Reply {
            kind,
            first,
            second,
            third: 0,
        }
    }
}

// The answer of a wire.
impl From<Result<(), Refusal>> for Reply {
    ghost from_gives = { λ a r. r ≡ wired_reply a };

    fn from(answer: Result<(), Refusal>) -> Reply {
        match answer {
            Ok(()) => Reply::short(0, 0),
            Err(refusal) => Reply::short(0, refusal.number()),
        }
    }
}

// The answer of a read.
impl From<u32> for Reply {
    ghost from_gives = { λ v r. r ≡ reply_of (value v) };

    fn from(value: u32) -> Reply {
        Reply::short(2, value as u64)
    }
}

// The answer of a forward.
impl From<Option<Msi>> for Reply {
    ghost from_gives = { λ s r. r ≡ reply_of (sent s) };

    fn from(sent: Option<Msi>) -> Reply {
        match sent {
            None => Reply::short(3, 0),
            Some(m) => Reply {
                kind: 4,
                first: m.hart as u64,
                second: m.guest as u64,
                third: m.identity as u64,
            },
        }
    }
}

// The answer of a claim.
impl From<Result<u32, Refusal>> for Reply {
    ghost from_gives = { λ a r. r ≡ claimed_reply a };

    fn from(answer: Result<u32, Refusal>) -> Reply {
        match answer {
            Ok(value) => Reply::pair(5, 0, value as u64),
            Err(refusal) => Reply::pair(5, refusal.number(), 0),
        }
    }
}

// The answer of a signal.
impl From<Result<bool, Refusal>> for Reply {
    ghost from_gives = { λ a r. r ≡ signalled_reply a };

    fn from(answer: Result<bool, Refusal>) -> Reply {
        match answer {
            Ok(asserted) => Reply::pair(6, 0, u64::from(asserted)),
            Err(refusal) => Reply::pair(6, refusal.number(), 0),
        }
    }
}

// The call that three words name.
#[tactic(auto, using(memory::proofs::Choices::picks), unfolding(crate::specs::Words::call_of, crate::specs::Words::late_call))]
fn call(kind: u64, a: u64, b: u64) -> Call
    ensures { result ≡ call_of kind a b }
{
    match kind {
        0 => Call::Wire(a, b != 0),
        1 => Call::Write(a, (b % 0x1_0000_0000) as u32),
        2 => Call::Read(a),
        4 => Call::Claim(a),
        5 => Call::Signal(a),
        _ => Call::Forward,
    }
}

// What a call told, as another type tells it.
fn told<T, U: From<T>>(x: Answered<T>) -> Answered<U>
    ensures { (result.domain ≡ x.domain) × U.from_gives x.answer result.answer }
{
    Answered {
        domain: x.domain,
        answer: U::from(x.answer),
    }
}

// One call.
fn step(d: Domain, c: Call) -> Answered<Reply>
    ensures { (table_of result.domain ≡ after (table_of d) c) × (result.answer ≡ reply_of (answer (table_of d) c)) }
{
    match c {
        Call::Wire(n, level) => told(d.wire(n, level)),
        Call::Write(offset, v) => Answered {
            domain: d.write(offset, v),
            answer: Reply::short(1, 0),
        },
        Call::Read(offset) => told(d.read(offset)),
        Call::Forward => told(d.forward()),
        Call::Claim(hart) => told(d.claim(hart)),
        Call::Signal(hart) => told(d.signal(hart)),
    }
}

// Puts an answer into four words of a buffer.
fn put(out: &mut [u64], at: usize, r: Reply)
    requires { at + 4 ≤ length_of out.old }
    ensures { out.new ≡ with_reply out.old at r }
{
    out[at] = r.kind;
    out[at + 1] = r.first;
    out[at + 2] = r.second;
    out[at + 3] = r.third;
}

// Runs calls from a domain at reset: three words a call (kind, a, b), four words an answer. Gives how many were run: the whole ones whose answers have room.
// By a call's number, since after writes through `chunks_exact_mut` only the buffer's length is known, and not its words.
pub fn replay(delivery: Delivery, calls: &[u64], out: &mut [u64]) -> u64
    ensures count { result ≡ runnable calls.now out.old }
    ensures words { out.new ≡ answered delivery calls.now out.old (runnable calls.now out.old) }
{
    let end = (calls.len() / 3).min(out.len() / 4);
    let mut d = Domain::new(delivery);
    for n in 0..end {
        let c = call(calls[3 * n], calls[3 * n + 1], calls[3 * n + 2]);
        let next = step(d, c);
        put(out, 4 * n, next.answer);
        d = next.domain;
    }
    end as u64
}
