// A hart of a domain in lent words: its top interrupt, its registers, its claims, and whether it is signalled.
#![tactic(auto)]

ghost use Rattle.std.specs.Prelude.{◌≡◌, ◌<◌, ◌≤◌, length as length_of, drop, true, false};
ghost use Rattle.source.specs.Source.{direct_of};
ghost use Rattle.aplic_calls.specs.Direct.{top_at, topi, claim_table, claimed, claim_value, read_hart, claims, signalled as signalled_of};
ghost use Rattle.aplic_words.specs.State.{delivery_in, table_in};
ghost use Rattle.aplic_hart.specs.Takes.{Takes};
ghost use Rattle.std.specs.Iterator.{at_most};

use register::HartRegister;

// The numbers of a word from 1 on, the lowest first.
#[derive(Drop)]
struct Waiting {
    left: u64,
}

impl Iterator for Waiting {
    type Item = u64;

    ghost remaining = { λ s. at_most s.left };

    ghost next_gives = { λ old r new. Takes old.left r new.left };

    fn next(&mut self) -> Option<u64> {
        let i = word::first_of(self.left);
        if i < 64 {
            self.left = word::drop_first(self.left);
            return Some(i);
        }
        None
    }
}

// The top interrupt of a hart, whatever the delivery mode is: the lowest key of those that wait, one look at each.
fn top(state: &[u64], hart: u64, threshold: u32) -> u32
    requires { 87 ≤ length_of state.now }
    ensures { result ≡ top_at hart threshold (table_in state.now) }
{
    let mut best = hart::limit(threshold);
    let waiting = Waiting {
        left: word::above_zero(state[5] & state[6]),
    };
    for i in waiting {
        best = hart::better(hart, i, aplic_words::target_in(state, i), best);
    }
    hart::top_word(best)
}

#[tactic(auto, using(crate::proofs::Harts::hart_reads))]
pub fn hart_value(state: &[u64], h: u64, k: HartRegister) -> u32
    requires { (87 ≤ length_of state.now) × (h < 16) }
    ensures { result ≡ read_hart h k (table_in state.now) }
{
    let d = aplic_words::delivery_in(state);
    if !d.is_direct() {
        return 0;
    }
    let x = aplic_words::record_in(state, h);
    match k {
        HartRegister::IDelivery => u32::from(x.delivery),
        HartRegister::IForce => u32::from(x.force),
        HartRegister::IThreshold => x.threshold,
        HartRegister::TopI => top(state, h, x.threshold),
    }
}

// A hart's top interrupt under a threshold is taken.
#[tactic(auto, using(aplic_words::proofs::States::beyond, crate::proofs::Harts::takes))]
pub fn take_top(state: &mut [u64], h: u64, threshold: u32) -> u32
    requires { (87 ≤ length_of state.old) × (h < 16) }
    ensures value { result ≡ topi h threshold (table_in state.old) }
    ensures table { table_in state.new ≡ claim_table h threshold (table_in state.old) }
    ensures beyond { drop 87 state.new ≡ drop 87 state.old }
{
    let d = aplic_words::delivery_in(state);
    if d.is_direct() {
        let value = top(state, h, threshold);
        if value != 0 {
            let s = aplic_words::sources_in(state).lower(
                d,
                word::one((value / 0x1_0000 % 1024) as u64),
            );
            aplic_words::put_sources(state, s);
        }
        return value;
    }
    0
}

// A hart claims its top interrupt.
#[tactic(auto, using(crate::proofs::Harts::claim_values, crate::proofs::Harts::claim_tables))]
pub fn claim(state: &mut [u64], h: u64) -> u32
    requires { (87 ≤ length_of state.old) × (h < 16) }
    ensures value { result ≡ claim_value h (table_in state.old) }
    ensures table { table_in state.new ≡ claimed h (table_in state.old) }
    ensures beyond { drop 87 state.new ≡ drop 87 state.old }
    ensures ignored { direct_of (delivery_in state.old) ≡ false → state.new ≡ state.old }
{
    let d = aplic_words::delivery_in(state);
    if d.is_direct() {
        let x = aplic_words::record_in(state, h);
        let value = take_top(state, h, x.threshold);
        if value == 0 {
            aplic_words::put_record(state, h, x.unforced());
        }
        return value;
    }
    0
}

// Whether a hart is signalled.
#[tactic(auto, using(crate::proofs::Harts::signals))]
pub fn signal(state: &[u64], h: u64) -> bool
    requires { (87 ≤ length_of state.now) × (h < 16) }
    ensures { result ≡ signalled_of h (table_in state.now) }
{
    let d = aplic_words::delivery_in(state);
    let x = aplic_words::record_in(state, h);
    if d.is_direct() & (aplic_words::is_enabled(state) & x.delivery) {
        if x.force {
            return true;
        }
        return top(state, h, x.threshold) != 0;
    }
    false
}
