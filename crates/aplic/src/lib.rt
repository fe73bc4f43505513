// One supervisor leaf domain of an APLIC by value: sources 1 to 63, message delivery or direct delivery to harts 0 to 15. Each call is the one for lent words, on the domain's own.
#![tactic(auto, unfolding(crate::specs::Domain::table_of))]

ghost use Rattle.std.specs.Prelude.{◌≡◌, ◌<◌, ltb};
ghost use Rattle.word.specs.Word.{is_source};
ghost use Rattle.hart.specs.Hart.{in_domain};
ghost use Rattle.source.specs.Table.{start_of};
ghost use Rattle.aplic_calls.specs.Calls.{wire_table, write_table, read_table, after_read, forward_table, sent_of};
ghost use Rattle.aplic_calls.specs.Direct.{topi, claim_table, claim_hart, claimed, claim_value, signalled as signalled_of};
ghost use Rattle.aplic.specs.Domain.{table_of};

use aplic_calls::Msi;
use hart::Hart;
use refusal::Refusal;
use source::Delivery;

// The words that a caller of the C functions lends.
#[derive(Clone, Copy)]
pub struct Domain {
    pub words: [u64; 87],
}

// A domain after a call, and what the call told.
#[derive(Drop)]
pub struct Answered<T> {
    pub domain: Domain,
    pub answer: T,
}

// A domain after a claim by a hart whose record is apart, the record, and what claimi told.
#[derive(Drop)]
pub struct Claimed {
    pub domain: Domain,
    pub hart: Hart,
    pub answer: Result<u32, Refusal>,
}

impl Domain {
    // A domain at reset. Its delivery mode stays as it is.
    #[tactic(auto, using(crate::proofs::Domains::born))]
    pub fn new(delivery: Delivery) -> Domain
        ensures { table_of result ≡ start_of delivery }
    {
        let mut words: [u64; 87] = [0; 87];
        words[7] = u64::from(delivery.is_direct());
        Domain { words }
    }

    // A source's wire takes a level.
    pub fn wire(mut self, n: u64, level: bool) -> Answered<Result<(), Refusal>>
        ensures { (table_of result.domain ≡ wire_table n level (table_of self)) × (result.answer ≡ in_domain (is_source n) tt) }
    {
        let answer = aplic_calls::wire_refusal(n);
        match answer {
            Ok(()) => {
                aplic_state::wire(&mut self.words, n, level);
            }
            Err(_) => {}
        }
        Answered {
            domain: self,
            answer,
        }
    }

    // A register is written: any offset, any value.
    pub fn write(mut self, offset: u64, v: u32) -> Domain
        ensures { table_of result ≡ write_table offset v (table_of self) }
    {
        aplic_write::write(&mut self.words, offset, v);
        self
    }

    // A register is read: any offset.
    pub fn read(mut self, offset: u64) -> Answered<u32>
        ensures { (table_of result.domain ≡ after_read offset (table_of self)) × (result.answer ≡ read_table offset (table_of self)) }
    {
        let answer = aplic_state::read(&mut self.words, offset);
        Answered {
            domain: self,
            answer,
        }
    }

    // The lowest-numbered source that is pending and enabled is handed out, in message delivery, while the domain's enable is set.
    pub fn forward(mut self) -> Answered<Option<Msi>>
        ensures { (table_of result.domain ≡ forward_table (table_of self)) × (result.answer ≡ sent_of (table_of self)) }
    {
        let answer = aplic_state::forward(&mut self.words);
        Answered {
            domain: self,
            answer,
        }
    }

    // A hart claims its top interrupt, as by a read of its claimi.
    pub fn claim(mut self, hart: u64) -> Answered<Result<u32, Refusal>>
        ensures { (table_of result.domain ≡ claimed hart (table_of self)) × (result.answer ≡ in_domain (ltb hart 16) (claim_value hart (table_of self))) }
    {
        let answer = match hart::refusal(hart) {
            Ok(()) => Ok(aplic_hart::claim(&mut self.words, hart)),
            Err(refusal) => Err(refusal),
        };
        Answered {
            domain: self,
            answer,
        }
    }

    // The record x of a hart after its claim, which told a value.
    #[tactic(auto, using(crate::proofs::Domains::after))]
    fn record_after(self, hart: u64, x: Hart, value: u32) -> Hart
        requires { (hart < 16) × (value ≡ topi hart x.threshold (table_of self)) }
        ensures { result ≡ claim_hart hart x (table_of self) }
    {
        if aplic_words::delivery_in(&self.words).is_direct() {
            if value == 0 {
                return x.unforced();
            }
        }
        x
    }

    // A claim by a hart whose record is x.
    pub fn claim_with(mut self, hart: u64, x: Hart) -> Claimed
        ensures { (table_of result.domain ≡ claim_table hart x.threshold (table_of self)) × (result.hart ≡ claim_hart hart x (table_of self)) × (result.answer ≡ in_domain (ltb hart 16) (topi hart x.threshold (table_of self))) }
    {
        match hart::refusal(hart) {
            Ok(()) => {
                let before = self;
                let value = aplic_hart::take_top(&mut self.words, hart, x.threshold);
                Claimed {
                    domain: self,
                    hart: before.record_after(hart, x, value),
                    answer: Ok(value),
                }
            }
            Err(refusal) => Claimed {
                domain: self,
                hart: x,
                answer: Err(refusal),
            },
        }
    }

    // Whether a hart is signalled.
    pub fn signal(self, hart: u64) -> Answered<Result<bool, Refusal>>
        ensures { (table_of result.domain ≡ table_of self) × (result.answer ≡ in_domain (ltb hart 16) (signalled_of hart (table_of self))) }
    {
        let answer = match hart::refusal(hart) {
            Ok(()) => Ok(aplic_hart::signal(&self.words, hart)),
            Err(refusal) => Err(refusal),
        };
        Answered {
            domain: self,
            answer,
        }
    }
}
