// A hart's delivery record, and the keys by which its top interrupt is found.
#![tactic(auto)]

ghost use Rattle.std.specs.Prelude.{◌≡◌, ◌<◌, ltb};
ghost use Rattle.hart.specs.Hart.{wrote_of, unforced as unforced_of, top_word, in_domain};
ghost use Rattle.hart.specs.Kept.{record_of, kept_of, limit_of, better_of};

use refusal::Refusal;
use register::HartRegister;

#[derive(Clone, Copy, Debug, PartialEq, Eq)]
pub struct Hart {
    pub delivery: bool,
    pub force: bool,
    pub threshold: u32,
}

// A record as it is kept: bit 0 delivery, bit 1 force, bits 15:8 threshold.
#[tactic(auto, using(crate::proofs::Records::keeping))]
impl From<u32> for Hart {
    ghost from_gives = { λ w x. x ≡ record_of w };

    fn from(w: u32) -> Hart {
        Hart {
            delivery: w % 2 == 1,
            force: w / 2 % 2 == 1,
            threshold: w / 256 % 256,
        }
    }
}

#[tactic(auto, using(crate::proofs::Records::keeping))]
impl From<Hart> for u32 {
    ghost from_gives = { λ x w. w ≡ kept_of x };

    fn from(x: Hart) -> u32 {
        u32::from(x.delivery) + u32::from(x.force) * 2 + x.threshold % 256 * 256
    }
}

impl Hart {
    // After a write of one of its registers.
    #[tactic(auto, using(crate::proofs::Records::written))]
    pub fn wrote(self, k: HartRegister, v: u32) -> Hart
        ensures { result ≡ wrote_of k v self }
    {
        match k {
            HartRegister::IDelivery => Hart {
                delivery: v % 2 == 1,
                ..self
            },
            HartRegister::IForce => Hart {
                force: v % 2 == 1,
                ..self
            },
            HartRegister::IThreshold => Hart {
                threshold: v % 256,
                ..self
            },
            HartRegister::TopI => self,
        }
    }

    // After a claim of nothing.
    #[tactic(auto, unfolding(crate::specs::Hart::unforced))]
    pub fn unforced(self) -> Hart
        ensures { result ≡ unforced_of self }
    {
        Hart {
            force: false,
            ..self
        }
    }
}

// Whether a domain has a number: else its refusal.
pub fn in_domain(has: bool) -> Result<(), Refusal>
    ensures { result ≡ in_domain has tt }
{
    if has {
        Ok(())
    } else {
        Err(Refusal::NotInDomain)
    }
}

// Harts are 0 to 15.
pub fn refusal(hart: u64) -> Result<(), Refusal>
    ensures { result ≡ in_domain (ltb hart 16) tt }
{
    in_domain(hart < 16)
}

// A key that no source has and that is above those of the sources that pass the threshold, and of no other.
#[tactic(auto, using(memory::proofs::Choices::picks), unfolding(crate::specs::Kept::limit_of))]
pub fn limit(threshold: u32) -> u64
    ensures { result ≡ limit_of threshold }
{
    if threshold == 0 {
        return 0x4000;
    }
    threshold as u64 * 64
}

// The lower of the lowest key so far and that of source i, if it is for this hart.
#[tactic(auto, using(crate::proofs::Records::betters))]
pub fn better(hart: u64, i: u64, target: u32, best: u64) -> u64
    requires { i < 64 }
    ensures { result ≡ better_of hart i target best }
{
    let key = (target % 256) as u64 * 64 + i;
    if (target / 0x4_0000 % 0x4000) as u64 == hart {
        if key < best {
            return key;
        }
    }
    best
}

// topi, by the lowest key.
#[tactic(auto, using(memory::proofs::Choices::picks), unfolding(crate::specs::Hart::top_word))]
pub fn top_word(key: u64) -> u32
    ensures { result ≡ top_word key }
{
    let source = key % 64;
    if source == 0 {
        return 0;
    }
    (source * 0x1_0000 + key / 64 % 256) as u32
}
