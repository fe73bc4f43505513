// Which guest addresses are messages, and the number of the file that one is for.
#![tactic(auto)]

ghost use Rattle.std.specs.Prelude.{◌≡◌, ◌^◌, ◌<◌};
ghost use Rattle.message_recognition.specs.Recognition.{recognised as recognised_of, extract as extract_of};
ghost use Rattle.message_recognition.specs.Table.{Messages};
ghost use Rattle.message_recognition.specs.Code.{Ready, round_of, Packs};

use std::marker::Model;

// A device's messages: their table's page, and how they are recognised. A root is a page of 44 bits, and a mask has the bits of a guest page number.
#[derive(Clone, Copy)]
pub struct MessageTable {
    pub page: u64,
    pub mask: u64,
    pub pattern: u64,
}

impl Model for MessageTable {
    ghost Value = { Messages };

    ghost view = { λ t. record { page = t.page; mask = t.mask; pattern = t.pattern } };

    ghost inverse = { λ t. record { page = t.page; mask = t.mask; pattern = t.pattern } };

    ghost invariant = { λ t. (t.page < 2 ^ 44) × (t.mask < 2 ^ 52) };
}

// Packing under way: the number so far, how many of its places are taken, and the ones of the mask that are left.
#[derive(Clone, Copy)]
struct Packing {
    number: u64,
    used: u32,
    rest: u64,
}

// A packed number and how many rounds made it; the count is for the promise alone, and the compiler drops it.
#[derive(Clone, Copy)]
struct Counted {
    number: u64,
    rounds: u32,
}

// Whether a guest address is one of a virtual interrupt file: its page number has the pattern in each bit that the mask leaves out.
#[tactic(auto, unfolding(crate::specs::Recognition::recognised))]
pub fn recognised(mask: u64, pattern: u64, a: u64) -> bool
    ensures { result ≡ recognised_of mask pattern a }
{
    let page = a / 4096;
    page - (page & mask) == pattern - (pattern & mask)
}

// One round of packing, without a loop: the lowest run of ones in the rest of the mask. A one added at its start is carried through it.
fn round(x: u64, p: Packing) -> Packing
    requires { Ready x p }
    ensures { result ≡ round_of x p }
{
    let start = u64::trailing_zeros(p.rest);
    let over = p.rest + (1u64 << start);
    let end = u64::trailing_zeros(over);
    let rest = p.rest & over;
    let run = p.rest - rest;
    Packing {
        number: p.number + ((x & run) >> (start - p.used)),
        used: p.used + (end - start),
        rest,
    }
}

// The bits of x that the mask picks, packed in their order, in at most as many rounds as the mask has ones. The loop ends where no one of the mask is left: there is no range to go over.
fn pack(x: u64, mask: u64) -> Counted
    ensures { Packs x mask result }
{
    let mut done = 0u32;
    let mut p = Packing {
        number: 0,
        used: 0,
        rest: memory::field(mask, 51, 0),
    };
    while p.rest != 0 {
        p = round(x, p);
        done += 1;
    }
    Counted {
        number: p.number,
        rounds: done,
    }
}

// The bits of x that the mask picks, packed in their order.
pub fn extract(x: u64, mask: u64) -> u64
    ensures { (result ≡ extract_of x mask) × (result < 2 ^ 52) }
{
    pack(x, mask).number
}
