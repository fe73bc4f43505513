// What calls are answered; a take and a report of an interrupt file, in whichever window holds it.
#![tactic(auto)]

ghost use Rattle.std.specs.Prelude.{◌≡◌, true, ◌<◌, length};
ghost use Rattle.memory.specs.Window.{Leaves};
ghost use Rattle.memory.specs.Code.{Walkable};
ghost use Rattle.iommu_refusals.specs.Refusals.{is_lent_file};
ghost use Rattle.iommu_files.specs.Answers.{numbers as numbers_by, numbers_of, Answered};
ghost use Rattle.iommu_files.specs.Files.{answered_at, many_taken_at, take_of, after_take_of, take_many_of, after_take_many_of, report_of};

use causes::FaultInfo;
use interrupt_file::Report;
use memory::{Starts, Windows};
use message::Destination;

// What a request or a take is answered. Document 01 names this form, an enum whose Fault case holds a fault with its stage.
#[derive(Clone, Copy)]
pub enum Answer {
    Translated(u64),
    Redirected(u64),
    Stored(Destination),
    Discarded,
    Fault(FaultInfo),
    Refused(u64),
    Taken(u64),
}

// 01's form of an answer: its number and three values.
#[derive(Clone, Copy, Debug, PartialEq, Eq)]
pub struct Numbers {
    pub kind: u64,
    pub first: u64,
    pub second: u64,
    pub third: u64,
}

// 01's number and values of an answer.
pub fn to_numbers(a: Answer) -> Numbers
    ensures { result ≡ numbers_of a }
{
    match a {
        Answer::Translated(p) => numbered(0, p),
        Answer::Redirected(p) => numbered(1, p),
        Answer::Stored(d) => Numbers {
            kind: 2,
            first: d.file,
            second: d.notice,
            third: d.number,
        },
        Answer::Discarded => numbered(3, 0),
        Answer::Fault(f) => numbered(4, f.cause),
        Answer::Refused(r) => numbered(5, r),
        Answer::Taken(w) => numbered(6, w),
    }
}

fn numbered(kind: u64, first: u64) -> Numbers
    ensures { result ≡ numbers_by kind first 0 0 }
{
    Numbers {
        kind,
        first,
        second: 0,
        third: 0,
    }
}

// Clears pending bits of a doubleword of a file, in whichever window holds it, and gives those that were 1.
fn take_lent(
    starts: Starts,
    first: &mut [u8],
    second: &mut [u8],
    file: u64,
    d: u64,
    mask: u64,
) -> u64
    requires { (is_lent_file starts (length first.old) (length second.old) file ≡ true) × (d < 32) × Walkable starts (length first.old) (length second.old) }
    ensures answer { result ≡ answered_at starts first.old second.old file d mask }
    ensures bytes { Leaves (many_taken_at starts first.old second.old file d mask) first.new second.new }
{
    if interrupt_file::is_file(starts.first, first.len() as u64, file) {
        return interrupt_file::take_many(starts.first, first, file, d, mask);
    }
    interrupt_file::take_many(starts.second, second, file, d, mask)
}

// Takes the pending interrupts of a doubleword of a file that are in a mask: bit k of doubleword d is identity 64 d + k. Inlined in each caller: with two of them the compiler would keep it as a function, and a take of one would be slower.
#[tactic(auto, using(crate::proofs::Files::many_ways))]
#[inline(always)]
pub fn take_many(
    starts: Starts,
    first: &mut [u8],
    second: &mut [u8],
    file: u64,
    d: u64,
    mask: u64,
) -> Answer
    ensures answer { Answered result (take_many_of starts first.old second.old file d mask) }
    ensures bytes { Leaves (after_take_many_of starts first.old second.old file d mask) first.new second.new }
{
    let n = first.len() as u64;
    let m = second.len() as u64;
    if let Err(why) = iommu_refusals::take_many_refusal(starts, n, m, file, d) {
        return Answer::Refused(why.number());
    }
    Answer::Taken(take_lent(starts, first, second, file, d, mask))
}

// Takes a pending interrupt of a file: one of many.
pub fn take(starts: Starts, first: &mut [u8], second: &mut [u8], file: u64, identity: u64) -> Answer
    ensures answer { Answered result (take_of starts first.old second.old file identity) }
    ensures bytes { Leaves (after_take_of starts first.old second.old file identity) first.new second.new }
{
    let k = identity % 64;
    let made = take_many(starts, first, second, file, identity / 64, 1 << k);
    let Answer::Taken(were) = made else {
        return made;
    };
    Answer::Taken(were >> k)
}

// Reports a file: its pairs of doublewords, and how many identities are pending.
#[tactic(auto, using(crate::proofs::Files::report_ways))]
pub fn report<'a>(starts: Starts, first: &'a [u8], second: &'a [u8], file: u64) -> Report
    ensures { result ≡ report_of starts first.now second.now file }
{
    let n = first.len() as u64;
    let m = second.len() as u64;
    if let Err(why) = iommu_refusals::report_refusal(starts, n, m, file) {
        return interrupt_file::refused_report(why.number());
    }
    let lent = Windows {
        starts,
        first,
        second,
    };
    interrupt_file::file_report(lent.entry(file, 512))
}
