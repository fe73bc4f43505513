// Interrupt files in lent memory.
#![tactic(auto)]

ghost use Rattle.std.specs.Prelude.{true, ◌≡◌, ◌+◌, ◌*◌, ◌/◌, ◌%◌, ◌^◌, ◌≤◌, ◌<◌, length, get_or, set};
ghost use Rattle.std.specs.Int.Bits.{bit_and};
ghost use Rattle.std.specs.Int.Count.{ones as ones_of};
ghost use Rattle.memory.specs.Bits.{without};
ghost use Rattle.memory.specs.Code.{eight};
ghost use Rattle.memory.specs.Window.{doubleword};
ghost use Rattle.interrupt_file.specs.Bit.{with_bit};
ghost use Rattle.interrupt_file.specs.File.{is_file, taken_of, after_store, after_take_many};
ghost use Rattle.interrupt_file.specs.Report.{file_report, refused_report};

// 01: "32 pairs of doublewords, pending then enable".
#[derive(Clone, Copy, Debug, PartialEq, Eq)]
pub struct Pair {
    pub pending: u64,
    pub enable: u64,
}

// A report of one file.
#[derive(Debug, Drop, PartialEq, Eq)]
pub struct Report {
    // Its refusal's number, or 0: a number and no Option, since document 01 has a report give it beside the count and the pairs (`file_report` and `refused_report` of the specs).
    pub refusal: u64,
    pub count: u64,
    pub pairs: [Pair; 32],
}

// Whether an address is that of a file that lies in a window of whole pages: whole where its first byte does.
#[tactic(auto, using(crate::proofs::Files::file_ways))]
pub fn is_file(start: u64, len: u64, file: u64) -> bool
    requires { (start % 4096 ≡ 0) × (len % 4096 ≡ 0) × (start + len ≤ 2 ^ 64) }
    ensures { result ≡ is_file start len file }
{
    if file % 512 != 0 {
        return false;
    }
    memory::within(start, len, file, 1)
}

// Of a pair, the pending doubleword is the first, and the enable one 8 bytes behind it.
const PENDING: u64 = 0;

// The index of a file's pending doubleword; the pairs are 16 bytes apart.
#[tactic(auto, using(crate::proofs::Files::file_at_ways))]
fn pending_at(start: u64, len: u64, file: u64, d: u64) -> usize
    requires { (is_file start len file ≡ true) × (d < 32) }
    ensures { (start + result ≡ file + 16 * d) × (result + 8 ≤ len) }
{
    (file - start + 16 * d + PENDING) as usize
}

// Sets bit k of a doubleword, which is bit k mod 8 of its byte k div 8.
#[tactic(auto, using(crate::proofs::Bits::bit_ways))]
fn set_bit(part: &mut [u8], k: u64)
    requires { (length part.old ≡ 8) × (k < 64) }
    ensures { part.new ≡ set part.old (k / 8) (with_bit (k % 8) (get_or part.old (k / 8) 0)) }
{
    let i = (k / 8) as usize;
    let b = part[i];
    part[i] = b | 1u8 << (k % 8);
}

// Clears the bits of a mask in a doubleword, and gives those that were 1: one load and one store.
fn clear_bits(part: &mut [u8], mask: u64) -> u64
    requires { length part.old ≡ 8 }
    ensures value { result ≡ bit_and (doubleword part.old 0) mask }
    ensures part_after { part.new ≡ eight (without (doubleword part.old 0) mask) }
{
    let before = memory::doubleword_at(part, 0);
    memory::put_doubleword(part, word::without(before, mask));
    before & mask
}

// Makes an identity of a file pending: the bit setter is lent the eight bytes of its doubleword and no others.
#[tactic(auto, using(crate::proofs::Files::stored))]
pub fn store(start: u64, window: &mut [u8], file: u64, n: u64)
    requires { (is_file start (length window.old) file ≡ true) × (n < 2048) }
    ensures { window.new ≡ after_store start window.old file n }
{
    let at = pending_at(start, window.len() as u64, file, n / 64);
    set_bit(&mut window[at..at + 8], n % 64);
}

// Makes the identities of a doubleword that are in a mask pending no more, and gives those that were.
pub fn take_many(start: u64, window: &mut [u8], file: u64, d: u64, mask: u64) -> u64
    requires { (is_file start (length window.old) file ≡ true) × (d < 32) }
    ensures value { result ≡ taken_of start window.old file d mask }
    ensures window_after { window.new ≡ after_take_many start window.old file d mask }
{
    let at = pending_at(start, window.len() as u64, file, d);
    clear_bits(&mut window[at..at + 8], mask)
}

const NO_PAIR: Pair = Pair {
    pending: 0,
    enable: 0,
};

// How many bits of a doubleword are 1.
pub fn ones(x: u64) -> u64
    ensures { (result ≡ ones_of x) × (result ≤ 64) }
{
    u64::count_ones(x) as u64
}

// A report of a file's bytes.
pub fn file_report(file: &[u8]) -> Report
    requires { 512 ≤ length file.now }
    ensures { result ≡ file_report file.now }
{
    let mut pairs = [NO_PAIR; 32];
    let mut count: u64 = 0;
    for k in 0..32 {
        let pending = memory::doubleword_at(file, 16 * k);
        let enable = memory::doubleword_at(file, 16 * k + 8);
        pairs[k] = Pair { pending, enable };
        count += ones(pending);
    }
    Report {
        refusal: 0,
        count,
        pairs,
    }
}

// The report of a file that is refused: its number, and nothing else. A number and no `Refusal`: the report holds any number, and so any is taken, as before.
pub fn refused_report(number: u64) -> Report
    ensures { result ≡ refused_report number }
{
    Report {
        refusal: number,
        count: 0,
        pairs: [NO_PAIR; 32],
    }
}
