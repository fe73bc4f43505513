// The two lent windows as memory. What one number keeps to (a size above 0, a bit below 64) stands in clauses, here and in the crates above: a type for a number is no plainer.
#![tactic(auto)]

ghost use Rattle.std.specs.Prelude.{◌≡◌, ◌+◌, ◌-◌, ◌%◌, ◌^◌, ◌<◌, ◌≤◌, length};
ghost use Rattle.memory.specs.Bits.{bit as bit_of, bits, any_set};
ghost use Rattle.memory.specs.Window.{Lent, inside, doubleword, lent, part_of, memory};
ghost use Rattle.memory.specs.Code.{Walkable, Sound, eight, part_at, load_of, load_at, turned_starts};

use std::marker::Model;

// Where the two windows start.
#[derive(Clone, Copy, Debug, PartialEq, Eq)]
pub struct Starts {
    pub first: u64,
    pub second: u64,
}

// Both windows, as the checks before a walk leave them. Clauses see what is lent.
#[derive(Drop)]
pub struct Windows<'a> {
    pub starts: Starts,
    pub first: &'a [u8],
    pub second: &'a [u8],
}

impl<'a> Model for Windows<'a> {
    ghost Value = { Lent };

    ghost view = { λ w. lent w.starts w.first.now w.second.now };

    ghost invariant = { λ w. Walkable w.starts (length w.first.now) (length w.second.now) };
}

// The doubleword at an index of the lent bytes: this form becomes one machine load.
pub fn doubleword_at(bytes: &[u8], i: usize) -> u64
    requires { i + 8 ≤ length bytes.now }
    ensures { result ≡ doubleword bytes.now i }
{
    u64::from_le_bytes([
        bytes[i],
        bytes[i + 1],
        bytes[i + 2],
        bytes[i + 3],
        bytes[i + 4],
        bytes[i + 5],
        bytes[i + 6],
        bytes[i + 7],
    ])
}

// Puts a doubleword into eight bytes, the lowest first: this form becomes one machine store.
#[tactic(auto, unfolding(crate::specs::Code::eight))]
pub fn put_doubleword(bytes: &mut [u8], v: u64)
    requires { length bytes.old ≡ 8 }
    ensures { bytes.new ≡ eight v }
{
    bytes.copy_from_slice(&v.to_le_bytes());
}

// The starts in the other order.
pub fn turned(starts: Starts) -> Starts
    ensures { result ≡ turned_starts starts }
{
    Starts {
        first: starts.second,
        second: starts.first,
    }
}

// How far an address lies behind a start; one below the start lies farther than any window is long.
pub fn offset(start: u64, a: u64) -> u64
    ensures { (result + start) % 2 ^ 64 ≡ a }
{
    std::num::wrapping_sub_u64(a, start)
}

// The address at an offset.
pub fn address(start: u64, d: u64) -> u64
    ensures { result ≡ (d + start) % 2 ^ 64 }
{
    std::num::wrapping_add_u64(d, start)
}

// How many offsets of a window have a whole entry behind them.
fn room(len: u64, size: u64) -> u64
    requires { 0 < size }
    ensures { result ≡ len + 1 - size }
{
    if len < size {
        return 0;
    }
    len - size + 1
}

// All of `size` bytes from an address lie in a window: one compare.
pub fn within(start: u64, len: u64, a: u64, size: u64) -> bool
    requires { (0 < size) × (start + len ≤ 2 ^ 64) }
    ensures { result ≡ inside start len a size }
{
    offset(start, a) < room(len, size)
}

// The bytes of an entry at an offset, as a part of the window; none where it isn't whole in it. One compare.
fn part<'a>(window: &'a [u8], d: u64, size: u64) -> &'a [u8]
    requires { 0 < size }
    ensures { result.now ≡ part_at window.now d size }
{
    if d < room(window.len() as u64, size) {
        let i = d as usize;
        return &window[i..i + size as usize];
    }
    &window[0..0]
}

// The doubleword in the bytes of an entry; none, an access violation, where there are no bytes.
fn loaded(bytes: &[u8]) -> Option<u64>
    ensures { result ≡ load_of bytes.now }
{
    if bytes.len() < 8 {
        return None;
    }
    Some(doubleword_at(bytes, 0))
}

// The doubleword at an offset of one window, for a walk that stands in it.
pub fn load_at(window: &[u8], d: u64) -> Option<u64>
    ensures { result ≡ load_at window.now d }
{
    loaded(part(window, d, 8))
}

impl<'a> Windows<'a> {
    // The bytes of an entry, as a part of whichever window holds it; none where neither does. The second window is looked at only where the first doesn't hold it.
    pub fn entry(&self, a: u64, size: u64) -> &'a [u8]
        requires { 0 < size }
        ensures bytes { result.now ≡ part_of self.now a size }
        ensures windows { Sound self.now }
    {
        let bytes = part(self.first, offset(self.starts.first, a), size);
        if (bytes.len() as u64) < size {
            return part(self.second, offset(self.starts.second, a), size);
        }
        bytes
    }

    // The doubleword at an address.
    #[tactic(auto, using(crate::proofs::Loads::load_part))]
    pub fn load64(&self, a: u64) -> Option<u64>
        ensures { result ≡ memory self.now a }
    {
        loaded(self.entry(a, 8))
    }
}

// Bit k of a doubleword is 1.
pub fn bit(e: u64, k: u64) -> bool
    requires { k < 64 }
    ensures { result ≡ bit_of e k }
{
    (e >> k) % 2 == 1
}

// Bits high to low of e, as a number.
pub fn field(e: u64, high: u64, low: u64) -> u64
    requires { (low ≤ high) × (high < low + 63) × (low < 64) }
    ensures { result ≡ bits e high low }
{
    (e >> low) % (1 << (high + 1 - low))
}

// Some bit from high to low is 1.
pub fn any_set(e: u64, high: u64, low: u64) -> bool
    requires { (low ≤ high) × (high < low + 63) × (low < 64) }
    ensures { result ≡ any_set e high low }
{
    field(e, high, low) != 0
}

// The same for all bits of e: a field has at most 63.
pub fn nonzero(e: u64) -> bool
    ensures { result ≡ any_set e 63 0 }
{
    e != 0
}
