// A word as a set of the numbers 0 to 63: number i is in it where bit i is 1. Sources are 1 to 63, so bit 0 counts for nothing. That a number is below 64 stands in clauses: a type for one number is no plainer.
#![tactic(auto, using(crate::proofs::Bits::words))]

ghost use Rattle.std.specs.Prelude.{◌≡◌, true, ◌&&◌, ℕ, ◌<◌, ◌-◌, ◌*◌, ◌/◌};
ghost use Rattle.std.specs.Int.Bits.{bit_and};
ghost use Rattle.memory.specs.Bits.{without as without_of};
ghost use Rattle.word.specs.Word.{contains, put_of, set_of, half, is_source, chosen, only, lowest};

// The numbers of x that m doesn't have.
pub fn without(x: u64, m: u64) -> u64
    ensures { result ≡ without_of x m }
{
    x - (x & m)
}

pub fn put(x: u64, n: u64, on: bool) -> u64
    requires { n < 64 }
    ensures { result ≡ put_of x n on }
{
    set(x, 1 << n, on)
}

// All numbers of a mask, put in or taken out.
pub fn set(x: u64, mask: u64, on: bool) -> u64
    ensures { result ≡ set_of x mask on }
{
    if on {
        return x | mask;
    }
    without(x, mask)
}

// A half of the word, without number 0.
pub fn half_of(x: u64, high: bool) -> u32
    ensures { result ≡ half high (λ i. is_source i && contains x i) }
{
    if high {
        return (x >> 32) as u32;
    }
    (x / 2 % 0x8000_0000 * 2) as u32
}

// The numbers that a 32-bit value names in one half.
pub fn mask_of(v: u32, high: bool) -> u64
    ensures { (i : ℕ) → is_source i ≡ true → contains result i ≡ chosen high v i }
{
    if high {
        return (v as u64) << 32;
    }
    v as u64
}

// The number n alone; none where it is no source.
pub fn one(n: u64) -> u64
    ensures { (i : ℕ) → is_source i ≡ true → contains result i ≡ only n i }
{
    if n < 64 {
        return 1 << n;
    }
    0
}

// The lowest number of 1 to 63 that is in x, or 64.
pub fn first_of(x: u64) -> u64
    ensures { result ≡ lowest 63 1 (contains x) }
{
    u64::trailing_zeros(x / 2 * 2) as u64
}

// Without number 0.
pub fn above_zero(x: u64) -> u64
    ensures { result ≡ x / 2 * 2 }
{
    x / 2 * 2
}

// Without the lowest of its numbers.
pub fn drop_first(x: u64) -> u64
    requires { 0 < x }
    ensures { result ≡ bit_and x (x - 1) }
{
    x & (x - 1)
}

// Every number, or none.
pub fn every(on: bool) -> u64
    ensures { (i : ℕ) → is_source i ≡ true → contains result i ≡ on }
{
    if on {
        return 0xffff_ffff_ffff_ffff;
    }
    0
}
