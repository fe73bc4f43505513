// The page-table schemes: levels, index widths, address widths.
#![tactic(auto)]

ghost use Rattle.std.specs.Prelude.{◌≡◌, ◌+◌, ◌*◌, ◌<◌, ◌^◌};
ghost use Rattle.paging_scheme.specs.Scheme.{levels_of, root_bits_of, address_bits_of, signed_of, legal_of, page_bits_of, index_of};
ghost use Rattle.paging_scheme.specs.Code.{free_bits_of};

// The page-table schemes (01, "Fixed capabilities"; 02, Req 03).
#[derive(Clone, Copy, Debug, PartialEq, Eq)]
pub enum Scheme {
    Sv39,
    Sv48,
    Sv57,
    Sv39x4,
    Sv48x4,
    Sv57x4,
}

// The facts of a scheme, tables of the papers' with a row for each: all that a walk has to know of it.
impl Scheme {
    pub const PAGE_BITS: u64 = 12;

    pub const INDEX_BITS: u64 = 9;

    pub fn levels(self) -> u64
        ensures { (result ≡ levels_of self) × (result < 6) × (0 < result) }
    {
        match self {
            Scheme::Sv39 | Scheme::Sv39x4 => 3,
            Scheme::Sv48 | Scheme::Sv48x4 => 4,
            Scheme::Sv57 | Scheme::Sv57x4 => 5,
        }
    }

    pub fn root_bits(self) -> u64
        ensures { (result ≡ root_bits_of self) × (result < 12) }
    {
        match self {
            Scheme::Sv39 | Scheme::Sv48 | Scheme::Sv57 => 9,
            Scheme::Sv39x4 | Scheme::Sv48x4 | Scheme::Sv57x4 => 11,
        }
    }

    pub fn address_bits(self) -> u64
        ensures { (result ≡ address_bits_of self) × (1 < result) × (result < 60) }
    {
        match self {
            Scheme::Sv39 => 39,
            Scheme::Sv48 => 48,
            Scheme::Sv57 => 57,
            Scheme::Sv39x4 => 41,
            Scheme::Sv48x4 => 50,
            Scheme::Sv57x4 => 59,
        }
    }

    pub fn signed(self) -> bool
        ensures { result ≡ signed_of self }
    {
        matches!(self, Scheme::Sv39 | Scheme::Sv48 | Scheme::Sv57)
    }

    // From this bit on the bits of a legal address are alike: where the highest translated bit is a sign, it is one of them.
    fn free_bits(self) -> u64
        ensures { (result ≡ free_bits_of self) × (0 < result) × (result < 60) }
    {
        let width = self.address_bits();
        if self.signed() {
            return width - 1;
        }
        width
    }

    // Whether they are: all 0, as most are in every scheme, or, where there is a sign, all 1. Facts first: after the branch the compiler would split by scheme.
    #[tactic(auto, using(crate::proofs::CodeLaws::legal_ways))]
    pub fn legal(self, a: u64) -> bool
        ensures { result ≡ legal_of self a }
    {
        let low = self.free_bits();
        let signed = self.signed();
        let top = a >> low;
        if top == 0 {
            return true;
        }
        signed & (top == power(64 - low) - 1)
    }

    // The entry of a level-n table that an address uses.
    #[tactic(auto, using(crate::proofs::CodeLaws::index_ways))]
    pub fn index(self, a: u64, n: u64) -> u64
        requires { n < 5 }
        ensures { (result ≡ index_of self a n) × (result < 2048) }
    {
        let v = a >> page_shift(n);
        if n + 1 == self.levels() {
            return v % power(self.root_bits());
        }
        v % 512
    }

    // The same below the root, where all schemes are alike.
    #[tactic(auto, using(crate::proofs::CodeLaws::below_ways))]
    pub fn below(self, a: u64, n: u64, shift: u64) -> u64
        requires { (n < 5) × (n + 1 < levels_of self) × (shift ≡ page_bits_of n) }
        ensures { (result ≡ index_of self a n) × (result < 2048) }
    {
        (a >> shift) % 512
    }
}

// 2 to the power of k.
pub fn power(k: u64) -> u64
    requires { k < 64 }
    ensures { (result ≡ 2 ^ k) × (0 < result) }
{
    1 << k
}

// The lowest address bit that level n looks at.
pub fn page_shift(n: u64) -> u64
    requires { n < 5 }
    ensures { (result ≡ page_bits_of n) × (result < 64) }
{
    Scheme::PAGE_BITS + Scheme::INDEX_BITS * n
}

// The one that a root of so many levels looks at.
pub fn root_shift(levels: u64) -> u64
    requires { levels < 6 }
    ensures { (result ≡ 3 + 9 * levels) × (result < 64) }
{
    3 + Scheme::INDEX_BITS * levels
}
