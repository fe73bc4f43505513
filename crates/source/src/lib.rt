// One interrupt source of an APLIC domain: its mode, its wire, its pending and enable bits, its target.
#![tactic(auto)]

ghost use Rattle.std.specs.Prelude.{◌≡◌};
ghost use Rattle.source.specs.Source.{mode_from, wired_of, level_of, low_of, by_number, mode_of, number_of, rectified, active_of, configured_pending, configured, aimed};
ghost use Rattle.source.specs.Source.{direct_of, first_target, configured_target, target_of, aimed_target};

// How a domain delivers interrupts.
#[derive(Clone, Copy, Debug, PartialEq, Eq)]
pub enum Delivery {
    Direct,
    Message,
}

// A source's mode, by its number; 2 and 3 are reserved.
#[derive(Clone, Copy, Debug, PartialEq, Eq)]
pub enum Mode {
    Inactive = 0,
    Detached = 1,
    Edge1 = 4,
    Edge0 = 5,
    Level1 = 6,
    Level0 = 7,
}

#[derive(Clone, Copy, Debug, PartialEq, Eq)]
pub struct Source {
    pub mode: Mode,
    pub wire: bool,
    pub pending: bool,
    pub enable: bool,
    pub target: u32,
}

impl Delivery {
    pub fn is_direct(self) -> bool
        ensures { result ≡ direct_of self }
    {
        self == Delivery::Direct
    }
}

impl From<Mode> for u32 {
    ghost from_gives = { λ m n. n ≡ number_of m };

    fn from(m: Mode) -> u32 {
        m as u32
    }
}

// A reserved number is kept as 0.
impl From<u32> for Mode {
    ghost from_gives = { λ n m. m ≡ by_number n };

    fn from(n: u32) -> Mode {
        match n {
            1 => Mode::Detached,
            4 => Mode::Edge1,
            5 => Mode::Edge0,
            6 => Mode::Level1,
            7 => Mode::Level0,
            _ => Mode::Inactive,
        }
    }
}

impl Mode {
    // From the three bits of its number: attached to the wire, level-sensitive, the lowest bit.
    pub fn of_bits(wired: bool, level: bool, low: bool) -> Mode
        ensures { result ≡ mode_from wired level low }
    {
        match (wired, level, low) {
            (true, true, true) => Mode::Level0,
            (true, true, false) => Mode::Level1,
            (true, false, true) => Mode::Edge0,
            (true, false, false) => Mode::Edge1,
            (false, _, true) => Mode::Detached,
            (false, _, false) => Mode::Inactive,
        }
    }

    // The three bits of its number.
    pub fn is_wired(self) -> bool
        ensures { result ≡ wired_of self }
    {
        u32::from(self) / 4 % 2 == 1
    }

    pub fn is_level(self) -> bool
        ensures { result ≡ level_of self }
    {
        u32::from(self) / 2 % 2 == 1
    }

    pub fn is_low(self) -> bool
        ensures { result ≡ low_of self }
    {
        u32::from(self) % 2 == 1
    }

    // The mode that a write of sourcecfg leaves: a leaf domain has no child to delegate to.
    pub fn written(v: u32) -> Mode
        ensures { result ≡ mode_of v }
    {
        if v / 1024 % 2 == 1 {
            return Mode::Inactive;
        }
        Mode::from(v % 8)
    }

    pub fn is_active(self) -> bool
        ensures { result ≡ active_of self }
    {
        self != Mode::Inactive
    }

    pub fn rectify(self, wire: bool) -> bool
        ensures { result ≡ rectified self wire }
    {
        self.is_wired() & (wire ^ self.is_low())
    }
}

// The pending bit after a write of sourcecfg, with the rectified input under the new mode. By flags, not by a match: modes come in any order.
fn configure_pending(m: Mode, wire: bool, pending: bool) -> bool
    ensures { result ≡ configured_pending m (rectified m wire) pending }
{
    m.is_active() & (m.rectify(wire) | pending & !m.is_level())
}

// The target of a source that is made active, by a table of two rows.
fn first_target(d: Delivery) -> u32
    ensures { result ≡ first_target d }
{
    match d {
        Delivery::Direct => 1,
        Delivery::Message => 0,
    }
}

// An inactive source has target 0.
fn configure_target(d: Delivery, old: Mode, new: Mode, target: u32) -> u32
    ensures { result ≡ configured_target d old new target }
{
    if new.is_active() {
        if old.is_active() {
            return target;
        }
        return first_target(d);
    }
    0
}

// Direct: hart index and priority, a priority 0 kept as 1. Message: hart index, guest index and identity; bit 11 is reserved.
fn target_of(d: Delivery, v: u32) -> u32
    ensures { result ≡ target_of d v }
{
    match d {
        Delivery::Direct => {
            if v % 256 == 0 {
                return v / 0x4_0000 % 0x4000 * 0x4_0000 + 1;
            }
            v / 0x4_0000 % 0x4000 * 0x4_0000 + v % 256
        }
        Delivery::Message => v / 0x1000 % 0x10_0000 * 0x1000 + v % 2048,
    }
}

// The target of an inactive source is read-only.
fn aim_target(d: Delivery, m: Mode, v: u32, target: u32) -> u32
    ensures { result ≡ aimed_target d m v target }
{
    if m.is_active() {
        return target_of(d, v);
    }
    target
}

impl Source {
    // A write of sourcecfg.
    #[tactic(auto, unfolding(crate::specs::Source::configured))]
    pub fn configure(self, d: Delivery, v: u32) -> Source
        ensures { result ≡ configured d v self }
    {
        let m = Mode::written(v);
        Source {
            mode: m,
            pending: configure_pending(m, self.wire, self.pending),
            enable: m.is_active() & self.enable,
            target: configure_target(d, self.mode, m, self.target),
            ..self
        }
    }

    // A write of target.
    #[tactic(auto, unfolding(crate::specs::Source::aimed))]
    pub fn aim(self, d: Delivery, v: u32) -> Source
        ensures { result ≡ aimed d v self }
    {
        Source {
            target: aim_target(d, self.mode, v, self.target),
            ..self
        }
    }
}
