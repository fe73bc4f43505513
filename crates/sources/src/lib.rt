// The 63 sources as words of bits, targets apart: bit i of each word is source i's, so that a call acts on all sources of a mask at once.
#![tactic(auto)]

ghost use Rattle.std.specs.Prelude.{◌≡◌, true, false, ◌<◌};
ghost use Rattle.word.specs.Word.{contains, only};
ghost use Rattle.source.specs.Source.{raised, lowered, allowed, sensed};
ghost use Rattle.sources.specs.Sources.{source_of, Acts, Inputs, lined, first_waiting};

use source::{Delivery, Mode, Source};

// A source's mode is three bits, those of its number: attached to the wire, level-sensitive, the lowest bit.
#[derive(Clone, Copy, Debug, PartialEq, Eq)]
pub struct Sources {
    pub wired: u64,
    pub level: u64,
    pub low: u64,
    pub wires: u64,
    pub pending: u64,
    pub enable: u64,
}

impl Sources {
    #[tactic(auto, unfolding(crate::specs::Sources::source_of, word::specs::Word::contains))]
    pub fn row(self, n: u64, target: u32) -> Source
        requires { n < 64 }
        ensures { result ≡ source_of self n target }
    {
        Source {
            mode: Mode::of_bits(
                memory::bit(self.wired, n),
                memory::bit(self.level, n),
                memory::bit(self.low, n),
            ),
            wire: memory::bit(self.wires, n),
            pending: memory::bit(self.pending, n),
            enable: memory::bit(self.enable, n),
            target,
        }
    }

    // With another row for source n; its target is kept elsewhere.
    #[tactic(auto, using(crate::proofs::Rows::rows))]
    pub fn with_row(mut self, n: u64, s: Source) -> Sources
        requires { n < 64 }
        ensures { Acts (only n) (lined s) self result }
    {
        self.wired = word::put(self.wired, n, s.mode.is_wired());
        self.level = word::put(self.level, n, s.mode.is_level());
        self.low = word::put(self.low, n, s.mode.is_low());
        self.wires = word::put(self.wires, n, s.wire);
        self.pending = word::put(self.pending, n, s.pending);
        self.enable = word::put(self.enable, n, s.enable);
        self
    }

    // The rectified inputs.
    #[tactic(auto, using(crate::proofs::Actions::masks))]
    pub fn inputs(self) -> u64
        ensures { Inputs self result }
    {
        self.wired & (self.wires ^ self.low)
    }

    // The wires of the mask take a level. Where the rectified input rises a source becomes pending; where it is low a level-sensitive one is so no more.
    // In direct delivery a level-sensitive source is pending where the rectified input is high.
    pub fn sense(mut self, d: Delivery, mask: u64, level: bool) -> Sources
        ensures { Acts (contains mask) (sensed d level) self result }
    {
        let direct = word::every(d.is_direct());
        let was = self.wired & (self.wires ^ self.low);
        let wires = word::set(self.wires, mask, level);
        let now = self.wired & (wires ^ self.low);
        let rise = word::without(now, was);
        let levels = mask & (self.wired & self.level);
        let fallen = word::without(levels, now);
        self.wires = wires;
        self.pending = levels & (now & direct) | word::without(rise | self.pending, fallen);
        self
    }

    // Sets pending bits: of active sources, but not of a level-sensitive one whose rectified input is low, nor of any such one in direct delivery.
    pub fn raise(mut self, d: Delivery, mask: u64) -> Sources
        ensures { Acts (contains mask) (raised d) self result }
    {
        let direct = word::every(d.is_direct());
        let high = word::without(self.wires ^ self.low, direct);
        let idle = word::without(self.wired & self.level, high);
        let open = word::without(self.wired | self.low, idle);
        self.pending = mask & open | self.pending;
        self
    }

    // Clears pending bits of active sources, but not of a level-sensitive one in direct delivery.
    pub fn lower(mut self, d: Delivery, mask: u64) -> Sources
        ensures { Acts (contains mask) (lowered d) self result }
    {
        let direct = word::every(d.is_direct());
        let held = self.wired & self.level & direct;
        let open = word::without(self.wired | self.low, held);
        self.pending = word::without(self.pending, mask & open);
        self
    }

    // Sets enable bits of active sources.
    #[tactic(auto, using(crate::proofs::Actions::masks))]
    pub fn allow(mut self, mask: u64) -> Sources
        ensures { Acts (contains mask) (allowed true) self result }
    {
        self.enable = mask & (self.wired | self.low) | self.enable;
        self
    }

    // Clears enable bits.
    #[tactic(auto, using(crate::proofs::Actions::masks))]
    pub fn forbid(mut self, mask: u64) -> Sources
        ensures { Acts (contains mask) (allowed false) self result }
    {
        self.enable = word::without(self.enable, mask);
        self
    }

    // The lowest source that is pending and enabled, or 64.
    #[tactic(auto, using(crate::proofs::Rows::rows))]
    pub fn first(self) -> u64
        ensures { result ≡ first_waiting self }
    {
        word::first_of(self.pending & self.enable)
    }
}
