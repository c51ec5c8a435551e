// The universe of space and time, and its blocks.
#![tactic(auto)]

mod accepted;
mod order;
mod refusal;
mod room;

ghost use Rattle.std.specs.Prelude.{◌≡◌, ◌&&◌, ◌≤◌, ◌<◌, ltb};
ghost use Rattle.universe.specs.Universe.{universe_refusal, most_axes, most_bits_of, levels, block_side, equal_bits};
ghost use Rattle.universe.specs.Told.{number_told};
ghost use Rattle.universe.specs.Voxel.{window_refusal};
ghost use Rattle.universe.specs.Block.{whole_block, axis_of, placed_along, is_given, low_half, high_half, both_halves};

pub use accepted::Accepted;
pub use refusal::{Refusal, Unwritten};

// Axes, the bits of each but the last, and those of the last, which counts frames: any numbers; `check` says whether
// they are a universe's.
#[derive(Clone, Copy, Debug, PartialEq, Eq)]
pub struct Universe {
    pub axes: u64,
    pub bits: u64,
    pub frame_bits: u64,
}

// A block: its universe, how many halvings gave it, and its least place along each axis.
#[derive(Clone, Copy, Debug, PartialEq, Eq)]
pub struct Block {
    pub universe: Universe,
    pub level: u64,
    pub low: [u64; Universe::MOST_AXES as usize],
}

// Both halves of one block.
#[derive(Clone, Copy, Debug, PartialEq, Eq)]
pub struct Halves {
    pub low: Block,
    pub high: Block,
}

impl Universe {
    // One to four axes (rule 1.1).
    pub const LEAST_AXES: u64 = 1;

    pub const MOST_AXES: u64 = 4;

    // None to ten bits, and none to twelve frame bits (rule 1.1).
    pub const MOST_BITS: u64 = 10;

    pub const MOST_FRAME_BITS: u64 = 12;

    // So no universe has more levels, and none a longer side.
    pub const MOST_LEVELS: u64 = (Universe::MOST_AXES - 1) * Universe::MOST_BITS
        + Universe::MOST_FRAME_BITS;

    pub const LONGEST_SIDE: u64 = 1 << Universe::MOST_FRAME_BITS;

    // The size of a0 at the most, and that of the other coefficients (rule 2.1).
    pub const OFFSET_LIMIT: i64 = 1_099_511_627_776;

    pub const COEFFICIENT_LIMIT: i64 = 16_777_216;

    // The size of a ball's centre numbers at the most, and its radius (rule 2.6).
    pub const CENTRE_LIMIT: i64 = 1_024;

    pub const RADIUS_LIMIT: i64 = 1_024;

    // The bits that so many axes may have.
    fn most_bits_of(axes: u64) -> u64
        ensures { result ≡ most_bits_of axes }
    {
        if axes == 1 { 0 } else { Universe::MOST_BITS }
    }

    // Refused where axes, bits or frame bits are outside their range. One axis has frame bits alone.
    #[tactic(auto, unfolding(crate::specs::Universe::universe_refusal))]
    pub fn check(self) -> Result<(), Refusal>
        ensures { number_told result ≡ universe_refusal self }
    {
        if self.axes < Universe::LEAST_AXES
            || Universe::MOST_AXES < self.axes
            || Universe::most_bits_of(self.axes) < self.bits
            || Universe::MOST_FRAME_BITS < self.frame_bits
        {
            return Err(Refusal::BadUniverse);
        }
        Ok(())
    }

    // The universe of so many axes with so many bits each: one axis has them as frame bits.
    #[tactic(auto, unfolding(crate::specs::Universe::equal_bits))]
    pub fn with_equal_bits(axes: u64, bits: u64) -> Universe
        ensures { result ≡ equal_bits axes bits }
    {
        let alone = axes == 1 && bits <= Universe::MOST_BITS;
        Universe {
            axes,
            bits: if alone { 0 } else { bits },
            frame_bits: bits,
        }
    }

    // Refused where a window of frames is outside the universe or first > last; both ends are in.
    pub fn check_window(self, first: u64, last: u64) -> Result<(), Refusal>
        ensures { number_told result ≡ window_refusal self first last }
    {
        let bits = self.frame_bits;
        if last < first {
            return Err(Refusal::Outside);
        }
        if 63 < bits {
            return Ok(());
        }
        if last < 1u64 << bits {
            return Ok(());
        }
        Err(Refusal::Outside)
    }

    // The length of a block of a level along an axis: twice as long for each halving of the axis that is still to come.
    // Like a block it has any universe and asks that it is accepted: a block's fields are public (what may not change),
    // and an `Accepted` beside the block would have to be shown to be its own.
    fn block_side(self, level: u64, axis: u64) -> u64
        requires self_value { universe_refusal self ≡ 0 }
        requires level_bound { level ≤ levels self }
        requires axis_lt_axes { axis < self.axes }
        ensures { result ≡ block_side self level axis }
    {
        let axes = self.axes_left();
        let left = (self.levels() - level) as usize;
        let halvings = axes[..left]
            .iter()
            .filter(|halved| **halved == axis as usize)
            .count();
        1u64 << halvings
    }

    // The block of a whole universe.
    pub fn whole(universe: Universe) -> Block
        ensures { result ≡ whole_block universe }
    {
        Block {
            universe,
            level: 0,
            low: [0u64; Universe::MOST_AXES as usize],
        }
    }
}

impl Block {
    // Whether along an axis a block begins at a multiple of its length inside the universe; at 0 above its axes.
    #[tactic(auto, using(crate::proofs::Universes::side_laws))]
    fn is_placed(self, axis: u64) -> bool
        requires universe_value { universe_refusal self.universe ≡ 0 }
        requires level_bound { self.level ≤ levels self.universe }
        requires axis_lt_most_axes { axis < most_axes }
        ensures { result ≡ placed_along self axis }
    {
        let low = self.low[axis as usize];
        if self.universe.axes <= axis {
            return low == 0;
        }
        low % self.universe.block_side(self.level, axis) == 0
            && low < self.universe.block_side(0, axis)
    }

    // Whether halving the first block gives this block.
    #[tactic(auto, using(crate::proofs::Blocks::given_laws))]
    fn is_given(self) -> bool
        ensures { result ≡ is_given self }
    {
        if self.universe.check().is_err() || self.universe.levels() < self.level {
            return false;
        }
        (0..Universe::MOST_AXES).all(|axis| self.is_placed(axis))
    }

    // Whether it has halves of its own.
    #[tactic(auto, using(crate::proofs::Blocks::level_test))]
    fn is_halved(self) -> bool
        ensures { result ≡ (is_given self && ltb self.level (levels self.universe)) }
    {
        self.is_given() && self.level < self.universe.levels()
    }

    // The low half: the same place, one level on. A block with no halves of its own yields itself.
    #[tactic(auto, using(crate::proofs::Blocks::half_laws))]
    pub fn low_half(self) -> Block
        ensures { result ≡ low_half self }
    {
        if !self.is_halved() {
            return self;
        }
        Block {
            level: self.level + 1,
            ..self
        }
    }

    // The axis across which a block that has halves of its own is halved.
    fn axis(self) -> usize
        requires universe_value { universe_refusal self.universe ≡ 0 }
        requires level_bound { self.level < levels self.universe }
        ensures { result ≡ axis_of self }
    {
        let axes = self.universe.axes_left();
        axes[(self.universe.levels() - 1 - self.level) as usize]
    }

    // The high half: half the block's length further along the axis, one level on. A block with no halves of its own
    // yields itself.
    #[tactic(auto, using(crate::proofs::Blocks::half_laws))]
    pub fn high_half(self) -> Block
        ensures { result ≡ high_half self }
    {
        if !self.is_halved() {
            return self;
        }
        let axis = self.axis();
        let mut low = self.low;
        low[axis] += self.universe.block_side(self.level + 1, axis as u64);
        Block {
            level: self.level + 1,
            low,
            ..self
        }
    }

    // Both halves of the one block.
    pub fn halves(self) -> Halves
        ensures { result ≡ both_halves self }
    {
        Halves {
            low: self.low_half(),
            high: self.high_half(),
        }
    }
}
