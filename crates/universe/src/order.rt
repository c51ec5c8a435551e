// The universe's shape, asked: how many levels, how long a side is, the axis of each level, the voxels of a block, the
// universe without an axis. An accepted universe is asked with no check. Where any other has nothing to tell the answer
// is 0, and no `None`: rule 1.8 says so, and C asks the same.
ghost use Rattle.std.specs.Prelude.{◌≡◌, true, cond, ◌-◌, ◌<◌, leb};
ghost use Rattle.universe.specs.Rounds.{axis_before};
ghost use Rattle.universe.specs.Universe.{bits_along, levels, frame_axis, frame_count};
ghost use Rattle.universe.specs.Questions.{levels_answer, bits_answer, side_answer, axes_left, voxels_left};
ghost use Rattle.universe.specs.Questions.{is_one_of, without_answer};
ghost use Rattle.universe.specs.Accepting.{side_or_none};

use crate::{Accepted, Universe};

impl Accepted {
    // How many levels of halving there are.
    #[tactic(auto, using(crate::proofs::Questions::asked), unfolding(lemmas::specs::Sums::sum))]
    pub fn levels(self) -> u64
        ensures { result ≡ levels self.universe }
    {
        let mut levels = 0;
        for axis in 0..self.universe.axes {
            levels += self.universe.axis_bits(axis);
        }
        levels
    }

    // The axis that counts frames, which is the last.
    #[tactic(auto, using(crate::proofs::Acceptance::accepting))]
    pub fn frame_axis(self) -> u64
        ensures { result ≡ frame_axis self.universe }
    {
        self.universe.axes - 1
    }

    // How many frames there are.
    #[tactic(auto, using(crate::proofs::Acceptance::accepting))]
    pub fn frames(self) -> u64
        ensures { result ≡ frame_count self.universe }
    {
        1 << self.universe.frame_bits
    }

    // How long it is along an axis, where it has such an axis.
    #[tactic(auto, using(crate::proofs::Questions::asked))]
    pub fn side(self, axis: u64) -> Option<u64>
        ensures { result ≡ side_or_none self.universe axis }
    {
        if self.universe.axes <= axis {
            return None;
        }
        Some(1 << self.universe.axis_bits(axis))
    }

    // The axes that the levels halve, the last level first: at place n that of a block with n + 1 levels left. Past the
    // levels stand zeros. Each round goes over the axes with bits left.
    #[tactic(auto, using(crate::proofs::Laying::laying))]
    pub fn axes_left(self) -> [usize; Universe::MOST_LEVELS as usize]
        ensures { result ≡ axes_left self.universe }
    {
        let universe = self.universe;
        let mut axes = [0usize; Universe::MOST_LEVELS as usize];
        let mut left = self.levels() as usize;
        for round in 0..universe.bits.max(universe.frame_bits) {
            for axis in 0..universe.axes {
                if round < universe.axis_bits(axis) {
                    left -= 1;
                    axes[left] = axis as usize;
                }
            }
        }
        axes
    }
}

impl Universe {
    // The bits of an axis, below the universe's axes: no other code says how many an axis has.
    #[tactic(auto, unfolding(crate::specs::Universe::bits_along))]
    pub(crate) fn axis_bits(self, axis: u64) -> u64
        requires { axis < self.axes }
        ensures { result ≡ bits_along self axis }
    {
        if axis == self.axes - 1 {
            self.frame_bits
        } else {
            self.bits
        }
    }

    // How many levels of halving there are; 0 where the universe is refused.
    pub fn levels(self) -> u64
        ensures { result ≡ levels_answer self }
    {
        match self.accepted() {
            Ok(accepted) => accepted.levels(),
            Err(_) => 0,
        }
    }

    // How many bits an axis has; 0 where the universe is refused or has no such axis.
    #[tactic(auto, using(crate::proofs::Questions::asked), unfolding(crate::specs::Questions::bits_answer))]
    pub fn bits_along(self, axis: u64) -> u64
        ensures { result ≡ bits_answer self axis }
    {
        if self.check().is_err() || self.axes <= axis {
            return 0;
        }
        self.axis_bits(axis)
    }

    // How long the universe is along an axis; 0 where it is refused or has no such axis.
    pub fn side(self, axis: u64) -> u64
        ensures { result ≡ side_answer self axis }
    {
        match self.accepted() {
            Ok(accepted) => accepted.side(axis).unwrap_or(0),
            Err(_) => 0,
        }
    }

    // The axes that the levels halve, the last level first, as an accepted universe has them; where it is refused,
    // zeros.
    pub fn axes_left(self) -> [usize; Universe::MOST_LEVELS as usize]
        ensures { result ≡ axes_left self }
    {
        match self.accepted() {
            Ok(accepted) => accepted.axes_left(),
            Err(_) => [0; Universe::MOST_LEVELS as usize],
        }
    }

    // How many voxels a block with so many levels left has; 0 past the most levels.
    #[tactic(auto, using(crate::proofs::Questions::asked), unfolding(crate::specs::Questions::voxels_left))]
    pub fn voxels_left(left: u64) -> u64
        ensures { result ≡ voxels_left left }
    {
        if left <= Universe::MOST_LEVELS {
            1u64 << left
        } else {
            0
        }
    }

    // Whether an axis, counted from 1, is one of two or more.
    fn is_one_of(self, axis: u64) -> bool
        ensures { result ≡ is_one_of self axis }
    {
        self.check().is_ok() && 2 <= self.axes && 1 <= axis && axis <= self.axes
    }

    // The bits of the axes but the last, once one of two or more is left out.
    fn other_bits(self) -> u64
        ensures { result ≡ cond (leb self.axes 2) 0 self.bits }
    {
        if self.axes <= 2 { 0 } else { self.bits }
    }

    // The last axis that is left once an axis, counted from 1, is left out of two or more.
    fn other_last(self, axis: u64) -> u64
        requires { is_one_of self axis ≡ true }
        ensures { result ≡ axis_before (axis - 1) (self.axes - 2) }
    {
        if axis == self.axes {
            self.axes - 2
        } else {
            self.axes - 1
        }
    }

    // The universe without one of its axes, counted from 1 to as many as there are: those that are left keep their
    // bits, and the last of them counts frames. Where this universe is refused, has one axis alone or has no such axis:
    // three zeros, which are refused.
    #[tactic(auto, unfolding(crate::specs::Questions::without_answer, crate::specs::Universe::without_axis))]
    pub fn without_axis(self, axis: u64) -> Universe
        ensures { result ≡ without_answer self axis }
    {
        if self.is_one_of(axis) {
            return Universe {
                axes: self.axes - 1,
                bits: self.other_bits(),
                frame_bits: self.axis_bits(self.other_last(axis)),
            };
        }
        Universe {
            axes: 0,
            bits: 0,
            frame_bits: 0,
        }
    }
}
