// The row of a window, one count for each frame: it is cleared, and each tree of a list adds its black voxels.
ghost use Rattle.std.specs.Prelude.{◌≡◌, ◌++◌, ◌+◌, ◌-◌, ◌^◌, ◌≤◌, length, drop};
ghost use Rattle.universe.specs.Universe.{most_levels, longest_side};
ghost use Rattle.bintree.specs.Windows.{frame_bits};
ghost use Rattle.report.specs.Reports.{frame_counts};
ghost use Rattle.report.specs.Filling.{
  length_of,
  places_before,
  Cleared,
  Adds,
  Roomy,
  AddsEach,
  Takes,
  black_of,
  Halved,
  Fillable,
  Filled,
  Listed,
};

use crate::window::Window;
use universe::Universe;

impl Window {
    // How many frames a window has.
    pub(crate) fn frames(self) -> usize
        ensures { result ≡ length_of self }
    {
        (self.last - self.first + 1) as usize
    }

    // How many places of the row are of frames before this one.
    fn places_before(self, frame: u64) -> usize
        ensures { result ≡ places_before self frame }
    {
        let places = frame.saturating_sub(self.first) as usize;
        places.min(self.frames())
    }
}

// Sets the first places of a row to 0. It stands by itself, so that what it leaves is one fact.
fn clear(counts: &mut [u64], frames: usize)
    requires { frames ≤ length counts.old }
    ensures { Cleared frames counts.old counts.new }
{
    counts[..frames].fill(0);
}

// Adds as much at each place from `from` on before `to`.
fn add_each(counts: &mut [u64], from: usize, to: usize, each: u64)
    requires from_le_to { from ≤ to }
    requires roomy { Roomy to each counts.old }
    ensures { AddsEach from to each counts.old counts.new }
{
    for count in &mut counts[from..to] {
        *count += each;
    }
}

// Adds a black block's voxels at its frames in the window: 2^bits frames from `frame` on, with 2^rest voxels in each.
fn add_block(window: Window, frame: u64, bits: u64, rest: u64, counts: &mut [u64])
    requires bits_bound { frame + 2 ^ bits ≤ longest_side }
    requires rest_le_most_levels { rest ≤ most_levels }
    requires takes { Takes window (2 ^ rest) counts.old }
    ensures { let more = black_of window frame bits rest in
        Adds (length_of window) more counts.old counts.new }
{
    let from = window.places_before(frame);
    let to = window.places_before(frame + (1 << bits));
    add_each(counts, from, to, 1 << rest);
}

// The bits of the frames of a block's halves: one less where the block is halved across the frame axis.
#[tactic(auto, using(crate::proofs::Rows::below_laws))]
fn bits_below(
    universe: Universe,
    axes: &[usize; Universe::MOST_LEVELS as usize],
    left: u64,
    bits: u64,
) -> u64
    requires { Halved universe axes.now left bits }
    ensures { result ≡ frame_bits universe (left - 1) }
{
    if axes[(left - 1) as usize] as u64 == universe.axes - 1 {
        bits - 1
    } else {
        bits
    }
}

// Where the frames of a high half begin: later than its block's by as many frames as it has fewer.
fn high_frame(frame: u64, bits: u64, below: u64) -> u64
    requires below_le_bits { below ≤ bits }
    requires bits_bound { frame + 2 ^ bits ≤ longest_side }
    ensures { result ≡ frame + (2 ^ bits - 2 ^ below) }
{
    frame + ((1 << bits) - (1 << below))
}

// Adds the black voxels of the tree that begins at `at` and stands for a block with so many levels left, with 2^bits
// frames from `frame` on; gives the place after the tree.
fn fill(
    window: Window,
    axes: &[usize; Universe::MOST_LEVELS as usize],
    expressions: &[u8],
    at: usize,
    left: u64,
    bits: u64,
    frame: u64,
    counts: &mut [u64],
) -> usize
    requires { Fillable window axes.now expressions.now counts.old at left bits frame }
    ensures { let s = expressions.now in
        Filled window s at left frame result counts.old counts.new }
{
    let symbol = expressions[at];
    if symbol == b'(' {
        let below = bits_below(window.universe, axes, left, bits);
        let later = high_frame(frame, bits, below);
        let middle = fill(
            window,
            axes,
            expressions,
            at + 1,
            left - 1,
            below,
            frame,
            counts,
        );
        return fill(
            window,
            axes,
            expressions,
            middle,
            left - 1,
            below,
            later,
            counts,
        );
    }
    if symbol == b'W' {
        return at + 1;
    }
    add_block(window, frame, bits, left - bits, counts);
    at + 1
}

// Sets the row of a window to the black voxels of a list, frame by frame.
pub(crate) fn fill_list(window: Window, expressions: &[u8], counts: &mut [u64])
    requires { Listed window expressions.now counts.old }
    ensures { let s = expressions.now in
        let counted = frame_counts window.universe s window.first window.last in
        counts.new ≡ counted ++ drop (length_of window) counts.old }
{
    let axes = window.universe.axes_left();
    let levels = window.universe.levels();
    let bits = window.universe.bits_along(window.universe.axes - 1);
    clear(counts, window.frames());
    let mut at = 0;
    // By no range: a turn goes on where the expression before ends.
    while at < expressions.len() {
        at = fill(window, &axes, expressions, at, levels, bits, 0, counts);
    }
}
