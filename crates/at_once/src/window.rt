// The word of a window of frames.
ghost use Rattle.std.specs.Prelude.{◌≡◌, ◌+◌, ◌*◌, ◌^◌, ◌<◌};
ghost use Rattle.universe.specs.Universe.{longest_side};
ghost use Rattle.masks.specs.Windows.{is_between, window_mask};
ghost use Rattle.at_once.specs.Words.{Halvings, Framed};

use crate::digits::{WORD_LEVELS, all_ones, side_by_side};
use universe::Universe;

// Whether a frame is one of the window's.
fn is_between(first: u64, last: u64, frame: u64) -> bool
    ensures { result ≡ is_between first last frame }
{
    first <= frame && frame <= last
}

// The word of those voxels of a block whose frames are the window's, where the block's frames begin at `frame`.
pub(crate) fn window_word(
    first: u64,
    last: u64,
    frame_axis: usize,
    table: &[usize; Universe::MOST_LEVELS as usize],
    lengths: &[u64; WORD_LEVELS],
    left: u64,
    frame: u64,
) -> u64
    requires halvings { Halvings frame_axis table.now lengths.now left }
    requires longest_side_bound { frame + left * longest_side < 2 ^ 64 }
    ensures { (halvings : Halvings frame_axis table.now lengths.now left)
        → result ≡ window_mask first last halvings.universe left frame }
{
    if left == 0 {
        return is_between(first, last, frame) as u64;
    }
    let n = left - 1;
    let low = window_word(first, last, frame_axis, table, lengths, n, frame);
    let j = n as usize;
    if table[j] != frame_axis {
        return side_by_side(low, low, n);
    }
    let high = window_word(
        first,
        last,
        frame_axis,
        table,
        lengths,
        n,
        frame + lengths[j],
    );
    side_by_side(low, high, n)
}

// The same of a block with so many frames: all its digits where all of them are the window's.
pub(crate) fn frames_word(
    first: u64,
    last: u64,
    frame_axis: usize,
    table: &[usize; Universe::MOST_LEVELS as usize],
    lengths: &[u64; WORD_LEVELS],
    left: u64,
    frame: u64,
    wide: u64,
) -> u64
    requires { Framed frame_axis table.now lengths.now left frame wide }
    ensures { (framed : Framed frame_axis table.now lengths.now left frame wide)
        → result ≡ window_mask first last framed.halvings.universe left frame }
{
    if first <= frame && frame + (wide - 1) <= last {
        return all_ones(left);
    }
    window_word(first, last, frame_axis, table, lengths, left, frame)
}
