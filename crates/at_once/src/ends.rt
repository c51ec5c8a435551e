// The first and the last frame of a word's black voxels, read off it halving by halving.
ghost use Rattle.std.specs.Prelude.{◌≡◌, cond, not, eqb};
ghost use Rattle.masks.specs.MaskEnds.{mask_end};
ghost use Rattle.at_once.specs.Words.{Halvings};

use crate::digits::{WORD_LEVELS, lower, upper};
use universe::Universe;

// Whether the end is in the later half: the last in one that has a digit, the first where the earlier has none.
fn is_later(last: bool, low: u64, high: u64) -> bool
    ensures { result ≡ cond last (not (eqb high 0)) (eqb low 0) }
{
    if last {
        return high != 0;
    }
    low == 0
}

// By how much the first or the last frame of a word that is not 0 is later than its block's first frame. The halves of
// an axis that counts no frames have the same frames, and are laid over each other.
pub(crate) fn word_end(
    last: bool,
    frame_axis: usize,
    table: &[usize; Universe::MOST_LEVELS as usize],
    lengths: &[u64; WORD_LEVELS],
    left: u64,
    word: u64,
) -> u64
    requires { Halvings frame_axis table.now lengths.now left }
    ensures { (halvings : Halvings frame_axis table.now lengths.now left)
        → result ≡ mask_end last halvings.universe left word }
{
    if left == 0 {
        return 0;
    }
    let n = left - 1;
    let low = lower(word, n);
    let high = upper(word, n);
    let j = n as usize;
    if table[j] != frame_axis {
        return word_end(last, frame_axis, table, lengths, n, low | high);
    }
    if is_later(last, low, high) {
        let end = word_end(last, frame_axis, table, lengths, n, high);
        return lengths[j] + end;
    }
    word_end(last, frame_axis, table, lengths, n, low)
}
