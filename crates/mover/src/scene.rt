// The rows and the words with which a stretch is judged: the static rows, the Box's behind them, and the Box's tree.
ghost use Rattle.std.specs.Prelude.{◌≡◌, ◌++◌, ◌+◌, ◌*◌, ◌≤◌, length, drop};
ghost use Rattle.csg.specs.Halfspace.{row_length};
ghost use Rattle.mover.specs.Keys.{mover_lent};
ghost use Rattle.mover.specs.Stretches.{stretch_rows};
ghost use Rattle.mover.specs.Frames.{box_words};
ghost use Rattle.mover.specs.Answers.{box_rows, most_static};
ghost use Rattle.mover.specs.Ready.{HasBox};

use crate::step::Mover;
use csg::{FIRST_HALFSPACE, INTERSECTION, MOST_ROWS, ROW_LENGTH};

// How many rows the Box takes, and how many may stand before them (rule 15.8).
pub const BOX_ROWS: usize = 6;

pub const MOST_STATIC: usize = MOST_ROWS - BOX_ROWS;

// The numbers of all rows of a stretch.
pub(crate) const MOST_NUMBERS: usize = MOST_ROWS * ROW_LENGTH;

// Copies numbers to the front of `all`, one by one: `copy_from_slice` would have the archive for C need `memmove` of
// its host.
fn lay_front(numbers: &[i64], all: &mut [i64])
    requires { length numbers.now ≤ length all.old }
    ensures { all.new ≡ numbers.now ++ drop (length numbers.now) all.old }
{
    for i in 0..numbers.len() {
        all[i] = numbers[i];
    }
}

// Copies the static rows, and behind them the Box's over stretch i, to the front of `all`: so many numbers.
pub(crate) fn lay_rows(mover: Mover<'_>, i: usize, rows: &[i64], all: &mut [i64]) -> usize
    requires has_box { HasBox (mover_lent mover) i }
    requires row_length_in_bounds { length rows.now + box_rows * row_length ≤ length all.old }
    ensures result_value { result ≡ length (rows.now ++ stretch_rows (mover_lent mover.entry) i) }
    ensures all_after { let numbers = rows.now ++ stretch_rows (mover_lent mover.entry) i in
        all.new ≡ numbers ++ drop (length numbers) all.old }
{
    let mut end = rows.len();
    lay_front(rows, all);
    for row in mover.rows_of(i) {
        all[end..end + ROW_LENGTH].copy_from_slice(&row);
        end += ROW_LENGTH;
    }
    end
}

// The words of the Box's tree: its six halfspaces, behind so many rows, intersected.
#[tactic(auto, unfolding(crate::specs::Frames::box_words))]
pub(crate) fn box_words(rows: usize) -> [u16; 11]
    requires { rows ≤ most_static }
    ensures { result ≡ box_words rows }
{
    let word = FIRST_HALFSPACE + rows as u16;
    [
        word,
        word + 1,
        INTERSECTION,
        word + 2,
        INTERSECTION,
        word + 3,
        INTERSECTION,
        word + 4,
        INTERSECTION,
        word + 5,
        INTERSECTION,
    ]
}
