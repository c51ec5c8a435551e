// Pruning: one pass in postfix order over the codes that are carried into a block writes what is left of their trees.
ghost use Rattle.std.specs.Prelude.{◌≡◌, ◌+◌, ◌^◌, ◌<◌};
ghost use Rattle.csg.specs.Surfaces.{surfaces_of};
ghost use Rattle.pruned.specs.Nodes.{is_join, end_after, Shelves};
ghost use Rattle.at_once.specs.Moves.{RightValues};
ghost use Rattle.at_once.specs.Pruning.{PruneJob, PrunedCodes};

use crate::leaf::judge_leaf;
use crate::moves::times_of;
use pruned::{joined_code, whole_mark};
use universe::Universe;

// The most shapes that are pending while two trees are read one after the other.
pub(crate) const MOST_SHAPES: usize = pruned::MOST_SHAPES;

// The code of UNION's node, that of INTERSECTION's, and one past it.
const UNION_NODE: u16 = 4;

pub(crate) const INTERSECTION_NODE: u16 = 6;

const PAST_JOINS: u16 = 8;

// Whether a code is an operator's. A code is two bytes long here and a node's is eight in crate `pruned`: one function
// over both would be longer than the two lines of each.
pub(crate) fn is_join(code: u16) -> bool
    ensures { result ≡ is_join code }
{
    UNION_NODE <= code && code < PAST_JOINS
}

// Where the codes end after one that is stored at `end`. It asks that this fits, and no public function asks anything:
// `pruned` has its own.
fn end_after(code: u8, a: u8, b: u8, start: usize, end: usize) -> usize
    requires { end + 1 < 2 ^ 64 }
    ensures { result ≡ end_after code a b start end }
{
    if code != 0 {
        return start;
    }
    if a != 0 || b != 0 {
        return end;
    }
    end + 1
}

// What pruning comes to: the mark's bits, and how many codes are kept. No enum of a mark and of codes: where the mark
// is decided there can be codes too, those of a tree that the other one settles.
#[derive(Clone, Copy)]
pub(crate) struct Kept {
    pub mark: u8,
    pub nodes: usize,
}

// Reads codes[from..from + count] and writes what is left of their trees over the block behind them. Every code is
// stored at the end, and the end moves only where the code is kept.
pub(crate) fn prune(
    axes: usize,
    rows: &[i64],
    balls: &[i64],
    low: &[u64; Universe::MOST_AXES as usize],
    side: &[u64; Universe::MOST_AXES as usize],
    codes: &mut [u16],
    from: usize,
    count: usize,
    starts: &mut [usize; MOST_SHAPES],
    marks: &mut [u8; MOST_SHAPES],
    values: &[i64; csg::MOST_ROWS],
) -> Kept
    requires fact { let surfaces = surfaces_of rows.now balls.now in
        PruneJob surfaces axes low.now side.now codes.old from count }
    requires shelves { Shelves starts.old marks.old }
    requires right_values { RightValues rows.now low.now codes.old from count values.now }
    ensures fact_2 { let surfaces = surfaces_of rows.now balls.now in
        let low = low.entry.now in
        let side = side.entry.now in
        ((job : PruneJob surfaces axes low side codes.old from count)
        → PrunedCodes job codes.new result.mark result.nodes) }
    ensures shelves_2 { Shelves starts.new marks.new }
{
    let to = from + count;
    let times = times_of(side);
    let mut pending: usize = 0;
    let mut end = to;
    for i in from..to {
        let code = codes[i];
        codes[end] = code;
        if is_join(code) {
            let second = marks[pending - 1];
            let first = marks[pending - 2];
            let joined = joined_code(INTERSECTION_NODE <= code, first, second);
            let start = starts[pending - 2];
            end = end_after(joined, first, second, start, end);
            marks[pending - 2] = joined;
            pending -= 1;
        } else {
            let bits = judge_leaf(axes, rows, balls, low, side, code, values, &times);
            starts[pending] = end;
            marks[pending] = bits;
            end = end_after(bits, 0, 0, end, end);
            pending += 1;
        }
    }
    Kept {
        mark: whole_mark(marks, pending),
        nodes: end - to,
    }
}
