// Pruning: one pass in postfix order over the nodes that are carried into a block writes what is left of their trees.
ghost use Rattle.std.specs.Prelude.{◌≡◌, true, cond, ◌+◌, ◌*◌, ◌≤◌, eqb, pos, nat_abs, length, get_or};
ghost use Rattle.csg.specs.Surfaces.{surfaces_of};
ghost use Rattle.pruned.specs.Nodes.{
  node_length,
  number_at,
  stored,
  is_join,
  is_meet,
  joined_code,
  CodeAt,
  Storable,
  doubled,
  whole_mark,
  Shelves,
  Pruning,
  Pruned,
};

use crate::leaf::judge_leaf;
use crate::marks::{end_after, joined_code};
use universe::Universe;

// The numbers that a node takes in the work room: its code, its least and its greatest value.
pub(crate) const NODE_LENGTH: usize = 3;

// The most shapes that are pending while two trees are read one after the other.
pub const MOST_SHAPES: usize = csg::MOST_PENDING + 1;

// The code of UNION's node, that of INTERSECTION's, and one past it.
const UNION_NODE: u64 = 4;

pub(crate) const INTERSECTION_NODE: u64 = 6;

const PAST_JOINS: u64 = 8;

// The code of the node at a place.
pub(crate) fn code_at(work: &[i64], at: usize) -> u64
    requires { CodeAt work.now at }
    ensures { result ≡ nat_abs (number_at work.now (node_length * at)) }
{
    work[NODE_LENGTH * at] as u64
}

// Stores a node at a place.
pub(crate) fn store_node(work: &mut [i64], at: usize, code: u64, least: i64, greatest: i64)
    requires { Storable work.old at code least greatest }
    ensures { work.new ≡ stored work.old at (pos code) least greatest }
{
    work[NODE_LENGTH * at] = code as i64;
    work[NODE_LENGTH * at + 1] = least;
    work[NODE_LENGTH * at + 2] = greatest;
}

// Whether a code is an operator's.
pub(crate) fn is_join(code: u64) -> bool
    ensures { result ≡ is_join code }
{
    UNION_NODE <= code && code < PAST_JOINS
}

// The mark of one tree, or of two intersected, by their codes.
pub fn whole_mark(codes: &[u8; MOST_SHAPES], pending: usize) -> u8
    ensures { result ≡ whole_mark codes.now pending }
{
    if pending == 2 {
        return joined_code(true, codes[0], codes[1]);
    }
    codes[0]
}

// What pruning comes to: the mark's bits, and how many nodes are kept. No enum of a mark and of nodes: where the mark is
// decided there can be nodes too, those of a tree that the other one settles.
#[derive(Clone, Copy)]
pub(crate) struct Kept {
    pub mark: u8,
    pub nodes: usize,
}

// Reads the nodes work[from..from + count], which hold their values over a block, and writes what is left of their
// trees over one of its halves from `to` on, with the values over that half: 1 is doubled to its length along the axis
// so often; or over the block itself, where there is no half. Of a universe of one voxel the colour at its centre is
// judged, and nothing is left. Every node is stored at the end, and the end moves only where the node is kept.
pub(crate) fn prune(
    axes: usize,
    rows: &[i64],
    balls: &[i64],
    low: &[u64; Universe::MOST_AXES as usize],
    side: &[u64; Universe::MOST_AXES as usize],
    axis: usize,
    high: bool,
    times: u64,
    centre: bool,
    work: &mut [i64],
    from: usize,
    count: usize,
    to: usize,
    starts: &mut [usize; MOST_SHAPES],
    codes: &mut [u8; MOST_SHAPES],
) -> Kept
    requires fact { let surfaces = surfaces_of rows.now balls.now in
        Pruning surfaces axes low.now side.now axis (doubled times) high centre work.old from count to }
    requires shelves { Shelves starts.old codes.old }
    ensures fact_2 { let surfaces = surfaces_of rows.now balls.now in
        let low = low.entry.now in
        let side = side.entry.now in
        ((job : Pruning surfaces axes low side axis (doubled times) high centre work.old from count to)
        → Pruned job work.new result.mark result.nodes) }
    ensures shelves_2 { Shelves starts.new codes.new }
{
    let mut pending: usize = 0;
    let mut end = to;
    for i in from..from + count {
        let code = code_at(work, i);
        if is_join(code) {
            let second = codes[pending - 1];
            let first = codes[pending - 2];
            let joined = joined_code(INTERSECTION_NODE <= code, first, second);
            let start = starts[pending - 2];
            store_node(work, end, code, 0, 0);
            end = end_after(joined, first, second, start, end);
            codes[pending - 2] = joined;
            pending -= 1;
        } else {
            let least = work[NODE_LENGTH * i + 1];
            let greatest = work[NODE_LENGTH * i + 2];
            let judged = judge_leaf(
                axes, rows, balls, low, side, axis, times, high, centre, code, least, greatest,
            );
            let bits = judged.code;
            store_node(work, end, code, judged.least, judged.greatest);
            starts[pending] = end;
            codes[pending] = bits;
            end = end_after(bits, 0, 0, end, end);
            pending += 1;
        }
    }
    Kept {
        mark: whole_mark(codes, pending),
        nodes: end - to,
    }
}
