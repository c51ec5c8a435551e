// A tree's words become nodes in the work room, in their order: a leaf's with its values over the whole universe; MINUS
// turns over the nodes of the later shape and is an INTERSECTION.
ghost use Rattle.std.specs.Prelude.{◌≡◌, ◌<◌, pos, length, set, ◌*◌, ◌+◌};
ghost use Rattle.pruned.specs.Nodes.{node_length, code_limit, CodeAt};
ghost use Rattle.pruned.specs.Loading.{
  turned_number,
  Turning,
  Turned,
  Joining,
  Joined,
  LeafWord,
  LeafValues,
  Loading,
  Loaded,
};

use crate::leaf::{Extremes, whole_extremes};
use crate::prune::{INTERSECTION_NODE, MOST_SHAPES, NODE_LENGTH, code_at, store_node};
use universe::Universe;

// The code of a node turned over: a constant's, an operator's or a side's other one.
fn turned_number(code: u64) -> u64
    requires { code < code_limit }
    ensures { result ≡ turned_number code }
{
    if code < 3 {
        return 2 - code;
    }
    if code < 8 {
        return 10 - code;
    }
    if code % 2 == 0 {
        return code + 1;
    }
    code - 1
}

// Turns over the nodes from a place up to another.
pub(crate) fn turn(work: &mut [i64], from: usize, to: usize)
    requires { Turning work.old from to }
    ensures { (job : Turning work.old from to) → Turned job work.new }
{
    for place in from..to {
        let code = code_at(work, place);
        work[NODE_LENGTH * place] = turned_number(code) as i64;
    }
}

// Loads the word of an operator, whose later shape's nodes stand from `start` up to `at`.
fn load_operator(work: &mut [i64], start: usize, at: usize, word: u16)
    requires { Joining work.old start at word }
    ensures { (job : Joining work.old start at word) → Joined job work.new }
{
    if word == csg::MINUS {
        turn(work, start, at);
        store_node(work, at, INTERSECTION_NODE, 0, 0);
        return;
    }
    store_node(work, at, 2 * word as u64, 0, 0);
}

// The values over the whole universe of the node of a leaf's word: 0 where it names no halfspace.
fn leaf_values(
    axes: usize,
    rows: &[i64],
    side: &[u64; Universe::MOST_AXES as usize],
    word: u16,
) -> Extremes
    requires { LeafWord axes rows.now side.now word }
    ensures { (job : LeafWord axes rows.now side.now word)
        → LeafValues job result.least result.greatest }
{
    if word < csg::FIRST_HALFSPACE || csg::FIRST_BALL <= word {
        return Extremes {
            least: 0,
            greatest: 0,
        };
    }
    whole_extremes(axes, rows, (word - csg::FIRST_HALFSPACE) as usize, side)
}

// Loads the words of a tree from a place on; where each shape that is pending starts is kept on the way.
pub(crate) fn load(
    axes: usize,
    rows: &[i64],
    side: &[u64; Universe::MOST_AXES as usize],
    words: &[u16],
    work: &mut [i64],
    from: usize,
    starts: &mut [usize; MOST_SHAPES],
)
    requires { Loading axes rows.now side.now words.now work.old from starts.old }
    ensures { let rows₀ = rows.now in
        let side₀ = side.now in
        let words₀ = words.now in
        ((job : Loading axes rows₀ side₀ words₀ work.old from starts.old)
        → Loaded job work.new starts.new) }
{
    let mut pending: usize = 0;
    for (i, &word) in words.iter().enumerate() {
        let at = from + i;
        if csg::is_operator(word) {
            let start = starts[pending - 1];
            load_operator(work, start, at, word);
            pending -= 1;
        } else {
            let values = leaf_values(axes, rows, side, word);
            store_node(work, at, 2 * word as u64, values.least, values.greatest);
            starts[pending] = at;
            pending += 1;
        }
    }
}
