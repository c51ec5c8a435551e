// A tree's words become codes, in their order: MINUS turns over the codes of the later shape and is an INTERSECTION.
ghost use Rattle.std.specs.Prelude.{◌≡◌, ◌<◌};
ghost use Rattle.pruned.specs.Nodes.{code_limit};
ghost use Rattle.pruned.specs.Loading.{turned_number};
ghost use Rattle.at_once.specs.Loading.{TurnJob, TurnedCodes, JoinJob, JoinedCodes, LoadJob, LoadedCodes};

use crate::prune::{INTERSECTION_NODE, MOST_SHAPES};

// The code of a node turned over: a constant's, an operator's or a side's other one.
fn turned_number(code: u16) -> u16
    requires { code < code_limit }
    ensures { result ≡ turned_number code }
{
    if code < 3 {
        return 2 - code;
    }
    if code < 8 {
        return 10 - code;
    }
    if code % 2 == 0 {
        return code + 1;
    }
    code - 1
}

// Turns over the codes from a place up to another.
fn turn(codes: &mut [u16], from: usize, to: usize)
    requires { TurnJob codes.old from to }
    ensures { (job : TurnJob codes.old from to) → TurnedCodes job codes.new }
{
    for place in from..to {
        codes[place] = turned_number(codes[place]);
    }
}

// Loads the word of an operator, whose later shape's codes stand from `start` up to `at`.
fn load_operator(codes: &mut [u16], start: usize, at: usize, word: u16)
    requires { JoinJob codes.old start at word }
    ensures { (job : JoinJob codes.old start at word) → JoinedCodes job codes.new }
{
    if word == csg::MINUS {
        turn(codes, start, at);
        codes[at] = INTERSECTION_NODE;
        return;
    }
    codes[at] = 2 * word;
}

// Loads the words of a tree from a place on; where each shape that is pending starts is kept on the way.
pub(crate) fn load(words: &[u16], codes: &mut [u16], from: usize, starts: &mut [usize; MOST_SHAPES])
    requires { LoadJob words.now codes.old from starts.old }
    ensures { (job : LoadJob words.now codes.old from starts.old)
        → LoadedCodes job codes.new starts.new }
{
    let mut pending: usize = 0;
    for (i, &word) in words.iter().enumerate() {
        let at = from + i;
        if csg::is_operator(word) {
            let start = starts[pending - 1];
            load_operator(codes, start, at, word);
            pending -= 1;
        } else {
            codes[at] = 2 * word;
            starts[pending] = at;
            pending += 1;
        }
    }
}
