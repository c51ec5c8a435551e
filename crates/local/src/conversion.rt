// The raw conversions by what is left of the trees: as nodes where work room of the call's own suffices, else as codes.
// Where the first conversion lays an expression once, and this would twice, that one is taken, and where pruning gains
// little. What is left is never inlined, so that its frames stay apart from the first conversion's.
ghost use Rattle.std.specs.Prelude.{◌≡◌};
ghost use Rattle.bintree.specs.Told.{writing_told};
ghost use Rattle.csg.specs.Surfaces.{surfaces_of};
ghost use Rattle.convert.specs.Answers.{raw_of_one_answer, raw_of_one_buffer, raw_of_two_answer, raw_of_two_buffer};

use crate::work::{MANY, nodes_of, pruned_of_one, pruned_of_two};
use universe::{Universe, Unwritten};

// With so few bits along three axes or more, most blocks are crossed by all surfaces that so few words name.
const FEW_BITS: u64 = 3;

const FEW_WORDS: usize = 40;

// Whether pruning gains so little that the first conversion is the faster one. Answers do not depend on it.
fn gains_little(universe: Universe, words: usize) -> bool {
    3 <= universe.axes && universe.bits <= FEW_BITS && words <= FEW_WORDS
}

// Whether so much room is lent that the first conversion lays an expression once, into its scratch room, and this one
// would twice. Answers do not depend on it.
fn is_laid_twice(universe: Universe, first: &[u16], second: &[u16], lent: usize) -> bool {
    if lent <= pruned::MOST_SCRATCH || convert::MOST_SCRATCH < lent {
        return false;
    }
    let leaves = csg::halfspace_words(first) + csg::halfspace_words(second);
    let balls = csg::ball_words(first) + csg::ball_words(second);
    let room = universe.room(leaves, balls);
    !room.is_ok_and(|symbols| symbols <= lent as u64)
}

// The raw expression of one tree by what is left of it.
#[inline(never)]
fn left_of_one(
    universe: Universe,
    rows: &[i64],
    balls: &[i64],
    words: &[u16],
    out: &mut [u8],
) -> Result<u64, Unwritten>
    ensures result_value { let surfaces = surfaces_of rows.now balls.now in
        writing_told result ≡ raw_of_one_answer universe surfaces words.now out.old }
    ensures out_after { let surfaces = surfaces_of rows.now balls.now in
        out.new ≡ raw_of_one_buffer universe surfaces words.now out.old }
{
    let nodes = nodes_of(universe, words.len());
    if (MANY as u64) < nodes {
        return at_once::raw_of_one(universe, rows, balls, words, out);
    }
    pruned_of_one(universe, rows, balls, words, nodes, out)
}

// The same of two trees intersected.
#[inline(never)]
fn left_of_two(
    universe: Universe,
    rows: &[i64],
    balls: &[i64],
    first: &[u16],
    second: &[u16],
    out: &mut [u8],
) -> Result<u64, Unwritten>
    ensures result_value { let surfaces = surfaces_of rows.now balls.now in
        writing_told result ≡ raw_of_two_answer universe surfaces first.now second.now out.old }
    ensures out_after { let surfaces = surfaces_of rows.now balls.now in
        out.new
        ≡ raw_of_two_buffer universe surfaces first.now second.now out.old }
{
    let nodes = nodes_of(universe, first.len() + second.len());
    if (MANY as u64) < nodes {
        return at_once::raw_of_two(universe, rows, balls, first, second, out);
    }
    pruned_of_two(universe, rows, balls, first, second, nodes, out)
}

// The raw expression of one tree. Room that is as large as the room formula says suffices.
pub fn raw_of_one(
    universe: Universe,
    rows: &[i64],
    balls: &[i64],
    words: &[u16],
    out: &mut [u8],
) -> Result<u64, Unwritten>
    ensures result_value { let surfaces = surfaces_of rows.now balls.now in
        writing_told result ≡ raw_of_one_answer universe surfaces words.now out.old }
    ensures out_after { let surfaces = surfaces_of rows.now balls.now in
        out.new ≡ raw_of_one_buffer universe surfaces words.now out.old }
{
    if gains_little(universe, words.len()) || is_laid_twice(universe, words, &[], out.len()) {
        return convert::raw_of_one(universe, rows, balls, words, out);
    }
    left_of_one(universe, rows, balls, words, out)
}

// The raw expression of two trees intersected. Room that is as large as the room formula says suffices.
pub fn raw_of_two(
    universe: Universe,
    rows: &[i64],
    balls: &[i64],
    first: &[u16],
    second: &[u16],
    out: &mut [u8],
) -> Result<u64, Unwritten>
    ensures result_value { let surfaces = surfaces_of rows.now balls.now in
        writing_told result ≡ raw_of_two_answer universe surfaces first.now second.now out.old }
    ensures out_after { let surfaces = surfaces_of rows.now balls.now in
        out.new
        ≡ raw_of_two_buffer universe surfaces first.now second.now out.old }
{
    if gains_little(universe, first.len() + second.len())
        || is_laid_twice(universe, first, second, out.len())
    {
        return convert::raw_of_two(universe, rows, balls, first, second, out);
    }
    left_of_two(universe, rows, balls, first, second, out)
}
