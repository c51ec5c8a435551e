// Work room of the call's own, of four sizes, and the pruned conversions in it.
ghost use Rattle.std.specs.Prelude.{◌≡◌, ◌+◌, ◌*◌, ◌/◌, ◌≤◌, length};
ghost use Rattle.bintree.specs.Told.{writing_told};
ghost use Rattle.csg.specs.Surfaces.{surfaces_of};
ghost use Rattle.convert.specs.Answers.{raw_of_one_answer, raw_of_one_buffer, raw_of_two_answer, raw_of_two_buffer};
ghost use Rattle.pruned.specs.Answers.{nodes_lent};
ghost use Rattle.pruned.specs.Nodes.{node_length};
ghost use Rattle.pruned.specs.Told.{conversion_told};
ghost use Rattle.local.specs.Rooms.{many, Suffices, parts_of, raw_answer, raw_buffer};

use pruned::{Conversion, Unconverted};
use universe::{Universe, Unwritten};

// The numbers of a node.
const NODE_LENGTH: usize = 3;

// The nodes of the smallest work room: two words need no more with up to 15 levels.
const FEWEST: usize = 32;

// Those of the next larger ones.
const FEW: usize = 128;

const SOME: usize = 512;

// Those of the largest: beside its recursion the stack has room for no more.
pub(crate) const MANY: usize = 1_248;

// The numbers of each.
const FEWEST_NUMBERS: usize = NODE_LENGTH * FEWEST;

const FEW_NUMBERS: usize = NODE_LENGTH * FEW;

const SOME_NUMBERS: usize = NODE_LENGTH * SOME;

const MANY_NUMBERS: usize = NODE_LENGTH * MANY;

// The nodes of work room that trees with so many words need (rule 16.4), where they are no more than MANY.
pub(crate) fn nodes_of(universe: Universe, words: usize) -> u64
    ensures { result ≤ many → Suffices universe words result }
{
    if MANY < words {
        return words as u64;
    }
    (universe.levels() + 1) * words as u64
}

// What a pruned conversion that does not lack work room answers.
fn parts_of(found: Result<Conversion, Unconverted>) -> Result<u64, Unwritten>
    ensures { writing_told result ≡ parts_of (conversion_told found) }
{
    match found {
        Ok(conversion) => Ok(conversion.length),
        Err(Unconverted::Refused(refusal)) => Err(Unwritten::Refused(refusal)),
        Err(Unconverted::ShortOfWork(needed)) => Err(Unwritten::NoRoom(needed)),
        Err(Unconverted::ShortOfSymbols(needed)) => Err(Unwritten::NoRoom(needed)),
    }
}

// The raw expression of both trees intersected, or of the first alone, in work room that suffices.
fn laid_in(
    universe: Universe,
    rows: &[i64],
    balls: &[i64],
    first: &[u16],
    second: &[u16],
    both: bool,
    work: &mut [i64],
    out: &mut [u8],
) -> Result<u64, Unwritten>
    requires { Suffices universe (length first.now + length second.now) (nodes_lent work.old) }
    ensures result_value { let surfaces = surfaces_of rows.now balls.now in
        writing_told result ≡ raw_answer both universe surfaces first.now second.now out.old }
    ensures out_after { let surfaces = surfaces_of rows.now balls.now in
        out.new
        ≡ raw_buffer both universe surfaces first.now second.now out.old }
{
    if both {
        let found = pruned::raw_of_two(universe, rows, balls, first, second, work, out);
        return parts_of(found);
    }
    let found = pruned::raw_of_one(universe, rows, balls, first, work, out);
    parts_of(found)
}

// The same in work room of so many numbers.
fn in_room<const NUMBERS: usize>(
    universe: Universe,
    rows: &[i64],
    balls: &[i64],
    first: &[u16],
    second: &[u16],
    both: bool,
    out: &mut [u8],
) -> Result<u64, Unwritten>
    requires numbers_few { NUMBERS ≤ node_length * many }
    requires suffices { Suffices universe (length first.now + length second.now) (NUMBERS / node_length) }
    ensures result_value { let surfaces = surfaces_of rows.now balls.now in
        writing_told result ≡ raw_answer both universe surfaces first.now second.now out.old }
    ensures out_after { let surfaces = surfaces_of rows.now balls.now in
        out.new
        ≡ raw_buffer both universe surfaces first.now second.now out.old }
{
    let mut work = [0i64; NUMBERS];
    laid_in(universe, rows, balls, first, second, both, &mut work, out)
}

// The same in the smallest work room that suffices.
fn pruned_of(
    universe: Universe,
    rows: &[i64],
    balls: &[i64],
    first: &[u16],
    second: &[u16],
    both: bool,
    nodes: u64,
    out: &mut [u8],
) -> Result<u64, Unwritten>
    requires nodes_le_many { nodes ≤ many }
    requires suffices { Suffices universe (length first.now + length second.now) nodes }
    ensures result_value { let surfaces = surfaces_of rows.now balls.now in
        writing_told result ≡ raw_answer both universe surfaces first.now second.now out.old }
    ensures out_after { let surfaces = surfaces_of rows.now balls.now in
        out.new
        ≡ raw_buffer both universe surfaces first.now second.now out.old }
{
    if nodes <= FEWEST as u64 {
        return in_room::<FEWEST_NUMBERS>(universe, rows, balls, first, second, both, out);
    }
    if nodes <= FEW as u64 {
        return in_room::<FEW_NUMBERS>(universe, rows, balls, first, second, both, out);
    }
    if nodes <= SOME as u64 {
        return in_room::<SOME_NUMBERS>(universe, rows, balls, first, second, both, out);
    }
    in_room::<MANY_NUMBERS>(universe, rows, balls, first, second, both, out)
}

// The raw expression of one tree, pruned in work room of so many nodes or more.
pub(crate) fn pruned_of_one(
    universe: Universe,
    rows: &[i64],
    balls: &[i64],
    words: &[u16],
    nodes: u64,
    out: &mut [u8],
) -> Result<u64, Unwritten>
    requires nodes_le_many { nodes ≤ many }
    requires suffices { Suffices universe (length words.now) nodes }
    ensures result_value { let surfaces = surfaces_of rows.now balls.now in
        writing_told result ≡ raw_of_one_answer universe surfaces words.now out.old }
    ensures out_after { let surfaces = surfaces_of rows.now balls.now in
        out.new ≡ raw_of_one_buffer universe surfaces words.now out.old }
{
    pruned_of(universe, rows, balls, words, &[], false, nodes, out)
}

// The same of two trees intersected.
pub(crate) fn pruned_of_two(
    universe: Universe,
    rows: &[i64],
    balls: &[i64],
    first: &[u16],
    second: &[u16],
    nodes: u64,
    out: &mut [u8],
) -> Result<u64, Unwritten>
    requires nodes_le_many { nodes ≤ many }
    requires suffices { Suffices universe (length first.now + length second.now) nodes }
    ensures result_value { let surfaces = surfaces_of rows.now balls.now in
        writing_told result ≡ raw_of_two_answer universe surfaces first.now second.now out.old }
    ensures out_after { let surfaces = surfaces_of rows.now balls.now in
        out.new
        ≡ raw_of_two_buffer universe surfaces first.now second.now out.old }
{
    pruned_of(universe, rows, balls, first, second, true, nodes, out)
}
