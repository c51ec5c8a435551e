// The pruned conversions: the checks, the work room, then the expression of one tree or of two, raw or merged.
ghost use Rattle.std.specs.Prelude.{◌≡◌, ◌+◌, ◌≤◌, length};
ghost use Rattle.universe.specs.Universe.{universe_refusal};
ghost use Rattle.universe.specs.Room.{room};
ghost use Rattle.csg.specs.Surfaces.{surfaces_of};
ghost use Rattle.convert.specs.Answers.{one_tree_refusal, two_trees_refusal, written_of_two};
ghost use Rattle.convert.specs.Blocks.{whole_sides};
ghost use Rattle.pruned.specs.Looked.{nodes_looked};
ghost use Rattle.pruned.specs.Answers.{
  one_tree,
  two_trees,
  nodes_needed,
  written_of_one,
  raw_of_one_answer,
  raw_of_one_buffer,
  merged_of_one_answer,
  merged_of_one_buffer,
  raw_of_two_answer,
  raw_of_two_buffer,
  merged_of_two_answer,
  merged_of_two_buffer,
  work_of_one,
  work_of_two,
};
ghost use Rattle.pruned.specs.Told.{conversion_told};
ghost use Rattle.pruned.specs.Whole.{Ended, OneReady, TwoReady, Converted};

use crate::answer::{Conversion, Unconverted};
use crate::load::load;
use crate::prune::{MOST_SHAPES, NODE_LENGTH};
use crate::scratch::SHORT_SCRATCH;
use crate::whole::write_whole;
use universe::Universe;

// No expression is longer.
const MOST_ROOM: u64 = 2 << Universe::MOST_LEVELS;

// The sides of the whole universe; 0 along an axis that it lacks: four calls, which a public function would make no
// plainer.
fn whole_sides(universe: Universe) -> [u64; Universe::MOST_AXES as usize]
    ensures { result ≡ whole_sides universe }
{
    [
        universe.side(0),
        universe.side(1),
        universe.side(2),
        universe.side(3),
    ]
}

// Room that suffices for trees with so many leaves: by the formula, or as much as any universe takes where so little is
// lent that scratch room serves as well, which is sooner done than the formula is worked out.
fn room_for(universe: Universe, leaves: u64, balls: u64, lent: usize) -> u64
    requires { universe_refusal universe ≡ 0 }
    ensures { room universe leaves balls ≤ result }
{
    if lent <= SHORT_SCRATCH {
        return MOST_ROOM;
    }
    universe.room(leaves, balls).unwrap()
}

// The expression of one tree that no check refuses, where the work room suffices.
fn written_of_one(
    universe: Universe,
    rows: &[i64],
    balls: &[i64],
    words: &[u16],
    merging: bool,
    work: &mut [i64],
    out: &mut [u8],
) -> Result<Conversion, Unconverted>
    requires { OneReady universe (surfaces_of rows.now balls.now) words.now work.old }
    ensures { let surfaces = surfaces_of rows.now balls.now in
        let words = words.entry.now in
        Ended out.old (written_of_one merging universe surfaces words)
        (nodes_looked universe surfaces (one_tree surfaces words)) (conversion_told result) out.new }
{
    let mut side = whole_sides(universe);
    let mut starts = [0usize; MOST_SHAPES];
    load(
        universe.axes as usize,
        rows,
        &side,
        words,
        work,
        0,
        &mut starts,
    );
    let leaves = csg::halfspace_words(words);
    let round = csg::ball_words(words);
    let room = room_for(universe, leaves, round, out.len());
    write_whole(
        universe,
        rows,
        balls,
        &mut side,
        merging,
        work,
        words.len(),
        &mut starts,
        room,
        out,
    )
}

// The same of two trees.
fn written_of_two(
    universe: Universe,
    rows: &[i64],
    balls: &[i64],
    first: &[u16],
    second: &[u16],
    merging: bool,
    work: &mut [i64],
    out: &mut [u8],
) -> Result<Conversion, Unconverted>
    requires { TwoReady universe (surfaces_of rows.now balls.now) first.now second.now work.old }
    ensures { let surfaces = surfaces_of rows.now balls.now in
        let first = first.entry.now in
        let second = second.entry.now in
        Ended out.old (written_of_two merging universe surfaces first second)
        (nodes_looked universe surfaces (two_trees surfaces first second)) (conversion_told result) out.new }
{
    let mut side = whole_sides(universe);
    let mut starts = [0usize; MOST_SHAPES];
    let axes = universe.axes as usize;
    load(axes, rows, &side, first, work, 0, &mut starts);
    load(axes, rows, &side, second, work, first.len(), &mut starts);
    let leaves = csg::halfspace_words(first) + csg::halfspace_words(second);
    let round = csg::ball_words(first) + csg::ball_words(second);
    let room = room_for(universe, leaves, round, out.len());
    write_whole(
        universe,
        rows,
        balls,
        &mut side,
        merging,
        work,
        first.len() + second.len(),
        &mut starts,
        room,
        out,
    )
}

// The expression of one tree, or what refuses it. One tree is checked as that tree intersected with BLACK.
fn of_one(
    universe: Universe,
    rows: &[i64],
    balls: &[i64],
    words: &[u16],
    merging: bool,
    work: &mut [i64],
    out: &mut [u8],
) -> Result<Conversion, Unconverted>
    ensures { let surfaces = surfaces_of rows.now balls.now in
        let words = words.entry.now in
        Converted (one_tree_refusal universe surfaces words) work.old (nodes_needed universe (length words))
        out.old (written_of_one merging universe surfaces words)
        (nodes_looked universe surfaces (one_tree surfaces words)) (conversion_told result) out.new work.new }
{
    convert::check_scene(universe, rows, balls, words, &[csg::BLACK])?;
    let needed = (universe.levels() + 1) * words.len() as u64;
    if ((work.len() / NODE_LENGTH) as u64) < needed {
        return Err(Unconverted::ShortOfWork(needed));
    }
    written_of_one(universe, rows, balls, words, merging, work, out)
}

// The expression of two trees, or what refuses it.
fn of_two(
    universe: Universe,
    rows: &[i64],
    balls: &[i64],
    first: &[u16],
    second: &[u16],
    merging: bool,
    work: &mut [i64],
    out: &mut [u8],
) -> Result<Conversion, Unconverted>
    ensures { let surfaces = surfaces_of rows.now balls.now in
        let first = first.entry.now in
        let second = second.entry.now in
        Converted (two_trees_refusal universe surfaces first second) work.old
        (nodes_needed universe (length first + length second)) out.old
        (written_of_two merging universe surfaces first second)
        (nodes_looked universe surfaces (two_trees surfaces first second)) (conversion_told result) out.new work.new }
{
    convert::check_scene(universe, rows, balls, first, second)?;
    let words = (first.len() + second.len()) as u64;
    let needed = (universe.levels() + 1) * words;
    if ((work.len() / NODE_LENGTH) as u64) < needed {
        return Err(Unconverted::ShortOfWork(needed));
    }
    written_of_two(universe, rows, balls, first, second, merging, work, out)
}

// The raw expression of one tree, pruned. Work room of as many nodes as rule 16.4 says suffices, and room for symbols
// that is as large as the room formula says.
pub fn raw_of_one(
    universe: Universe,
    rows: &[i64],
    balls: &[i64],
    words: &[u16],
    work: &mut [i64],
    out: &mut [u8],
) -> Result<Conversion, Unconverted>
    ensures answer { let surfaces = surfaces_of rows.now balls.now in
        conversion_told result ≡ raw_of_one_answer universe surfaces words.now work.old out.old }
    ensures symbols { let surfaces = surfaces_of rows.now balls.now in
        out.new
        ≡ raw_of_one_buffer universe surfaces words.now work.old out.old }
    ensures work { let surfaces = surfaces_of rows.now balls.now in
        ((work_of_one universe surfaces words.now work.old ≡ 0 → ⊥)
        → work.new ≡ work.old) }
{
    of_one(universe, rows, balls, words, false, work, out)
}

// The merged expression of one tree, pruned. Work room of as many nodes as rule 16.4 says suffices, and room for
// symbols that is as large as the room formula says.
pub fn merged_of_one(
    universe: Universe,
    rows: &[i64],
    balls: &[i64],
    words: &[u16],
    work: &mut [i64],
    out: &mut [u8],
) -> Result<Conversion, Unconverted>
    ensures answer { let surfaces = surfaces_of rows.now balls.now in
        conversion_told result ≡ merged_of_one_answer universe surfaces words.now work.old out.old }
    ensures symbols { let surfaces = surfaces_of rows.now balls.now in
        out.new
        ≡ merged_of_one_buffer universe surfaces words.now work.old out.old }
    ensures work { let surfaces = surfaces_of rows.now balls.now in
        ((work_of_one universe surfaces words.now work.old ≡ 0 → ⊥)
        → work.new ≡ work.old) }
{
    of_one(universe, rows, balls, words, true, work, out)
}

// The raw expression of two trees intersected, pruned. Work room of as many nodes as rule 16.4 says suffices, and room
// for symbols that is as large as the room formula says.
pub fn raw_of_two(
    universe: Universe,
    rows: &[i64],
    balls: &[i64],
    first: &[u16],
    second: &[u16],
    work: &mut [i64],
    out: &mut [u8],
) -> Result<Conversion, Unconverted>
    ensures answer { let surfaces = surfaces_of rows.now balls.now in
        conversion_told result ≡ raw_of_two_answer universe surfaces first.now second.now work.old
        out.old }
    ensures symbols { let surfaces = surfaces_of rows.now balls.now in
        out.new
        ≡ raw_of_two_buffer universe surfaces first.now second.now work.old
        out.old }
    ensures work { let surfaces = surfaces_of rows.now balls.now in
        ((work_of_two universe surfaces first.now second.now work.old ≡ 0 → ⊥)
        → work.new ≡ work.old) }
{
    of_two(universe, rows, balls, first, second, false, work, out)
}

// The merged expression of two trees intersected, pruned. Work room of as many nodes as rule 16.4 says suffices, and
// room for symbols that is as large as the room formula says.
pub fn merged_of_two(
    universe: Universe,
    rows: &[i64],
    balls: &[i64],
    first: &[u16],
    second: &[u16],
    work: &mut [i64],
    out: &mut [u8],
) -> Result<Conversion, Unconverted>
    ensures answer { let surfaces = surfaces_of rows.now balls.now in
        conversion_told result ≡ merged_of_two_answer universe surfaces first.now second.now work.old
        out.old }
    ensures symbols { let surfaces = surfaces_of rows.now balls.now in
        out.new
        ≡ merged_of_two_buffer universe surfaces first.now second.now work.old
        out.old }
    ensures work { let surfaces = surfaces_of rows.now balls.now in
        ((work_of_two universe surfaces first.now second.now work.old ≡ 0 → ⊥)
        → work.new ≡ work.old) }
{
    of_two(universe, rows, balls, first, second, true, work, out)
}
