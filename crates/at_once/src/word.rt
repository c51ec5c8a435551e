// The words of a block: of a halfspace, of a ball, of a leaf, and of the trees that are carried into the block.
ghost use Rattle.std.specs.Prelude.{◌≡◌, ◌+◌, ◌*◌, ◌≤◌, ◌<◌, pos};
ghost use Rattle.std.specs.Int.Signed.{le_z};
ghost use Rattle.lemmas.specs.Grid.{count};
ghost use Rattle.universe.specs.Universe.{most_axes};
ghost use Rattle.csg.specs.Halfspace.{row_at, row_count};
ghost use Rattle.csg.specs.Ball.{ball_at, ball_count, radius_squared, off, ball_colour};
ghost use Rattle.csg.specs.Surfaces.{surfaces_of, halfspace, ball};
ghost use Rattle.csg.specs.Marks.{surface_colour, plain_colour};
ghost use Rattle.convert.specs.Small.{SmallPlace, SmallPlaces, BallCentre};
ghost use Rattle.pruned.specs.Left.{all_colour};
ghost use Rattle.masks.specs.Block.{block_mask};
ghost use Rattle.masks.specs.Leaves.{row_mask};
ghost use Rattle.at_once.specs.Words.{
  word_levels,
  step_at,
  RowReady,
  WordBlock,
  word_block,
  first_value,
  step_of,
  RowNamed,
  SmallTables,
  StepsOf,
  BallNamed,
  OffsOf,
  SmallOff,
  SmallOffs,
  square_along,
  squares_of,
  BallOver,
  SurfaceWord,
  LeafWord,
  TreesWord,
  joined_word,
  whole_word,
};
ghost use Rattle.at_once.specs.Moves.{RowValue, RowPlaced, ValueOf, RightValues};

use crate::digits::{WORD_LEVELS, all_ones, side_by_side};
use crate::moves::{amount, doublings};
use crate::pair::{MOST_APART, pairs_word};
use crate::prune::{INTERSECTION_NODE, MOST_SHAPES, is_join};
use crate::reaches::{fall_of, rise_of};
use universe::Universe;

// The digits of a halfspace from twice its value at the centre of the first voxel: of one voxel the test, of twice as
// many the digits of the low half, and above them those of the high half, where the value is one step more.
fn one(v: i64) -> u64
    ensures { result ≡ count (le_z (pos 0) v) }
{
    (v >= 0) as u64
}

fn two(v: i64, steps: &[i64; WORD_LEVELS]) -> u64
    requires { RowReady 1 v steps.now }
    ensures { result ≡ row_mask v (step_at steps.now) 1 }
{
    one(v) | one(v + steps[0]) << 1
}

fn four(v: i64, steps: &[i64; WORD_LEVELS]) -> u64
    requires { RowReady 2 v steps.now }
    ensures { result ≡ row_mask v (step_at steps.now) 2 }
{
    two(v, steps) | two(v + steps[1], steps) << 2
}

fn eight(v: i64, steps: &[i64; WORD_LEVELS]) -> u64
    requires { RowReady 3 v steps.now }
    ensures { result ≡ row_mask v (step_at steps.now) 3 }
{
    four(v, steps) | four(v + steps[2], steps) << 4
}

fn sixteen(v: i64, steps: &[i64; WORD_LEVELS]) -> u64
    requires { RowReady 4 v steps.now }
    ensures { result ≡ row_mask v (step_at steps.now) 4 }
{
    eight(v, steps) | eight(v + steps[3], steps) << 8
}

fn thirty_two(v: i64, steps: &[i64; WORD_LEVELS]) -> u64
    requires { RowReady 5 v steps.now }
    ensures { result ≡ row_mask v (step_at steps.now) 5 }
{
    sixteen(v, steps) | sixteen(v + steps[4], steps) << 16
}

// So it goes where the values are too large for two in one number.
fn each_of_sixty_four(v: i64, steps: &[i64; WORD_LEVELS]) -> u64
    requires { RowReady 6 v steps.now }
    ensures { result ≡ row_mask v (step_at steps.now) 6 }
{
    thirty_two(v, steps) | thirty_two(v + steps[5], steps) << 32
}

// All ones where the least value is 0 or more, 0 where the greatest is less, and else digit by digit.
pub(crate) fn sixty_four(v: i64, steps: &[i64; WORD_LEVELS]) -> u64
    requires { RowReady 6 v steps.now }
    ensures { result ≡ row_mask v (step_at steps.now) 6 }
{
    let least = v + fall_of(steps);
    if 0 <= least {
        return 0xffff_ffff_ffff_ffff;
    }
    let greatest = v + rise_of(steps);
    if greatest < 0 {
        return 0;
    }
    if greatest - least < MOST_APART {
        return pairs_word(v, steps);
    }
    each_of_sixty_four(v, steps)
}

// The word of a halfspace over a block with so many levels left. The digits that the block does not have are 0; with
// six levels it has them all.
pub(crate) fn row_word(v: i64, steps: &[i64; WORD_LEVELS], left: u64) -> u64
    requires row_ready { RowReady 6 v steps.now }
    requires left_le_word_levels { left ≤ word_levels }
    ensures { result ≡ row_mask v (step_at steps.now) left }
{
    if left == WORD_LEVELS as u64 {
        return sixty_four(v, steps);
    }
    sixty_four(v, steps) & all_ones(left)
}

// Twice the value of row i at the centre of the voxel at whose low end it has the value that is carried.
pub(crate) fn value_of_row(rows: &[i64], i: usize, values: &[i64; csg::MOST_ROWS]) -> i64
    requires row_named { RowNamed rows.now i }
    requires row_placed { RowPlaced rows.now values.now i }
    ensures { (placed : RowPlaced rows.now values.now i)
        → result ≡ first_value (row_at rows.now i) placed.low }
{
    let at = csg::ROW_LENGTH * i;
    let value = values[i];
    value + value + (rows[at + 1] + rows[at + 2] + rows[at + 3] + rows[at + 4])
}

// What digit j adds to it.
fn step_of_row(
    rows: &[i64],
    i: usize,
    table: &[usize; Universe::MOST_LEVELS as usize],
    lengths: &[u64; WORD_LEVELS],
    j: usize,
) -> i64
    requires row_named { RowNamed rows.now i }
    requires small_tables { SmallTables table.now lengths.now }
    requires j_lt_word_levels { j < word_levels }
    ensures { result ≡ step_of (row_at rows.now i) table.now lengths.now j }
{
    let once = amount(
        rows[csg::ROW_LENGTH * i + 1 + table[j]],
        doublings(lengths[j]),
    );
    once + once
}

// What each digit adds to it.
pub(crate) fn steps_of_row(
    rows: &[i64],
    i: usize,
    table: &[usize; Universe::MOST_LEVELS as usize],
    lengths: &[u64; WORD_LEVELS],
) -> [i64; WORD_LEVELS]
    requires row_named { RowNamed rows.now i }
    requires small_tables { SmallTables table.now lengths.now }
    ensures { StepsOf (row_at rows.now i) table.now lengths.now result }
{
    let first = step_of_row(rows, i, table, lengths, 0);
    let second = step_of_row(rows, i, table, lengths, 1);
    let third = step_of_row(rows, i, table, lengths, 2);
    let fourth = step_of_row(rows, i, table, lengths, 3);
    let fifth = step_of_row(rows, i, table, lengths, 4);
    let sixth = step_of_row(rows, i, table, lengths, 5);
    [first, second, third, fourth, fifth, sixth]
}

// The word of row i over the block with these low places.
fn word_of_row(
    axes: usize,
    rows: &[i64],
    balls: &[i64],
    i: usize,
    table: &[usize; Universe::MOST_LEVELS as usize],
    lengths: &[u64; WORD_LEVELS],
    low: &[u64; Universe::MOST_AXES as usize],
    left: u64,
    values: &[i64; csg::MOST_ROWS],
) -> u64
    requires fact { let surfaces = surfaces_of rows.now balls.now in
        WordBlock surfaces axes table.now lengths.now low.now left }
    requires i_bound { i < row_count rows.now }
    requires row_value { RowValue rows.now low.now values.now i }
    ensures { let surfaces = surfaces_of rows.now balls.now in
        ((block : WordBlock surfaces axes table.now lengths.now low.now left)
        → result ≡ block_mask (surface_colour surfaces block.universe (halfspace i)) left (word_block block)) }
{
    let value = value_of_row(rows, i, values);
    let steps = steps_of_row(rows, i, table, lengths);
    row_word(value, &steps, left)
}

// From twice a number of a ball's centre to twice the centre of the voxel with this place.
fn off_along(place: u64, centre: i64) -> i64
    requires small_place { SmallPlace place }
    requires ball_centre { BallCentre centre }
    ensures { result ≡ off 2 (2 * place + 1) centre }
{
    (2 * place + 1) as i64 - 2 * centre
}

// How far that is along each axis.
pub(crate) fn offs_of_ball(
    balls: &[i64],
    i: usize,
    low: &[u64; Universe::MOST_AXES as usize],
) -> [i64; csg::MOST_PLACES]
    requires ball_named { BallNamed balls.now i }
    requires small_places { SmallPlaces low.now }
    ensures { OffsOf (ball_at balls.now i) low.now result }
{
    let first = csg::BALL_LENGTH * i;
    let one = off_along(low[0], balls[first]);
    let two = off_along(low[1], balls[first + 1]);
    let three = off_along(low[2], balls[first + 2]);
    [one, two, three]
}

// The square of how far it is along an axis that is one of the place axes.
fn square_along(axis: usize, places: usize, off: i64) -> i64
    requires { SmallOff off }
    ensures { result ≡ square_along axis places off }
{
    if axis < places {
        return off * off;
    }
    0
}

// The sum of the squares.
pub(crate) fn distance_of(places: usize, offs: [i64; csg::MOST_PLACES]) -> i64
    requires { SmallOffs offs }
    ensures { result ≡ squares_of places offs }
{
    let one = square_along(0, places, offs[0]);
    let two = square_along(1, places, offs[1]);
    let three = square_along(2, places, offs[2]);
    one + two + three
}

// Four times the square of the radius of ball i.
pub(crate) fn most_of_ball(balls: &[i64], i: usize) -> i64
    requires { BallNamed balls.now i }
    ensures { result ≡ pos (4 * radius_squared (ball_at balls.now i)) }
{
    let radius = balls[csg::BALL_LENGTH * i + csg::MOST_PLACES];
    4 * radius * radius
}

// The digit of a ball at a voxel, by the sum of the squares there.
fn near_digit(distance: i64, most: i64) -> u64
    ensures { result ≡ count (le_z distance most) }
{
    (distance <= most) as u64
}

// The digits of a ball over two voxels: the high one is further off along the axis that is halved, and as far where
// that axis counts frames.
fn ball_two(
    places: usize,
    table: &[usize; Universe::MOST_LEVELS as usize],
    lengths: &[u64; WORD_LEVELS],
    offs: [i64; csg::MOST_PLACES],
    distance: i64,
    most: i64,
) -> u64
    requires { BallOver places table.now lengths.now 1 offs distance most }
    ensures { (over : BallOver places table.now lengths.now 1 offs distance most)
        → result ≡ block_mask (ball_colour over.block.universe over.ball) 1 over.block }
{
    let low = near_digit(distance, most);
    let axis = table[0];
    if places <= axis {
        return side_by_side(low, low, 0);
    }
    let length = lengths[0] as i64;
    let off = offs[axis];
    let more = 4 * length * (off + length);
    let high = near_digit(distance + more, most);
    side_by_side(low, high, 0)
}

// The same of four, by both halves.
fn ball_four(
    places: usize,
    table: &[usize; Universe::MOST_LEVELS as usize],
    lengths: &[u64; WORD_LEVELS],
    offs: [i64; csg::MOST_PLACES],
    distance: i64,
    most: i64,
) -> u64
    requires { BallOver places table.now lengths.now 2 offs distance most }
    ensures { (over : BallOver places table.now lengths.now 2 offs distance most)
        → result ≡ block_mask (ball_colour over.block.universe over.ball) 2 over.block }
{
    let low = ball_two(places, table, lengths, offs, distance, most);
    let axis = table[1];
    if places <= axis {
        return side_by_side(low, low, 1);
    }
    let length = lengths[1] as i64;
    let off = offs[axis];
    let mut further = offs;
    further[axis] = off + 2 * length;
    let more = 4 * length * (off + length);
    let high = ball_two(places, table, lengths, further, distance + more, most);
    side_by_side(low, high, 1)
}

// The word of a ball over a block, by both halves down to four voxels, which need no call of their own.
fn ball_word(
    places: usize,
    table: &[usize; Universe::MOST_LEVELS as usize],
    lengths: &[u64; WORD_LEVELS],
    left: u64,
    offs: [i64; csg::MOST_PLACES],
    distance: i64,
    most: i64,
) -> u64
    requires { BallOver places table.now lengths.now left offs distance most }
    ensures { (over : BallOver places table.now lengths.now left offs distance most)
        → result ≡ block_mask (ball_colour over.block.universe over.ball) left over.block }
{
    if left == 0 {
        return near_digit(distance, most);
    }
    if left == 1 {
        return ball_two(places, table, lengths, offs, distance, most);
    }
    if left == 2 {
        return ball_four(places, table, lengths, offs, distance, most);
    }
    let n = left - 1;
    let low = ball_word(places, table, lengths, n, offs, distance, most);
    let j = n as usize;
    let axis = table[j];
    if places <= axis {
        return side_by_side(low, low, n);
    }
    let length = lengths[j] as i64;
    let off = offs[axis];
    let mut further = offs;
    further[axis] = off + 2 * length;
    let more = 4 * length * (off + length);
    let high = ball_word(places, table, lengths, n, further, distance + more, most);
    side_by_side(low, high, n)
}

// The word of ball i over the block with these low places.
pub(crate) fn word_of_ball(
    axes: usize,
    rows: &[i64],
    balls: &[i64],
    i: usize,
    table: &[usize; Universe::MOST_LEVELS as usize],
    lengths: &[u64; WORD_LEVELS],
    low: &[u64; Universe::MOST_AXES as usize],
    left: u64,
) -> u64
    requires fact { let surfaces = surfaces_of rows.now balls.now in
        WordBlock surfaces axes table.now lengths.now low.now left }
    requires i_bound { i < ball_count balls.now }
    ensures { let surfaces = surfaces_of rows.now balls.now in
        ((block : WordBlock surfaces axes table.now lengths.now low.now left)
        → result ≡ block_mask (surface_colour surfaces block.universe (ball i)) left (word_block block)) }
{
    let places = axes - 1;
    let offs = offs_of_ball(balls, i, low);
    let distance = distance_of(places, offs);
    let most = most_of_ball(balls, i);
    ball_word(places, table, lengths, left, offs, distance, most)
}

// The word of the surface with this name.
fn surface_word(
    axes: usize,
    rows: &[i64],
    balls: &[i64],
    table: &[usize; Universe::MOST_LEVELS as usize],
    lengths: &[u64; WORD_LEVELS],
    low: &[u64; Universe::MOST_AXES as usize],
    left: u64,
    name: u16,
    values: &[i64; csg::MOST_ROWS],
) -> u64
    requires fact { let surfaces = surfaces_of rows.now balls.now in
        SurfaceWord surfaces axes table.now lengths.now low.now left name }
    requires value_of { ValueOf rows.now low.now values.now (2 * name) }
    ensures { let surfaces = surfaces_of rows.now balls.now in
        ((job : SurfaceWord surfaces axes table.now lengths.now low.now left name)
        → result ≡ block_mask (surface_colour surfaces job.block.universe job.surface) left
        (word_block job.block)) }
{
    if name < csg::FIRST_BALL {
        let i = name as usize - csg::FIRST_HALFSPACE as usize;
        return word_of_row(axes, rows, balls, i, table, lengths, low, left, values);
    }
    let i = (name - csg::FIRST_BALL) as usize;
    word_of_ball(axes, rows, balls, i, table, lengths, low, left)
}

// The code from which on nodes are surfaces' sides; below it a leaf is WHITE or BLACK.
pub(crate) const FIRST_SIDE: u16 = 2 * csg::FIRST_HALFSPACE;

// The word of a leaf with this code: a side that is reversed has the digits exchanged that the block has.
fn leaf_word(
    axes: usize,
    rows: &[i64],
    balls: &[i64],
    table: &[usize; Universe::MOST_LEVELS as usize],
    lengths: &[u64; WORD_LEVELS],
    low: &[u64; Universe::MOST_AXES as usize],
    left: u64,
    code: u16,
    values: &[i64; csg::MOST_ROWS],
) -> u64
    requires fact { let surfaces = surfaces_of rows.now balls.now in
        LeafWord surfaces axes table.now lengths.now low.now left code }
    requires value_of { ValueOf rows.now low.now values.now code }
    ensures { let surfaces = surfaces_of rows.now balls.now in
        ((job : LeafWord surfaces axes table.now lengths.now low.now left code)
        → result ≡ block_mask (plain_colour surfaces job.block.universe job.tree) left (word_block job.block)) }
{
    let ones = all_ones(left);
    if code < FIRST_SIDE {
        if code == 0 {
            return 0;
        }
        return ones;
    }
    let word = surface_word(
        axes,
        rows,
        balls,
        table,
        lengths,
        low,
        left,
        code / 2,
        values,
    );
    if code % 2 == 1 {
        return ones - word;
    }
    word
}

// Two words joined by an operator.
pub(crate) fn joined_word(meet: bool, first: u64, second: u64) -> u64
    ensures { result ≡ joined_word meet first second }
{
    if meet {
        return first & second;
    }
    first | second
}

// The word of one tree, or of two intersected.
pub(crate) fn whole_word(words: &[u64; MOST_SHAPES], pending: usize) -> u64
    ensures { result ≡ whole_word words.now pending }
{
    if pending == 2 {
        return words[0] & words[1];
    }
    words[0]
}

// The word of the trees whose nodes' codes stand from a place on, over the block with these low places: one pass in
// postfix order.
pub(crate) fn trees_word(
    axes: usize,
    rows: &[i64],
    balls: &[i64],
    table: &[usize; Universe::MOST_LEVELS as usize],
    lengths: &[u64; WORD_LEVELS],
    low: &[u64; Universe::MOST_AXES as usize],
    left: u64,
    codes: &[u16],
    from: usize,
    count: usize,
    values: &[i64; csg::MOST_ROWS],
) -> u64
    requires fact { let surfaces = surfaces_of rows.now balls.now in
        TreesWord surfaces axes table.now lengths.now low.now left codes.now from count }
    requires right_values { RightValues rows.now low.now codes.now from count values.now }
    ensures { let surfaces = surfaces_of rows.now balls.now in
        let low = low.entry.now in
        let codes = codes.entry.now in
        ((job : TreesWord surfaces axes table.now lengths.now low left codes from count)
        → result ≡ block_mask (all_colour surfaces job.block.universe job.carried.trees) left
        (word_block job.block)) }
{
    let stop = from + count;
    let mut words = [0u64; MOST_SHAPES];
    let mut pending: usize = 0;
    for i in from..stop {
        let code = codes[i];
        if is_join(code) {
            let joined = joined_word(
                INTERSECTION_NODE <= code,
                words[pending - 2],
                words[pending - 1],
            );
            words[pending - 2] = joined;
            pending -= 1;
        } else {
            words[pending] = leaf_word(axes, rows, balls, table, lengths, low, left, code, values);
            pending += 1;
        }
    }
    whole_word(&words, pending)
}
