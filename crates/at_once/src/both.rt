// The words of both halves of a block, one pass over the codes: what both halves have alike of a halfspace, its steps
// and its value at the low half's first voxel, is worked out once.
ghost use Rattle.std.specs.Prelude.{◌≡◌, ◌+◌, ◌*◌, ◌^◌, ◌<◌, pos, ◌*ℤ◌, length, get_or};
ghost use Rattle.universe.specs.Universe.{most_axes};
ghost use Rattle.csg.specs.Halfspace.{row_at, row_count};
ghost use Rattle.csg.specs.Ball.{ball_count};
ghost use Rattle.csg.specs.Surfaces.{surfaces_of, halfspace, ball};
ghost use Rattle.csg.specs.Marks.{surface_colour, plain_colour};
ghost use Rattle.pruned.specs.Left.{all_colour};
ghost use Rattle.masks.specs.Block.{block_mask};
ghost use Rattle.at_once.specs.Words.{
  word_levels,
  RowNamed,
  WordBlock,
  word_block,
  SurfaceWord,
  LeafWord,
  TreesWord,
};
ghost use Rattle.at_once.specs.Both.{places_along, BothShelves};
ghost use Rattle.at_once.specs.Moves.{PowerPlace, RowValue, ValueOf, RightValues};

use crate::digits::WORD_LEVELS;
use crate::moves::{amount, doublings};
use crate::prune::{INTERSECTION_NODE, MOST_SHAPES, is_join};
use crate::word::{
    FIRST_SIDE, joined_word, sixty_four, steps_of_row, value_of_row, whole_word, word_of_ball,
};
use universe::Universe;

// The word of the low half, and that of the high half.
#[derive(Clone, Copy)]
pub(crate) struct Both {
    pub below: u64,
    pub above: u64,
}

// What twice the value of row i is more so far along an axis.
fn more_of_row(rows: &[i64], i: usize, axis: usize, half: u64) -> i64
    requires row_named { RowNamed rows.now i }
    requires axis_lt_most_axes { axis < most_axes }
    requires power_place { PowerPlace half }
    ensures { result ≡ pos 2 *ℤ (row_at rows.now i).coefficient axis *ℤ pos half }
{
    let once = amount(rows[csg::ROW_LENGTH * i + 1 + axis], doublings(half));
    once + once
}

// The words of row i over both halves of a block, the low one with these low places.
fn both_of_row(
    axes: usize,
    rows: &[i64],
    balls: &[i64],
    i: usize,
    table: &[usize; Universe::MOST_LEVELS as usize],
    lengths: &[u64; WORD_LEVELS],
    low: &[u64; Universe::MOST_AXES as usize],
    axis: usize,
    half: u64,
    values: &[i64; csg::MOST_ROWS],
) -> Both
    requires fact { let surfaces = surfaces_of rows.now balls.now in
        WordBlock surfaces axes table.now lengths.now low.now word_levels }
    requires fact_2 { let surfaces = surfaces_of rows.now balls.now in
        WordBlock surfaces axes table.now lengths.now (places_along low.now axis half) word_levels }
    requires axis_lt_most_axes { axis < most_axes }
    requires i_bound { i < row_count rows.now }
    requires power_place { PowerPlace half }
    requires row_value { RowValue rows.now low.now values.now i }
    ensures fact_3 { let surfaces = surfaces_of rows.now balls.now in
        let low = low.entry.now in
        ((block : WordBlock surfaces axes table.now lengths.now low word_levels)
        → result.below ≡ block_mask (surface_colour surfaces block.universe (halfspace i)) word_levels
        (word_block block)) }
    ensures fact_4 { let surfaces = surfaces_of rows.now balls.now in
        let high = places_along low.now axis half in
        ((block : WordBlock surfaces axes table.now lengths.now high word_levels)
        → result.above ≡ block_mask (surface_colour surfaces block.universe (halfspace i)) word_levels
        (word_block block)) }
{
    let value = value_of_row(rows, i, values);
    let steps = steps_of_row(rows, i, table, lengths);
    let more = more_of_row(rows, i, axis, half);
    Both {
        below: sixty_four(value, &steps),
        above: sixty_four(value + more, &steps),
    }
}

// Low places so far along an axis.
fn places_along(
    low: &[u64; Universe::MOST_AXES as usize],
    axis: usize,
    half: u64,
) -> [u64; Universe::MOST_AXES as usize]
    requires low_len { length low.now ≡ most_axes }
    requires axis_lt_most_axes { axis < most_axes }
    requires half_bound { get_or low.now axis 0 + half < 2 ^ 64 }
    ensures { result ≡ places_along low.now axis half }
{
    let mut places = *low;
    places[axis] += half;
    places
}

// Those of ball i.
fn both_of_ball(
    axes: usize,
    rows: &[i64],
    balls: &[i64],
    i: usize,
    table: &[usize; Universe::MOST_LEVELS as usize],
    lengths: &[u64; WORD_LEVELS],
    low: &[u64; Universe::MOST_AXES as usize],
    axis: usize,
    half: u64,
) -> Both
    requires fact { let surfaces = surfaces_of rows.now balls.now in
        WordBlock surfaces axes table.now lengths.now low.now word_levels }
    requires fact_2 { let surfaces = surfaces_of rows.now balls.now in
        WordBlock surfaces axes table.now lengths.now (places_along low.now axis half) word_levels }
    requires axis_lt_most_axes { axis < most_axes }
    requires i_bound { i < ball_count balls.now }
    ensures fact_3 { let surfaces = surfaces_of rows.now balls.now in
        let low = low.entry.now in
        ((block : WordBlock surfaces axes table.now lengths.now low word_levels)
        → result.below ≡ block_mask (surface_colour surfaces block.universe (ball i)) word_levels
        (word_block block)) }
    ensures fact_4 { let surfaces = surfaces_of rows.now balls.now in
        let high = places_along low.now axis half in
        ((block : WordBlock surfaces axes table.now lengths.now high word_levels)
        → result.above ≡ block_mask (surface_colour surfaces block.universe (ball i)) word_levels
        (word_block block)) }
{
    let left = WORD_LEVELS as u64;
    let high = places_along(low, axis, half);
    Both {
        below: word_of_ball(axes, rows, balls, i, table, lengths, low, left),
        above: word_of_ball(axes, rows, balls, i, table, lengths, &high, left),
    }
}

// Those of the surface with this name.
fn both_of_surface(
    axes: usize,
    rows: &[i64],
    balls: &[i64],
    table: &[usize; Universe::MOST_LEVELS as usize],
    lengths: &[u64; WORD_LEVELS],
    low: &[u64; Universe::MOST_AXES as usize],
    axis: usize,
    half: u64,
    name: u16,
    values: &[i64; csg::MOST_ROWS],
) -> Both
    requires fact { let surfaces = surfaces_of rows.now balls.now in
        SurfaceWord surfaces axes table.now lengths.now low.now word_levels name }
    requires fact_2 { let surfaces = surfaces_of rows.now balls.now in
        SurfaceWord surfaces axes table.now lengths.now (places_along low.now axis half) word_levels name }
    requires axis_lt_most_axes { axis < most_axes }
    requires power_place { PowerPlace half }
    requires value_of { ValueOf rows.now low.now values.now (2 * name) }
    ensures fact_3 { let surfaces = surfaces_of rows.now balls.now in
        let low = low.entry.now in
        ((job : SurfaceWord surfaces axes table.now lengths.now low word_levels name)
        → result.below ≡ block_mask (surface_colour surfaces job.block.universe job.surface) word_levels
        (word_block job.block)) }
    ensures fact_4 { let surfaces = surfaces_of rows.now balls.now in
        let high = places_along low.now axis half in
        ((job : SurfaceWord surfaces axes table.now lengths.now high word_levels name)
        → result.above ≡ block_mask (surface_colour surfaces job.block.universe job.surface) word_levels
        (word_block job.block)) }
{
    if name < csg::FIRST_BALL {
        let i = name as usize - csg::FIRST_HALFSPACE as usize;
        return both_of_row(
            axes, rows, balls, i, table, lengths, low, axis, half, values,
        );
    }
    let i = (name - csg::FIRST_BALL) as usize;
    both_of_ball(axes, rows, balls, i, table, lengths, low, axis, half)
}

// Those of a leaf with this code: a side that is reversed has the digits exchanged.
fn both_of_leaf(
    axes: usize,
    rows: &[i64],
    balls: &[i64],
    table: &[usize; Universe::MOST_LEVELS as usize],
    lengths: &[u64; WORD_LEVELS],
    low: &[u64; Universe::MOST_AXES as usize],
    axis: usize,
    half: u64,
    code: u16,
    values: &[i64; csg::MOST_ROWS],
) -> Both
    requires fact { let surfaces = surfaces_of rows.now balls.now in
        LeafWord surfaces axes table.now lengths.now low.now word_levels code }
    requires fact_2 { let surfaces = surfaces_of rows.now balls.now in
        LeafWord surfaces axes table.now lengths.now (places_along low.now axis half) word_levels code }
    requires axis_lt_most_axes { axis < most_axes }
    requires power_place { PowerPlace half }
    requires value_of { ValueOf rows.now low.now values.now code }
    ensures fact_3 { let surfaces = surfaces_of rows.now balls.now in
        let low = low.entry.now in
        ((job : LeafWord surfaces axes table.now lengths.now low word_levels code)
        → result.below ≡ block_mask (plain_colour surfaces job.block.universe job.tree) word_levels
        (word_block job.block)) }
    ensures fact_4 { let surfaces = surfaces_of rows.now balls.now in
        let high = places_along low.now axis half in
        ((job : LeafWord surfaces axes table.now lengths.now high word_levels code)
        → result.above ≡ block_mask (plain_colour surfaces job.block.universe job.tree) word_levels
        (word_block job.block)) }
{
    let ones: u64 = 0xffff_ffff_ffff_ffff;
    if code < FIRST_SIDE {
        if code == 0 {
            return Both { below: 0, above: 0 };
        }
        return Both {
            below: ones,
            above: ones,
        };
    }
    let words = both_of_surface(
        axes,
        rows,
        balls,
        table,
        lengths,
        low,
        axis,
        half,
        code / 2,
        values,
    );
    if code % 2 == 1 {
        return Both {
            below: ones - words.below,
            above: ones - words.above,
        };
    }
    words
}

// Those of the trees whose nodes' codes stand from a place on: one pass in postfix order.
pub(crate) fn both_words(
    axes: usize,
    rows: &[i64],
    balls: &[i64],
    table: &[usize; Universe::MOST_LEVELS as usize],
    lengths: &[u64; WORD_LEVELS],
    low: &[u64; Universe::MOST_AXES as usize],
    axis: usize,
    half: u64,
    codes: &[u16],
    from: usize,
    count: usize,
    belows: &mut [u64; MOST_SHAPES],
    aboves: &mut [u64; MOST_SHAPES],
    values: &[i64; csg::MOST_ROWS],
) -> Both
    requires fact { let surfaces = surfaces_of rows.now balls.now in
        TreesWord surfaces axes table.now lengths.now low.now word_levels codes.now from count }
    requires fact_2 { let surfaces = surfaces_of rows.now balls.now in
        let high = places_along low.now axis half in
        TreesWord surfaces axes table.now lengths.now high word_levels codes.now from count }
    requires axis_lt_most_axes { axis < most_axes }
    requires both_shelves { BothShelves belows.old aboves.old }
    requires power_place { PowerPlace half }
    requires right_values { RightValues rows.now low.now codes.now from count values.now }
    ensures fact_3 { let surfaces = surfaces_of rows.now balls.now in
        let low = low.entry.now in
        let codes = codes.entry.now in
        ((job : TreesWord surfaces axes table.now lengths.now low word_levels codes from count)
        → result.below ≡ block_mask (all_colour surfaces job.block.universe job.carried.trees) word_levels
        (word_block job.block)) }
    ensures fact_4 { let surfaces = surfaces_of rows.now balls.now in
        let high = places_along low.now axis half in
        let codes = codes.entry.now in
        ((job : TreesWord surfaces axes table.now lengths.now high word_levels codes from count)
        → result.above ≡ block_mask (all_colour surfaces job.block.universe job.carried.trees) word_levels
        (word_block job.block)) }
    ensures both_shelves_2 { BothShelves belows.new aboves.new }
{
    let stop = from + count;
    let mut pending: usize = 0;
    for i in from..stop {
        let code = codes[i];
        if is_join(code) {
            let meet = INTERSECTION_NODE <= code;
            let below = joined_word(meet, belows[pending - 2], belows[pending - 1]);
            let above = joined_word(meet, aboves[pending - 2], aboves[pending - 1]);
            belows[pending - 2] = below;
            aboves[pending - 2] = above;
            pending -= 1;
        } else {
            let leaf = both_of_leaf(
                axes, rows, balls, table, lengths, low, axis, half, code, values,
            );
            belows[pending] = leaf.below;
            aboves[pending] = leaf.above;
            pending += 1;
        }
    }
    Both {
        below: whole_word(belows, pending),
        above: whole_word(aboves, pending),
    }
}
