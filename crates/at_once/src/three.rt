// Three words of a block at once: a digit for each voxel that is surely black, that is black at its centre, and that is
// possibly black, by its own mark; of a leaf, and of the trees that are carried into the block.
ghost use Rattle.std.specs.Prelude.{◌≡◌, ◌+◌, ◌*◌, ◌≤◌, ◌<◌};
ghost use Rattle.csg.specs.Halfspace.{row_count};
ghost use Rattle.csg.specs.Ball.{ball_count};
ghost use Rattle.csg.specs.Surfaces.{surfaces_of, halfspace, ball};
ghost use Rattle.at_once.specs.Words.{
  word_levels,
  FewValues,
  WordBlock,
  word_block,
  SurfaceWord,
  LeafWord,
  TreesWord,
};
ghost use Rattle.at_once.specs.Moves.{RowValue, ValueOf, RightValues};
ghost use Rattle.at_once.specs.Own.{
  alike_words,
  reversed_words,
  WithinOnes,
  ThreeReady,
  ThreeMasks,
  SurfaceThree,
  TreeThree,
  AllThree,
  ThreeShelves,
};

use crate::digits::{WORD_LEVELS, all_ones};
use crate::own::{own_word_of_ball, reach_of_row, reached};
use crate::pair::{MOST_APART, both_steps, first_pair, pair_of_sixteen};
use crate::prune::{INTERSECTION_NODE, MOST_SHAPES, is_join};
use crate::reaches::{fall_of, rise_of};
use crate::word::{
    FIRST_SIDE, joined_word, row_word, steps_of_row, value_of_row, whole_word, word_of_ball,
};
use universe::Universe;

// The three words.
#[derive(Clone, Copy)]
pub(crate) struct Three {
    pub sure: u64,
    pub centre: u64,
    pub possible: u64,
}

// One word thrice, where there is no doubt.
fn alike(word: u64) -> Three
    ensures { result ≡ alike_words word }
{
    Three {
        sure: word,
        centre: word,
        possible: word,
    }
}

// Those of a reversed side: the digits are exchanged, and sure is what was not possible.
fn reversed(ones: u64, words: Three) -> Three
    requires { WithinOnes ones words }
    ensures { result ≡ reversed_words ones words }
{
    Three {
        sure: ones - words.possible,
        centre: ones - words.centre,
        possible: ones - words.sure,
    }
}

// Those of 64 voxels from three values and their steps, all so small that two values have room in one number.
fn pairs_words(below: i64, v: i64, above: i64, steps: &[i64; WORD_LEVELS]) -> Three
    requires few_values { FewValues below steps.now }
    requires few_values_2 { FewValues v steps.now }
    requires few_values_3 { FewValues above steps.now }
    ensures { ThreeMasks below v above steps.now word_levels result }
{
    let both = both_steps(steps);
    let end = both[4];
    let sure = first_pair(below, steps);
    let centre = first_pair(v, steps);
    let possible = first_pair(above, steps);
    Three {
        sure: pair_of_sixteen(sure, &both) | pair_of_sixteen(sure + end, &both) << 16,
        centre: pair_of_sixteen(centre, &both) | pair_of_sixteen(centre + end, &both) << 16,
        possible: pair_of_sixteen(possible, &both) | pair_of_sixteen(possible + end, &both) << 16,
    }
}

// Those of a halfspace over a block with so many levels left, from twice its value at the first voxel's centre with
// its reach taken, itself, and with its reach added: all ones where the least value of all is 0 or more, 0 where the
// greatest is less, and else digit by digit.
fn row_words(below: i64, v: i64, above: i64, steps: &[i64; WORD_LEVELS], left: u64) -> Three
    requires three_ready { ThreeReady below v above steps.now }
    requires left_le_word_levels { left ≤ word_levels }
    ensures { ThreeMasks below v above steps.now left result }
{
    let ones = all_ones(left);
    let least = below + fall_of(steps);
    if 0 <= least {
        return alike(ones);
    }
    let greatest = above + rise_of(steps);
    if greatest < 0 {
        return alike(0);
    }
    if greatest - least < MOST_APART {
        let words = pairs_words(below, v, above, steps);
        return Three {
            sure: words.sure & ones,
            centre: words.centre & ones,
            possible: words.possible & ones,
        };
    }
    Three {
        sure: row_word(below, steps, left),
        centre: row_word(v, steps, left),
        possible: row_word(above, steps, left),
    }
}

// Those of row i over the block with these low places.
fn words_of_row(
    axes: usize,
    rows: &[i64],
    balls: &[i64],
    i: usize,
    table: &[usize; Universe::MOST_LEVELS as usize],
    lengths: &[u64; WORD_LEVELS],
    low: &[u64; Universe::MOST_AXES as usize],
    left: u64,
    values: &[i64; csg::MOST_ROWS],
) -> Three
    requires fact { let surfaces = surfaces_of rows.now balls.now in
        WordBlock surfaces axes table.now lengths.now low.now left }
    requires i_bound { i < row_count rows.now }
    requires row_value { RowValue rows.now low.now values.now i }
    ensures { let surfaces = surfaces_of rows.now balls.now in
        ((block : WordBlock surfaces axes table.now lengths.now low.now left)
        → SurfaceThree surfaces block.universe (halfspace i) left (word_block block) result) }
{
    let value = value_of_row(rows, i, values);
    let steps = steps_of_row(rows, i, table, lengths);
    let reach = reach_of_row(rows, i);
    let less = reached(false, reach);
    let more = reached(true, reach);
    row_words(value + less, value, value + more, &steps, left)
}

// Those of ball i over it.
fn words_of_ball(
    axes: usize,
    rows: &[i64],
    balls: &[i64],
    i: usize,
    table: &[usize; Universe::MOST_LEVELS as usize],
    lengths: &[u64; WORD_LEVELS],
    low: &[u64; Universe::MOST_AXES as usize],
    left: u64,
) -> Three
    requires fact { let surfaces = surfaces_of rows.now balls.now in
        WordBlock surfaces axes table.now lengths.now low.now left }
    requires i_bound { i < ball_count balls.now }
    ensures { let surfaces = surfaces_of rows.now balls.now in
        ((block : WordBlock surfaces axes table.now lengths.now low.now left)
        → SurfaceThree surfaces block.universe (ball i) left (word_block block) result) }
{
    Three {
        sure: own_word_of_ball(false, axes, rows, balls, i, table, lengths, low, left),
        centre: word_of_ball(axes, rows, balls, i, table, lengths, low, left),
        possible: own_word_of_ball(true, axes, rows, balls, i, table, lengths, low, left),
    }
}

// Those of the surface with this name.
fn surface_words(
    axes: usize,
    rows: &[i64],
    balls: &[i64],
    table: &[usize; Universe::MOST_LEVELS as usize],
    lengths: &[u64; WORD_LEVELS],
    low: &[u64; Universe::MOST_AXES as usize],
    left: u64,
    name: u16,
    values: &[i64; csg::MOST_ROWS],
) -> Three
    requires fact { let surfaces = surfaces_of rows.now balls.now in
        SurfaceWord surfaces axes table.now lengths.now low.now left name }
    requires value_of { ValueOf rows.now low.now values.now (2 * name) }
    ensures { let surfaces = surfaces_of rows.now balls.now in
        ((job : SurfaceWord surfaces axes table.now lengths.now low.now left name)
        → SurfaceThree surfaces job.block.universe job.surface left (word_block job.block) result) }
{
    if name < csg::FIRST_BALL {
        let i = (name - csg::FIRST_HALFSPACE) as usize;
        return words_of_row(axes, rows, balls, i, table, lengths, low, left, values);
    }
    let i = (name - csg::FIRST_BALL) as usize;
    words_of_ball(axes, rows, balls, i, table, lengths, low, left)
}

// Those of a leaf with this code.
fn leaf_words(
    axes: usize,
    rows: &[i64],
    balls: &[i64],
    table: &[usize; Universe::MOST_LEVELS as usize],
    lengths: &[u64; WORD_LEVELS],
    low: &[u64; Universe::MOST_AXES as usize],
    left: u64,
    code: u16,
    values: &[i64; csg::MOST_ROWS],
) -> Three
    requires fact { let surfaces = surfaces_of rows.now balls.now in
        LeafWord surfaces axes table.now lengths.now low.now left code }
    requires value_of { ValueOf rows.now low.now values.now code }
    ensures { let surfaces = surfaces_of rows.now balls.now in
        ((job : LeafWord surfaces axes table.now lengths.now low.now left code)
        → TreeThree surfaces job.block.universe job.tree left (word_block job.block) result) }
{
    if code == 0 {
        return alike(0);
    }
    let ones = all_ones(left);
    if code < FIRST_SIDE {
        return alike(ones);
    }
    let words = surface_words(
        axes,
        rows,
        balls,
        table,
        lengths,
        low,
        left,
        code / 2,
        values,
    );
    if code % 2 == 1 {
        return reversed(ones, words);
    }
    words
}

// Those of the trees whose nodes' codes stand from a place on, over the block with these low places: one pass in
// postfix order.
pub(crate) fn three_words(
    axes: usize,
    rows: &[i64],
    balls: &[i64],
    table: &[usize; Universe::MOST_LEVELS as usize],
    lengths: &[u64; WORD_LEVELS],
    low: &[u64; Universe::MOST_AXES as usize],
    left: u64,
    codes: &[u16],
    from: usize,
    count: usize,
    sures: &mut [u64; MOST_SHAPES],
    centres: &mut [u64; MOST_SHAPES],
    possibles: &mut [u64; MOST_SHAPES],
    values: &[i64; csg::MOST_ROWS],
) -> Three
    requires fact { let surfaces = surfaces_of rows.now balls.now in
        TreesWord surfaces axes table.now lengths.now low.now left codes.now from count }
    requires three_shelves { ThreeShelves sures.old centres.old possibles.old }
    requires right_values { RightValues rows.now low.now codes.now from count values.now }
    ensures fact_2 { let surfaces = surfaces_of rows.now balls.now in
        let low = low.entry.now in
        let codes = codes.entry.now in
        ((job : TreesWord surfaces axes table.now lengths.now low left codes from count)
        → AllThree surfaces job.block.universe job.carried.trees left (word_block job.block) result) }
    ensures three_shelves_2 { ThreeShelves sures.new centres.new possibles.new }
{
    let stop = from + count;
    let mut pending: usize = 0;
    for i in from..stop {
        let code = codes[i];
        if is_join(code) {
            let meet = INTERSECTION_NODE <= code;
            let sure = joined_word(meet, sures[pending - 2], sures[pending - 1]);
            let centre = joined_word(meet, centres[pending - 2], centres[pending - 1]);
            let possible = joined_word(meet, possibles[pending - 2], possibles[pending - 1]);
            sures[pending - 2] = sure;
            centres[pending - 2] = centre;
            possibles[pending - 2] = possible;
            pending -= 1;
        } else {
            let leaf = leaf_words(axes, rows, balls, table, lengths, low, left, code, values);
            sures[pending] = leaf.sure;
            centres[pending] = leaf.centre;
            possibles[pending] = leaf.possible;
            pending += 1;
        }
    }
    Three {
        sure: whole_word(sures, pending),
        centre: whole_word(centres, pending),
        possible: whole_word(possibles, pending),
    }
}
