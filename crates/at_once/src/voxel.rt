// The colour at a voxel's centre as a digit, 1 where it is black: of a surface, of a leaf, and of the trees that are
// carried.
ghost use Rattle.std.specs.Prelude.{◌≡◌, ◌*◌, length};
ghost use Rattle.std.specs.Int.Signed.{le_z};
ghost use Rattle.lemmas.specs.Grid.{count};
ghost use Rattle.csg.specs.Surfaces.{surfaces_of};
ghost use Rattle.csg.specs.Marks.{surface_colour, plain_colour};
ghost use Rattle.pruned.specs.Left.{all_colour};
ghost use Rattle.pruned.specs.Nodes.{most_shapes};
ghost use Rattle.masks.specs.Block.{block_mask};
ghost use Rattle.at_once.specs.Words.{word_block, joined_word, whole_word};
ghost use Rattle.at_once.specs.Voxel.{VoxelSurface, VoxelLeaf, VoxelTrees};
ghost use Rattle.at_once.specs.Moves.{ValueOf, RightValues};

use crate::prune::{INTERSECTION_NODE, MOST_SHAPES, is_join};
use crate::word::{FIRST_SIDE, distance_of, most_of_ball, offs_of_ball, value_of_row};
use universe::Universe;

// 1 where a value reaches the least that is asked.
fn test_digit(least: i64, value: i64) -> u8
    ensures { result ≡ count (le_z least value) }
{
    (least <= value) as u8
}

// The digit of the surface with this name: of a halfspace by its value, of a ball by the distance from its centre.
fn surface_digit(
    axes: usize,
    rows: &[i64],
    balls: &[i64],
    low: &[u64; Universe::MOST_AXES as usize],
    name: u16,
    values: &[i64; csg::MOST_ROWS],
) -> u8
    requires fact { let surfaces = surfaces_of rows.now balls.now in
        VoxelSurface surfaces axes low.now name }
    requires value_of { ValueOf rows.now low.now values.now (2 * name) }
    ensures { let surfaces = surfaces_of rows.now balls.now in
        ((job : VoxelSurface surfaces axes low.now name)
        → result ≡ block_mask (surface_colour surfaces job.word.block.universe job.word.surface) 0
        (word_block job.word.block)) }
{
    if name < csg::FIRST_BALL {
        let i = (name - csg::FIRST_HALFSPACE) as usize;
        return test_digit(0, value_of_row(rows, i, values));
    }
    let i = (name - csg::FIRST_BALL) as usize;
    let offs = offs_of_ball(balls, i, low);
    let distance = distance_of(axes - 1, offs);
    test_digit(distance, most_of_ball(balls, i))
}

// The digit of a leaf with this code: of a side that is reversed it is exchanged.
fn leaf_digit(
    axes: usize,
    rows: &[i64],
    balls: &[i64],
    low: &[u64; Universe::MOST_AXES as usize],
    code: u16,
    values: &[i64; csg::MOST_ROWS],
) -> u8
    requires fact { let surfaces = surfaces_of rows.now balls.now in
        VoxelLeaf surfaces axes low.now code }
    requires value_of { ValueOf rows.now low.now values.now code }
    ensures { let surfaces = surfaces_of rows.now balls.now in
        ((job : VoxelLeaf surfaces axes low.now code)
        → result ≡ block_mask (plain_colour surfaces job.word.block.universe job.word.tree) 0
        (word_block job.word.block)) }
{
    if code == 0 {
        return 0;
    }
    if code < FIRST_SIDE {
        return 1;
    }
    let digit = surface_digit(axes, rows, balls, low, code / 2, values);
    if code % 2 == 1 {
        return 1 - digit;
    }
    digit
}

// Two digits joined by an operator.
fn joined_digit(meet: bool, first: u8, second: u8) -> u8
    ensures { result ≡ joined_word meet first second }
{
    if meet {
        return first & second;
    }
    first | second
}

// The digit of one tree, or of two intersected.
fn whole_digit(digits: &[u8; MOST_SHAPES], pending: usize) -> u8
    ensures { result ≡ whole_word digits.now pending }
{
    if pending == 2 {
        return digits[0] & digits[1];
    }
    digits[0]
}

// The digit of the trees whose nodes' codes stand from a place on: one pass in postfix order.
pub(crate) fn trees_digit(
    axes: usize,
    rows: &[i64],
    balls: &[i64],
    low: &[u64; Universe::MOST_AXES as usize],
    codes: &[u16],
    from: usize,
    count: usize,
    digits: &mut [u8; MOST_SHAPES],
    values: &[i64; csg::MOST_ROWS],
) -> u8
    requires fact { let surfaces = surfaces_of rows.now balls.now in
        VoxelTrees surfaces axes low.now codes.now from count }
    requires digits_len { length digits.old ≡ most_shapes }
    requires right_values { RightValues rows.now low.now codes.now from count values.now }
    ensures fact_2 { let surfaces = surfaces_of rows.now balls.now in
        ((job : VoxelTrees surfaces axes low.now codes.now from count)
        → result ≡ block_mask (all_colour surfaces job.word.block.universe job.word.carried.trees) 0
        (word_block job.word.block)) }
    ensures digits_len_2 { length digits.new ≡ most_shapes }
{
    let stop = from + count;
    let mut pending: usize = 0;
    for i in from..stop {
        let code = codes[i];
        if is_join(code) {
            let joined = joined_digit(
                INTERSECTION_NODE <= code,
                digits[pending - 2],
                digits[pending - 1],
            );
            digits[pending - 2] = joined;
            pending -= 1;
        } else {
            digits[pending] = leaf_digit(axes, rows, balls, low, code, values);
            pending += 1;
        }
    }
    whole_digit(digits, pending)
}
