// Judging a tree over two blocks at once, or at the centres of two voxels, in one pass over its words.
ghost use Rattle.std.specs.Prelude.{◌≡◌, true, cond, ◌+◌, ◌-◌, ◌≤◌, ◌<◌, pos, ◌+ℤ◌, ◌-ℤ◌, length, get_or};
ghost use Rattle.csg.specs.Surfaces.{surfaces_of, named};
ghost use Rattle.csg.specs.Tree.{leaf};
ghost use Rattle.csg.specs.Words.{names_halfspace, first_halfspace, is_leaf, leaf_of, tree_of, tree_refusal};
ghost use Rattle.convert.specs.Codes.{white_bit, white_bits, paired, with_centres, judged_bits};
ghost use Rattle.convert.specs.Codes.{mark_by_values, colour_by_values, value_code};
ghost use Rattle.convert.specs.Slots.{rows_named, slots_of, most_slots, SmallValue, SmallAmount};
ghost use Rattle.convert.specs.Blocks.{trees_of, block_left, codes_of, full_codes, Judging, Slots};

use crate::ball::codes_of_ball;
use crate::carried::{MOST_AMOUNTS, MOST_SLOTS, names_halfspace};
use crate::marks::{BLACK_BITS, CENTRE_UNIT, WHITE_BITS, join_code, paired, tested_code};
use universe::Universe;

// The mark's bits of a row with this least and this greatest value over a block.
fn mark_by_values(least: i64, greatest: i64) -> u8
    requires small_value { SmallValue least }
    requires small_value_2 { SmallValue greatest }
    ensures value { result ≡ mark_by_values least greatest }
    ensures upper_bound { result ≤ white_bit }
{
    tested_code(0 <= least, greatest <= 0)
}

// The bits of its colour at the centre of the voxel that the block is.
fn colour_by_values(least: i64, greatest: i64) -> u8
    requires small_value { SmallValue least }
    requires small_value_2 { SmallValue greatest }
    ensures value { result ≡ colour_by_values least greatest }
    ensures upper_bound { result ≤ white_bit }
{
    tested_code(0 <= least + greatest, true)
}

// The codes of a row over two blocks, in which its values are moved by one amount and by another.
fn codes_of_values(least: i64, greatest: i64, one: u64, other: u64, centre: bool) -> u8
    requires small_amount { SmallAmount one × SmallAmount other }
    requires small_value { SmallValue least × SmallValue greatest }
    requires small_value_2 { SmallValue (least +ℤ pos one) × SmallValue (greatest -ℤ pos other) }
    requires small_value_3 { SmallValue (least +ℤ pos other) × SmallValue (greatest -ℤ pos one) }
    ensures { let below = value_code centre (least +ℤ pos one) (greatest -ℤ pos other) in
        let above = value_code centre (least +ℤ pos other) (greatest -ℤ pos one) in
        result ≡ paired below above }
{
    let below_least = least + one as i64;
    let below_greatest = greatest - other as i64;
    let above_least = least + other as i64;
    let above_greatest = greatest - one as i64;
    let below = mark_by_values(below_least, below_greatest);
    let above = mark_by_values(above_least, above_greatest);
    let marks = paired(below, above);
    if !centre {
        return marks;
    }
    let below_colour = colour_by_values(below_least, below_greatest);
    let above_colour = colour_by_values(above_least, above_greatest);
    marks + CENTRE_UNIT * paired(below_colour, above_colour)
}

// The codes over two blocks of a leaf that is one colour, by those of its marks.
fn plain_codes(codes: u8, centre: bool) -> u8
    requires { codes ≤ white_bits }
    ensures { result ≡ cond centre (with_centres codes) codes }
{
    if centre {
        codes + CENTRE_UNIT * codes
    } else {
        codes
    }
}

// The codes of a leaf's word over two blocks; the row of one that names a halfspace is in the slot.
fn codes_of_word(
    universe: Universe,
    rows: &[i64],
    balls: &[i64],
    first: &[u16],
    second: &[u16],
    word: u16,
    slot: usize,
    low: &[u64; Universe::MOST_AXES as usize],
    high: &[u64; Universe::MOST_AXES as usize],
    side: &[u64; Universe::MOST_AXES as usize],
    least: &[i64; MOST_SLOTS],
    greatest: &[i64; MOST_SLOTS],
    amounts: &[u64; MOST_AMOUNTS],
    one: usize,
    other: usize,
    times: u64,
    left: u64,
) -> u8
    requires fact { let surfaces = surfaces_of rows.now balls.now in
        Judging universe surfaces first.now second.now left low.now high.now side.now
        least.now greatest.now amounts.now one other times }
    requires word_value { is_leaf (named (surfaces_of rows.now balls.now)) word ≡ true }
    requires fact_2 { let slots = slots_of first.now second.now in
        (names_halfspace word ≡ true → (slot < length slots) × (get_or slots slot 0 ≡ word - first_halfspace)) }
    ensures { let surfaces = surfaces_of rows.now balls.now in
        let below = block_left universe left low.now in
        let above = block_left universe left high.now in
        result ≡ full_codes surfaces (leaf (leaf_of word)) left below above }
{
    let centre = left == 0;
    if names_halfspace(word) {
        return codes_of_values(
            least[slot],
            greatest[slot],
            amounts[one + slot] >> times,
            amounts[other + slot] >> times,
            centre,
        );
    }
    if csg::FIRST_BALL <= word {
        let i = (word - csg::FIRST_BALL) as usize;
        return codes_of_ball(universe.axes as usize, balls, i, low, high, side, centre);
    }
    if word == csg::WHITE {
        return plain_codes(WHITE_BITS, centre);
    }
    plain_codes(BLACK_BITS, centre)
}

// The slot after that of a word.
fn slot_after(word: u16, slot: usize) -> usize
    requires { names_halfspace word ≡ true → slot < most_slots }
    ensures { result ≡ cond (names_halfspace word) (slot + 1) slot }
{
    if names_halfspace(word) {
        slot + 1
    } else {
        slot
    }
}

// The codes of a tree over two blocks, in one pass over its words; the shape that is pending last is `top`. A leaf that
// an operator follows is joined at once.
fn codes_of_tree(
    universe: Universe,
    rows: &[i64],
    balls: &[i64],
    first: &[u16],
    second: &[u16],
    words: &[u16],
    from: usize,
    low: &[u64; Universe::MOST_AXES as usize],
    high: &[u64; Universe::MOST_AXES as usize],
    side: &[u64; Universe::MOST_AXES as usize],
    least: &[i64; MOST_SLOTS],
    greatest: &[i64; MOST_SLOTS],
    amounts: &[u64; MOST_AMOUNTS],
    one: usize,
    other: usize,
    times: u64,
    left: u64,
) -> u8
    requires fact { let surfaces = surfaces_of rows.now balls.now in
        Judging universe surfaces first.now second.now left low.now high.now side.now
        least.now greatest.now amounts.now one other times }
    requires words_value { tree_refusal (named (surfaces_of rows.now balls.now)) words.now ≡ 0 }
    requires slots { Slots (slots_of first.now second.now) words.now from }
    ensures { let surfaces = surfaces_of rows.now balls.now in
        let tree = tree_of (named surfaces) words.now in
        let below = block_left universe left low.now in
        let above = block_left universe left high.now in
        result ≡ full_codes surfaces tree left below above }
{
    let mut pending = [0u8; csg::MOST_PENDING];
    let mut top: u8 = 0;
    let mut n: usize = 0;
    let mut slot = from;
    // By an index: a turn reads one word or two, which no adapter of the library does.
    let mut i: usize = 0;
    while i < words.len() {
        let word = words[i];
        if csg::is_operator(word) {
            n -= 1;
            top = join_code(word, pending[n], top);
            i += 1;
        } else {
            let code = codes_of_word(
                universe, rows, balls, first, second, word, slot, low, high, side, least, greatest,
                amounts, one, other, times, left,
            );
            slot = slot_after(word, slot);
            if let Some(&next) = words.get(i + 1)
                && csg::is_operator(next)
            {
                top = join_code(next, top, code);
                i += 2;
            } else {
                pending[n] = top;
                top = code;
                n += 1;
                i += 1;
            }
        }
    }
    top
}

// The codes of two trees intersected over two blocks, at level L with the colours at the centres. Above it, where the
// first tree is WHITE over both, the second is not asked.
fn codes(
    universe: Universe,
    rows: &[i64],
    balls: &[i64],
    first: &[u16],
    second: &[u16],
    from: usize,
    low: &[u64; Universe::MOST_AXES as usize],
    high: &[u64; Universe::MOST_AXES as usize],
    side: &[u64; Universe::MOST_AXES as usize],
    least: &[i64; MOST_SLOTS],
    greatest: &[i64; MOST_SLOTS],
    amounts: &[u64; MOST_AMOUNTS],
    one: usize,
    other: usize,
    times: u64,
    left: u64,
) -> u8
    requires fact { let surfaces = surfaces_of rows.now balls.now in
        Judging universe surfaces first.now second.now left low.now high.now side.now
        least.now greatest.now amounts.now one other times }
    requires from_value { from ≡ length (rows_named first.now) }
    ensures { let surfaces = surfaces_of rows.now balls.now in
        let trees = trees_of surfaces first.now second.now in
        let below = block_left universe left low.now in
        let above = block_left universe left high.now in
        result ≡ full_codes surfaces trees left below above }
{
    let a = codes_of_tree(
        universe, rows, balls, first, second, first, 0, low, high, side, least, greatest, amounts,
        one, other, times, left,
    );
    if a == WHITE_BITS {
        return WHITE_BITS;
    }
    let b = codes_of_tree(
        universe, rows, balls, first, second, second, from, low, high, side, least, greatest,
        amounts, one, other, times, left,
    );
    join_code(csg::INTERSECTION, a, b)
}

// The bits by which two blocks are judged: the marks' or, at level L, the colours'.
fn judged_bits(centre: bool, codes: u8) -> u8
    ensures { result ≡ judged_bits centre codes }
{
    if centre { codes / CENTRE_UNIT } else { codes }
}

// How two trees intersected are judged over two blocks: the codes of their marks, at level L by the colours at the
// centres.
pub(crate) fn judge(
    universe: Universe,
    rows: &[i64],
    balls: &[i64],
    first: &[u16],
    second: &[u16],
    from: usize,
    low: &[u64; Universe::MOST_AXES as usize],
    high: &[u64; Universe::MOST_AXES as usize],
    side: &[u64; Universe::MOST_AXES as usize],
    least: &[i64; MOST_SLOTS],
    greatest: &[i64; MOST_SLOTS],
    amounts: &[u64; MOST_AMOUNTS],
    one: usize,
    other: usize,
    times: u64,
    left: u64,
) -> u8
    requires fact { let surfaces = surfaces_of rows.now balls.now in
        Judging universe surfaces first.now second.now left low.now high.now side.now
        least.now greatest.now amounts.now one other times }
    requires from_value { from ≡ length (rows_named first.now) }
    ensures { let surfaces = surfaces_of rows.now balls.now in
        let trees = trees_of surfaces first.now second.now in
        let below = block_left universe left low.now in
        let above = block_left universe left high.now in
        result ≡ codes_of surfaces trees left below above }
{
    let codes = codes(
        universe, rows, balls, first, second, from, low, high, side, least, greatest, amounts, one,
        other, times, left,
    );
    judged_bits(left == 0, codes)
}
