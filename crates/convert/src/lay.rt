// The recursion over blocks, which lays the raw or the merged expression of two trees intersected into room.
ghost use Rattle.std.specs.Prelude.{◌≡◌, ◌+◌, ◌^◌, ◌<◌, length};
ghost use Rattle.csg.specs.Surfaces.{surfaces_of};
ghost use Rattle.std.proofs.lemmas.List.Edits.{sets};
ghost use Rattle.bintree.specs.Walks.{laid};
ghost use Rattle.convert.specs.Answers.{written_of_two};
ghost use Rattle.convert.specs.Blocks.{Ready};
ghost use Rattle.convert.specs.Shapes.{
  symbol_of_bits,
  laid_shape,
  is_one,
  piece_of,
  packed,
  unpacked,
  end_limit,
  joined_piece,
  joined_room,
  Half,
};
ghost use Rattle.convert.specs.Slots.{rows_named, slots_of};

use crate::block::{high_lows, turns_left, whole_sides};
use crate::carried::{
    MOST_AMOUNTS, MOST_SLOTS, NO_PLACE, begin, fall_place, move_back, move_to, name_rows,
};
use crate::judge::judge;
use crate::marks::{BLACK_BIT, PAIR_UNIT};
use universe::Universe;

// What laying a block's shape comes to: the symbol of a shape that is one leaf, which is held back, or else 0; and the
// place past what is written or held back. `held` is a byte and no `Option`: it is the very byte that is written later,
// and goes through the recursion in one register with the place.
#[derive(Clone, Copy)]
pub(crate) struct Piece {
    pub held: u8,
    pub end: usize,
}

// What the end of a packed piece is multiplied by.
const HELD_UNIT: usize = 256;

// The symbol of a block that is judged BLACK or WHITE.
pub fn symbol_of(mark: u8) -> u8
    ensures { result ≡ symbol_of_bits mark }
{
    if mark == BLACK_BIT { b'B' } else { b'W' }
}

// Whether two halves are held back as one: leaves of one colour, where shapes are merged.
#[tactic(auto, unfolding(crate::specs::Shapes::is_one))]
pub fn is_one(merging: bool, below: u8, above: u8) -> bool
    ensures { result ≡ is_one merging below above }
{
    merging && bintree::is_alike(below, above)
}

// Joins two halves that are laid behind the place of their `(`: they are held back as one, or `(` and what was held
// back of them is written.
fn join(merging: bool, out: &mut [u8], at: usize, below: Piece, above: Piece) -> Piece
    requires { at + 1 < 2 ^ 64 }
    ensures value { result ≡ joined_piece merging at below above }
    ensures out_after { out.new ≡ joined_room merging out.old at below above }
{
    if is_one(merging, below.held, above.held) {
        return Piece {
            held: below.held,
            end: at + 1,
        };
    }
    bintree::join_halves(out, at, below.held, below.end, above.held);
    Piece {
        held: 0,
        end: above.end,
    }
}

// A piece as one number, in which it comes back from a call: the end, and in the lowest byte what is held back.
fn packed(piece: Piece) -> usize
    requires { piece.end < end_limit }
    ensures { result ≡ packed piece }
{
    piece.end * HELD_UNIT + piece.held as usize
}

// The piece that such a number is.
fn unpacked(number: usize) -> Piece
    ensures { result ≡ unpacked number }
{
    Piece {
        held: (number % HELD_UNIT) as u8,
        end: number / HELD_UNIT,
    }
}

// Lays the shape of a half, merged or as it is, from `at` on, as far as there is room; a leaf is held back. What is
// carried is of the whole. Its piece comes back packed, since two numbers would go through memory. `merging` is an
// argument: of functions with a const parameter that call each other no answer to what a call asks counts as a proof.
#[cycle(lay_half_lay_halves)]
fn lay_half(
    universe: Universe,
    rows: &[i64],
    balls: &[i64],
    first: &[u16],
    second: &[u16],
    axes: &[usize; Universe::MOST_LEVELS as usize],
    turns: &[u64; Universe::MOST_LEVELS as usize],
    low: &[u64; Universe::MOST_AXES as usize],
    side: &mut [u64; Universe::MOST_AXES as usize],
    least: &mut [i64; MOST_SLOTS],
    greatest: &mut [i64; MOST_SLOTS],
    amounts: &[u64; MOST_AMOUNTS],
    from: usize,
    slots: usize,
    one: usize,
    other: usize,
    times: u64,
    left: u64,
    merging: bool,
    out: &mut [u8],
    at: usize,
    mark: u8,
) -> usize
    requires fact { let surfaces = surfaces_of rows.now balls.now in
        Half universe surfaces first.now second.now axes.now turns.now left low.now side.old
        least.old greatest.old amounts.now one other times at mark }
    requires from_value { from ≡ length (rows_named first.now) }
    requires slots_value { slots ≡ length (slots_of first.now second.now) }
    ensures result_value { let surfaces = surfaces_of rows.now balls.now in
        let first = first.entry.now in
        let second = second.entry.now in
        result ≡ packed (piece_of at (laid_shape merging universe surfaces first second left low.now)) }
    ensures out_after { let surfaces = surfaces_of rows.now balls.now in
        let first = first.entry.now in
        let second = second.entry.now in
        out.new
        ≡ laid out.old at (laid_shape merging universe surfaces first second left low.now) }
    ensures side_unchanged { side.new ≡ side.old }
    ensures least_unchanged { (least.new ≡ least.old) × (greatest.new ≡ greatest.old) }
{
    if mark != 0 {
        return packed(Piece {
            held: symbol_of(mark),
            end: at + 1,
        });
    }
    lay_halves(
        universe, rows, balls, first, second, axes, turns, low, side, least, greatest, amounts,
        from, slots, one, other, times, left, merging, out, at,
    )
}

// The same of a half that is undecided: what is carried is moved to it, its own halves are judged, laid and joined, and
// what is carried is moved back.
#[cycle(lay_half_lay_halves)]
fn lay_halves(
    universe: Universe,
    rows: &[i64],
    balls: &[i64],
    first: &[u16],
    second: &[u16],
    axes: &[usize; Universe::MOST_LEVELS as usize],
    turns: &[u64; Universe::MOST_LEVELS as usize],
    low: &[u64; Universe::MOST_AXES as usize],
    side: &mut [u64; Universe::MOST_AXES as usize],
    least: &mut [i64; MOST_SLOTS],
    greatest: &mut [i64; MOST_SLOTS],
    amounts: &[u64; MOST_AMOUNTS],
    from: usize,
    slots: usize,
    one: usize,
    other: usize,
    times: u64,
    left: u64,
    merging: bool,
    out: &mut [u8],
    at: usize,
) -> usize
    requires fact { let surfaces = surfaces_of rows.now balls.now in
        Half universe surfaces first.now second.now axes.now turns.now left low.now side.old
        least.old greatest.old amounts.now one other times at 0 }
    requires from_value { from ≡ length (rows_named first.now) }
    requires slots_value { slots ≡ length (slots_of first.now second.now) }
    ensures result_value { let surfaces = surfaces_of rows.now balls.now in
        let first = first.entry.now in
        let second = second.entry.now in
        result ≡ packed (piece_of at (laid_shape merging universe surfaces first second left low.now)) }
    ensures out_after { let surfaces = surfaces_of rows.now balls.now in
        let first = first.entry.now in
        let second = second.entry.now in
        out.new
        ≡ laid out.old at (laid_shape merging universe surfaces first second left low.now) }
    ensures side_unchanged { side.new ≡ side.old }
    ensures least_unchanged { (least.new ≡ least.old) × (greatest.new ≡ greatest.old) }
{
    move_to(least, greatest, amounts, one, other, times, slots);
    let inner = left - 1;
    let axis = axes[inner as usize];
    let next = turns[inner as usize];
    let whole = side[axis];
    let half = whole / 2;
    let high = high_lows(low, axis, half);
    let fall = fall_place(axis);
    let rise = fall + MOST_SLOTS;
    side[axis] = half;
    let codes = judge(
        universe, rows, balls, first, second, from, low, &high, side, least, greatest, amounts,
        fall, rise, next, inner,
    );
    let below = unpacked(lay_half(
        universe,
        rows,
        balls,
        first,
        second,
        axes,
        turns,
        low,
        side,
        least,
        greatest,
        amounts,
        from,
        slots,
        fall,
        rise,
        next,
        inner,
        merging,
        out,
        at + 1,
        codes % PAIR_UNIT,
    ));
    let middle = below.end;
    let above = unpacked(lay_half(
        universe,
        rows,
        balls,
        first,
        second,
        axes,
        turns,
        &high,
        side,
        least,
        greatest,
        amounts,
        from,
        slots,
        rise,
        fall,
        next,
        inner,
        merging,
        out,
        middle,
        codes / PAIR_UNIT,
    ));
    side[axis] = whole;
    move_back(least, greatest, amounts, one, other, times, slots);
    packed(join(merging, out, at, below, above))
}

// Writes the expression of the whole universe, merged or raw, as far as there is room, and gives its length.
pub(crate) fn write_whole(
    universe: Universe,
    rows: &[i64],
    balls: &[i64],
    first: &[u16],
    second: &[u16],
    merging: bool,
    out: &mut [u8],
) -> usize
    requires { Ready universe (surfaces_of rows.now balls.now) first.now second.now }
    ensures result_value { let surfaces = surfaces_of rows.now balls.now in
        let written = written_of_two merging universe surfaces first.now second.now in
        result ≡ length written }
    ensures out_after { let surfaces = surfaces_of rows.now balls.now in
        let written = written_of_two merging universe surfaces first.now second.now in
        out.new ≡ sets out.old 0 written }
{
    let low = [0u64; Universe::MOST_AXES as usize];
    let mut side = whole_sides(universe);
    let levels = universe.levels();
    let mut slots = [0usize; MOST_SLOTS];
    let from = name_rows(first, 0, &mut slots);
    let count = name_rows(second, from, &mut slots);
    let mut least = [0i64; MOST_SLOTS];
    let mut greatest = [0i64; MOST_SLOTS];
    let mut amounts = [0u64; MOST_AMOUNTS];
    begin(
        universe.axes as usize,
        rows,
        &slots,
        count,
        &side,
        &mut least,
        &mut greatest,
        &mut amounts,
    );
    let codes = judge(
        universe, rows, balls, first, second, from, &low, &low, &side, &least, &greatest, &amounts,
        NO_PLACE, NO_PLACE, 0, levels,
    );
    let mark = codes % PAIR_UNIT;
    if mark != 0 {
        bintree::note(out, 0, symbol_of(mark));
        return 1;
    }
    let axes = universe.axes_left();
    let turns = turns_left(universe, &axes);
    let piece = unpacked(lay_halves(
        universe,
        rows,
        balls,
        first,
        second,
        &axes,
        &turns,
        &low,
        &mut side,
        &mut least,
        &mut greatest,
        &amounts,
        from,
        count,
        NO_PLACE,
        NO_PLACE,
        0,
        levels,
        merging,
        out,
        0,
    ));
    bintree::note(out, 0, piece.held);
    piece.end
}
