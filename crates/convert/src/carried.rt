// The values that the recursion carries, in slots: of each row that a word names its least and its greatest value over
// the block at hand, and for each axis by how much they move. The amounts are worked out once, for the whole universe,
// and halved where they are used, by a shift: nothing is multiplied below.
ghost use Rattle.std.specs.Prelude.{◌≡◌, true, false, ◌+◌, ◌*◌, ◌≤◌, ◌<◌, length, replicate};
ghost use Rattle.std.proofs.lemmas.List.Edits.{sets};
ghost use Rattle.universe.specs.Universe.{most_axes};
ghost use Rattle.csg.specs.Words.{names_halfspace};
ghost use Rattle.convert.specs.Slots.{fall_place, rows_named, most_slots, part_of, raised, lowered, halved_by};
ghost use Rattle.convert.specs.Slots.{most_amounts, offsets_in, amounts_in, Movable, Slotted, Growing};
ghost use Rattle.convert.specs.Small.{SmallCoefficient, SmallPlace, SmallPlaces};

use universe::Universe;

// How many slots there are at the most: a tree has at most 128 leaves.
pub(crate) const MOST_SLOTS: usize = 256;

// The places for amounts: for each axis two in a slot, and one more that is 0.
pub(crate) const MOST_AMOUNTS: usize = (2 * Universe::MOST_AXES as usize + 1) * MOST_SLOTS;

// From where on there are zeros.
pub(crate) const NO_PLACE: usize = 2 * Universe::MOST_AXES as usize * MOST_SLOTS;

// From where on stand, for an axis, the amounts of the coefficients below 0; those of the others stand behind them.
pub(crate) fn fall_place(axis: usize) -> usize
    requires { axis < most_axes }
    ensures { result ≡ fall_place axis }
{
    axis * (2 * MOST_SLOTS)
}

// Moves the values of a block to one of its halves: the least up by the amounts from one place on, the greatest down by
// those from another, each halved so many times.
pub(crate) fn move_to(
    least: &mut [i64; MOST_SLOTS],
    greatest: &mut [i64; MOST_SLOTS],
    amounts: &[u64; MOST_AMOUNTS],
    one: usize,
    other: usize,
    times: u64,
    count: usize,
)
    requires movable { Movable least.old amounts.now one times count }
    requires movable_2 { Movable greatest.old amounts.now other times count }
    ensures least_after { let amounts = halved_by times amounts.entry.now in
        least.new ≡ raised amounts one count least.old }
    ensures greatest_after { let amounts = halved_by times amounts.entry.now in
        greatest.new ≡ lowered amounts other count greatest.old }
{
    for i in 0..count {
        least[i] += (amounts[one + i] >> times) as i64;
        greatest[i] -= (amounts[other + i] >> times) as i64;
    }
}

// Moves the values of a half back to those of the block.
pub(crate) fn move_back(
    least: &mut [i64; MOST_SLOTS],
    greatest: &mut [i64; MOST_SLOTS],
    amounts: &[u64; MOST_AMOUNTS],
    one: usize,
    other: usize,
    times: u64,
    count: usize,
)
    requires movable { Movable least.old amounts.now one times count }
    requires movable_2 { Movable greatest.old amounts.now other times count }
    ensures least_after { let amounts = halved_by times amounts.entry.now in
        least.new ≡ lowered amounts one count least.old }
    ensures greatest_after { let amounts = halved_by times amounts.entry.now in
        greatest.new ≡ raised amounts other count greatest.old }
{
    move_to(greatest, least, amounts, other, one, times, count);
}

// One part of a coefficient: that above 0, or the size of that below.
fn part_of(above: bool, coefficient: i64) -> u64
    requires { SmallCoefficient coefficient }
    ensures { result ≡ part_of above coefficient }
{
    let part = if above {
        coefficient.max(0)
    } else {
        coefficient.min(0)
    };
    part.unsigned_abs()
}

// Whether a word names a halfspace.
pub(crate) fn names_halfspace(word: u16) -> bool
    ensures { result ≡ names_halfspace word }
{
    csg::FIRST_HALFSPACE <= word && word < csg::FIRST_BALL
}

// The rows that a tree's words name, set into slots from one on; and the slot after them.
pub(crate) fn name_rows(words: &[u16], from: usize, slots: &mut [usize; MOST_SLOTS]) -> usize
    requires { from + length (rows_named words.now) ≤ most_slots }
    ensures value { result ≡ from + length (rows_named words.now) }
    ensures slots_after { slots.new ≡ sets slots.old from (rows_named words.now) }
{
    let mut slot = from;
    for &word in words {
        if names_halfspace(word) {
            slots[slot] = (word - csg::FIRST_HALFSPACE) as usize;
            slot += 1;
        }
    }
    slot
}

// The offsets of the slots' rows.
fn set_offsets(
    rows: &[i64],
    slots: &[usize; MOST_SLOTS],
    count: usize,
    values: &mut [i64; MOST_SLOTS],
)
    requires { Slotted rows.now slots.now count }
    ensures { let rows = rows.entry.now in
        values.new ≡ offsets_in rows slots.now count values.old }
{
    for i in 0..count {
        values[i] = rows[csg::ROW_LENGTH * slots[i]];
    }
}

// One part of their amounts along an axis, from a place on.
fn set_amounts(
    rows: &[i64],
    slots: &[usize; MOST_SLOTS],
    count: usize,
    above: bool,
    axis: usize,
    side: u64,
    from: usize,
    amounts: &mut [u64; MOST_AMOUNTS],
)
    requires slotted { Slotted rows.now slots.now count }
    requires axis_lt_most_axes { axis < most_axes }
    requires small_place { SmallPlace side }
    requires most_slots_bound { from + most_slots ≤ most_amounts }
    ensures { let rows = rows.entry.now in
        amounts.new
        ≡ amounts_in rows slots.now above axis side from count amounts.old }
{
    for i in 0..count {
        let coefficient = rows[csg::ROW_LENGTH * slots[i] + (axis + 1)];
        amounts[from + i] = part_of(above, coefficient) * side;
    }
}

// What one axis gives: its amounts, and by these the block is as long as its side along that axis too.
fn grow(
    rows: &[i64],
    slots: &[usize; MOST_SLOTS],
    count: usize,
    axis: usize,
    side: &[u64; Universe::MOST_AXES as usize],
    least: &mut [i64; MOST_SLOTS],
    greatest: &mut [i64; MOST_SLOTS],
    amounts: &mut [u64; MOST_AMOUNTS],
)
    requires axis_lt_most_axes { axis < most_axes }
    requires growing { Growing rows.now slots.now count side.now axis least.old greatest.old amounts.old }
    ensures { let rows = rows.entry.now in
        let slots = slots.entry.now in
        let side = side.entry.now in
        Growing rows slots count side (axis + 1) least.new greatest.new amounts.new }
{
    let fall = axis * (2 * MOST_SLOTS);
    let rise = fall + MOST_SLOTS;
    let length = side[axis];
    set_amounts(rows, slots, count, false, axis, length, fall, amounts);
    set_amounts(rows, slots, count, true, axis, length, rise, amounts);
    move_back(least, greatest, amounts, fall, rise, 0, count);
}

// The least and the greatest values over the whole universe, and the amounts that its sides make.
pub(crate) fn begin(
    axes: usize,
    rows: &[i64],
    slots: &[usize; MOST_SLOTS],
    count: usize,
    side: &[u64; Universe::MOST_AXES as usize],
    least: &mut [i64; MOST_SLOTS],
    greatest: &mut [i64; MOST_SLOTS],
    amounts: &mut [u64; MOST_AMOUNTS],
)
    requires axes_le_most_axes { axes ≤ most_axes }
    requires slotted { Slotted rows.now slots.now count }
    requires small_places { SmallPlaces side.now }
    requires least_len { (length least.old ≡ most_slots) × (length greatest.old ≡ most_slots) }
    requires amounts_value { amounts.old ≡ replicate most_amounts 0 }
    ensures { let rows = rows.entry.now in
        let slots = slots.entry.now in
        let side = side.entry.now in
        Growing rows slots count side axes least.new greatest.new amounts.new }
{
    set_offsets(rows, slots, count, least);
    set_offsets(rows, slots, count, greatest);
    for axis in 0..axes {
        grow(rows, slots, count, axis, side, least, greatest, amounts);
    }
}
