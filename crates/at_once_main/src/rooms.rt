// Conversions over codes, raw and merged, beside the first conversion, in rooms at both sides of each edge: a line for
// each scene, and for each room lent the number and the length, and where answer or room is not that of the first
// conversion, so.
use crate::{MOVER_AND_WALL, tell_length, universe};
use std::io;
use std::io::Write;
use universe::{Universe, Unwritten};

// The most symbols that are lent, more than scratch room ever holds.
const MOST_LENT: usize = 8_192;

// An answer's number, 0 where it is done.
fn number_of(answer: Result<u64, Unwritten>) -> u64 {
    match answer {
        Ok(_) => 0,
        Err(why) => why.number(),
    }
}

// The length written, or how much is needed.
fn length_of(answer: Result<u64, Unwritten>) -> u64 {
    match answer {
        Ok(length) => length,
        Err(why) => why.needed(),
    }
}

// One room: its length, what was answered, and whether that and the room are those of the first conversion.
fn tell_lent(
    to: &mut impl Write,
    lent: usize,
    found: Result<u64, Unwritten>,
    plain: Result<u64, Unwritten>,
    is_same: bool,
) -> io::Result<()> {
    write!(to, "; {lent}:")?;
    tell_length(to, found)?;
    if number_of(found) != number_of(plain) {
        write!(to, " OTHER NUMBER")?;
    }
    if length_of(found) != length_of(plain) {
        write!(to, " OTHER LENGTH")?;
    }
    if !is_same {
        write!(to, " OTHER ROOM")?;
    }
    Ok(())
}

// The expression of two trees over codes, merged or raw.
fn by_codes(
    merging: bool,
    universe: Universe,
    rows: &[i64],
    balls: &[i64],
    first: &[u16],
    second: &[u16],
    out: &mut [u8],
) -> Result<u64, Unwritten> {
    if merging {
        return at_once::merged_of_two(universe, rows, balls, first, second, out);
    }
    at_once::raw_of_two(universe, rows, balls, first, second, out)
}

// The same by the first conversion.
fn by_slots(
    merging: bool,
    universe: Universe,
    rows: &[i64],
    balls: &[i64],
    first: &[u16],
    second: &[u16],
    out: &mut [u8],
) -> Result<u64, Unwritten> {
    if merging {
        return convert::merged_of_two(universe, rows, balls, first, second, out);
    }
    convert::raw_of_two(universe, rows, balls, first, second, out)
}

// Two trees, with so much room.
fn two_in(
    to: &mut impl Write,
    merging: bool,
    universe: Universe,
    rows: &[i64],
    balls: &[i64],
    first: &[u16],
    second: &[u16],
    lent: usize,
) -> io::Result<()> {
    let mut out = [b'.'; MOST_LENT];
    let mut other = [b'.'; MOST_LENT];
    if lent <= MOST_LENT {
        let found = by_codes(
            merging,
            universe,
            rows,
            balls,
            first,
            second,
            &mut out[..lent],
        );
        let plain = by_slots(
            merging,
            universe,
            rows,
            balls,
            first,
            second,
            &mut other[..lent],
        );
        tell_lent(to, lent, found, plain, out == other)?;
    }
    Ok(())
}

// Two trees, merged or raw, with no room, room exact, a symbol short, at both sides of what each scratch room holds,
// and with much.
fn two_rooms(
    to: &mut impl Write,
    merging: bool,
    universe: Universe,
    rows: &[i64],
    balls: &[i64],
    first: &[u16],
    second: &[u16],
) -> io::Result<()> {
    let asked = by_slots(
        merging,
        universe,
        rows,
        balls,
        first,
        second,
        &mut [b'.'; 0],
    );
    let need = length_of(asked) as usize;
    two_in(to, merging, universe, rows, balls, first, second, 0)?;
    two_in(to, merging, universe, rows, balls, first, second, need)?;
    if 0 < need {
        two_in(to, merging, universe, rows, balls, first, second, need - 1)?;
    }
    two_in(to, merging, universe, rows, balls, first, second, 512)?;
    two_in(to, merging, universe, rows, balls, first, second, 513)?;
    two_in(to, merging, universe, rows, balls, first, second, 4_000)?;
    two_in(to, merging, universe, rows, balls, first, second, 4_001)?;
    two_in(to, merging, universe, rows, balls, first, second, MOST_LENT)
}

// A scene of two trees, raw and merged.
fn two(
    to: &mut impl Write,
    label: &str,
    universe: Universe,
    rows: &[i64],
    balls: &[i64],
    first: &[u16],
    second: &[u16],
) -> io::Result<()> {
    write!(to, "{label}, raw")?;
    two_rooms(to, false, universe, rows, balls, first, second)?;
    writeln!(to)?;
    write!(to, "{label}, merged")?;
    two_rooms(to, true, universe, rows, balls, first, second)?;
    writeln!(to)
}

// One tree, raw, with so much room.
fn one_in(
    to: &mut impl Write,
    universe: Universe,
    rows: &[i64],
    balls: &[i64],
    words: &[u16],
    lent: usize,
) -> io::Result<()> {
    let mut out = [b'.'; MOST_LENT];
    let mut other = [b'.'; MOST_LENT];
    if lent <= MOST_LENT {
        let found = at_once::raw_of_one(universe, rows, balls, words, &mut out[..lent]);
        let plain = convert::raw_of_one(universe, rows, balls, words, &mut other[..lent]);
        tell_lent(to, lent, found, plain, out == other)?;
    }
    Ok(())
}

// A scene of one tree, raw, with room exact, a symbol short, and much.
fn one(
    to: &mut impl Write,
    label: &str,
    universe: Universe,
    rows: &[i64],
    balls: &[i64],
    words: &[u16],
) -> io::Result<()> {
    let asked = convert::raw_of_one(universe, rows, balls, words, &mut [b'.'; 0]);
    let need = length_of(asked) as usize;
    write!(to, "{label}, raw of one")?;
    one_in(to, universe, rows, balls, words, need)?;
    if 0 < need {
        one_in(to, universe, rows, balls, words, need - 1)?;
    }
    one_in(to, universe, rows, balls, words, MOST_LENT)?;
    writeln!(to)
}

// A mover between two planes and a wall.
fn moved(to: &mut impl Write, label: &str, universe: Universe) -> io::Result<()> {
    two(
        to,
        label,
        universe,
        &MOVER_AND_WALL,
        &[],
        &[256, 257, 3],
        &[258, 259, 3],
    )
}

// The same in universes of no level and of four to fifteen.
fn levels(to: &mut impl Write) -> io::Result<()> {
    moved(to, "no level", universe(2, 0, 0))?;
    moved(to, "four levels", universe(2, 2, 2))?;
    moved(to, "six levels", universe(2, 3, 3))?;
    moved(to, "seven levels", universe(2, 3, 4))?;
    moved(to, "fifteen levels", universe(2, 10, 5))
}

// A plane and BLACK.
fn plane(to: &mut impl Write, label: &str, universe: Universe, plane: [i64; 5]) -> io::Result<()> {
    two(to, label, universe, &plane, &[], &[256], &[1])
}

// A plane alone.
fn plane_alone(
    to: &mut impl Write,
    label: &str,
    universe: Universe,
    plane: [i64; 5],
) -> io::Result<()> {
    one(to, label, universe, &plane, &[], &[256])
}

// Each number of axes, and expressions that each scratch room holds and that none does.
fn axes(to: &mut impl Write) -> io::Result<()> {
    plane(to, "frames alone", universe(1, 0, 8), [-37, 2, 0, 0, 0])?;
    plane_alone(to, "frames alone", universe(1, 0, 12), [-37, 2, 0, 0, 0])?;
    plane(to, "two axes", universe(2, 7, 7), [-90, 2, 3, 0, 0])?;
    plane(to, "three axes", universe(3, 4, 4), [-21, 1, 2, 1, 0])?;
    plane(to, "five bits", universe(3, 5, 5), [-45, 1, 2, 1, 0])?;
    plane(to, "four axes", universe(4, 3, 3), [-13, 2, 1, 1, 1])?;
    plane_alone(to, "four axes", universe(4, 2, 2), [-9, 2, 2, 2, 0])
}

// A plane less itself, which raw expressions show, and a ball.
fn surfaces(to: &mut impl Write) -> io::Result<()> {
    let none: &[i64] = &[];
    one(
        to,
        "less itself",
        universe(3, 3, 3),
        &[-9, 2, 2, 2, 0],
        none,
        &[256, 256, 4],
    )?;
    one(to, "a ball", universe(4, 2, 2), none, &[2, 2, 2, 2], &[512])
}

// A ball beside a wall.
fn beside(to: &mut impl Write) -> io::Result<()> {
    two(
        to,
        "a ball beside a wall",
        universe(3, 3, 2),
        &[-3, 1, 0, 0, 0],
        &[4, 4, 0, 3],
        &[512],
        &[256],
    )
}

// The most words whose codes the fewest places hold, and two more.
fn fewest_codes(to: &mut impl Write, more: &[u16]) -> io::Result<()> {
    let plane: &[i64] = &[-37, 2, 0, 0, 0];
    let none: &[i64] = &[];
    let fewest: &[u16] = &[256, 256, 2, 256, 2, 256, 2, 256, 2, 256, 2, 256, 2, 256, 2];
    let row: &[u16] = &[256];
    two(
        to,
        "fewest codes",
        universe(1, 0, 7),
        plane,
        none,
        fewest,
        row,
    )?;
    two(to, "more codes", universe(1, 0, 7), plane, none, more, row)
}

// The same of few places.
fn few_codes(to: &mut impl Write, more: &[u16]) -> io::Result<()> {
    let plane: &[i64] = &[-512, 1, 0, 0, 0];
    let none: &[i64] = &[];
    two(
        to,
        "few codes",
        universe(4, 10, 12),
        plane,
        none,
        &[256, 256, 2, 256, 2],
        more,
    )?;
    two(
        to,
        "most codes",
        universe(4, 10, 12),
        plane,
        none,
        &[256, 256, 2, 256, 2, 256, 2],
        more,
    )
}

// Codes at both sides of what their places hold.
fn codes(to: &mut impl Write) -> io::Result<()> {
    let more: [u16; 17] = [
        256, 256, 2, 256, 2, 256, 2, 256, 2, 256, 2, 256, 2, 256, 2, 256, 2,
    ];
    fewest_codes(to, &more)?;
    few_codes(to, &more)
}

// Each number up to the balls', with a fault behind it.
fn refused_surfaces(to: &mut impl Write) -> io::Result<()> {
    let none: &[i64] = &[];
    let torn: &[i64] = &[0];
    let black: &[u16] = &[1];
    two(
        to,
        "the universe",
        universe(5, 2, 2),
        torn,
        none,
        black,
        black,
    )?;
    two(to, "the rows", universe(2, 2, 2), torn, torn, black, black)?;
    two(to, "the balls", universe(2, 2, 2), none, torn, &[], black)
}

// Each number of the trees.
fn refused_trees(to: &mut impl Write) -> io::Result<()> {
    let none: &[i64] = &[];
    let black: &[u16] = &[1];
    let row: &[u16] = &[256];
    two(to, "tree 1", universe(2, 2, 2), none, none, row, &[1; 256])?;
    two(to, "tree 2", universe(2, 2, 2), none, none, black, &[])?;
    one(to, "the tree", universe(2, 2, 2), none, none, row)
}

// All of them.
pub(crate) fn rooms(to: &mut impl Write) -> io::Result<()> {
    levels(to)?;
    axes(to)?;
    surfaces(to)?;
    beside(to)?;
    codes(to)?;
    refused_surfaces(to)?;
    refused_trees(to)
}
