// Answers at once run through the entry points: a line for each question, the number and the verdict, the number and
// the ends, and beside them the verdict in lent room on the same scene; and merged expressions, the number, the length
// and the room, and beside them those of the first conversion; and both conversions in rooms at each edge.
#![tactic(auto)]

mod rooms;

use at_once::Ends;
use bintree::Verdict;
use std::io;
use std::io::Write;
use universe::{Refusal, Universe, Unwritten};

const LENT: usize = 2_048;

// The rows of a mover between t and t + 1, and of a wall from 2 to 3.
const MOVER_AND_WALL: [i64; 20] = [
    0, 1, -1, 0, 0, 1, -1, 1, 0, 0, -2, 1, 0, 0, 0, 3, -1, 0, 0, 0,
];

fn universe(axes: u64, bits: u64, frame_bits: u64) -> Universe {
    Universe {
        axes,
        bits,
        frame_bits,
    }
}

// A verdict behind its number; a refused one is clear.
fn tell(to: &mut impl Write, judged: Result<Verdict, u64>) -> io::Result<()> {
    match judged {
        Ok(Verdict::Clear) => write!(to, " 0 clear"),
        Ok(Verdict::Hit(contact)) => {
            write!(
                to,
                " 0 {} {} {}",
                contact.first, contact.last, contact.voxels
            )
        }
        Err(number) => write!(to, " {number} clear"),
    }
}

// The ends behind their number; refused ones are clear.
fn tell_ends(to: &mut impl Write, ends: Result<Option<Ends>, Refusal>) -> io::Result<()> {
    match ends {
        Ok(None) => write!(to, ", ends 0 clear"),
        Ok(Some(ends)) => write!(to, ", ends 0 {} {}", ends.first, ends.last),
        Err(refusal) => write!(to, ", ends {} clear", refusal.number()),
    }
}

// The verdict in lent room on the same scene.
fn lent_verdict(
    to: &mut impl Write,
    universe: Universe,
    rows: &[i64],
    balls: &[i64],
    first: &[u16],
    second: &[u16],
    first_frame: u64,
    last_frame: u64,
) -> io::Result<()> {
    let mut lent = [b'.'; LENT];
    let answer = convert::verdict_of_two(
        universe,
        rows,
        balls,
        first,
        second,
        first_frame,
        last_frame,
        &mut lent,
    );
    write!(to, ", in room")?;
    let judged = answer
        .map(|clearance| clearance.verdict)
        .map_err(|why| why.number());
    tell(to, judged)
}

// The verdict and the ends at once.
fn both_at_once(
    to: &mut impl Write,
    universe: Universe,
    rows: &[i64],
    balls: &[i64],
    first: &[u16],
    second: &[u16],
    first_frame: u64,
    last_frame: u64,
) -> io::Result<()> {
    let judged = at_once::verdict_at_once(
        universe,
        rows,
        balls,
        first,
        second,
        first_frame,
        last_frame,
    );
    tell(to, judged.map_err(|why| why.number()))?;
    let ends = at_once::ends_at_once(
        universe,
        rows,
        balls,
        first,
        second,
        first_frame,
        last_frame,
    );
    tell_ends(to, ends)
}

// Both questions of two trees over a window.
fn over(
    to: &mut impl Write,
    label: &str,
    universe: Universe,
    rows: &[i64],
    balls: &[i64],
    first: &[u16],
    second: &[u16],
    first_frame: u64,
    last_frame: u64,
) -> io::Result<()> {
    write!(to, "{label}:")?;
    both_at_once(
        to,
        universe,
        rows,
        balls,
        first,
        second,
        first_frame,
        last_frame,
    )?;
    lent_verdict(
        to,
        universe,
        rows,
        balls,
        first,
        second,
        first_frame,
        last_frame,
    )?;
    writeln!(to)
}

// A mover between t and t + 1 and a wall from 2 to 3, in a window.
fn moved(
    to: &mut impl Write,
    label: &str,
    universe: Universe,
    first_frame: u64,
    last_frame: u64,
) -> io::Result<()> {
    over(
        to,
        label,
        universe,
        &MOVER_AND_WALL,
        &[],
        &[256, 257, 3],
        &[258, 259, 3],
        first_frame,
        last_frame,
    )
}

// Universes of four to eight levels, so that a word is the whole, a part of it, or wider than it.
fn levels(to: &mut impl Write) -> io::Result<()> {
    moved(to, "four levels", universe(2, 2, 2), 0, 3)?;
    moved(to, "five levels", universe(2, 2, 3), 0, 7)?;
    moved(to, "six levels", universe(2, 3, 3), 0, 7)?;
    moved(to, "seven levels", universe(2, 3, 4), 0, 15)?;
    moved(to, "eight levels", universe(2, 4, 4), 0, 15)?;
    moved(to, "long frames", universe(2, 2, 6), 0, 63)?;
    moved(to, "wide places", universe(2, 7, 2), 0, 3)
}

// Windows that cut a word, at both ends, within, and past the end.
fn windows(to: &mut impl Write) -> io::Result<()> {
    moved(to, "up to frame 1", universe(2, 3, 4), 0, 1)?;
    moved(to, "frame 1", universe(2, 3, 4), 1, 1)?;
    moved(to, "from frame 2", universe(2, 3, 4), 2, 15)?;
    moved(to, "from frame 3", universe(2, 3, 4), 3, 15)?;
    moved(to, "the last frame", universe(2, 3, 4), 15, 15)?;
    moved(to, "past the last", universe(2, 3, 4), 0, 16)?;
    moved(to, "first after last", universe(2, 3, 4), 2, 1)
}

// A tree of one plane and BLACK over all frames of four axes, 2 bits each.
fn plane_alone(to: &mut impl Write, label: &str, plane: [i64; 5], words: &[u16]) -> io::Result<()> {
    over(to, label, universe(4, 2, 2), &plane, &[], words, &[1], 0, 3)
}

// The same of one ball.
fn ball_alone(to: &mut impl Write, label: &str, ball: [i64; 4], words: &[u16]) -> io::Result<()> {
    over(to, label, universe(4, 2, 2), &[], &ball, words, &[1], 0, 3)
}

// The same of a ball and a plane.
fn ball_and_plane(
    to: &mut impl Write,
    label: &str,
    plane: [i64; 5],
    words: [u16; 3],
) -> io::Result<()> {
    over(
        to,
        label,
        universe(4, 2, 2),
        &plane,
        &[1, 1, 1, 1],
        &words,
        &[1],
        0,
        3,
    )
}

// A plane as it is, reversed, and less itself; and other planes.
fn planes(to: &mut impl Write) -> io::Result<()> {
    let row: &[u16] = &[256];
    plane_alone(to, "through centres", [-9, 2, 2, 2, 0], row)?;
    plane_alone(to, "reversed", [-9, 2, 2, 2, 0], &[1, 256, 4])?;
    plane_alone(to, "less itself", [-9, 2, 2, 2, 0], &[256, 256, 4])?;
    plane_alone(to, "in motion", [-3, 1, 0, 0, 2], row)?;
    plane_alone(to, "five zeros", [0, 0, 0, 0, 0], row)
}

// A ball as it is, reversed, and less itself.
fn balls(to: &mut impl Write) -> io::Result<()> {
    ball_alone(to, "a ball", [2, 2, 2, 2], &[512])?;
    ball_alone(to, "reversed", [2, 2, 2, 2], &[1, 512, 4])?;
    ball_alone(to, "less itself", [2, 2, 2, 2], &[512, 512, 4])
}

// Balls with a plane.
fn balls_and_planes(to: &mut impl Write) -> io::Result<()> {
    ball_and_plane(to, "a ball while it stays", [2, 0, 0, 0, -1], [512, 256, 3])?;
    ball_and_plane(to, "a ball or after", [-3, 0, 0, 0, 1], [512, 256, 2])
}

// A plane and BLACK in a window.
fn plane_over(
    to: &mut impl Write,
    label: &str,
    universe: Universe,
    plane: [i64; 5],
    first_frame: u64,
    last_frame: u64,
) -> io::Result<()> {
    over(
        to,
        label,
        universe,
        &plane,
        &[],
        &[256],
        &[1],
        first_frame,
        last_frame,
    )
}

// BLACK and a constant in a window.
fn black_over(
    to: &mut impl Write,
    label: &str,
    universe: Universe,
    constant: u16,
    first_frame: u64,
    last_frame: u64,
) -> io::Result<()> {
    over(
        to,
        label,
        universe,
        &[],
        &[],
        &[1],
        &[constant],
        first_frame,
        last_frame,
    )
}

// Each number of axes, no bits, and more than is lent.
fn axes(to: &mut impl Write) -> io::Result<()> {
    plane_over(
        to,
        "frames alone",
        universe(1, 0, 7),
        [-3, 2, 0, 0, 0],
        0,
        127,
    )?;
    plane_over(to, "three axes", universe(3, 3, 2), [-7, 1, 1, 1, 0], 1, 2)?;
    black_over(to, "one voxel", universe(4, 0, 0), 1, 0, 0)?;
    black_over(to, "none", universe(4, 0, 0), 0, 0, 0)?;
    plane_over(
        to,
        "more than is lent",
        universe(4, 3, 3),
        [-29, 2, 2, 2, 1],
        0,
        7,
    )?;
    black_over(to, "all of the largest", universe(4, 10, 12), 1, 0, 4_095)?;
    black_over(to, "its last frame", universe(4, 10, 12), 1, 4_095, 4_095)
}

// Each number up to the balls', with a fault behind it.
fn refused_surfaces(to: &mut impl Write) -> io::Result<()> {
    let none: &[i64] = &[];
    let torn: &[i64] = &[0];
    let black: &[u16] = &[1];
    over(
        to,
        "the universe",
        universe(5, 2, 2),
        torn,
        none,
        black,
        black,
        0,
        3,
    )?;
    over(
        to,
        "the rows",
        universe(2, 2, 2),
        torn,
        torn,
        black,
        black,
        0,
        3,
    )?;
    over(
        to,
        "the balls",
        universe(2, 2, 2),
        none,
        torn,
        &[],
        black,
        0,
        3,
    )
}

// Each number of the trees and of the window.
fn refused_trees(to: &mut impl Write) -> io::Result<()> {
    let square = universe(2, 2, 2);
    let none: &[i64] = &[];
    let black: &[u16] = &[1];
    let overfull: &[u16] = &[1; 256];
    over(to, "tree 1", square, none, none, &[256], overfull, 0, 3)?;
    over(to, "tree 2", square, none, none, black, &[], 0, 4)?;
    over(
        to,
        "tree 2 overfull",
        square,
        none,
        none,
        black,
        overfull,
        0,
        4,
    )?;
    over(to, "the window", square, none, none, black, black, 0, 4)
}

// The number of a conversion's answer, and the length written, or how much is needed.
fn tell_length(to: &mut impl Write, written: Result<u64, Unwritten>) -> io::Result<()> {
    match written {
        Ok(length) => write!(to, " 0 {length}"),
        Err(why) => write!(to, " {} {}", why.number(), why.needed()),
    }
}

// What a merged conversion answered and left.
fn tell_room(to: &mut impl Write, written: Result<u64, Unwritten>, room: &[u8]) -> io::Result<()> {
    tell_length(to, written)?;
    write!(to, " ")?;
    to.write_all(room)
}

// A line: what the conversion over codes answered and left, and what the first one did.
fn tell_rooms(
    to: &mut impl Write,
    label: &str,
    found: Result<u64, Unwritten>,
    room: &[u8],
    plain: Result<u64, Unwritten>,
    other: &[u8],
) -> io::Result<()> {
    write!(to, "{label}:")?;
    tell_room(to, found, room)?;
    write!(to, " /")?;
    tell_room(to, plain, other)?;
    writeln!(to)
}

// The merged expression of two trees in a room, and by the first conversion in another.
fn merged_two(
    to: &mut impl Write,
    label: &str,
    universe: Universe,
    rows: &[i64],
    balls: &[i64],
    first: &[u16],
    second: &[u16],
    room: &mut [u8],
    other: &mut [u8],
) -> io::Result<()> {
    let found = at_once::merged_of_two(universe, rows, balls, first, second, room);
    let plain = convert::merged_of_two(universe, rows, balls, first, second, other);
    tell_rooms(to, label, found, room, plain, other)
}

// The same of one tree.
fn merged_one(
    to: &mut impl Write,
    label: &str,
    universe: Universe,
    rows: &[i64],
    balls: &[i64],
    words: &[u16],
    room: &mut [u8],
    other: &mut [u8],
) -> io::Result<()> {
    let found = at_once::merged_of_one(universe, rows, balls, words, room);
    let plain = convert::merged_of_one(universe, rows, balls, words, other);
    tell_rooms(to, label, found, room, plain, other)
}

// The merged expressions of two trees in rooms of this length.
fn merged_two_in(
    to: &mut impl Write,
    label: &str,
    universe: Universe,
    rows: &[i64],
    balls: &[i64],
    first: &[u16],
    second: &[u16],
    lent: usize,
) -> io::Result<()> {
    let mut room = [b'.'; LENT];
    let mut other = [b'.'; LENT];
    if lent <= LENT {
        merged_two(
            to,
            label,
            universe,
            rows,
            balls,
            first,
            second,
            &mut room[..lent],
            &mut other[..lent],
        )?;
    }
    Ok(())
}

// The same of one tree.
fn merged_one_in(
    to: &mut impl Write,
    label: &str,
    universe: Universe,
    rows: &[i64],
    balls: &[i64],
    words: &[u16],
    lent: usize,
) -> io::Result<()> {
    let mut room = [b'.'; LENT];
    let mut other = [b'.'; LENT];
    if lent <= LENT {
        merged_one(
            to,
            label,
            universe,
            rows,
            balls,
            words,
            &mut room[..lent],
            &mut other[..lent],
        )?;
    }
    Ok(())
}

// Both of the mover and the wall.
fn merged_moved(
    to: &mut impl Write,
    label: &str,
    universe: Universe,
    lent: usize,
) -> io::Result<()> {
    merged_two_in(
        to,
        label,
        universe,
        &MOVER_AND_WALL,
        &[],
        &[256, 257, 3],
        &[258, 259, 3],
        lent,
    )
}

// A tree of one plane.
fn merged_plane(
    to: &mut impl Write,
    label: &str,
    universe: Universe,
    plane: [i64; 5],
    words: &[u16],
    lent: usize,
) -> io::Result<()> {
    merged_one_in(to, label, universe, &plane, &[], words, lent)
}

// BLACK.
fn merged_black(
    to: &mut impl Write,
    label: &str,
    universe: Universe,
    lent: usize,
) -> io::Result<()> {
    merged_one_in(to, label, universe, &[], &[], &[1], lent)
}

// Universes of no level to five, which one word holds.
fn merged_small(to: &mut impl Write) -> io::Result<()> {
    merged_black(to, "no level", universe(4, 0, 0), 1)?;
    merged_moved(to, "four levels", universe(2, 2, 2), 13)?;
    merged_moved(to, "five levels", universe(2, 2, 3), 14)
}

// Universes of six levels and more.
fn merged_levels(to: &mut impl Write) -> io::Result<()> {
    merged_moved(to, "six levels", universe(2, 3, 3), 17)?;
    merged_moved(to, "eight levels", universe(2, 4, 4), 22)?;
    merged_moved(to, "long frames", universe(2, 2, 6), 19)?;
    merged_moved(to, "wide places", universe(2, 7, 2), 33)
}

// Each number of axes.
fn merged_axes(to: &mut impl Write) -> io::Result<()> {
    let row: &[u16] = &[256];
    merged_plane(
        to,
        "frames alone",
        universe(1, 0, 7),
        [-3, 2, 0, 0, 0],
        row,
        15,
    )?;
    merged_plane(
        to,
        "three axes",
        universe(3, 3, 2),
        [-7, 1, 1, 1, 0],
        row,
        82,
    )?;
    merged_plane(
        to,
        "four axes",
        universe(4, 2, 2),
        [-9, 2, 2, 2, 0],
        row,
        69,
    )
}

// A plane reversed, less itself, and with the rest.
fn merged_planes(to: &mut impl Write) -> io::Result<()> {
    let plane: [i64; 5] = [-9, 2, 2, 2, 0];
    merged_plane(to, "reversed", universe(4, 2, 2), plane, &[1, 256, 4], 69)?;
    merged_plane(
        to,
        "less itself",
        universe(4, 2, 2),
        plane,
        &[256, 256, 4],
        2,
    )?;
    merged_plane(
        to,
        "with the rest",
        universe(4, 2, 2),
        plane,
        &[256, 1, 256, 4, 2],
        2,
    )
}

// Balls.
fn merged_balls(to: &mut impl Write) -> io::Result<()> {
    let none: &[i64] = &[];
    let ball: &[i64] = &[2, 2, 2, 2];
    merged_one_in(to, "a ball", universe(4, 2, 2), none, ball, &[512], 191)?;
    merged_one_in(
        to,
        "a ball less itself",
        universe(4, 2, 2),
        none,
        ball,
        &[512, 512, 4],
        2,
    )
}

// A ball beside a wall.
fn merged_beside(to: &mut impl Write) -> io::Result<()> {
    merged_two_in(
        to,
        "a ball beside a wall",
        universe(3, 3, 2),
        &[-3, 1, 0, 0, 0],
        &[4, 4, 0, 3],
        &[512],
        &[256],
        200,
    )
}

// Rooms that are exact, a symbol short, and none.
fn merged_rooms(to: &mut impl Write) -> io::Result<()> {
    merged_moved(to, "exact", universe(2, 3, 4), 17)?;
    merged_moved(to, "a symbol short", universe(2, 3, 4), 16)?;
    merged_moved(to, "no room", universe(2, 3, 4), 0)?;
    merged_black(to, "no room for one", universe(2, 3, 4), 0)
}

// Rooms for every expression of the universe, and words whose own room is short.
fn merged_at_once(to: &mut impl Write) -> io::Result<()> {
    let plane: [i64; 5] = [-3, 2, 0, 0, 0];
    let row: &[u16] = &[256];
    merged_plane(
        to,
        "room for all of four levels",
        universe(2, 2, 2),
        plane,
        row,
        31,
    )?;
    merged_plane(
        to,
        "room for all of seven levels",
        universe(2, 3, 4),
        plane,
        row,
        255,
    )?;
    merged_plane(to, "exact", universe(2, 2, 2), plane, row, 9)?;
    merged_plane(to, "a symbol short", universe(2, 2, 2), plane, row, 8)
}

// Words and one more row in the largest universe.
fn merged_largest(to: &mut impl Write, label: &str, words: &[u16]) -> io::Result<()> {
    merged_two_in(
        to,
        label,
        universe(4, 10, 12),
        &[-512, 1, 0, 0, 0],
        &[],
        words,
        &[256],
        5,
    )
}

// The most words whose codes few places hold, and two more, in the largest universe.
fn merged_codes(to: &mut impl Write) -> io::Result<()> {
    let more: [u16; 23] = [
        256, 256, 2, 256, 2, 256, 2, 256, 2, 256, 2, 256, 2, 256, 2, 256, 2, 256, 2, 256, 2, 256, 2,
    ];
    merged_largest(to, "few codes", &more[..21])?;
    merged_largest(to, "more codes", &more)
}

// Each number with a fault behind it.
fn merged_refusals(to: &mut impl Write) -> io::Result<()> {
    let none: &[i64] = &[];
    let torn: &[i64] = &[0];
    let black: &[u16] = &[1];
    merged_one_in(to, "the universe", universe(5, 2, 2), torn, none, black, 2)?;
    merged_one_in(to, "the rows", universe(2, 2, 2), torn, torn, black, 2)?;
    merged_one_in(to, "the balls", universe(2, 2, 2), none, torn, &[], 2)
}

// The trees refused in their order, before room is asked for.
fn merged_trees(to: &mut impl Write) -> io::Result<()> {
    let none: &[i64] = &[];
    let black: &[u16] = &[1];
    let overfull: &[u16] = &[1; 256];
    merged_two_in(
        to,
        "tree 1",
        universe(2, 2, 2),
        none,
        none,
        &[256],
        overfull,
        2,
    )?;
    merged_two_in(to, "tree 2", universe(2, 2, 2), none, none, black, &[], 0)?;
    merged_two_in(
        to,
        "tree 2 overfull",
        universe(2, 2, 2),
        none,
        none,
        black,
        overfull,
        0,
    )
}

// Merged expressions.
fn merged(to: &mut impl Write) -> io::Result<()> {
    merged_small(to)?;
    merged_levels(to)?;
    merged_axes(to)?;
    merged_planes(to)?;
    merged_balls(to)?;
    merged_beside(to)?;
    merged_rooms(to)?;
    merged_at_once(to)?;
    merged_codes(to)?;
    merged_refusals(to)?;
    merged_trees(to)
}

fn main(rt: HostRuntime) -> io::Result<()> {
    let to = &mut rt.stdout();
    levels(to)?;
    windows(to)?;
    planes(to)?;
    balls(to)?;
    balls_and_planes(to)?;
    axes(to)?;
    refused_surfaces(to)?;
    refused_trees(to)?;
    merged(to)?;
    rooms::rooms(to)
}
