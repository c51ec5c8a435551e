// Keyed movers run at both sides of every edge: a line for each, with the refusal first, the verdict (hit, first frame,
// last frame, voxels), the length, and the front of the lent room, so that what was not to be written shows as `.`.
#![tactic(auto)]

use bintree::Verdict;
use convert::Clearance;
use standin::{Corners, Proxy, Solid, Triple};
use std::io;
use std::io::Write;
use universe::{Universe, Unwritten};

const LENT: usize = 64;

// What the longest stretch of `long_first` needs, and one less.
const EXACT: usize = 19;

const SHORT: usize = EXACT - 1;

fn universe_of(axes: u64, bits: u64, frame_bits: u64) -> Universe {
    Universe {
        axes,
        bits,
        frame_bits,
    }
}

// A cube of one unit that is displaced by v along x.
fn cube(v: f64) -> Proxy {
    let near = Triple {
        x: 0.0,
        y: 0.0,
        z: 0.0,
    };
    let far = Triple {
        x: 1.0,
        y: 1.0,
        z: 1.0,
    };
    let displacement = Triple {
        x: v,
        y: 0.0,
        z: -0.0,
    };
    Proxy {
        solid: Solid::Box(Corners { near, far }),
        displacement,
    }
}

// An answer, and the room as it is left.
fn told(
    to: &mut impl Write,
    name: &str,
    answer: Result<Clearance, Unwritten>,
    room: &[u8],
) -> io::Result<()> {
    match answer {
        Ok(judged) => {
            match judged.verdict {
                Verdict::Clear => write!(to, "{name}: 0 clear ")?,
                Verdict::Hit(contact) => write!(
                    to,
                    "{name}: 0 hit {} {} {} ",
                    contact.first, contact.last, contact.voxels
                )?,
            }
            write!(to, "{} ", judged.length)?;
        }
        Err(why) => write!(to, "{name}: {} clear {} ", why.number(), why.needed())?,
    }
    to.write_all(room)?;
    writeln!(to)
}

// A cube against everything.
fn against_all(
    to: &mut impl Write,
    name: &str,
    universe: Universe,
    v: f64,
    moments: &[u64],
    corners: &[f64],
) -> io::Result<()> {
    let mut room = [b'.'; LENT];
    let answer = mover::verdict_of_mover(
        universe,
        cube(v),
        moments,
        corners,
        &[],
        &[],
        &[1],
        &mut room,
    );
    told(to, name, answer, &room)
}

// A cube that comes along x, one unit a frame, against rows, balls and words.
fn against(
    to: &mut impl Write,
    name: &str,
    rows: &[i64],
    balls: &[i64],
    words: &[u16],
) -> io::Result<()> {
    let mut room = [b'.'; LENT];
    let answer = mover::verdict_of_mover(
        universe_of(4, 1, 1),
        cube(0.0),
        &[0, 2],
        &[0.0, 0.0, 0.0, 2.0, 0.0, 0.0],
        rows,
        balls,
        words,
        &mut room,
    );
    told(to, name, answer, &room)
}

// The universe and the Box.
fn boxes(to: &mut impl Write) -> io::Result<()> {
    let moments: &[u64] = &[0, 2];
    let keys: &[f64] = &[0.0; 6];
    against_all(to, "three axes", universe_of(3, 1, 1), 0.0, moments, keys)?;
    against_all(
        to,
        "too many bits",
        universe_of(4, 11, 1),
        0.0,
        moments,
        keys,
    )?;
    against_all(to, "stands still", universe_of(4, 1, 1), 0.0, moments, keys)?;
    against_all(to, "displaced", universe_of(4, 1, 1), 0.0625, moments, keys)?;
    against_all(
        to,
        "displaced by no number",
        universe_of(4, 1, 1),
        0.03125,
        moments,
        keys,
    )
}

// Keys: how many there are.
fn counts(to: &mut impl Write) -> io::Result<()> {
    let universe = universe_of(4, 0, 8);
    let moments = [
        100, 101, 102, 103, 104, 105, 106, 107, 108, 109, 110, 111, 112, 113, 114, 115, 116, 117,
        118, 119, 120, 121, 122, 123, 124, 125, 126, 127, 128, 129, 130, 131, 132, 133, 134, 135,
        136, 137, 138, 139, 140, 141, 142, 143, 144, 145, 146, 147, 148, 149, 150, 151, 152, 153,
        154, 155, 156, 157, 158, 159, 160, 161, 162, 163, 164,
    ];
    let corners = [0.0; 195];
    against_all(to, "1 key", universe, 0.0, &moments[..1], &corners[..3])?;
    against_all(to, "2 keys", universe, 0.0, &moments[..2], &corners[..6])?;
    against_all(
        to,
        "64 keys",
        universe,
        0.0,
        &moments[..64],
        &corners[..192],
    )?;
    against_all(to, "65 keys", universe, 0.0, &moments, &corners)
}

// A cube of two keys against everything.
fn two_keys(
    to: &mut impl Write,
    name: &str,
    universe: Universe,
    moments: [u64; 2],
    corners: [f64; 6],
) -> io::Result<()> {
    against_all(to, name, universe, 0.0, &moments, &corners)
}

// Their corners.
fn corners(to: &mut impl Write) -> io::Result<()> {
    let universe = universe_of(4, 0, 6);
    let moments: &[u64] = &[0, 1];
    against_all(
        to,
        "a corner lacks a number",
        universe,
        0.0,
        moments,
        &[0.0; 5],
    )?;
    against_all(to, "a number too many", universe, 0.0, moments, &[0.0; 7])?;
    two_keys(
        to,
        "a number that is not taken",
        universe,
        [0, 1],
        [0.0, 0.0, 0.0, 0.0, 0.0, 0.03125],
    )?;
    two_keys(
        to,
        "a number past the limit",
        universe,
        [0, 1],
        [0.0, 0.0, 0.0, 0.0, 0.0, 4096.0625],
    )
}

// Their moments, behind their corners.
fn moments(to: &mut impl Write) -> io::Result<()> {
    let universe = universe_of(4, 0, 6);
    two_keys(to, "equal moments", universe, [1, 1], [0.0; 6])?;
    two_keys(
        to,
        "to the end of the last frame",
        universe,
        [0, 64],
        [0.0; 6],
    )?;
    two_keys(to, "past it", universe, [0, 65], [0.0; 6])?;
    two_keys(
        to,
        "10 before 11",
        universe,
        [1, 1],
        [0.0, 0.0, 0.0, 0.0, 0.0, 0.03125],
    )
}

// Steps at both sides of the most.
fn far_steps(to: &mut impl Write) -> io::Result<()> {
    let universe = universe_of(4, 1, 2);
    two_keys(
        to,
        "a step of 64",
        universe,
        [3, 4],
        [0.0, 0.0, 0.0, 64.0, 0.0, 0.0],
    )?;
    two_keys(
        to,
        "a step of 64 1/16",
        universe,
        [3, 4],
        [0.0, 0.0, 0.0, 64.0625, 0.0, 0.0],
    )?;
    two_keys(
        to,
        "a step of -64 along z",
        universe,
        [3, 4],
        [0.0, 0.0, 64.0, 0.0, 0.0, 0.0],
    )?;
    two_keys(
        to,
        "a step of -64 1/16 along z",
        universe,
        [3, 4],
        [0.0, 0.0, 64.0625, 0.0, 0.0, 0.0],
    )
}

// Steps that are taken and not, and a corner that is worked back.
fn steps(to: &mut impl Write) -> io::Result<()> {
    let universe = universe_of(4, 1, 2);
    two_keys(
        to,
        "a step of 1/16",
        universe,
        [0, 2],
        [0.0, 0.0, 0.0, 0.0, -0.125, 0.0],
    )?;
    two_keys(
        to,
        "a step of 1/32",
        universe,
        [0, 2],
        [0.0, 0.0, 0.0, 0.0, 0.0, -0.0625],
    )?;
    two_keys(
        to,
        "11 before 12",
        universe,
        [2, 2],
        [0.0, 0.0, 0.0, 0.0, 0.0, -0.0625],
    )?;
    two_keys(
        to,
        "a corner of 4096",
        universe_of(4, 1, 7),
        [64, 128],
        [4096.0, 0.0, 0.0, 0.0, 0.0, 0.0],
    )
}

// Stretches: the first frame of a stretch is its own, and the last key's is no one's.
fn stretches(to: &mut impl Write) -> io::Result<()> {
    let universe = universe_of(4, 1, 2);
    let there = [1.0, 0.0, 0.0, 1.0, 0.0, 0.0, -3.0, 0.0, 0.0];
    against_all(
        to,
        "there, and away in one frame",
        universe,
        0.0,
        &[0, 2, 3],
        &there,
    )?;
    let away = [-3.0, 0.0, 0.0, 1.0, 0.0, 0.0, 1.0, 0.0, 0.0];
    against_all(to, "away, and there", universe, 0.0, &[0, 1, 3], &away)?;
    two_keys(
        to,
        "the last key's moment",
        universe,
        [1, 2],
        [-3.0, 0.0, 0.0, 1.0, 0.0, 0.0],
    )
}

// A static tree of one word over rows.
fn against_word(to: &mut impl Write, name: &str, rows: &[i64], word: u16) -> io::Result<()> {
    against(to, name, rows, &[], &[word])
}

// A static tree of the first ball.
fn against_ball(to: &mut impl Write, name: &str, rows: &[i64], balls: &[i64]) -> io::Result<()> {
    against(to, name, rows, balls, &[512])
}

// The static tree: its rows.
fn rows(to: &mut impl Write) -> io::Result<()> {
    let most: &[i64] = &[0; 1250];
    against_word(to, "250 rows", most, 256)?;
    against_word(to, "251 rows", &[0; 1255], 256)?;
    against_word(to, "row 249", most, 505)?;
    against_word(to, "the mover's first row", most, 506)
}

// What refuses it first, and its words.
fn trees(to: &mut impl Write) -> io::Result<()> {
    let none: &[i64] = &[];
    against_ball(to, "a torn row", &[0; 4], &[0, 0, 0, 1])?;
    against_ball(to, "a torn ball", none, &[0, 0, 0])?;
    against(to, "no words", &[0; 5], none, &[])?;
    against(to, "33 pending", none, none, &[1; 33])
}

// Its balls, and a plane.
fn leaves(to: &mut impl Write) -> io::Result<()> {
    against_word(to, "a ball that is not there", &[0; 5], 512)?;
    against_ball(to, "a ball", &[], &[0, 0, 0, 1])?;
    against_word(to, "half of space", &[-1, 1, 0, 0, 0], 256)
}

// A room for the longest stretch, which is the first, and one symbol less.
fn long_first(to: &mut impl Write, name: &str, room: &mut [u8]) -> io::Result<()> {
    let answer = mover::verdict_of_mover(
        universe_of(4, 1, 2),
        cube(0.0),
        &[0, 1, 3],
        &[-3.0, 0.0, 0.0, 1.0, 0.0, 0.0, 1.0, 0.0, 0.0],
        &[],
        &[],
        &[1],
        room,
    );
    told(to, name, answer, room)
}

fn rooms(to: &mut impl Write) -> io::Result<()> {
    let mut none = [b'.'; 0];
    long_first(to, "no room", &mut none)?;
    let mut short = [b'.'; SHORT];
    long_first(to, "one short", &mut short)?;
    let mut exact = [b'.'; EXACT];
    long_first(to, "exact", &mut exact)?;
    let mut more = [b'.'; LENT];
    long_first(to, "more", &mut more)
}

fn main(rt: HostRuntime) -> io::Result<()> {
    let to = &mut rt.stdout();
    boxes(to)?;
    counts(to)?;
    corners(to)?;
    moments(to)?;
    far_steps(to)?;
    steps(to)?;
    stretches(to)?;
    rows(to)?;
    trees(to)?;
    leaves(to)?;
    rooms(to)
}
