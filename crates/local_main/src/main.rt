// Raw conversions and verdicts in local room run beside the first, at both sides of each size of work room: a line for
// each scene, its levels, words and length, and behind it for each room lent the number and the length, and where
// answer or room is not that of the first conversion, so.
#![tactic(auto)]

use bintree::Verdict;
use convert::Clearance;
use std::io;
use std::io::Write;
use universe::{Universe, Unwritten};

// The most symbols that are lent.
const MOST_LENT: usize = 40_000;

// As many words as a tree may have.
const MOST_WORDS: usize = 255;

const UNION: u16 = 2;

fn universe(axes: u64, bits: u64, frame_bits: u64) -> Universe {
    Universe {
        axes,
        bits,
        frame_bits,
    }
}

// What an answer tells: its number, and the length that is written or needed.
fn told(answer: Result<u64, Unwritten>) -> (u64, u64) {
    match answer {
        Ok(length) => (0, length),
        Err(why) => (why.number(), why.needed()),
    }
}

// One room: its label, what was answered, and whether that and the room are those of the first conversion.
fn tell(
    to: &mut impl Write,
    label: &str,
    found: Result<u64, Unwritten>,
    first: Result<u64, Unwritten>,
    is_same: bool,
) -> io::Result<()> {
    let (refusal, length) = told(found);
    let (first_refusal, first_length) = told(first);
    write!(to, "; {label} {refusal} {length}")?;
    if refusal != first_refusal {
        write!(to, " OTHER NUMBER")?;
    }
    if length != first_length {
        write!(to, " OTHER LENGTH")?;
    }
    if !is_same {
        write!(to, " OTHER ROOM")?;
    }
    Ok(())
}

// One word more behind those that stand there, where there is place for it: how many stand there then.
fn push(words: &mut [u16; MOST_WORDS], count: usize, word: u16) -> usize {
    if count < MOST_WORDS {
        words[count] = word;
        return count + 1;
    }
    count
}

// So many times two words more.
fn push_pairs(
    words: &mut [u16; MOST_WORDS],
    count: usize,
    pairs: usize,
    one: u16,
    two: u16,
) -> usize {
    let mut end = count;
    for _ in 0..pairs {
        end = push(words, end, one);
        end = push(words, end, two);
    }
    end
}

// A leaf and so many more of it, each joined to those before it.
fn push_unions(words: &mut [u16; MOST_WORDS], leaf: u16, more: usize) -> usize {
    let end = push(words, 0, leaf);
    push_pairs(words, end, more, leaf, UNION)
}

// One tree, with so much room.
fn one_in(
    to: &mut impl Write,
    label: &str,
    universe: Universe,
    rows: &[i64],
    balls: &[i64],
    words: &[u16],
    lent: usize,
) -> io::Result<()> {
    let mut out = [b'.'; MOST_LENT];
    let mut other = [b'.'; MOST_LENT];
    if lent <= MOST_LENT {
        let found = local::raw_of_one(universe, rows, balls, words, &mut out[..lent]);
        let first = convert::raw_of_one(universe, rows, balls, words, &mut other[..lent]);
        tell(to, label, found, first, out == other)?;
    }
    Ok(())
}

// Two trees, with so much room.
fn two_in(
    to: &mut impl Write,
    label: &str,
    universe: Universe,
    rows: &[i64],
    balls: &[i64],
    first: &[u16],
    second: &[u16],
    lent: usize,
) -> io::Result<()> {
    let mut out = [b'.'; MOST_LENT];
    let mut other = [b'.'; MOST_LENT];
    if lent <= MOST_LENT {
        let found = local::raw_of_two(universe, rows, balls, first, second, &mut out[..lent]);
        let plain = convert::raw_of_two(universe, rows, balls, first, second, &mut other[..lent]);
        tell(to, label, found, plain, out == other)?;
    }
    Ok(())
}

// A verdict behind its number and length; it is clear where it is refused.
fn tell_verdict(to: &mut impl Write, answer: Result<Clearance, Unwritten>) -> io::Result<()> {
    let (refusal, length) = told(answer.map(|judged| judged.length));
    write!(to, " {refusal} {length}")?;
    match answer.map(|judged| judged.verdict) {
        Ok(Verdict::Hit(contact)) => {
            write!(to, " {} {} {}", contact.first, contact.last, contact.voxels)
        }
        Ok(Verdict::Clear) | Err(_) => write!(to, " clear"),
    }
}

// A verdict, beside it what the first one answers, and whether the room is that of the first.
fn tell_verdicts(
    to: &mut impl Write,
    label: &str,
    found: Result<Clearance, Unwritten>,
    first: Result<Clearance, Unwritten>,
    is_same: bool,
) -> io::Result<()> {
    write!(to, "; {label}")?;
    tell_verdict(to, found)?;
    write!(to, " /")?;
    tell_verdict(to, first)?;
    if !is_same {
        write!(to, " OTHER ROOM")?;
    }
    Ok(())
}

// The verdict of two trees over a window, with so much room: beside it what the first one answers.
fn over(
    to: &mut impl Write,
    label: &str,
    universe: Universe,
    rows: &[i64],
    balls: &[i64],
    first: &[u16],
    second: &[u16],
    first_frame: u64,
    last_frame: u64,
    lent: usize,
) -> io::Result<()> {
    let mut out = [b'.'; MOST_LENT];
    let mut other = [b'.'; MOST_LENT];
    if lent <= MOST_LENT {
        let found = local::verdict_of_two(
            universe,
            rows,
            balls,
            first,
            second,
            first_frame,
            last_frame,
            &mut out[..lent],
        );
        let plain = convert::verdict_of_two(
            universe,
            rows,
            balls,
            first,
            second,
            first_frame,
            last_frame,
            &mut other[..lent],
        );
        tell_verdicts(to, label, found, plain, out == other)?;
    }
    Ok(())
}

// A scene: its levels and its words, whose product with one level more are the nodes, and its symbols.
fn tell_scene(
    to: &mut impl Write,
    label: &str,
    universe: Universe,
    words: usize,
    symbols: u64,
) -> io::Result<()> {
    let levels = universe.levels();
    write!(
        to,
        "{label}: {levels} levels, {words} words, {symbols} symbols"
    )
}

// One tree, with room exact, a symbol short, as the formula says, and at both sides of what little scratch room and
// the most of it holds.
fn one(
    to: &mut impl Write,
    label: &str,
    universe: Universe,
    rows: &[i64],
    balls: &[i64],
    words: &[u16],
) -> io::Result<()> {
    let asked = convert::raw_of_one(universe, rows, balls, words, &mut [b'.'; 0]);
    let (_, symbols) = told(asked);
    let need = symbols as usize;
    tell_scene(to, label, universe, words.len(), symbols)?;
    one_in(to, "exact", universe, rows, balls, words, need)?;
    if 0 < need {
        one_in(to, "short", universe, rows, balls, words, need - 1)?;
    }
    let room = universe.room(csg::halfspace_words(words), csg::ball_words(words));
    let all = room.unwrap_or(0) as usize;
    one_in(to, "formula", universe, rows, balls, words, all)?;
    one_in(to, "little", universe, rows, balls, words, 768)?;
    one_in(to, "past it", universe, rows, balls, words, 769)?;
    one_in(to, "scratch", universe, rows, balls, words, 4_096)?;
    one_in(to, "more", universe, rows, balls, words, 4_097)?;
    writeln!(to)
}

// Two trees, and their verdict over all frames, with so much room.
fn judged_in(
    to: &mut impl Write,
    label: &str,
    universe: Universe,
    rows: &[i64],
    balls: &[i64],
    first: &[u16],
    second: &[u16],
    last_frame: u64,
    lent: usize,
) -> io::Result<()> {
    two_in(to, label, universe, rows, balls, first, second, lent)?;
    over(
        to, "judged", universe, rows, balls, first, second, 0, last_frame, lent,
    )
}

// Two trees as one, and their verdict where room is exact, a symbol short, and as the formula says.
fn two(
    to: &mut impl Write,
    label: &str,
    universe: Universe,
    rows: &[i64],
    balls: &[i64],
    first: &[u16],
    second: &[u16],
    last_frame: u64,
    all: usize,
) -> io::Result<()> {
    let asked = convert::raw_of_two(universe, rows, balls, first, second, &mut [b'.'; 0]);
    let (_, symbols) = told(asked);
    let need = symbols as usize;
    let words = first.len() + second.len();
    tell_scene(to, label, universe, words, symbols)?;
    judged_in(
        to, "exact", universe, rows, balls, first, second, last_frame, need,
    )?;
    if 0 < need {
        judged_in(
            to,
            "short",
            universe,
            rows,
            balls,
            first,
            second,
            last_frame,
            need - 1,
        )?;
    }
    judged_in(
        to, "formula", universe, rows, balls, first, second, last_frame, all,
    )?;
    two_in(to, "scratch", universe, rows, balls, first, second, 4_096)?;
    two_in(to, "more", universe, rows, balls, first, second, 4_097)?;
    writeln!(to)
}

// One tree of so many words from the front.
fn front(
    to: &mut impl Write,
    label: &str,
    universe: Universe,
    rows: &[i64],
    words: [u16; MOST_WORDS],
    count: usize,
) -> io::Result<()> {
    if count <= MOST_WORDS {
        one(to, label, universe, rows, &[], &words[..count])?;
    }
    Ok(())
}

// Two trees of so many words from the front; so much room suffices.
fn fronts(
    to: &mut impl Write,
    label: &str,
    universe: Universe,
    rows: &[i64],
    first: [u16; MOST_WORDS],
    ones: usize,
    second: [u16; MOST_WORDS],
    twos: usize,
    last_frame: u64,
    all: usize,
) -> io::Result<()> {
    if ones <= MOST_WORDS && twos <= MOST_WORDS {
        two(
            to,
            label,
            universe,
            rows,
            &[],
            &first[..ones],
            &second[..twos],
            last_frame,
            all,
        )?;
    }
    Ok(())
}

// One tree: row 0 and so many times more, joined.
fn unions(
    to: &mut impl Write,
    label: &str,
    universe: Universe,
    rows: &[i64],
    more: usize,
) -> io::Result<()> {
    let mut words = [0u16; MOST_WORDS];
    let count = push_unions(&mut words, 256, more);
    front(to, label, universe, rows, words, count)
}

// Two trees: row 0 and so many times more, joined, and row 1 likewise; so many leaves in all.
fn pairs(
    to: &mut impl Write,
    label: &str,
    universe: Universe,
    rows: &[i64],
    more: usize,
    others: usize,
    leaves: u64,
    last_frame: u64,
) -> io::Result<()> {
    let mut first = [0u16; MOST_WORDS];
    let mut second = [0u16; MOST_WORDS];
    let ones = push_unions(&mut first, 256, more);
    let twos = push_unions(&mut second, 257, others);
    let room = universe.room(leaves, 0);
    let all = room.unwrap_or(0) as usize;
    fronts(
        to, label, universe, rows, first, ones, second, twos, last_frame, all,
    )
}

// At both sides of the smallest work room: 32 and 33 nodes of one tree, 32 and 36 of two.
fn fewest(to: &mut impl Write) -> io::Result<()> {
    unions(
        to,
        "one of fewest",
        universe(4, 7, 10),
        &[-48, 1, 0, 0, 0],
        0,
    )?;
    let rows: &[i64] = &[-3, 1, 0, 0, 0, 70, -1, 0, 0, 0];
    unions(to, "one past fewest", universe(1, 0, 10), rows, 1)?;
    pairs(to, "two of fewest", universe(1, 0, 7), rows, 1, 0, 3, 127)?;
    pairs(to, "two past fewest", universe(1, 0, 8), rows, 0, 1, 3, 255)
}

// At both sides of the second: 126 and 129 nodes of one tree, 128 and 130 of two.
fn few(to: &mut impl Write) -> io::Result<()> {
    unions(to, "one of few", universe(2, 5, 12), &[-23, 2, 1, 0, 0], 3)?;
    let rows: &[i64] = &[-3, 1, 0, 0, 0, 70, -1, 0, 0, 0];
    unions(to, "one past few", universe(1, 0, 2), rows, 21)?;
    pairs(to, "two of few", universe(1, 0, 7), rows, 4, 3, 9, 127)?;
    pairs(to, "two past few", universe(1, 0, 12), rows, 2, 2, 6, 2_000)
}

// At both sides of the third: 511 and 513 nodes of one tree, 512 and 516 of two.
fn some(to: &mut impl Write) -> io::Result<()> {
    let rows: &[i64] = &[-23, 2, 1, 0, 0, 900, -3, -1, 0, 0];
    unions(to, "one of some", universe(2, 2, 4), rows, 36)?;
    pairs(to, "two of some", universe(2, 3, 12), rows, 8, 7, 17, 2_000)?;
    let walls = [-16i64, 1, 0, 0, 0];
    unions(to, "one past some", universe(4, 5, 11), &walls, 9)?;
    let walls = [-512i64, 1, 0, 0, 0, -256, 0, 1, 0, 0];
    pairs(
        to,
        "two past some",
        universe(4, 10, 12),
        &walls,
        3,
        2,
        7,
        2_000,
    )
}

// At both sides of the largest: 1,245 and 1,251 nodes of one tree, 1,248 and 1,250 of two.
fn many(to: &mut impl Write) -> io::Result<()> {
    let rows: &[i64] = &[-5, 2, 1, 0, 0, 9, -1, -1, 0, 0];
    unions(to, "one of many", universe(2, 2, 2), rows, 124)?;
    unions(to, "one past many", universe(2, 4, 4), rows, 69)?;
    pairs(to, "two of many", universe(2, 2, 3), rows, 52, 51, 105, 7)?;
    let walls = [-16i64, 1, 0, 0, 0, -8, 0, 1, 0, 0];
    pairs(
        to,
        "two past many",
        universe(4, 5, 9),
        &walls,
        12,
        12,
        26,
        400,
    )
}

// Balls, and a tree that is decided at once.
fn others(to: &mut impl Write) -> io::Result<()> {
    let none: &[i64] = &[];
    let ball: &[i64] = &[4, 4, 0, 3];
    let black: &[u16] = &[1];
    one(to, "a ball", universe(3, 3, 2), none, ball, &[512])?;
    two(
        to,
        "a ball less itself",
        universe(3, 3, 2),
        &[-4, 1, 0, 0, 0],
        ball,
        &[512, 512, 4],
        &[256],
        3,
        900,
    )?;
    two(
        to,
        "BLACK",
        universe(2, 2, 2),
        none,
        none,
        black,
        black,
        3,
        1,
    )
}

// Refusals: the universe, and words that no work room holds.
fn refused_words(to: &mut impl Write) -> io::Result<()> {
    let none: &[i64] = &[];
    one(to, "no universe", universe(5, 2, 2), none, none, &[1])?;
    one(
        to,
        "too many words",
        universe(2, 2, 2),
        none,
        none,
        &[1; 257],
    )?;
    one(
        to,
        "more than nodes",
        universe(2, 2, 2),
        none,
        none,
        &[1; 2_689],
    )
}

// Refusals: a tree, and the window before and behind a tree.
fn refused_windows(to: &mut impl Write) -> io::Result<()> {
    let none: &[i64] = &[];
    let black: &[u16] = &[1];
    two(
        to,
        "no second tree",
        universe(2, 2, 2),
        none,
        none,
        black,
        &[],
        3,
        1,
    )?;
    two(
        to,
        "no window",
        universe(2, 2, 2),
        none,
        none,
        black,
        black,
        4,
        1,
    )?;
    two(
        to,
        "no tree and no window",
        universe(2, 2, 2),
        none,
        none,
        black,
        &[2],
        4,
        1,
    )
}

fn main(rt: HostRuntime) -> io::Result<()> {
    let to = &mut rt.stdout();
    fewest(to)?;
    few(to)?;
    some(to)?;
    many(to)?;
    others(to)?;
    refused_words(to)?;
    refused_windows(to)
}
