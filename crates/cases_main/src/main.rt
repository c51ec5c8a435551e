// The worked cases run through the entry points: a line for each answer, with the refusal first and every byte of
// the lent room, so that what was not to be written shows as the `.` it was.
#![tactic(auto)]

use bintree::Verdict;
use convert::Clearance;
use std::io;
use std::io::Write;
use universe::{Refusal, Universe, Unwritten};

const LENT: usize = 20;

// The rows of the program's mover and of its wall, and the words of each.
const MOVER_AND_WALL: [i64; 20] = [
    0, 1, -1, 0, 0, 1, -1, 1, 0, 0, -2, 1, 0, 0, 0, 3, -1, 0, 0, 0,
];

const MOVER: [u16; 3] = [256, 257, 3];

const WALL: [u16; 3] = [258, 259, 3];

// d 2, k 2, f 2.
fn square() -> Universe {
    Universe {
        axes: 2,
        bits: 2,
        frame_bits: 2,
    }
}

// An answer's number and its length, and the front of the room that is lent.
fn show(
    to: &mut impl Write,
    label: &str,
    answer: Result<u64, Unwritten>,
    room: &[u8],
) -> io::Result<()> {
    match answer {
        Ok(length) => write!(to, "{label} 0 {length} ")?,
        Err(why) => write!(to, "{label} {} {} ", why.number(), why.needed())?,
    }
    to.write_all(room)?;
    writeln!(to)
}

// One tree, raw and merged.
fn one_tree(to: &mut impl Write, label: &str, rows: &[i64], words: &[u16]) -> io::Result<()> {
    writeln!(to, "{label}")?;
    let mut room = [b'.'; LENT];
    let answer = convert::raw_of_one(square(), rows, &[], words, &mut room);
    show(to, "raw", answer, &room)?;
    let mut room = [b'.'; LENT];
    let answer = convert::merged_of_one(square(), rows, &[], words, &mut room);
    show(to, "merged", answer, &room)
}

// The program's scene, raw, in the room lent.
fn two_trees(to: &mut impl Write, label: &str, room: &mut [u8]) -> io::Result<()> {
    let answer = convert::raw_of_two(square(), &MOVER_AND_WALL, &[], &MOVER, &WALL, room);
    show(to, label, answer, room)
}

// A verdict, which is clear where it is refused, and the answer's number and length.
fn verdict(
    to: &mut impl Write,
    answer: Result<Clearance, Unwritten>,
    room: &[u8],
) -> io::Result<()> {
    match answer.map(|judged| judged.verdict) {
        Ok(Verdict::Hit(contact)) => {
            write!(
                to,
                "hit {} {} {}",
                contact.first, contact.last, contact.voxels
            )?;
        }
        Ok(Verdict::Clear) | Err(_) => write!(to, "clear")?,
    }
    show(to, "", answer.map(|judged| judged.length), room)
}

// The program's scene over a window, in the room lent.
fn window(
    to: &mut impl Write,
    first_frame: u64,
    last_frame: u64,
    room: &mut [u8],
) -> io::Result<()> {
    write!(to, "window {first_frame} {last_frame} ")?;
    let answer = convert::verdict_of_two(
        square(),
        &MOVER_AND_WALL,
        &[],
        &MOVER,
        &WALL,
        first_frame,
        last_frame,
        room,
    );
    verdict(to, answer, room)
}

// The number that refuses a scene before room is asked for.
fn scene(
    to: &mut impl Write,
    label: &str,
    universe: Universe,
    rows: &[i64],
    first: &[u16],
    second: &[u16],
) -> io::Result<()> {
    let checked = convert::check_scene(universe, rows, &[], first, second);
    writeln!(
        to,
        "scene: {label} {}",
        checked.map_or_else(Refusal::number, |()| 0)
    )
}

// Each number up to the rows', with all that comes later wrong too.
fn scenes(to: &mut impl Write) -> io::Result<()> {
    let none: &[u16] = &[];
    let unknown: &[u16] = &[9];
    scene(to, "taken", square(), &[0, 0, 0, 0, 0], &[256], &[1])?;
    scene(
        to,
        "universe",
        Universe::with_equal_bits(5, 2),
        &[0],
        none,
        unknown,
    )?;
    scene(to, "rows", square(), &[0, 0, 0, 1, 0], none, unknown)
}

// Each number of the trees.
fn scene_trees(to: &mut impl Write) -> io::Result<()> {
    let none: &[i64] = &[];
    let pending: &[u16] = &[1; 33];
    scene(to, "tree 1", square(), none, &[9], pending)?;
    scene(to, "tree 2", square(), none, &[1], pending)
}

// Cases 1, 2 and 6: conversions of one tree.
fn one_tree_cases(to: &mut impl Write) -> io::Result<()> {
    one_tree(to, "case 1", &[-2, 2, -1, 0, 0], &[256])?;
    one_tree(
        to,
        "case 2",
        &[-2, 1, 0, 0, 0, -2, 0, 1, 0, 0, 6, -1, -1, 0, 0],
        &[256, 257, 258, 3, 3],
    )?;
    one_tree(to, "case 6", &[0, 0, 0, 0, 0], &[256])
}

// Cases 4 and 10: conversions of two trees.
fn two_tree_cases(to: &mut impl Write) -> io::Result<()> {
    two_trees(to, "case 4", &mut [b'.'; LENT])?;
    two_trees(to, "case 10, 13 lent", &mut [b'.'; 13])?;
    two_trees(to, "case 10, 12 lent", &mut [b'.'; 12])?;
    two_trees(to, "none lent", &mut [])
}

// A window in room enough.
fn whole_window(to: &mut impl Write, first_frame: u64, last_frame: u64) -> io::Result<()> {
    window(to, first_frame, last_frame, &mut [b'.'; LENT])
}

// Cases 4, 5 and 10: verdicts over a window.
fn verdicts(to: &mut impl Write) -> io::Result<()> {
    whole_window(to, 0, 3)?;
    whole_window(to, 0, 0)?;
    whole_window(to, 1, 1)?;
    whole_window(to, 2, 2)?;
    whole_window(to, 3, 3)?;
    whole_window(to, 0, 4)?;
    whole_window(to, 2, 1)?;
    window(to, 0, 3, &mut [b'.'; 12])?;
    window(to, 0, 4, &mut [b'.'; 12])
}

// One row, which is the tree.
fn one_row(to: &mut impl Write, label: &str, row: [i64; 5]) -> io::Result<()> {
    one_tree(to, label, &row, &[256])
}

// Refusals of rows, in their order, and numbers at their limits.
fn refused_rows(to: &mut impl Write) -> io::Result<()> {
    one_tree(to, "a number short of fives", &[0, 0, 0, 0], &[9])?;
    one_tree(to, "nonzero above d", &[0, 0, 0, 1, 0], &[9])?;
    one_row(to, "a0 at its limit", [1_099_511_627_776, 0, 0, 0, 0])?;
    one_row(to, "a0 one over", [-1_099_511_627_777, 0, 0, 0, 0])?;
    one_row(to, "a1 at its limit", [0, -16_777_216, 0, 0, 0])?;
    one_row(to, "a1 one over", [0, 16_777_217, 0, 0, 0])?;
    one_row(
        to,
        "the least i64",
        [-9_223_372_036_854_775_808, 0, 0, 0, 0],
    )
}

// Refusals of words, in their order.
fn refused_words(to: &mut impl Write) -> io::Result<()> {
    let none: &[i64] = &[];
    one_tree(to, "no words", none, &[])?;
    one_tree(to, "an unknown word", none, &[5])?;
    one_tree(to, "an index past the rows", &[0, 0, 0, 0, 0], &[257])?;
    one_tree(to, "an operator with one pending", none, &[1, 2])?;
    one_tree(to, "two left", none, &[1, 1])
}

// A constant less another.
fn constants(to: &mut impl Write) -> io::Result<()> {
    let none: &[i64] = &[];
    one_tree(to, "WHITE less BLACK", none, &[0, 1, 4])?;
    one_tree(to, "BLACK less WHITE", none, &[1, 0, 4])
}

// As many words as a tree may have.
const MOST_WORDS: usize = 255;

// One word more behind those that stand there, where there is place for it: how many stand there then.
fn push(words: &mut [u16; MOST_WORDS], count: usize, word: u16) -> usize {
    if count < MOST_WORDS {
        words[count] = word;
        return count + 1;
    }
    count
}

// So many times two words more.
fn push_pairs(
    words: &mut [u16; MOST_WORDS],
    count: usize,
    pairs: usize,
    one: u16,
    two: u16,
) -> usize {
    let mut end = count;
    for _ in 0..pairs {
        end = push(words, end, one);
        end = push(words, end, two);
    }
    end
}

// A halfspace, and so many more, each joined to those before it.
fn push_long(words: &mut [u16; MOST_WORDS], count: usize, more: usize) -> usize {
    let end = push(words, count, 256);
    push_pairs(words, end, more, 257, 4)
}

// 32 shapes pending, and then joined.
fn push_deep(words: &mut [u16; MOST_WORDS], count: usize) -> usize {
    let leaves = push_pairs(words, count, 16, 256, 257);
    let most = push_pairs(words, leaves, 15, 2, 3);
    push(words, most, 2)
}

// A tree of so many words from the front.
fn front(
    to: &mut impl Write,
    label: &str,
    rows: &[i64],
    words: [u16; MOST_WORDS],
    count: usize,
) -> io::Result<()> {
    if count <= MOST_WORDS {
        one_tree(to, label, rows, &words[..count])?;
    }
    Ok(())
}

// A MINUS A for A of 127 words; and for A with 32 shapes pending, which is taken by itself.
fn long_cuts(to: &mut impl Write, rows: &[i64]) -> io::Result<()> {
    let mut words = [0u16; MOST_WORDS];
    let once = push_long(&mut words, 0, 63);
    let twice = push_long(&mut words, once, 63);
    let end = push(&mut words, twice, 4);
    front(to, "127 words less themselves", rows, words, end)?;
    let mut words = [0u16; MOST_WORDS];
    let once = push_deep(&mut words, 0);
    front(to, "32 shapes pending", rows, words, once)?;
    let twice = push_deep(&mut words, once);
    let end = push(&mut words, twice, 4);
    front(to, "a 33rd shape", rows, words, end)
}

// A prop of one word or one operator cut from itself leaves nothing, also where centres lie on its plane.
fn short_cuts(to: &mut impl Write, rows: &[i64]) -> io::Result<()> {
    one_tree(to, "a plane less itself", rows, &[256, 256, 4])?;
    one_tree(to, "all-zero reversed", rows, &[1, 258, 4])?;
    one_tree(
        to,
        "UNION less itself",
        rows,
        &[256, 257, 2, 256, 257, 2, 4],
    )
}

// The same of the other operators, and of constants.
fn other_cuts(to: &mut impl Write, rows: &[i64]) -> io::Result<()> {
    one_tree(
        to,
        "INTERSECTION less itself",
        rows,
        &[256, 257, 3, 256, 257, 3, 4],
    )?;
    one_tree(
        to,
        "MINUS less itself",
        rows,
        &[256, 257, 4, 256, 257, 4, 4],
    )?;
    one_tree(
        to,
        "constants less themselves",
        rows,
        &[1, 256, 4, 0, 2, 1, 256, 4, 0, 2, 4],
    )
}

// Props cut from themselves.
fn cuts(to: &mut impl Write) -> io::Result<()> {
    let rows: &[i64] = &[-3, 2, 0, 0, 0, 0, 1, -1, 0, 0, 0, 0, 0, 0, 0];
    short_cuts(to, rows)?;
    other_cuts(to, rows)?;
    long_cuts(to, rows)
}

fn main(rt: HostRuntime) -> io::Result<()> {
    let to = &mut rt.stdout();
    one_tree_cases(to)?;
    two_tree_cases(to)?;
    verdicts(to)?;
    refused_rows(to)?;
    refused_words(to)?;
    constants(to)?;
    cuts(to)?;
    scenes(to)?;
    scene_trees(to)
}
