// Halfspaces, balls and trees: whether rows are halfspaces of a universe, whether numbers are its balls, and whether
// words are a tree over them.
#![tactic(auto)]

mod ball;

ghost use Rattle.std.specs.Prelude.{◌≡◌, cond, ◌&&◌, ◌+◌, ◌*◌, ◌≤◌, leb, ltb, nat_abs, length};
ghost use Rattle.std.specs.Int.Signed.{le_z};
ghost use Rattle.universe.specs.Universe.{offset_limit, coefficient_limit};
ghost use Rattle.universe.specs.Told.{number_told};
ghost use Rattle.lemmas.specs.Sums.{every};
ghost use Rattle.csg.specs.Halfspace.{row_length, row_count, row_at, within_limits, rows_refusal};
ghost use Rattle.csg.specs.Words.{is_operator, is_among, names_one, is_leaf, tree_refusal, count_words};
ghost use Rattle.csg.specs.Words.{halfspace_words, ball_words};

pub use ball::{BALL_LENGTH, MOST_BALLS, MOST_PLACES, check_balls};
use universe::{Refusal, Universe};

// How many rows there may be, and the numbers of each (rule 2.5).
pub const MOST_ROWS: usize = 256;

pub const ROW_LENGTH: usize = 5;

// How many words a tree may have, and how many shapes may be pending (rule 3.2).
pub const MOST_WORDS: usize = 255;

pub const MOST_PENDING: usize = 32;

// The words (rules 3.1 and 3.8): five that name themselves, from 256 on those that name a halfspace, and from 512 on
// those that name a ball.
pub const WHITE: u16 = 0;

pub const BLACK: u16 = 1;

pub const UNION: u16 = 2;

pub const INTERSECTION: u16 = 3;

pub const MINUS: u16 = 4;

pub const FIRST_HALFSPACE: u16 = 256;

pub const FIRST_BALL: u16 = 512;

// Whether a0 is within its limit.
fn offset_within(value: i64) -> bool
    ensures { result ≡ leb (nat_abs value) offset_limit }
{
    (-Universe::OFFSET_LIMIT..=Universe::OFFSET_LIMIT).contains(&value)
}

// Whether the coefficient of an axis is within its limit, which is 0 above the universe's axes.
fn coefficient_within(axes: u64, axis: u64, value: i64) -> bool
    ensures { result ≡ leb (nat_abs value) (cond (ltb axis axes) coefficient_limit 0) }
{
    if axes <= axis {
        return value == 0;
    }
    (-Universe::COEFFICIENT_LIMIT..=Universe::COEFFICIENT_LIMIT).contains(&value)
}

// Whether a row is within the limits.
fn row_within(universe: Universe, row: &[i64]) -> bool
    requires { length row.now ≡ row_length }
    ensures { result ≡ within_limits universe (row_at row.now 0) }
{
    if !offset_within(row[0]) {
        return false;
    }
    (0..Universe::MOST_AXES).all(|axis| coefficient_within(
        universe.axes,
        axis,
        row[1 + axis as usize],
    ))
}

// Whether all whole rows are within the limits.
fn rows_within(universe: Universe, rows: &[i64]) -> bool
    ensures { result
        ≡ every (row_count rows.now) (λ i. within_limits universe (row_at rows.now i)) }
{
    rows.chunks_exact(ROW_LENGTH)
        .all(|row| row_within(universe, row))
}

// Refused where a row is not whole, or there are too many rows, or one exceeds a limit of the universe.
#[tactic(auto, unfolding(crate::specs::Halfspace::rows_refusal))]
pub fn check_rows(universe: Universe, rows: &[i64]) -> Result<(), Refusal>
    ensures { number_told result ≡ rows_refusal universe rows.now }
{
    if rows.len() % ROW_LENGTH != 0
        || MOST_ROWS < rows.len() / ROW_LENGTH
        || !rows_within(universe, rows)
    {
        return Err(Refusal::BadRows);
    }
    Ok(())
}

// Whether a word joins two shapes.
pub fn is_operator(word: u16) -> bool
    ensures { result ≡ is_operator word }
{
    (UNION..=MINUS).contains(&word)
}

// Whether a word is one of so many from the first on.
fn is_among(first: u16, most: usize, word: u16) -> bool
    ensures { result ≡ is_among first most word }
{
    first <= word && ((word - first) as usize) < most
}

// Whether it is, and names one of those that there are.
fn names_one(first: u16, most: usize, there: u64, word: u16) -> bool
    ensures { result ≡ names_one first most there word }
{
    is_among(first, most, word) && ((word - first) as u64) < there
}

// Whether a word pushes a shape, where there are so many rows and balls.
fn is_leaf(rows: u64, balls: u64, word: u16) -> bool
    ensures { result ≡ is_leaf (record { halfspaces = rows; balls = balls }) word }
{
    word <= BLACK
        || names_one(FIRST_HALFSPACE, MOST_ROWS, rows, word)
        || names_one(FIRST_BALL, MOST_BALLS, balls, word)
}

// Refused where a tree has too many words or shapes pending, or words are no tree over so many rows and balls.
pub fn check_tree(rows: u64, balls: u64, words: &[u16]) -> Result<(), Refusal>
    ensures { number_told result ≡ tree_refusal (record { halfspaces = rows; balls = balls }) words.now }
{
    if MOST_WORDS < words.len() {
        return Err(Refusal::OverfullTree);
    }
    let mut pending: usize = 0;
    for word in words {
        if is_operator(*word) {
            if pending < 2 {
                return Err(Refusal::BadTree);
            }
            pending -= 1;
        } else {
            if !is_leaf(rows, balls, *word) {
                return Err(Refusal::BadTree);
            }
            if MOST_PENDING <= pending {
                return Err(Refusal::OverfullTree);
            }
            pending += 1;
        }
    }
    if pending != 1 {
        return Err(Refusal::BadTree);
    }
    Ok(())
}

// How many of the words are among so many from the first on.
fn count_words(first: u16, most: usize, words: &[u16]) -> u64
    ensures { result ≡ count_words first most words.now }
{
    let mut count = 0;
    for word in words {
        if is_among(first, most, *word) {
            count += 1;
        }
    }
    count
}

// How many of the words name a halfspace.
pub fn halfspace_words(words: &[u16]) -> u64
    ensures { result ≡ halfspace_words words.now }
{
    count_words(FIRST_HALFSPACE, MOST_ROWS, words)
}

// How many of the words name a ball.
pub fn ball_words(words: &[u16]) -> u64
    ensures { result ≡ ball_words words.now }
{
    count_words(FIRST_BALL, MOST_BALLS, words)
}
