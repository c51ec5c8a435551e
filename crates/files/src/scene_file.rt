// Scene files: the header, the refusal, and the rows, the balls and the words into lent arrays.
ghost use Rattle.std.specs.Prelude.{◌≡◌, ◌+◌, ◌*◌, ◌≤◌, eqb, length};
ghost use Rattle.csg.specs.Halfspace.{row_length, rows_refusal};
ghost use Rattle.csg.specs.Ball.{balls_refusal};
ghost use Rattle.csg.specs.Words.{tree_refusal};
ghost use Rattle.files.specs.Numbers.{i64s_at, u16s_at, balls_at, word_bytes};
ghost use Rattle.files.specs.Scenes.{balls_said, row_bytes, ball_bytes, rows_place, words_place};
ghost use Rattle.files.specs.Scenes.{scene_length, has_version, is_scene};
ghost use Rattle.files.specs.Scenes.{scene_header_of, scene_header, named_by, scene_refusal};
ghost use Rattle.files.specs.Told.{accepted_scene_header, scene_header_told, scene_told};
ghost use Rattle.universe.specs.Told.{number_told};
ghost use Rattle.files.specs.Scenes.{scene_answer, rows_after, balls_after, first_words_after, second_words_after};

use crate::decode::{
    FIRST_VERSION, NUMBER_BYTES, SHORT_BYTES, WORD_BYTES, has_header, read_balls, read_numbers,
    read_words, u16_at, universe_said, version_of,
};
use crate::{Counts, Places, Scene, SceneHeader, Window};
use csg::{
    BALL_LENGTH, MOST_BALLS, MOST_ROWS, MOST_WORDS, ROW_LENGTH, check_balls, check_rows, check_tree,
};
use universe::{Refusal, Universe};

// The numbers of all rows of a scene, and of all its balls.
pub const MOST_NUMBERS: usize = MOST_ROWS * ROW_LENGTH;

pub const MOST_BALL_NUMBERS: usize = MOST_BALLS * BALL_LENGTH;

// With what a scene file begins.
const MARK: [u8; 3] = [b'H', b'S', b'C'];

// The version that has frame bits, and the one that has balls too.
const FRAME_VERSION: u64 = 2;

const BALL_VERSION: u64 = 3;

// The length of a scene file's header, of one that counts balls, of a row and of a ball.
const HEADER_LENGTH: usize = 18;

const BALL_HEADER_LENGTH: usize = 20;

const ROW_BYTES: usize = NUMBER_BYTES * ROW_LENGTH;

const BALL_BYTES: usize = SHORT_BYTES * BALL_LENGTH;

// Where the rows begin, which is the length of the header.
#[tactic(auto, unfolding(crate::specs::Scenes::rows_place))]
fn rows_place(bytes: &[u8]) -> usize
    requires { 18 ≤ length bytes.now }
    ensures { result ≡ rows_place bytes.now }
{
    if version_of(bytes) == BALL_VERSION {
        return BALL_HEADER_LENGTH;
    }
    HEADER_LENGTH
}

// The bytes of a file that is as long as its header.
#[derive(Clone, Copy)]
struct SceneFile<'a> {
    bytes: &'a [u8],
    ghost long: { rows_place bytes.now ≤ length bytes.now },
}

impl SceneFile<'_> {
    // How many balls there are.
    #[tactic(auto, unfolding(crate::specs::Scenes::balls_said, crate::specs::Scenes::rows_place))]
    fn balls(&self) -> u16
        ensures { result ≡ balls_said self.now.bytes.now }
    {
        if version_of(self.bytes) == BALL_VERSION {
            return u16_at(self.bytes, HEADER_LENGTH);
        }
        0
    }

    // Whether it is as long as its header says.
    #[tactic(auto, using(crate::proofs::SceneHeaders::header_laws))]
    fn is_whole(&self) -> bool
        ensures { result ≡ eqb (length self.now.bytes.now) (scene_length self.now.bytes.now) }
    {
        let bytes = self.bytes;
        let header = rows_place(bytes);
        let rows = usize::from(u16_at(bytes, 8));
        let balls = usize::from(self.balls());
        let first = usize::from(u16_at(bytes, 10));
        let second = usize::from(u16_at(bytes, 12));
        bytes.len()
            == header + ROW_BYTES * rows + BALL_BYTES * balls + WORD_BYTES * (first + second)
    }

    // Whether its version is read: the first one has a byte 0 where frame bits stand.
    #[tactic(auto, unfolding(crate::specs::Scenes::has_version), using(crate::proofs::SceneHeaders::header_laws))]
    fn has_version(&self) -> bool
        ensures { result ≡ has_version self.now.bytes.now }
    {
        let version = version_of(self.bytes);
        if version == FIRST_VERSION {
            return self.bytes[7] == 0;
        }
        version == FRAME_VERSION || version == BALL_VERSION
    }

    // What its header says.
    #[tactic(auto, using(crate::proofs::SceneHeaders::header_laws))]
    fn header(&self) -> SceneHeader
        ensures { accepted_scene_header result ≡ scene_header_of self.now.bytes.now }
    {
        let bytes = self.bytes;
        let counts = Counts {
            rows: u16_at(bytes, 8).into(),
            balls: self.balls().into(),
            first: u16_at(bytes, 10).into(),
            second: u16_at(bytes, 12).into(),
        };
        let rows = rows_place(bytes);
        let balls = rows + ROW_BYTES * counts.rows as usize;
        let first = balls + BALL_BYTES * counts.balls as usize;
        SceneHeader {
            scene: Scene {
                version: version_of(bytes),
                universe: universe_said(bytes),
                counts,
                window: Window {
                    first: u16_at(bytes, 14).into(),
                    last: u16_at(bytes, 16).into(),
                },
            },
            places: Places {
                rows,
                balls,
                first,
                second: first + WORD_BYTES * counts.first as usize,
            },
        }
    }
}

// Whether the bytes are a scene file by mark, version, zero byte and length.
#[tactic(auto, unfolding(crate::specs::Scenes::is_scene), using(crate::proofs::SceneHeaders::test_laws))]
fn is_scene(bytes: &[u8]) -> bool
    ensures { result ≡ is_scene bytes.now }
{
    if bytes.len() < HEADER_LENGTH || !has_header(bytes, rows_place(bytes), &MARK) {
        return false;
    }
    let file = SceneFile { bytes };
    file.has_version() && file.is_whole()
}

// The header of a scene file, or `BadFile`.
#[tactic(auto, unfolding(crate::specs::Scenes::scene_header), using(crate::proofs::SceneHeaders::scene_whole))]
fn scene_header(bytes: &[u8]) -> Result<SceneHeader, Refusal>
    ensures { scene_header_told result ≡ scene_header bytes.now }
{
    if !is_scene(bytes) {
        return Err(Refusal::BadFile);
    }
    Ok(SceneFile { bytes }.header())
}

// Refused where the rows of a scene are. Rows, balls and words keep a check each: one for all would take the room, the
// refusal, the reader and the check as parameters, and be no shorter.
#[tactic(auto, using(crate::proofs::Scenes::rows_many))]
fn check_rows_at(universe: Universe, bytes: &[u8], at: usize, count: usize) -> Result<(), Refusal>
    requires { at + row_bytes * count ≤ length bytes.now }
    ensures { let rows = i64s_at bytes.now at (row_length * count) in
        number_told result ≡ rows_refusal universe rows }
{
    let mut rows = [0; MOST_NUMBERS];
    let rows = rows.get_mut(..ROW_LENGTH * count).ok_or(Refusal::BadRows)?;
    read_numbers(bytes, at, rows);
    check_rows(universe, rows)
}

// Refused where the balls of a scene are.
#[tactic(auto, using(crate::proofs::Scenes::balls_many))]
fn check_balls_at(universe: Universe, bytes: &[u8], at: usize, count: usize) -> Result<(), Refusal>
    requires { at + ball_bytes * count ≤ length bytes.now }
    ensures { number_told result ≡ balls_refusal universe (balls_at bytes.now at count) }
{
    let mut balls = [0; MOST_BALL_NUMBERS];
    let balls = balls
        .get_mut(..BALL_LENGTH * count)
        .ok_or(Refusal::BadRows)?;
    read_balls(bytes, at, balls);
    check_balls(universe, balls)
}

// Refused where the words of a tree are.
#[tactic(auto, using(crate::proofs::Scenes::words_many))]
fn check_words_at(counts: Counts, bytes: &[u8], at: usize, count: usize) -> Result<(), Refusal>
    requires { at + word_bytes * count ≤ length bytes.now }
    ensures { number_told result ≡ tree_refusal (named_by counts) (u16s_at bytes.now at count) }
{
    let mut words = [0; MOST_WORDS];
    let words = words.get_mut(..count).ok_or(Refusal::OverfullTree)?;
    read_words(bytes, at, words);
    check_tree(counts.rows, counts.balls, words)
}

// Refused where a scene with this header is.
#[tactic(auto, unfolding(crate::specs::Scenes::scene_refusal), using(crate::proofs::Scenes::refusal_laws))]
fn check_scene(bytes: &[u8], header: SceneHeader) -> Result<(), Refusal>
    requires { accepted_scene_header header ≡ scene_header bytes.now }
    ensures { number_told result ≡ scene_refusal bytes.now }
{
    let SceneHeader { scene, places } = header;
    let Scene {
        universe,
        counts,
        window,
        ..
    } = scene;
    universe.check()?;
    check_rows_at(universe, bytes, places.rows, counts.rows as usize)?;
    check_balls_at(universe, bytes, places.balls, counts.balls as usize)?;
    check_words_at(counts, bytes, places.first, counts.first as usize)?;
    check_words_at(counts, bytes, places.second, counts.second as usize)?;
    universe.check_window(window.first, window.last)
}

// Reads a scene: its rows, its balls and the words of its two trees go to the front of the lent arrays; where it is
// refused, nothing does.
#[tactic(auto, using(crate::proofs::Scenes::read_laws))]
pub fn read_scene(
    bytes: &[u8],
    rows: &mut [i64; MOST_NUMBERS],
    balls: &mut [i64; MOST_BALL_NUMBERS],
    first: &mut [u16; MOST_WORDS],
    second: &mut [u16; MOST_WORDS],
) -> Result<Scene, Refusal>
    ensures value { scene_told result ≡ scene_answer bytes.now }
    ensures rows_after { rows.new ≡ rows_after bytes.now rows.old }
    ensures balls_after { balls.new ≡ balls_after bytes.now balls.old }
    ensures first_after { first.new ≡ first_words_after bytes.now first.old }
    ensures second_after { second.new ≡ second_words_after bytes.now second.old }
{
    let header = scene_header(bytes)?;
    check_scene(bytes, header)?;
    let SceneHeader { scene, places } = header;
    let counts = scene.counts;
    read_numbers(
        bytes,
        places.rows,
        &mut rows[..ROW_LENGTH * counts.rows as usize],
    );
    read_balls(
        bytes,
        places.balls,
        &mut balls[..BALL_LENGTH * counts.balls as usize],
    );
    read_words(bytes, places.first, &mut first[..counts.first as usize]);
    read_words(bytes, places.second, &mut second[..counts.second as usize]);
    Ok(scene)
}
