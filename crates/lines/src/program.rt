// What is printed for a scene: it is read, its two trees are intersected and judged, and the answer is put into lines.
ghost use Rattle.std.specs.Prelude.{◌≡◌, ◌++◌, length, drop};
ghost use Rattle.csg.specs.Surfaces.{surfaces_of};
ghost use Rattle.files.specs.Told.{accepted_scene};
ghost use Rattle.lines.specs.Program.{judged_lines, scene_lines, program_lines};
ghost use Rattle.lines.specs.Told.{lines_told};

use crate::append::MOST_BYTES;
use crate::line::{Judged, write_lines};
use files::Scene;
use universe::{Refusal, Unwritten};

// A scene of more bytes is refused `BadFile`.
pub const MOST_SCENE_BYTES: usize = 65_536;

// The symbols lent to the conversion.
const LENT: usize = 32_768;

// Judges a scene that was read, with its rows, its balls and the words of its two trees.
#[tactic(auto, using(crate::proofs::Scenes::judge_laws))]
fn judge(
    scene: Scene,
    rows: &[i64],
    balls: &[i64],
    first: &[u16],
    second: &[u16],
) -> Result<Judged, Unwritten>
    ensures { let surfaces = surfaces_of rows.now balls.now in
        lines_told result ≡ judged_lines (accepted_scene scene) surfaces first.now second.now }
{
    let Scene {
        version,
        universe,
        window,
        ..
    } = scene;
    let mut symbols = [0u8; LENT];
    let clearance = local::verdict_of_two(
        universe,
        rows,
        balls,
        first,
        second,
        window.first,
        window.last,
        &mut symbols,
    )?;
    let leaves = csg::halfspace_words(first) + csg::halfspace_words(second);
    let ball_words = csg::ball_words(first) + csg::ball_words(second);
    Ok(Judged {
        version,
        universe,
        leaves,
        raw: clearance.length,
        room: universe.room(leaves, ball_words)?,
        verdict: clearance.verdict,
    })
}

// Reads a scene and judges it.
#[tactic(auto, using(crate::proofs::Scenes::unread_lines))]
fn judge_bytes(bytes: &[u8]) -> Result<Judged, Unwritten>
    ensures { lines_told result ≡ scene_lines bytes.now }
{
    let mut rows = [0i64; files::MOST_NUMBERS];
    let mut balls = [0i64; files::MOST_BALL_NUMBERS];
    let mut first = [0u16; csg::MOST_WORDS];
    let mut second = [0u16; csg::MOST_WORDS];
    let scene = files::read_scene(bytes, &mut rows, &mut balls, &mut first, &mut second)?;
    let counts = scene.counts;
    judge(
        scene,
        &rows[..csg::ROW_LENGTH * counts.rows as usize],
        &balls[..csg::BALL_LENGTH * counts.balls as usize],
        &first[..counts.first as usize],
        &second[..counts.second as usize],
    )
}

// What the lines of a file say: one of more bytes is not looked at.
#[tactic(auto, unfolding(crate::specs::Program::program_lines))]
fn judge_file(bytes: &[u8]) -> Result<Judged, Unwritten>
    ensures { lines_told result ≡ program_lines bytes.now }
{
    if MOST_SCENE_BYTES < bytes.len() {
        return Err(Unwritten::Refused(Refusal::BadFile));
    }
    judge_bytes(bytes)
}

// Puts what is printed for the bytes of a scene at the front of the lent array, and answers how many bytes that is.
pub fn lines_of(scene: &[u8], out: &mut [u8; MOST_BYTES]) -> u64
    ensures value { result ≡ length (program_lines scene.now) }
    ensures out_after { let lines = program_lines scene.now in
        out.new ≡ lines ++ drop (length lines) out.old }
{
    write_lines(judge_file(scene), out) as u64
}
