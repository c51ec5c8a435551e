// Scene files are read and put into lines, shape files are read and written.
ghost use Rattle.std.specs.Prelude.{◌≡◌, ◌++◌, length, drop};
ghost use Rattle.files.specs.Scenes.{scene_answer, rows_after, balls_after, first_words_after, second_words_after};
ghost use Rattle.files.specs.Shapes.{read_answer, read_buffer, write_answer, write_buffer};
ghost use Rattle.lines.specs.Program.{program_lines};
ghost use Rattle.export.specs.Arrays.{universe_of, length_array, scene_array, shape_array};

use crate::conversions::length_told;
use crate::universe_of;
use csg::MOST_WORDS;
use files::{MOST_BALL_NUMBERS, MOST_NUMBERS};
use lines::MOST_BYTES;

// Reads a scene: its rows, its balls and the words of its two trees go to the front of the lent arrays.
pub fn durbizhan_scene(
    bytes: &[u8],
    rows: &mut [i64; MOST_NUMBERS],
    balls: &mut [i64; MOST_BALL_NUMBERS],
    first: &mut [u16; MOST_WORDS],
    second: &mut [u16; MOST_WORDS],
    answer: &mut [u64; 10],
) -> u64
    ensures value { result ≡ (scene_answer bytes.now).refusal }
    ensures answer_after { answer.new ≡ scene_array (scene_answer bytes.now) }
    ensures rows_after { rows.new ≡ rows_after bytes.now rows.old }
    ensures balls_after { balls.new ≡ balls_after bytes.now balls.old }
    ensures first_after { first.new ≡ first_words_after bytes.now first.old }
    ensures second_after { second.new ≡ second_words_after bytes.now second.old }
{
    match files::read_scene(bytes, rows, balls, first, second) {
        Ok(scene) => {
            *answer = [
                scene.version,
                scene.universe.axes,
                scene.universe.bits,
                scene.universe.frame_bits,
                scene.counts.rows,
                scene.counts.balls,
                scene.counts.first,
                scene.counts.second,
                scene.window.first,
                scene.window.last,
            ];
            0
        }
        Err(refusal) => {
            *answer = [0; 10];
            refusal.number()
        }
    }
}

// The lines that the program prints for a scene go to the front of the lent array; returns how many bytes that is.
pub fn durbizhan_lines(scene: &[u8], out: &mut [u8; MOST_BYTES]) -> u64
    ensures value { result ≡ length (program_lines scene.now) }
    ensures out_after { let lines = program_lines scene.now in
        out.new ≡ lines ++ drop (length lines) out.old }
{
    lines::lines_of(scene, out)
}

// Reads a shape file: its symbols go to the front of the lent room.
pub fn durbizhan_shape_read(bytes: &[u8], out: &mut [u8], answer: &mut [u64; 4]) -> u64
    ensures value { result ≡ (read_answer bytes.now out.old).refusal }
    ensures answer_after { answer.new ≡ shape_array (read_answer bytes.now out.old) }
    ensures out_after { out.new ≡ read_buffer bytes.now out.old }
{
    match files::read_shape(bytes, out) {
        Ok(shape) => {
            let universe = shape.universe;
            *answer = [
                universe.axes,
                universe.bits,
                universe.frame_bits,
                shape.length,
            ];
            0
        }
        Err(unwritten) => {
            *answer = [0, 0, 0, unwritten.needed()];
            unwritten.number()
        }
    }
}

// Writes the shape file of a merged expression.
pub fn durbizhan_shape_write(
    axes: u64,
    bits: u64,
    frame_bits: u64,
    expression: &[u8],
    out: &mut [u8],
    answer: &mut [u64; 1],
) -> u64
    ensures result_value { let u = universe_of axes bits frame_bits in
        result ≡ (write_answer u expression.now out.old).refusal }
    ensures answer_after { let u = universe_of axes bits frame_bits in
        answer.new ≡ length_array (write_answer u expression.now out.old) }
    ensures out_after { let u = universe_of axes bits frame_bits in
        out.new ≡ write_buffer u expression.now out.old }
{
    let universe = universe_of(axes, bits, frame_bits);
    length_told(files::write_shape(universe, expression, out), answer)
}
