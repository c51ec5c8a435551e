// Questions to a lent expression, and its merging.
ghost use Rattle.std.specs.Prelude.{◌≡◌, [], ◌∷◌};
ghost use Rattle.universe.specs.Told.{number_told};
ghost use Rattle.bintree.specs.Answers.{well_formed_refusal};
ghost use Rattle.bintree.specs.Parts.{colour_answer, place_answer};
ghost use Rattle.bintree.specs.Merging.{merge_answer, merge_buffer};
ghost use Rattle.export.specs.Arrays.{universe_of, merged_array};
ghost use Rattle.export.specs.Arrays.{colour_number, colour_array, place_array};

use crate::universe_of;
use bintree::Colour;
use universe::Refusal;

// The number of what a check answers: 0 where it accepts.
pub(crate) fn refusal_of(checked: Result<(), Refusal>) -> u64
    ensures { result ≡ number_told checked }
{
    match checked {
        Ok(()) => 0,
        Err(refusal) => refusal.number(),
    }
}

// Whether an expression is well-formed.
pub fn durbizhan_well_formed(axes: u64, bits: u64, frame_bits: u64, expression: &[u8]) -> u64
    ensures { result ≡ well_formed_refusal (universe_of axes bits frame_bits) expression.now }
{
    let universe = universe_of(axes, bits, frame_bits);
    refusal_of(bintree::well_formed(universe, expression))
}

// 0 for WHITE and 1 for BLACK.
fn number_of(colour: Colour) -> u64
    ensures { result ≡ colour_number colour }
{
    match colour {
        Colour::White => 0,
        Colour::Black => 1,
    }
}

// The colour at a voxel, 0 WHITE or 1 BLACK.
pub fn durbizhan_colour(
    axes: u64,
    bits: u64,
    frame_bits: u64,
    expression: &[u8],
    x: u64,
    y: u64,
    z: u64,
    t: u64,
    answer: &mut [u64; 1],
) -> u64
    ensures result_value { let u = universe_of axes bits frame_bits in
        result ≡ (colour_answer u expression.now (x ∷ y ∷ z ∷ t ∷ [])).refusal }
    ensures answer_after { let u = universe_of axes bits frame_bits in
        answer.new ≡ colour_array (colour_answer u expression.now (x ∷ y ∷ z ∷ t ∷ [])) }
{
    let universe = universe_of(axes, bits, frame_bits);
    match bintree::colour_at(universe, expression, [x, y, z, t]) {
        Ok(colour) => {
            *answer = [number_of(colour)];
            0
        }
        Err(refusal) => {
            *answer = [0];
            refusal.number()
        }
    }
}

// Where the part for the block at the end of a path stands in an expression, and its length.
pub fn durbizhan_part(
    axes: u64,
    bits: u64,
    frame_bits: u64,
    expression: &[u8],
    path: &[u8],
    answer: &mut [u64; 2],
) -> u64
    ensures result_value { let u = universe_of axes bits frame_bits in
        result ≡ (place_answer u expression.now path.now).refusal }
    ensures answer_after { let u = universe_of axes bits frame_bits in
        answer.new ≡ place_array (place_answer u expression.now path.now) }
{
    let universe = universe_of(axes, bits, frame_bits);
    match bintree::part_place(universe, expression, path) {
        Ok(placed) => {
            *answer = [placed.start, placed.length];
            0
        }
        Err(refusal) => {
            *answer = [0; 2];
            refusal.number()
        }
    }
}

// The merged expression of a lent one, and the largest count of symbols that are held back.
pub fn durbizhan_merge(
    axes: u64,
    bits: u64,
    frame_bits: u64,
    expression: &[u8],
    out: &mut [u8],
    answer: &mut [u64; 2],
) -> u64
    ensures result_value { let u = universe_of axes bits frame_bits in
        result ≡ (merge_answer u expression.now out.old).refusal }
    ensures answer_after { let u = universe_of axes bits frame_bits in
        answer.new ≡ merged_array (merge_answer u expression.now out.old) }
    ensures out_after { let u = universe_of axes bits frame_bits in
        out.new ≡ merge_buffer u expression.now out.old }
{
    let universe = universe_of(axes, bits, frame_bits);
    match bintree::merge(universe, expression, out) {
        Ok(merged) => {
            *answer = [merged.length, merged.held];
            0
        }
        Err(unwritten) => {
            *answer = [unwritten.needed(), 0];
            unwritten.number()
        }
    }
}
