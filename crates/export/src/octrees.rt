// Octrees of a lent expression, and expressions of a lent octree.
ghost use Rattle.std.specs.Prelude.{◌≡◌};
ghost use Rattle.octree.specs.Answers.{export_answer, export_buffer, import_answer, import_buffer};
ghost use Rattle.export.specs.Arrays.{universe_of, length_array};

use crate::conversions::length_told;
use crate::universe_of;

// The reduced octree of an expression.
pub fn durbizhan_octree_export(
    axes: u64,
    bits: u64,
    frame_bits: u64,
    expression: &[u8],
    out: &mut [u8],
    answer: &mut [u64; 1],
) -> u64
    ensures result_value { let u = universe_of axes bits frame_bits in
        result ≡ (export_answer u expression.now out.old).refusal }
    ensures answer_after { let u = universe_of axes bits frame_bits in
        answer.new ≡ length_array (export_answer u expression.now out.old) }
    ensures out_after { let u = universe_of axes bits frame_bits in
        out.new ≡ export_buffer u expression.now out.old }
{
    let universe = universe_of(axes, bits, frame_bits);
    length_told(octree::export_octree(universe, expression, out), answer)
}

// The merged expression of an octree.
pub fn durbizhan_octree_import(
    axes: u64,
    bits: u64,
    frame_bits: u64,
    octree: &[u8],
    out: &mut [u8],
    answer: &mut [u64; 1],
) -> u64
    ensures result_value { let u = universe_of axes bits frame_bits in
        result ≡ (import_answer u octree.now out.old).refusal }
    ensures answer_after { let u = universe_of axes bits frame_bits in
        answer.new ≡ length_array (import_answer u octree.now out.old) }
    ensures out_after { let u = universe_of axes bits frame_bits in
        out.new ≡ import_buffer u octree.now out.old }
{
    let universe = universe_of(axes, bits, frame_bits);
    length_told(octree::import_octree(universe, octree, out), answer)
}
