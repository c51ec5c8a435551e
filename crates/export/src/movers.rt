// The verdict of a keyed mover against a static tree.
ghost use Rattle.std.specs.Prelude.{◌≡◌};
ghost use Rattle.csg.specs.Surfaces.{surfaces_of};
ghost use Rattle.mover.specs.Keys.{mover_of};
ghost use Rattle.mover.specs.Answers.{mover_answer, mover_buffer};
ghost use Rattle.export.specs.Arrays.{universe_of, triple_of, box_of, clearance_array};

use crate::proxies::{box_of, triple_of};
use crate::universe_of;
use crate::verdicts::clearance_told;

// Whether a mover and a static tree share space, every frame by its own stretch; each stretch's raw expression is
// written into lent room over the one before. Read the number first: a refused verdict is Clear.
pub fn durbizhan_mover(
    axes: u64,
    bits: u64,
    frame_bits: u64,
    near_x: f64,
    near_y: f64,
    near_z: f64,
    far_x: f64,
    far_y: f64,
    far_z: f64,
    displacement_x: f64,
    displacement_y: f64,
    displacement_z: f64,
    moments: &[u64],
    corners: &[f64],
    rows: &[i64],
    balls: &[i64],
    words: &[u16],
    out: &mut [u8],
    answer: &mut [u64; 5],
) -> u64
    ensures result_value { let u = universe_of axes bits frame_bits in
        let near = triple_of near_x near_y near_z in
        let far = triple_of far_x far_y far_z in
        let step = triple_of displacement_x displacement_y displacement_z in
        let m = mover_of (box_of near far step) moments.now corners.now in
        let surfaces = surfaces_of rows.now balls.now in
        result ≡ (mover_answer u m surfaces words.now out.old).refusal }
    ensures answer_after { let u = universe_of axes bits frame_bits in
        let near = triple_of near_x near_y near_z in
        let far = triple_of far_x far_y far_z in
        let step = triple_of displacement_x displacement_y displacement_z in
        let m = mover_of (box_of near far step) moments.now corners.now in
        let surfaces = surfaces_of rows.now balls.now in
        answer.new ≡ clearance_array (mover_answer u m surfaces words.now out.old) }
    ensures out_after { let u = universe_of axes bits frame_bits in
        let near = triple_of near_x near_y near_z in
        let far = triple_of far_x far_y far_z in
        let step = triple_of displacement_x displacement_y displacement_z in
        let m = mover_of (box_of near far step) moments.now corners.now in
        let surfaces = surfaces_of rows.now balls.now in
        out.new ≡ mover_buffer u m surfaces words.now out.old }
{
    let universe = universe_of(axes, bits, frame_bits);
    let near = triple_of(near_x, near_y, near_z);
    let far = triple_of(far_x, far_y, far_z);
    let displacement = triple_of(displacement_x, displacement_y, displacement_z);
    let size = box_of(near, far, displacement);
    let found = mover::verdict_of_mover(universe, size, moments, corners, rows, balls, words, out);
    clearance_told(found, answer)
}
