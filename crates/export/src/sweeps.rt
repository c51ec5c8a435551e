// The swept space of a lent expression.
ghost use Rattle.std.specs.Prelude.{◌≡◌};
ghost use Rattle.sweep.specs.Answers.{swept_answer, swept_buffer};
ghost use Rattle.export.specs.Arrays.{universe_of, swept_array};

use crate::universe_of;

// The merged sweep of an expression along an axis, counted from 1, and the universe that it is of.
pub fn durbizhan_sweep(
    axes: u64,
    bits: u64,
    frame_bits: u64,
    axis: u64,
    expression: &[u8],
    out: &mut [u8],
    answer: &mut [u64; 4],
) -> u64
    ensures result_value { let u = universe_of axes bits frame_bits in
        result ≡ (swept_answer u expression.now axis out.old).refusal }
    ensures answer_after { let u = universe_of axes bits frame_bits in
        answer.new ≡ swept_array (swept_answer u expression.now axis out.old) }
    ensures out_after { let u = universe_of axes bits frame_bits in
        out.new ≡ swept_buffer u expression.now axis out.old }
{
    let universe = universe_of(axes, bits, frame_bits);
    match sweep::sweep_along(universe, expression, axis, out) {
        Ok(swept) => {
            let below = swept.universe;
            *answer = [below.axes, below.bits, below.frame_bits, swept.length];
            0
        }
        Err(unwritten) => {
            *answer = [0, 0, 0, unwritten.needed()];
            unwritten.number()
        }
    }
}
