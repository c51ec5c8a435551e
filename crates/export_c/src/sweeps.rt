// The swept space of a lent expression.
ghost use Rattle.std.specs.Prelude.{◌≡◌};
ghost use Rattle.sweep.specs.Answers.{swept_answer, swept_buffer};
ghost use Rattle.export.specs.Arrays.{universe_of, swept_array};

// The merged sweep of an expression along an axis, counted from 1, and the universe that it is of.
#[unsafe(no_mangle)]
pub extern "C" fn durbizhan_sweep(
    axes: u64,
    bits: u64,
    frame_bits: u64,
    axis: u64,
    expression: &[u8],
    out: &mut [u8],
    answer: &mut [u64; 4],
) -> u64
    ensures result_value { let u = universe_of axes bits frame_bits in
        result ≡ (swept_answer u expression.now axis out.old).refusal }
    ensures answer_after { let u = universe_of axes bits frame_bits in
        answer.new ≡ swept_array (swept_answer u expression.now axis out.old) }
    ensures out_after { let u = universe_of axes bits frame_bits in
        out.new ≡ swept_buffer u expression.now axis out.old }
{
    export::sweeps::durbizhan_sweep(axes, bits, frame_bits, axis, expression, out, answer)
}
