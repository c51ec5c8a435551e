// Questions to a lent expression, and its merging.
ghost use Rattle.std.specs.Prelude.{◌≡◌, [], ◌∷◌};
ghost use Rattle.bintree.specs.Answers.{well_formed_refusal};
ghost use Rattle.bintree.specs.Parts.{colour_answer, place_answer};
ghost use Rattle.bintree.specs.Merging.{merge_answer, merge_buffer};
ghost use Rattle.export.specs.Arrays.{universe_of, merged_array};
ghost use Rattle.export.specs.Arrays.{colour_array, place_array};

// Whether an expression is well-formed.
#[unsafe(no_mangle)]
pub extern "C" fn durbizhan_well_formed(
    axes: u64,
    bits: u64,
    frame_bits: u64,
    expression: &[u8],
) -> u64
    ensures { result ≡ well_formed_refusal (universe_of axes bits frame_bits) expression.now }
{
    export::expressions::durbizhan_well_formed(axes, bits, frame_bits, expression)
}

// The colour at a voxel, 0 WHITE or 1 BLACK.
#[unsafe(no_mangle)]
pub extern "C" fn durbizhan_colour(
    axes: u64,
    bits: u64,
    frame_bits: u64,
    expression: &[u8],
    x: u64,
    y: u64,
    z: u64,
    t: u64,
    answer: &mut [u64; 1],
) -> u64
    ensures result_value { let u = universe_of axes bits frame_bits in
        result ≡ (colour_answer u expression.now (x ∷ y ∷ z ∷ t ∷ [])).refusal }
    ensures answer_after { let u = universe_of axes bits frame_bits in
        answer.new ≡ colour_array (colour_answer u expression.now (x ∷ y ∷ z ∷ t ∷ [])) }
{
    export::expressions::durbizhan_colour(axes, bits, frame_bits, expression, x, y, z, t, answer)
}

// Where the part for the block at the end of a path stands in an expression, and its length.
#[unsafe(no_mangle)]
pub extern "C" fn durbizhan_part(
    axes: u64,
    bits: u64,
    frame_bits: u64,
    expression: &[u8],
    path: &[u8],
    answer: &mut [u64; 2],
) -> u64
    ensures result_value { let u = universe_of axes bits frame_bits in
        result ≡ (place_answer u expression.now path.now).refusal }
    ensures answer_after { let u = universe_of axes bits frame_bits in
        answer.new ≡ place_array (place_answer u expression.now path.now) }
{
    export::expressions::durbizhan_part(axes, bits, frame_bits, expression, path, answer)
}

// The merged expression of a lent one, and the largest count of symbols that are held back.
#[unsafe(no_mangle)]
pub extern "C" fn durbizhan_merge(
    axes: u64,
    bits: u64,
    frame_bits: u64,
    expression: &[u8],
    out: &mut [u8],
    answer: &mut [u64; 2],
) -> u64
    ensures result_value { let u = universe_of axes bits frame_bits in
        result ≡ (merge_answer u expression.now out.old).refusal }
    ensures answer_after { let u = universe_of axes bits frame_bits in
        answer.new ≡ merged_array (merge_answer u expression.now out.old) }
    ensures out_after { let u = universe_of axes bits frame_bits in
        out.new ≡ merge_buffer u expression.now out.old }
{
    export::expressions::durbizhan_merge(axes, bits, frame_bits, expression, out, answer)
}
