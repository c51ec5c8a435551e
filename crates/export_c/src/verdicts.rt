// Verdicts over a window of frames: of two trees, with sure and possible contact, and of a lent expression with its
// volume.
ghost use Rattle.std.specs.Prelude.{◌≡◌};
ghost use Rattle.csg.specs.Surfaces.{surfaces_of};
ghost use Rattle.bintree.specs.Verdicts.{numbers_answer};
ghost use Rattle.convert.specs.Answers.{clearance_answer, clearance_buffer};
ghost use Rattle.at_once.specs.Contacts.{contacts_answer};
ghost use Rattle.export.specs.Arrays.{universe_of, clearance_array, contacts_array, numbers_array};

// Whether two trees share space in a window of frames, both ends in; their raw expression is written into lent room.
// Read the number first: a refused verdict is Clear.
#[unsafe(no_mangle)]
pub extern "C" fn durbizhan_verdict(
    axes: u64,
    bits: u64,
    frame_bits: u64,
    rows: &[i64],
    balls: &[i64],
    first: &[u16],
    second: &[u16],
    first_frame: u64,
    last_frame: u64,
    out: &mut [u8],
    answer: &mut [u64; 5],
) -> u64
    ensures result_value { let u = universe_of axes bits frame_bits in
        let surfaces = surfaces_of rows.now balls.now in
        result ≡ (clearance_answer u surfaces first.now second.now first_frame last_frame out.old).refusal }
    ensures answer_after { let u = universe_of axes bits frame_bits in
        let surfaces = surfaces_of rows.now balls.now in
        answer.new
        ≡ clearance_array (clearance_answer u surfaces first.now second.now first_frame last_frame out.old) }
    ensures out_after { let u = universe_of axes bits frame_bits in
        let surfaces = surfaces_of rows.now balls.now in
        out.new
        ≡ clearance_buffer u surfaces first.now second.now first_frame last_frame out.old }
{
    export::verdicts::durbizhan_verdict(
        axes,
        bits,
        frame_bits,
        rows,
        balls,
        first,
        second,
        first_frame,
        last_frame,
        out,
        answer,
    )
}

// The voxels of a window of frames, both ends in, that two trees surely share, share at their centres, and possibly
// share.
#[unsafe(no_mangle)]
pub extern "C" fn durbizhan_contacts(
    axes: u64,
    bits: u64,
    frame_bits: u64,
    rows: &[i64],
    balls: &[i64],
    first: &[u16],
    second: &[u16],
    first_frame: u64,
    last_frame: u64,
    answer: &mut [u64; 3],
) -> u64
    ensures result_value { let u = universe_of axes bits frame_bits in
        let surfaces = surfaces_of rows.now balls.now in
        result ≡ (contacts_answer u surfaces first.now second.now first_frame last_frame).refusal }
    ensures answer_after { let u = universe_of axes bits frame_bits in
        let surfaces = surfaces_of rows.now balls.now in
        answer.new ≡ contacts_array (contacts_answer u surfaces first.now second.now first_frame last_frame) }
{
    export::verdicts::durbizhan_contacts(
        axes,
        bits,
        frame_bits,
        rows,
        balls,
        first,
        second,
        first_frame,
        last_frame,
        answer,
    )
}

// The black voxels of an expression in the whole universe, and whether it has one in a window of frames, both ends in.
// Read the number first: a refused verdict is Clear.
#[unsafe(no_mangle)]
pub extern "C" fn durbizhan_numbers(
    axes: u64,
    bits: u64,
    frame_bits: u64,
    expression: &[u8],
    first_frame: u64,
    last_frame: u64,
    answer: &mut [u64; 5],
) -> u64
    ensures result_value { let u = universe_of axes bits frame_bits in
        result ≡ (numbers_answer u expression.now first_frame last_frame).refusal }
    ensures answer_after { let u = universe_of axes bits frame_bits in
        let numbers = numbers_answer u expression.now first_frame last_frame in
        answer.new ≡ numbers_array numbers }
{
    export::verdicts::durbizhan_numbers(
        axes,
        bits,
        frame_bits,
        expression,
        first_frame,
        last_frame,
        answer,
    )
}
