// Sure and possible contact of two trees over a window of frames: the checks in their order, and then the whole
// universe.
ghost use Rattle.std.specs.Prelude.{◌≡◌};
ghost use Rattle.csg.specs.Surfaces.{surfaces_of};
ghost use Rattle.at_once.specs.Contacts.{contacts_answer, WholeTally};
ghost use Rattle.at_once.specs.Told.{contacts_told};
ghost use Rattle.at_once.specs.Whole.{WholeReady};

use crate::answer::Contacts;
use crate::prune::MOST_SHAPES;
use crate::tally::tally_block;
use crate::verdict::check_clearance;
use crate::whole::{MOST_CODES, lengths_of, load_both, whole_sides};
use universe::{Refusal, Universe};

// The counts of two trees that no check refuses, over a window.
fn whole_tally(
    universe: Universe,
    rows: &[i64],
    balls: &[i64],
    first: &[u16],
    second: &[u16],
    first_frame: u64,
    last_frame: u64,
) -> Contacts
    requires { let surfaces = surfaces_of rows.now balls.now in
        WholeReady universe surfaces first.now second.now first_frame last_frame }
    ensures { let surfaces = surfaces_of rows.now balls.now in
        let first = first.entry.now in
        let second = second.entry.now in
        WholeTally universe surfaces first second first_frame last_frame result }
{
    let table = universe.axes_left();
    let lengths = lengths_of(universe, &table);
    let mut low = [0u64; Universe::MOST_AXES as usize];
    let mut side = whole_sides(universe);
    let mut codes = [0u16; MOST_CODES];
    let mut starts = [0usize; MOST_SHAPES];
    let mut marks = [0u8; MOST_SHAPES];
    let mut sures = [0u64; MOST_SHAPES];
    let mut centres = [0u64; MOST_SHAPES];
    let mut possibles = [0u64; MOST_SHAPES];
    let mut values = [0i64; csg::MOST_ROWS];
    let mut rounds = [0u8; csg::MOST_ROWS];
    load_both(rows, first, second, &mut codes, &mut starts, &mut values);
    tally_block(
        universe.axes as usize,
        rows,
        balls,
        &table,
        &lengths,
        &mut low,
        &mut side,
        universe.levels(),
        &mut codes,
        0,
        first.len() + second.len(),
        &mut starts,
        &mut marks,
        &mut sures,
        &mut centres,
        &mut possibles,
        first_frame,
        last_frame,
        &mut values,
        &mut rounds,
        0,
    )
}

// How many voxels of a window, first to last frame, both ends in, two trees surely share, share at their centres, and
// possibly share.
pub fn contacts_of_two(
    universe: Universe,
    rows: &[i64],
    balls: &[i64],
    first: &[u16],
    second: &[u16],
    first_frame: u64,
    last_frame: u64,
) -> Result<Contacts, Refusal>
    ensures { let surfaces = surfaces_of rows.now balls.now in
        let first = first.entry.now in
        let second = second.entry.now in
        contacts_told result ≡ contacts_answer universe surfaces first second first_frame last_frame }
{
    check_clearance(
        universe,
        rows,
        balls,
        first,
        second,
        first_frame,
        last_frame,
    )?;
    Ok(whole_tally(
        universe,
        rows,
        balls,
        first,
        second,
        first_frame,
        last_frame,
    ))
}
