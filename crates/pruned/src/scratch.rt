// Both halves of the undecided universe where the room lent may not suffice: what is lent is left alone until it is
// known to. Scratch room that is no shorter than the room lent holds whatever fits there: nothing is laid twice.
ghost use Rattle.std.specs.Prelude.{[], ◌∷◌, ◌+◌, ◌^◌, ◌≤◌, ◌<◌, length};
ghost use Rattle.csg.specs.Surfaces.{surfaces_of};
ghost use Rattle.bintree.specs.Shape.{symbols};
ghost use Rattle.pruned.specs.Nodes.{Shelves};
ghost use Rattle.pruned.specs.Laying.{HalvesJob};
ghost use Rattle.pruned.specs.Told.{conversion_told};
ghost use Rattle.pruned.specs.Whole.{halves_of, looked_in, Ended};

use crate::answer::{Conversion, Unconverted};
use crate::prune::MOST_SHAPES;
use crate::whole::write_halves;
use universe::Universe;

// Scratch room for where no more than this is lent.
pub(crate) const SHORT_SCRATCH: usize = 768;

// The same for where more is lent; where more than this is lent none is taken.
pub const MOST_SCRATCH: usize = 4096;

// Both halves are written into scratch room of so many symbols, and copied where they fit the room lent.
pub(crate) fn in_scratch<const ROOM: usize>(
    axes: usize,
    rows: &[i64],
    balls: &[i64],
    table: &[usize; Universe::MOST_LEVELS as usize],
    low: &mut [u64; Universe::MOST_AXES as usize],
    side: &mut [u64; Universe::MOST_AXES as usize],
    left: u64,
    merging: bool,
    work: &mut [i64],
    count: usize,
    starts: &mut [usize; MOST_SHAPES],
    codes: &mut [u8; MOST_SHAPES],
    before: u64,
    out: &mut [u8],
) -> Result<Conversion, Unconverted>
    requires fact { let surfaces = surfaces_of rows.now balls.now in
        HalvesJob surfaces axes table.now low.old side.old left work.old 0 count (before ∷ []) 0 }
    requires shelves { Shelves starts.old codes.old }
    requires out_len_bound { length out.old ≤ ROOM }
    requires room_bound { ROOM < 2 ^ 63 }
    ensures { let surfaces = surfaces_of rows.now balls.now in
        let low₀ = low.old in
        let side₀ = side.old in
        let work₀ = work.old in
        ((job : HalvesJob surfaces axes table.now low₀ side₀ left work₀ 0 count (before ∷ []) 0)
        → Ended out.old (symbols (halves_of merging job)) (before + looked_in job) (conversion_told result)
        out.new) }
{
    let mut looked = [before];
    let mut scratch = [0u8; ROOM];
    let length = write_halves(
        axes,
        rows,
        balls,
        table,
        low,
        side,
        left,
        merging,
        work,
        count,
        starts,
        codes,
        &mut looked,
        &mut scratch,
    );
    if out.len() < length {
        return Err(Unconverted::ShortOfSymbols(length as u64));
    }
    bintree::copy(&scratch[..length], out, 0);
    Ok(Conversion {
        length: length as u64,
        looked: looked[0],
    })
}

// The same with no scratch room: both halves are measured first, and laid where they fit.
pub(crate) fn measured(
    axes: usize,
    rows: &[i64],
    balls: &[i64],
    table: &[usize; Universe::MOST_LEVELS as usize],
    low: &mut [u64; Universe::MOST_AXES as usize],
    side: &mut [u64; Universe::MOST_AXES as usize],
    left: u64,
    merging: bool,
    work: &mut [i64],
    count: usize,
    starts: &mut [usize; MOST_SHAPES],
    codes: &mut [u8; MOST_SHAPES],
    before: u64,
    out: &mut [u8],
) -> Result<Conversion, Unconverted>
    requires fact { let surfaces = surfaces_of rows.now balls.now in
        HalvesJob surfaces axes table.now low.old side.old left work.old 0 count (before ∷ []) 0 }
    requires shelves { Shelves starts.old codes.old }
    ensures { let surfaces = surfaces_of rows.now balls.now in
        let low₀ = low.old in
        let side₀ = side.old in
        let work₀ = work.old in
        ((job : HalvesJob surfaces axes table.now low₀ side₀ left work₀ 0 count (before ∷ []) 0)
        → Ended out.old (symbols (halves_of merging job)) (before + looked_in job) (conversion_told result)
        out.new) }
{
    let mut looked = [before];
    let mut none = [0u8; 0];
    let length = write_halves(
        axes,
        rows,
        balls,
        table,
        low,
        side,
        left,
        merging,
        work,
        count,
        starts,
        codes,
        &mut looked,
        &mut none,
    );
    if out.len() < length {
        return Err(Unconverted::ShortOfSymbols(length as u64));
    }
    let mut again = [before];
    write_halves(
        axes, rows, balls, table, low, side, left, merging, work, count, starts, codes, &mut again,
        out,
    );
    Ok(Conversion {
        length: length as u64,
        looked: looked[0],
    })
}
