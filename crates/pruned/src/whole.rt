// The whole universe, written from the nodes of the full trees: one symbol where they are decided over it, else its
// halves.
ghost use Rattle.std.specs.Prelude.{◌≡◌, [], ◌∷◌, ◌+◌};
ghost use Rattle.csg.specs.Surfaces.{surfaces_of};
ghost use Rattle.bintree.specs.Shape.{symbols};
ghost use Rattle.pruned.specs.Nodes.{Shelves};
ghost use Rattle.pruned.specs.Looked.{nodes_looked};
ghost use Rattle.pruned.specs.Laying.{HalvesJob};
ghost use Rattle.pruned.specs.Told.{conversion_told};
ghost use Rattle.pruned.specs.Whole.{
  halves_of,
  looked_in,
  HalvesWritten,
  OpenJob,
  Ended,
  WholeJob,
  symbols_of,
};

use crate::answer::{Conversion, Unconverted};
use crate::lay::{HELD_UNIT, lay_halves};
use crate::leaf::NO_HALF;
use crate::prune::{MOST_SHAPES, prune};
use crate::scratch::{MOST_SCRATCH, SHORT_SCRATCH, in_scratch, measured};
use convert::symbol_of;
use universe::Universe;

// Writes both halves of an undecided block from the room's front on, as far as there is room: their length.
pub(crate) fn write_halves(
    axes: usize,
    rows: &[i64],
    balls: &[i64],
    table: &[usize; Universe::MOST_LEVELS as usize],
    low: &mut [u64; Universe::MOST_AXES as usize],
    side: &mut [u64; Universe::MOST_AXES as usize],
    left: u64,
    merging: bool,
    work: &mut [i64],
    count: usize,
    starts: &mut [usize; MOST_SHAPES],
    codes: &mut [u8; MOST_SHAPES],
    looked: &mut [u64; 1],
    out: &mut [u8],
) -> usize
    requires fact { let surfaces = surfaces_of rows.now balls.now in
        HalvesJob surfaces axes table.now low.old side.old left work.old 0 count looked.old 0 }
    requires shelves { Shelves starts.old codes.old }
    ensures fact_2 { let surfaces = surfaces_of rows.now balls.now in
        let low₀ = low.old in
        let side₀ = side.old in
        let work₀ = work.old in
        let looked₀ = looked.old in
        ((job : HalvesJob surfaces axes table.now low₀ side₀ left work₀ 0 count looked₀ 0)
        → HalvesWritten job merging out.old result out.new looked.new low.new
        side.new work.new) }
    ensures shelves_2 { Shelves starts.new codes.new }
{
    let packed = lay_halves(
        axes, rows, balls, table, low, side, left, merging, work, 0, count, starts, codes, looked,
        out, 0,
    );
    bintree::note(out, 0, (packed % HELD_UNIT) as u8);
    packed / HELD_UNIT
}

// Writes both halves of the undecided universe: at once where as much room is lent as suffices, else by way of scratch
// room where no more is lent than that holds, else once they are measured. So many nodes were looked at before.
fn write_open(
    axes: usize,
    rows: &[i64],
    balls: &[i64],
    table: &[usize; Universe::MOST_LEVELS as usize],
    low: &mut [u64; Universe::MOST_AXES as usize],
    side: &mut [u64; Universe::MOST_AXES as usize],
    left: u64,
    merging: bool,
    work: &mut [i64],
    count: usize,
    starts: &mut [usize; MOST_SHAPES],
    codes: &mut [u8; MOST_SHAPES],
    before: u64,
    room: u64,
    out: &mut [u8],
) -> Result<Conversion, Unconverted>
    requires fact { let surfaces = surfaces_of rows.now balls.now in
        OpenJob surfaces axes table.now low.old side.old left work.old count before room }
    requires shelves { Shelves starts.old codes.old }
    ensures { let surfaces = surfaces_of rows.now balls.now in
        let low₀ = low.old in
        let side₀ = side.old in
        let work₀ = work.old in
        ((job : OpenJob surfaces axes table.now low₀ side₀ left work₀ count before room)
        → Ended out.old (symbols (halves_of merging job.halves)) (before + looked_in job.halves)
        (conversion_told result) out.new) }
{
    if room <= out.len() as u64 {
        let mut looked = [before];
        let length = write_halves(
            axes,
            rows,
            balls,
            table,
            low,
            side,
            left,
            merging,
            work,
            count,
            starts,
            codes,
            &mut looked,
            out,
        );
        return Ok(Conversion {
            length: length as u64,
            looked: looked[0],
        });
    }
    if out.len() <= SHORT_SCRATCH {
        return in_scratch::<SHORT_SCRATCH>(
            axes, rows, balls, table, low, side, left, merging, work, count, starts, codes, before,
            out,
        );
    }
    if out.len() <= MOST_SCRATCH {
        return in_scratch::<MOST_SCRATCH>(
            axes, rows, balls, table, low, side, left, merging, work, count, starts, codes, before,
            out,
        );
    }
    measured(
        axes, rows, balls, table, low, side, left, merging, work, count, starts, codes, before, out,
    )
}

// Writes the one symbol of a universe over which the trees are decided.
fn write_symbol(symbol: u8, looked: u64, out: &mut [u8]) -> Result<Conversion, Unconverted>
    ensures { Ended out.old (symbol ∷ []) looked (conversion_told result) out.new }
{
    if out.is_empty() {
        return Err(Unconverted::ShortOfSymbols(1));
    }
    out[0] = symbol;
    Ok(Conversion { length: 1, looked })
}

// Writes the whole universe, of the full trees whose nodes stand in the work room.
pub(crate) fn write_whole(
    universe: Universe,
    rows: &[i64],
    balls: &[i64],
    side: &mut [u64; Universe::MOST_AXES as usize],
    merging: bool,
    work: &mut [i64],
    count: usize,
    starts: &mut [usize; MOST_SHAPES],
    room: u64,
    out: &mut [u8],
) -> Result<Conversion, Unconverted>
    requires { let surfaces = surfaces_of rows.now balls.now in
        WholeJob universe surfaces side.old work.old count starts.old room }
    ensures { let surfaces = surfaces_of rows.now balls.now in
        ((job : WholeJob universe surfaces side.old work.old count starts.old room)
        → Ended out.old (symbols_of merging universe surfaces job.trees)
        (nodes_looked universe surfaces job.trees) (conversion_told result) out.new) }
{
    let axes = universe.axes as usize;
    let levels = universe.levels();
    let table = universe.axes_left();
    let mut low = [0u64; Universe::MOST_AXES as usize];
    let mut codes = [0u8; MOST_SHAPES];
    let kept = prune(
        axes,
        rows,
        balls,
        &low,
        side,
        0,
        false,
        NO_HALF,
        levels == 0,
        work,
        0,
        count,
        0,
        starts,
        &mut codes,
    );
    let mark = kept.mark;
    let nodes = kept.nodes;
    if mark != 0 {
        return write_symbol(symbol_of(mark), count as u64, out);
    }
    write_open(
        axes,
        rows,
        balls,
        &table,
        &mut low,
        side,
        levels,
        merging,
        work,
        nodes,
        starts,
        &mut codes,
        count as u64,
        room,
        out,
    )
}
