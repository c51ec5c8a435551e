// Octrees of three axes with equal bits: an expression's reduced octree, and an octree's merged expression.
#![tactic(auto)]

mod runs;
mod sons;

ghost use Rattle.std.specs.Prelude.{◌≡◌, ℕ, List, length};
ghost use Rattle.std.proofs.lemmas.List.Edits.{sets};
ghost use Rattle.universe.specs.Told.{number_told};
ghost use Rattle.bintree.specs.Answers.{written_answer, written_buffer};
ghost use Rattle.bintree.specs.Told.{writing_told};
ghost use Rattle.octree.specs.Runs.{is_same};
ghost use Rattle.octree.specs.Answers.{
  cube_refusal,
  octree_refusal,
  export_symbols,
  import_symbols,
  export_answer,
  export_buffer,
  import_answer,
  import_buffer,
  Exportable,
  Importable,
  Writes,
};

use runs::{lay_run, run_end};
use sons::{lay_sons, write_held};
use universe::{Refusal, Universe, Unwritten};

// x, y and z.
const CUBE_AXES: u64 = 3;

// What laying a part comes to: the symbol that is held back, where there is one; the place past what was read; and the
// place past what is written or held back. The crate `sweep` has one of its own, with no place that was read: one for
// both would be a new public name. Nothing compares or prints a piece.
#[derive(Clone, Copy)]
pub(crate) struct Piece {
    pub held: Option<u8>,
    pub next: usize,
    pub end: usize,
}

impl Piece {
    // Whether two parts hold back the same symbol, so that both are leaves or solids of one colour. `bintree::is_alike`
    // is no question of an `Option`: it takes bytes, 0 for none.
    #[tactic(auto, unfolding(crate::specs::Runs::is_same))]
    fn is_alike(self, high: Piece) -> bool
        ensures { result ≡ is_same self.held high.held }
    {
        self.held.is_some() && self.held == high.held
    }
}

// Refused where a universe is, has not three axes or has not equal bits.
#[tactic(auto, unfolding(crate::specs::Answers::cube_refusal))]
fn check_cube(universe: Universe) -> Result<(), Refusal>
    ensures { number_told result ≡ cube_refusal universe }
{
    universe.check()?;
    if universe.axes != CUBE_AXES || universe.frame_bits != universe.bits {
        return Err(Refusal::BadUniverse);
    }
    Ok(())
}

// Refused where bytes are no octree of at most so many levels.
fn check_octree(levels: u64, octree: &[u8]) -> Result<(), Refusal>
    ensures { number_told result ≡ octree_refusal levels octree.now }
{
    if run_end(octree, 0, levels, 0) != Some(octree.len()) {
        return Err(Refusal::BadExpression);
    }
    Ok(())
}

// Writes the reduced octree of an expression, as far as there is room, and gives its length.
#[tactic(auto, using(crate::proofs::Answers::write_laws))]
fn write_octree(universe: Universe, expression: &[u8], out: &mut [u8]) -> usize
    requires { Exportable universe expression.now }
    ensures value { result ≡ length (export_symbols universe expression.now) }
    ensures out_after { let symbols = export_symbols universe expression.now in
        out.new ≡ sets out.old 0 symbols }
{
    let sons = lay_sons(expression, 0, universe.bits, 0, out, 0);
    write_held(out, 0, 1, sons.held);
    sons.end
}

// Writes the merged expression of an octree, as far as there is room, and gives its length.
#[tactic(auto, using(crate::proofs::Answers::write_laws))]
fn write_merged(universe: Universe, octree: &[u8], out: &mut [u8]) -> usize
    requires { Importable universe octree.now }
    ensures value { result ≡ length (import_symbols universe octree.now) }
    ensures out_after { let symbols = import_symbols universe octree.now in
        out.new ≡ sets out.old 0 symbols }
{
    let piece = lay_run(octree, 0, universe.bits, 0, out, 0);
    write_held(out, 0, 1, piece.held);
    piece.end
}

// What a pass writes, or nothing where it does not fit. It is no longer than `most`, so that it is measured, by the
// same pass over no room, only where less room is lent than that.
fn write_fitting<F: Fn(&mut [u8]) -> usize>(
    write: F,
    most: usize,
    out: &mut [u8],
) -> Result<u64, Unwritten>
    requires { F.IsAlwaysCallable write }
    ensures { (symbols : List ℕ) → Writes (F.post write) most symbols →
        (writing_told result ≡ written_answer 0 out.old symbols) × (out.new ≡ written_buffer 0 out.old symbols) }
{
    if most <= out.len() {
        return Ok(write(out) as u64);
    }
    let needed = write(&mut []);
    if out.len() < needed {
        return Err(Unwritten::NoRoom(needed as u64));
    }
    write(out);
    Ok(needed as u64)
}

// Writes the octree of an expression of three axes with equal bits into `out`, with no `P` whose eight sons are all `F`
// or all `E`, and gives its length. Where it is refused or does not fit, nothing; with too little room comes the length
// needed.
pub fn export_octree(
    universe: Universe,
    expression: &[u8],
    out: &mut [u8],
) -> Result<u64, Unwritten>
    ensures value { writing_told result ≡ export_answer universe expression.now out.old }
    ensures out_after { out.new ≡ export_buffer universe expression.now out.old }
{
    check_cube(universe)?;
    bintree::well_formed(universe, expression)?;
    // A halved block is at most one `P`, of eight sons.
    let most = expression.len().saturating_mul(4);
    write_fitting(|room| write_octree(universe, expression, room), most, out)
}

// Writes the merged expression of an octree of three axes with equal bits, reduced or not, into `out`, and gives its
// length. Where it is refused or does not fit, nothing; with too little room comes the length needed.
pub fn import_octree(universe: Universe, octree: &[u8], out: &mut [u8]) -> Result<u64, Unwritten>
    ensures value { writing_told result ≡ import_answer universe octree.now out.old }
    ensures out_after { out.new ≡ import_buffer universe octree.now out.old }
{
    check_cube(universe)?;
    check_octree(universe.bits, octree)?;
    // A `P` is seven halved blocks, so the expression is shorter than twice the octree.
    let most = octree.len().saturating_mul(2);
    write_fitting(|room| write_merged(universe, octree, room), most, out)
}
