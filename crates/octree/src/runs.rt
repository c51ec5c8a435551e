// Import: the recursion over runs of octrees, which finds where they end, and lays their shapes into room.
ghost use Rattle.std.specs.Prelude.{◌≡◌, ◌≤◌};
ghost use Rattle.octree.specs.Runs.{leaf_of, run_at, past_run, Importing, import_piece, import_room};

use crate::Piece;

// `B` for `F` and `W` for `E`.
fn leaf_of(symbol: u8) -> u8
    ensures { result ≡ leaf_of symbol }
{
    if symbol == b'F' { b'B' } else { b'W' }
}

// The place past the run of octrees of at most `left` levels that begins at `at`: as many as the halves of a cube
// halved `inside` times.
pub(crate) fn run_end(octree: &[u8], at: usize, left: u64, inside: u64) -> Option<usize>
    ensures { result ≡ past_run (run_at octree.now left inside at) }
{
    if inside != 0 {
        let middle = run_end(octree, at, left, inside - 1)?;
        return run_end(octree, middle, left, inside - 1);
    }
    match octree.get(at)? {
        b'P' => run_end(octree, at + 1, left.checked_sub(1)?, 3),
        b'F' | b'E' => Some(at + 1),
        _ => None,
    }
}

// Lays the merged shape of such a run from `to` on, as far as there is room; a leaf is held back.
#[tactic(auto, using(crate::proofs::Imports::run_laws))]
pub(crate) fn lay_run(
    octree: &[u8],
    at: usize,
    left: u64,
    inside: u64,
    out: &mut [u8],
    to: usize,
) -> Piece
    requires { Importing octree.now left inside at to }
    ensures value { result ≡ import_piece to (run_at octree.now left inside at) }
    ensures out_after { let run = run_at octree.now left inside at in
        out.new ≡ import_room out.old to run }
{
    if inside == 0 {
        let symbol = octree[at];
        if symbol == b'P' {
            return lay_run(octree, at + 1, left - 1, 3, out, to);
        }
        return Piece {
            held: Some(leaf_of(symbol)),
            next: at + 1,
            end: to + 1,
        };
    }
    let low = lay_run(octree, at, left, inside - 1, out, to + 1);
    let high = lay_run(octree, low.next, left, inside - 1, out, low.end);
    if low.is_alike(high) {
        return Piece {
            end: to + 1,
            ..high
        };
    }
    bintree::join_halves(
        out,
        to,
        low.held.unwrap_or(0),
        low.end,
        high.held.unwrap_or(0),
    );
    Piece { held: None, ..high }
}
