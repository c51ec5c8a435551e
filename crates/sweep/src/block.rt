// The recursion over the blocks of the result. Over each of them stand several trees of the expression, whose places
// are the first of the slots that it is lent; it lays what they are, laid over each other, swept and merged, into room.
ghost use Rattle.std.specs.Prelude.{◌≡◌, ◌*◌, take, drop};
ghost use Rattle.bintree.specs.Walks.{laid};
ghost use Rattle.sweep.specs.Places.{past_all, Sweeping, Halving, is_same, piece_of};
ghost use Rattle.sweep.specs.Places.{swept_block, swept_across, swept_halves};

use crate::places::{copy_places, pull_back, push_lows, push_past, settle};
use universe::Universe;

// What is swept: an expression, the axes that its levels are halved across, by the levels left below, and the one of
// them that is dropped. Nothing compares or prints it.
#[derive(Clone, Copy)]
pub(crate) struct Sweep<'a> {
    pub expression: &'a [u8],
    pub axes: &'a [usize; Universe::MOST_LEVELS as usize],
    pub axis: usize,
}

// What laying a block's shape comes to: the symbol of a shape that is one leaf, which is held back; and the place past
// what is written or held back. The crate `octree` has one of its own, with the place past what was read: one for both
// would be a new public name. Nothing compares or prints a piece.
#[derive(Clone, Copy)]
pub(crate) struct Piece {
    pub held: Option<u8>,
    pub end: usize,
}

impl Piece {
    // Whether two shapes are leaves of one colour, by the symbols that are held back. `bintree::is_alike` is no
    // question of an `Option`: it takes bytes, 0 for none.
    #[tactic(auto, unfolding(crate::specs::Places::is_same))]
    fn is_alike(self, high: Piece) -> bool
        ensures { result ≡ is_same self.held high.held }
    {
        self.held.is_some() && self.held == high.held
    }
}

// A block over which `count` trees stand: a list with a black leaf is black, one with no halved tree white. Else the
// halves are swept, in one list where the level halves the dropped axis. Each slot then holds the place past its tree.
#[cycle(sweep_across_sweep_block_sweep_halves)]
pub(crate) fn sweep_block(
    sweep: Sweep<'_>,
    left: u64,
    work: &mut [usize],
    count: usize,
    out: &mut [u8],
    at: usize,
) -> Piece
    requires { Sweeping sweep left work.old count at }
    ensures result_value { let shape = swept_block sweep.entry left work.old count in
        result ≡ piece_of at shape }
    ensures out_after { let shape = swept_block sweep.entry left work.old count in
        out.new ≡ laid out.old at shape }
    ensures fact { take count work.new ≡ past_all sweep.entry.expression.now (take count work.old) }
{
    let (places, rest) = work.split_at_mut(count);
    let held = settle(sweep.expression, places);
    if held.is_some() {
        push_past(sweep.expression, places);
        return Piece { held, end: at + 1 };
    }
    let halved = push_lows(sweep.expression, places, rest);
    if sweep.axes[(left - 1) as usize] == sweep.axis {
        let piece = sweep_across(sweep, left - 1, rest, halved, out, at);
        pull_back(sweep.expression, places, &rest[halved..]);
        return piece;
    }
    let piece = sweep_halves(sweep, left - 1, rest, halved, out, at);
    pull_back(sweep.expression, places, rest);
    piece
}

// The halves of trees that are halved across the dropped axis, by the places of their low halves: both come into one
// list. The ends of the high halves stand behind those of the low ones.
#[cycle(sweep_across_sweep_block_sweep_halves)]
fn sweep_across(
    sweep: Sweep<'_>,
    left: u64,
    work: &mut [usize],
    count: usize,
    out: &mut [u8],
    at: usize,
) -> Piece
    requires { Halving sweep left work.old count (2 * count) at }
    ensures result_value { let shape = swept_across sweep.entry left work.old count in
        result ≡ piece_of at shape }
    ensures out_after { let shape = swept_across sweep.entry left work.old count in
        out.new ≡ laid out.old at shape }
    ensures fact { let s = sweep.entry.expression.now in
        take count (drop count work.new) ≡ past_all s (past_all s (take count work.old)) }
{
    let (lows, rest) = work.split_at_mut(count);
    let highs = &mut rest[..count];
    copy_places(lows, highs);
    push_past(sweep.expression, highs);
    sweep_block(sweep, left, work, 2 * count, out, at)
}

// The halves of trees that are halved across another axis, by the places of their low halves: the low halves are swept,
// then the high ones, which stand past them, and the two are joined as merging joins them.
#[cycle(sweep_across_sweep_block_sweep_halves)]
fn sweep_halves(
    sweep: Sweep<'_>,
    left: u64,
    work: &mut [usize],
    count: usize,
    out: &mut [u8],
    at: usize,
) -> Piece
    requires { Halving sweep left work.old count count at }
    ensures result_value { let shape = swept_halves sweep.entry left work.old count in
        result ≡ piece_of at shape }
    ensures out_after { let shape = swept_halves sweep.entry left work.old count in
        out.new ≡ laid out.old at shape }
    ensures fact { let s = sweep.entry.expression.now in
        take count work.new ≡ past_all s (past_all s (take count work.old)) }
{
    let below = sweep_block(sweep, left, work, count, out, at + 1);
    let above = sweep_block(sweep, left, work, count, out, below.end);
    if below.is_alike(above) {
        return Piece {
            held: below.held,
            end: at + 1,
        };
    }
    bintree::join_halves(
        out,
        at,
        below.held.unwrap_or(0),
        below.end,
        above.held.unwrap_or(0),
    );
    Piece {
        held: None,
        end: above.end,
    }
}
