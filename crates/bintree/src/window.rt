// The volume of an expression and its verdict over a window of frames: one walk reads the symbols and counts.
ghost use Rattle.std.specs.Prelude.{◌≡◌, cond, ◌+◌, ◌^◌, ◌≤◌, eqb};
ghost use Rattle.universe.specs.Universe.{levels, most_levels, longest_side, frame_axis};
ghost use Rattle.bintree.specs.Reading.{read_at};
ghost use Rattle.bintree.specs.Told.{numbers_told};
ghost use Rattle.bintree.specs.Verdicts.{numbers_answer};
ghost use Rattle.bintree.specs.Windows.{no_contact, touched, FrameTable, LaterTable};
ghost use Rattle.bintree.specs.Windows.{watched, verdict_of};

use crate::walk::{levels_of, voxels_of};
use crate::{Contact, Numbers, Verdict};
use universe::{Accepted, Refusal, Universe};

// A window of a universe's frames, both ends in.
#[derive(Clone, Copy)]
pub(crate) struct Window {
    pub(crate) accepted: Accepted,
    pub(crate) first: u64,
    pub(crate) last: u64,
}

// What a walk over one tree tells: the place after the tree, its volume and its contact with the window.
#[derive(Clone, Copy)]
pub(crate) struct Watched {
    pub(crate) end: usize,
    pub(crate) volume: u64,
    pub(crate) contact: Contact,
}

// The contact with a window before a black block is joined to it: the ends stand the other way round.
fn no_contact(window: Window) -> Contact
    ensures { result ≡ no_contact window.first window.last }
{
    Contact {
        first: window.last,
        last: window.first,
        voxels: 0,
    }
}

// Joins a black block's frames in the window to a contact: 2^bits frames from `frame` on, with 2^rest voxels in each.
// That the frames end in time is asked, and in no type of them: they are made here alone, of what the walk has in hand.
#[tactic(auto, using(crate::proofs::Watches::touch_laws))]
fn touch(window: Window, contact: Contact, frame: u64, bits: u64, rest: u64) -> Contact
    requires bits_bound { frame + 2 ^ bits ≤ longest_side }
    requires rest_bound { contact.voxels + 2 ^ (bits + rest) ≤ 2 ^ most_levels }
    ensures { result ≡ touched contact window.first window.last frame (2 ^ bits) (2 ^ rest) }
{
    let from = frame.max(window.first);
    let to = (frame + ((1 << bits) - 1)).min(window.last);
    if to < from {
        return contact;
    }
    Contact {
        first: contact.first.min(from),
        last: contact.last.max(to),
        voxels: contact.voxels + ((to - from + 1) << rest),
    }
}

// How often a halving across an axis halves a block's frames: once where it is the frame axis.
#[tactic(auto, using(crate::proofs::Frames::halving_laws))]
fn frame_halvings(accepted: Accepted, axis: usize) -> u64
    ensures { result ≡ cond (eqb axis (frame_axis accepted.universe)) 1 0 }
{
    u64::from(axis as u64 == accepted.frame_axis())
}

// The bits of the frames of blocks, by the levels left to them: one more for each halving across the frame axis.
fn frame_bits(accepted: Accepted) -> [u64; Universe::MOST_LEVELS as usize + 1]
    ensures { FrameTable accepted.universe result }
{
    let axes = accepted.axes_left();
    let levels = accepted.levels() as usize;
    let mut table = [0u64; Universe::MOST_LEVELS as usize + 1];
    for left in 0..levels {
        table[left + 1] = table[left] + frame_halvings(accepted, axes[left]);
    }
    table
}

// How much later than its block's the frames of a high half begin, by the levels left to it: by as many frames as it
// has fewer.
fn later_frames(
    accepted: Accepted,
    bits: [u64; Universe::MOST_LEVELS as usize + 1],
) -> [u64; Universe::MOST_LEVELS as usize]
    requires { FrameTable accepted.universe bits }
    ensures { LaterTable accepted.universe result }
{
    let levels = accepted.levels() as usize;
    let mut table = [0u64; Universe::MOST_LEVELS as usize];
    for left in 0..levels {
        table[left] = (1 << bits[left + 1]) - (1 << bits[left]);
    }
    table
}

// Walks over the tree that begins at the first symbol and stands for the whole universe. `owed` counts the voxels of
// the high halves still to come: one bit for each, at the levels left to it, where `first_frames` has its first frame.
fn watch(window: Window, expression: &[u8]) -> Option<Watched>
    ensures { result ≡ watched window (read_at expression.now (levels window.accepted.universe) 0) }
{
    let bits = frame_bits(window.accepted);
    let later = later_frames(window.accepted, bits);
    let mut first_frames = [0u64; Universe::MOST_LEVELS as usize];
    let mut levels = window.accepted.levels();
    let mut from: u64 = 0;
    let mut owed: u64 = 0;
    let mut volume: u64 = 0;
    let mut found = no_contact(window);
    for (place, symbol) in expression.iter().enumerate() {
        match *symbol {
            b'(' => {
                if levels == 0 {
                    return None;
                }
                levels -= 1;
                first_frames[levels as usize] = from + later[levels as usize];
                owed += voxels_of(levels);
            }
            b'B' | b'W' => {
                if *symbol == b'B' {
                    let wide = bits[levels as usize];
                    volume += voxels_of(levels);
                    found = touch(window, found, from, wide, levels - wide);
                }
                if owed == 0 {
                    return Some(Watched {
                        end: place + 1,
                        volume,
                        contact: found,
                    });
                }
                levels = levels_of(owed);
                owed -= voxels_of(levels);
                from = first_frames[levels as usize];
            }
            _ => return None,
        }
    }
    None
}

// The verdict that a contact is: Clear where it counts no voxel.
fn verdict_from(contact: Contact) -> Verdict
    ensures { result ≡ verdict_of contact }
{
    if contact.voxels == 0 {
        Verdict::Clear
    } else {
        Verdict::Hit(contact)
    }
}

// The black voxels of an expression in the whole universe, and its verdict over frames first to last, both ends in.
pub fn numbers_of(
    universe: Universe,
    expression: &[u8],
    first: u64,
    last: u64,
) -> Result<Numbers, Refusal>
    ensures { numbers_told result ≡ numbers_answer universe expression.now first last }
{
    let accepted = universe.accepted()?;
    let window = Window {
        accepted,
        first,
        last,
    };
    let seen = watch(window, expression).ok_or(Refusal::BadExpression)?;
    if seen.end != expression.len() {
        return Err(Refusal::BadExpression);
    }
    universe.check_window(first, last)?;
    Ok(Numbers {
        volume: seen.volume,
        verdict: verdict_from(seen.contact),
    })
}
