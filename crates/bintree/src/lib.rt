// Expressions: what their symbols say.
#![tactic(auto)]

mod lay;
mod measure;
mod place;
mod voxel;
mod walk;
mod window;

pub use lay::{copy, is_alike, join_halves, merge, note};
pub use place::{check_part, part, part_place};
pub use voxel::colour_at;
pub use walk::{tree_end, well_formed};
pub use window::numbers_of;

// The two colours of a voxel.
#[derive(Clone, Copy, Debug, PartialEq, Eq)]
pub enum Colour {
    White,
    Black,
}

// What a Hit tells: the first and the last frame of the window that hold a black voxel, and how many black voxels
// the window holds.
#[derive(Clone, Copy, Debug, PartialEq, Eq)]
pub struct Contact {
    pub first: u64,
    pub last: u64,
    pub voxels: u64,
}

// Whether two shapes share space in a window. It is no `Option`: Clear and Hit are the documents' own words.
#[derive(Clone, Copy, Debug, PartialEq, Eq)]
pub enum Verdict {
    Clear,
    Hit(Contact),
}

// What `merge` tells of an expression that it wrote: the length written and the largest count of symbols that are held
// back.
#[derive(Clone, Copy, Debug, PartialEq, Eq)]
pub struct Merged {
    pub length: u64,
    pub held: u64,
}

// Where a part starts in an expression, and how many symbols it has.
#[derive(Clone, Copy, Debug, PartialEq, Eq)]
pub struct Placed {
    pub start: u64,
    pub length: u64,
}

// The black voxels of the whole universe, and the verdict over a window.
#[derive(Clone, Copy, Debug, PartialEq, Eq)]
pub struct Numbers {
    pub volume: u64,
    pub verdict: Verdict,
}
