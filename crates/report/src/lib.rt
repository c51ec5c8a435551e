// Reports: how many black voxels each frame of a window has, over a list of expressions.
#![tactic(auto)]

mod answer;
mod list;
mod row;
mod window;

pub use answer::report_of;
pub use list::MOST_EXPRESSIONS;

// How many places of the row were set, one for each frame of the window, and the total of all counts.
#[derive(Clone, Copy, Debug, PartialEq, Eq)]
pub struct Report {
    pub frames: u64,
    pub total: u64,
}
