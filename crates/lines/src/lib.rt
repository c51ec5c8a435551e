// The lines that are printed for a scene, in a lent array.
#![tactic(auto)]

mod append;
mod line;
mod program;

pub use append::MOST_BYTES;
pub use program::{MOST_SCENE_BYTES, lines_of};
