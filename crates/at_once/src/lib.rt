// Answers at once, with no room lent: the verdict of two trees over a window, its ends, and sure and possible contact;
// and the conversions over codes, merged by colours and raw by marks.
#![tactic(auto)]

mod answer;
mod ball;
mod both;
mod conversion;
mod count;
mod digits;
mod end;
mod ends;
mod frames;
mod lay;
mod leaf;
mod load;
mod moves;
mod own;
mod pair;
mod prune;
mod raw;
mod reaches;
mod shared;
mod tally;
mod text;
mod three;
mod verdict;
mod voxel;
mod whole;
mod window;
mod word;

pub use answer::{Contacts, Ends};
pub use conversion::{merged_of_one, merged_of_two, raw_of_one, raw_of_two};
pub use shared::contacts_of_two;
pub use verdict::{ends_at_once, verdict_at_once};
