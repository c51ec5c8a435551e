// Files: scenes are read, shapes are read and written.
#![tactic(auto)]

mod decode;
mod scene_file;
mod shape_file;

pub use decode::FIRST_VERSION;
pub use scene_file::{MOST_BALL_NUMBERS, MOST_NUMBERS, read_scene};
pub use shape_file::{read_shape, write_shape};
use universe::Universe;

// How many rows and balls a scene has, and how many words each of its trees.
#[derive(Clone, Copy, Debug, PartialEq, Eq)]
pub struct Counts {
    pub rows: u64,
    pub balls: u64,
    pub first: u64,
    pub second: u64,
}

// A window of frames, both ends in.
#[derive(Clone, Copy, Debug, PartialEq, Eq)]
pub struct Window {
    pub first: u64,
    pub last: u64,
}

// What a scene file says before its rows: its version, its universe, its counts and its window.
#[derive(Clone, Copy, Debug, PartialEq, Eq)]
pub struct Scene {
    pub version: u64,
    pub universe: Universe,
    pub counts: Counts,
    pub window: Window,
}

// Where the parts of a scene file begin.
#[derive(Clone, Copy, Debug, PartialEq, Eq)]
pub struct Places {
    pub rows: usize,
    pub balls: usize,
    pub first: usize,
    pub second: usize,
}

// What the header of a scene file says: the scene, and the places of what follows it.
#[derive(Clone, Copy, Debug, PartialEq, Eq)]
pub struct SceneHeader {
    pub scene: Scene,
    pub places: Places,
}

// What a shape file says: its universe, and the number of its symbols.
#[derive(Clone, Copy, Debug, PartialEq, Eq)]
pub struct ShapeRead {
    pub universe: Universe,
    pub length: u64,
}

// What the header of a shape file says: the shape, and where its symbols begin.
#[derive(Clone, Copy, Debug, PartialEq, Eq)]
pub struct ShapeHeader {
    pub shape: ShapeRead,
    pub place: usize,
}
