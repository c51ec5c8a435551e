// A window of frames that is accepted. It has a file of its own, since a type with a ghost field reads each definition
// that its file names, and those of row.rt speak of this type.
ghost use Rattle.std.specs.Prelude.{◌≡◌};
ghost use Rattle.universe.specs.Universe.{universe_refusal};
ghost use Rattle.universe.specs.Voxel.{window_refusal};

use universe::Universe;

// A window of a universe's frames, both ends in. Nothing compares or prints it.
#[derive(Clone, Copy)]
pub(crate) struct Window {
    pub(crate) universe: Universe,
    pub(crate) first: u64,
    pub(crate) last: u64,
    ghost accepts: { universe_refusal universe ≡ 0 },
    ghost within: { window_refusal universe first last ≡ 0 },
}
