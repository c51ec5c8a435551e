// The corners of keys in whole sixteenths, and the step between two of them.
ghost use Rattle.std.specs.Prelude.{◌≡◌};
ghost use Rattle.universe.specs.Told.{number_told};
ghost use Rattle.standin.specs.Sixteenths.{corner_limit};
ghost use Rattle.standin.specs.Held.{Limited};
ghost use Rattle.mover.specs.Keys.{key_corner, less_numbers};
ghost use Rattle.mover.specs.Stretches.{stretches, frames_of, change_of, is_step, are_steps, step_of, steps_of};
ghost use Rattle.mover.specs.Stretches.{has_step, steps_refusal};
ghost use Rattle.mover.specs.Ready.{Changing, ChangingAll, HasCorner, HasStretch, HasStretches};

use crate::key::CORNER_LENGTH;
use standin::{Numbers, Proxy, Triple};
use universe::Refusal;

// How large a step's number may be, in sixteenths.
const STEP_LIMIT: u64 = Proxy::NORMAL_LIMIT as u64;

// A mover as it is lent: the Box that gives its size, and the keys' moments and near corners, three numbers each, in
// two slices, as C lends them. Nothing compares or prints it.
#[derive(Clone, Copy)]
pub(crate) struct Mover<'a> {
    pub size: Proxy,
    pub moments: &'a [u64],
    pub corners: &'a [f64],
}

// Three numbers, each made of two along its axis. Differences and sums are no `Sub` and `Add` of `Numbers`, which is of
// `standin`: those would be public functions, which ask nothing, and these ask for limits.
pub(crate) fn each<F: Fn(i64, i64) -> i64>(a: Numbers, b: Numbers, of: F) -> Numbers
    requires x { F.pre of a.x b.x }
    requires y { F.pre of a.y b.y }
    requires z { F.pre of a.z b.z }
    ensures x { F.post of a.x b.x result.x }
    ensures y { F.post of a.y b.y result.y }
    ensures z { F.post of a.z b.z result.z }
{
    Numbers {
        x: of(a.x, b.x),
        y: of(a.y, b.y),
        z: of(a.z, b.z),
    }
}

// One corner less another.
pub(crate) fn less(a: Numbers, b: Numbers) -> Numbers
    requires limited { Limited corner_limit a }
    requires limited_2 { Limited corner_limit b }
    ensures { result ≡ less_numbers a b }
{
    each(a, b, |number, less| number - less)
}

// Whether a change is a whole number of sixteenths a frame, at most 64 in size.
fn is_step(frames: u64, change: i64) -> bool
    requires { Changing frames change }
    ensures { result ≡ is_step frames change }
{
    let size = change.unsigned_abs();
    size % frames == 0 && size / frames <= STEP_LIMIT
}

// The step that such a change comes to.
fn step_of(frames: u64, change: i64) -> i64
    requires { Changing frames change }
    ensures { result ≡ step_of frames change }
{
    let step = (change.unsigned_abs() / frames) as i64;
    if change < 0 { -step } else { step }
}

// The same on each axis of space. `each` would be no plainer: `are_steps` makes no numbers, and `steps_of` makes them
// of a change alone.
fn are_steps(frames: u64, change: Numbers) -> bool
    requires { ChangingAll frames change }
    ensures { result ≡ are_steps frames change }
{
    is_step(frames, change.x) && is_step(frames, change.y) && is_step(frames, change.z)
}

pub(crate) fn steps_of(frames: u64, change: Numbers) -> Numbers
    requires { ChangingAll frames change }
    ensures { result ≡ steps_of frames change }
{
    Numbers {
        x: step_of(frames, change.x),
        y: step_of(frames, change.y),
        z: step_of(frames, change.z),
    }
}

// That a stretch is there is asked, and in no type of a stretch: one would be made at each turn of the loops, and its
// fact shown there as here.
impl Mover<'_> {
    // How many stretches the keys have.
    pub(crate) fn stretches(self) -> usize
        ensures { result ≡ stretches self.entry.moments.now }
    {
        self.moments.len().saturating_sub(1)
    }

    // The corner of key i in sixteenths.
    pub(crate) fn corner_at(self, i: usize) -> Numbers
        requires { HasCorner self.corners.now i }
        ensures { result ≡ key_corner self.entry.corners.now i }
    {
        let first = CORNER_LENGTH * i;
        let corner = Triple {
            x: self.corners[first],
            y: self.corners[first + 1],
            z: self.corners[first + 2],
        };
        standin::corner_sixteenths(corner).unwrap()
    }

    // How many frames stretch i has.
    pub(crate) fn frames_of(self, i: usize) -> u64
        requires { HasStretch self.moments.now self.corners.now i }
        ensures { result ≡ frames_of self.entry.moments.now i }
    {
        self.moments[i + 1] - self.moments[i]
    }

    // By how much the corner changes over stretch i.
    pub(crate) fn change_of(self, i: usize) -> Numbers
        requires { HasStretch self.moments.now self.corners.now i }
        ensures { result ≡ change_of self.entry.corners.now i }
    {
        let to = self.corner_at(i + 1);
        let from = self.corner_at(i);
        less(to, from)
    }

    // Whether stretch i has a step.
    fn has_step(self, i: usize) -> bool
        requires { HasStretch self.moments.now self.corners.now i }
        ensures { result ≡ has_step self.entry.moments.now self.entry.corners.now i }
    {
        let change = self.change_of(i);
        are_steps(self.frames_of(i), change)
    }

    // BadStep where a stretch has no step.
    pub(crate) fn check_steps(self) -> Result<(), Refusal>
        requires { HasStretches self.moments.now self.corners.now }
        ensures { number_told result ≡ steps_refusal self.entry.moments.now self.entry.corners.now }
    {
        for i in 0..self.stretches() {
            if !self.has_step(i) {
                return Err(Refusal::BadStep);
            }
        }
        Ok(())
    }
}
