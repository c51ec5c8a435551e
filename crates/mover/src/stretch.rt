// The Box of a stretch as six rows, and the rows and words with which a stretch is judged.
ghost use Rattle.std.specs.Prelude.{◌≡◌, pos, ◌-ℤ◌, ◌*ℤ◌};
ghost use Rattle.standin.specs.Rows.{rows_between};
ghost use Rattle.standin.specs.Held.{Limited};
ghost use Rattle.mover.specs.Keys.{mover_lent, size_of, still_refusal};
ghost use Rattle.mover.specs.Stretches.{worked_back, more_numbers, near_at0, far_at0, step_along};
ghost use Rattle.mover.specs.Ready.{Working, WorkingAll, back_limit, change_limit, HasBox};

use crate::step::{Mover, each, less, steps_of};
use standin::{Numbers, Proxy, Solid};

// How large the Box is: far less near.
fn size_of(size: Proxy) -> Numbers
    requires { still_refusal size ≡ 0 }
    ensures { result ≡ size_of size.solid }
{
    match size.solid {
        Solid::Box(corners) => {
            let far = standin::corner_sixteenths(corners.far).unwrap();
            let near = standin::corner_sixteenths(corners.near).unwrap();
            less(far, near)
        }
        Solid::Cut(_) => Numbers { x: 0, y: 0, z: 0 },
    }
}

// A number of a corner, worked back from a moment to time 0.
fn back_along(moment: u64, corner: i64, step: i64) -> i64
    requires { Working moment corner step }
    ensures { result ≡ (corner -ℤ pos moment *ℤ step) }
{
    corner - (moment as i64) * step
}

// A corner, worked back so.
fn worked_back(moment: u64, corner: Numbers, step: Numbers) -> Numbers
    requires { WorkingAll moment corner step }
    ensures { result ≡ worked_back moment corner step }
{
    each(corner, step, |from, by| back_along(moment, from, by))
}

// One corner and a size.
fn more(a: Numbers, b: Numbers) -> Numbers
    requires limited { Limited back_limit a }
    requires limited_2 { Limited change_limit b }
    ensures { result ≡ more_numbers a b }
{
    each(a, b, |number, more| number + more)
}

impl Mover<'_> {
    // The six rows of the Box over stretch i.
    pub(crate) fn rows_of(self, i: usize) -> [[i64; 5]; 6]
        requires { HasBox (mover_lent self) i }
        ensures { let m = mover_lent self.entry in
            result ≡ rows_between (near_at0 m i) (far_at0 m i) (step_along m i) }
    {
        let change = self.change_of(i);
        let step = steps_of(self.frames_of(i), change);
        let corner = self.corner_at(i);
        let near = worked_back(self.moments[i], corner, step);
        let extent = size_of(self.size);
        let far = more(near, extent);
        standin::rows_between(near, far, step)
    }
}
