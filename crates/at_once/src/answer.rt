// What the questions answer at once.
ghost use Rattle.std.specs.Prelude.{◌≡◌};
ghost use Rattle.bintree.specs.Windows.{verdict_of};

use bintree::{Contact, Verdict};

// The first and the last frame of a window that hold a black voxel.
#[derive(Clone, Copy, Debug, PartialEq, Eq)]
pub struct Ends {
    pub first: u64,
    pub last: u64,
}

// Sure and possible contact: the voxels of the window over whose own block the trees' intersection is BLACK, those that
// are black at their centre, and those over whose own block it is not WHITE.
#[derive(Clone, Copy, Debug, PartialEq, Eq)]
pub struct Contacts {
    pub sure: u64,
    pub centre: u64,
    pub possible: u64,
}

// The verdict that a contact is: Clear where it counts no voxel.
pub(crate) fn verdict_from(contact: Contact) -> Verdict
    ensures { result ≡ verdict_of contact }
{
    if contact.voxels == 0 {
        return Verdict::Clear;
    }
    Verdict::Hit(contact)
}
