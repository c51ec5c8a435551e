// Frames joined to a contact, and the voxels in them.
ghost use Rattle.std.specs.Prelude.{◌≡◌, ◌+◌, ◌^◌, ◌<◌};
ghost use Rattle.at_once.specs.Counting.{joined_contact, BlackFrames, black_voxels};

use bintree::Contact;

// A contact with frames joined that have so many black voxels.
pub(crate) fn joined(contact: Contact, begin: u64, end: u64, voxels: u64) -> Contact
    requires { contact.voxels + voxels < 2 ^ 64 }
    ensures { result ≡ joined_contact contact begin end voxels }
{
    Contact {
        first: contact.first.min(begin),
        last: contact.last.max(end),
        voxels: contact.voxels + voxels,
    }
}

// How many voxels a block with so many levels left and so many frames has in some of them.
pub(crate) fn voxels_of(left: u64, wide: u64, begin: u64, end: u64) -> u64
    requires { BlackFrames left wide begin end }
    ensures { result ≡ black_voxels left wide begin end }
{
    (end - begin + 1) * ((1 << left) / wide)
}
