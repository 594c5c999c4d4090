ghost use Rattle.std.specs.Prelude.{◌≡◌, Bool};
ghost use Rattle.fault.specs.Pointers.{is_blob, lid_of};

use crate::{BlobPointer, LogOffset};

// Where a message lies.
#[derive(Clone, Copy, PartialEq, Eq, Debug)]
pub enum DiskPtr {
    // In the log itself.
    Inline(LogOffset),
    // A message in the log that points to a payload beside it.
    Blob(LogOffset, BlobPointer),
}

impl DiskPtr {
    pub fn is_blob(&self) -> bool
        ensures { result ≡ is_blob self.now }
    {
        matches!(self, DiskPtr::Blob(..))
    }

    // The place in the log.
    pub fn lid(&self) -> LogOffset
        ensures { result ≡ lid_of self.now }
    {
        match *self {
            DiskPtr::Inline(lid) | DiskPtr::Blob(lid, _) => lid,
        }
    }
}
