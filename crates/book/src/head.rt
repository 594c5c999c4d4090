use fault::{DiskPtr, PageId};
use logs::{Kind, Position, Status};

// Where a payload lies: so many bytes of the log's memory, from an offset on.
// Kept: a log asks for no memory after it is made, so that messages name places in one Vec and have none of their own.
#[derive(Clone, Copy)]
pub struct Place {
    pub at: usize,
    pub len: usize,
}

// A message of a log, and where its payload lies.
#[derive(Clone, Copy)]
pub struct Head {
    pub lsn: Position,
    pub pointer: DiskPtr,
    pub page: PageId,
    pub kind: Kind,
    pub place: Place,
    pub status: Status,
}
