ghost use Rattle.std.specs.Prelude.{◌≡◌};
ghost use Rattle.logs.specs.Meaning.{met};

use fault::DiskPtr;

// A position in a log, in order of reserving: at least 1, below `POSITION_END`.
pub type Position = u64;

// No position is this high.
pub const POSITION_END: Position = 1 << 62;

// The longest payload, in bytes.
// Kept: as many as `serialization` makes at most; a log takes any bytes, so that neither crate builds on the other.
pub const MAX_PAYLOAD: usize = 1152;

// What a message takes of its log beside its payload, in bytes.
pub const HEADER_LEN: usize = 32;

// What a message holds.
#[derive(Clone, Copy, PartialEq, Eq, Debug)]
pub enum Kind {
    Counter,
    Free,
    Meta,
    Link,
    Node,
}

// An entry of a page's chain: where its message is, the stamp that it was installed with, and the message's size.
#[derive(Clone, Copy, PartialEq, Eq, Debug)]
pub struct CacheInfo {
    pub ts: u64,
    pub lsn: Position,
    pub pointer: DiskPtr,
    pub log_size: u64,
}

// The state of a message.
#[derive(Clone, Copy, PartialEq, Eq, Debug)]
pub enum Status {
    Pending,
    Live,
    Dead,
    Cancelled,
}

// What may meet a message.
#[derive(Clone, Copy, PartialEq, Eq, Debug)]
pub enum Event {
    Complete,
    Abort,
    Mark,
}

impl Status {
    // The event meets the message: complete and abort settle a pending one, a mark kills a live one, and nothing else changes.
    pub fn meet(&mut self, event: Event)
        ensures { self.new ≡ met self.old event }
    {
        *self = match (*self, event) {
            (Status::Pending, Event::Complete) => Status::Live,
            (Status::Pending, Event::Abort) => Status::Cancelled,
            (Status::Live, Event::Mark) => Status::Dead,
            (state, _) => state,
        };
    }
}
