// A log whose messages can be listed.
use book::Head;
use segmented::Segmented;
use tape::Tape;

// Kept: one impl for each log, since the list is each log's own method, and no trait of theirs has it.
pub trait Listed {
    fn list(&self) -> &[Head];
}

impl Listed for Tape {
    fn list(&self) -> &[Head] {
        self.heads()
    }
}

impl Listed for Segmented {
    fn list(&self) -> &[Head] {
        self.heads()
    }
}
