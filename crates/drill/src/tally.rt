// What was tried, and how often the log and the model differed.
use std::fmt;

#[derive(Default, Drop)]
pub struct Tally {
    pub live: u64,
    pub cancelled: u64,
    pub full: u64,
    pub moved: u64,
    pub read: u64,
    pub unread: u64,
    pub proposed: u64,
    pub differ: u64,
}

pub fn count(n: &mut u64) {
    *n = n.saturating_add(1);
}

impl Tally {
    // Counts a difference, unless there is none.
    pub fn expect(&mut self, same: bool) {
        if !same {
            count(&mut self.differ);
        }
    }
}

impl fmt::Display for Tally {
    fn fmt<W: fmt::Write>(&self, f: &mut fmt::Formatter<W>) -> fmt::Result {
        let Tally {
            live,
            cancelled,
            full,
            moved,
            read,
            unread,
            proposed,
            differ,
        } = self;
        write!(
            f,
            "live {live} cancelled {cancelled} full {full} moved {moved} read {read} unread {unread} proposed {proposed} differ {differ}"
        )
    }
}
