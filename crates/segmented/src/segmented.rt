ghost use Rattle.segmented.specs.Keeping.{Keeps};

use book::Book;

// So many segments, then so many blob slots, in one memory that is asked for when the log is made. Messages are added to the
// active segment, which is filled so far.
#[derive(Drop)]
pub struct Segmented {
    pub(crate) book: Book,
    pub(crate) segs: usize,
    pub(crate) slots: usize,
    pub(crate) active: usize,
    pub(crate) fill: usize,
    ghost kept: { Keeps segs slots active fill book },
}
