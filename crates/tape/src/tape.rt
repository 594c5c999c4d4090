ghost use Rattle.tape.specs.Keeping.{Keeps};

use book::Book;

// A tape of so many bytes, each message taking a header and its payload. Its memory is asked for when it is made.
#[derive(Drop)]
pub struct Tape {
    pub(crate) book: Book,
    pub(crate) room: usize,
    ghost kept: { Keeps room book },
}
