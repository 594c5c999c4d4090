ghost use Rattle.std.specs.Prelude.{◌≡◌, ℕ, true, false, [], IfOk};
ghost use Rattle.book.specs.Books.{heads_of};
ghost use Rattle.tape.specs.Tapes.{tape_means, tape_fits, empty_tape};

use crate::tape::Tape;
use book::{Book, Head, Place};
use fault::{DiskPtr, LogOffset, PageId};
use logs::{
    CacheInfo, Event, HEADER_LEN, Kind, Log, LogFault, MAX_PAYLOAD, POSITION_END, Position,
    Reservation, Returned,
};
use std::alloc::{AllocError, Global};

impl Tape {
    // An empty tape with this number, of so many bytes.
    pub fn new(heap: Global, number: u64, room: u32) -> Result<Tape, AllocError>
        ensures { IfOk result (λ tape. tape_means tape ≡ empty_tape number room) }
    {
        let room = room as usize;
        let heads = Vec::with_capacity(heap, room / HEADER_LEN + 1)?;
        let mem = Vec::with_capacity(heap, room)?;
        let book = Book::new(number, heads, mem);
        Ok(Tape { book, room })
    }

    // Whether a payload of n bytes fits.
    pub fn fits(&self, n: usize) -> bool
        ensures { result ≡ (tape_means self.now).fits n }
    {
        let used = HEADER_LEN * self.book.heads.len() + self.book.mem.len();
        n <= MAX_PAYLOAD && used + HEADER_LEN + n <= self.room && self.book.next < POSITION_END
    }

    // The headers of its messages, in order of reserving.
    pub fn heads(&self) -> &[Head]
        ensures { result.now ≡ heads_of self.now.book }
    {
        self.book.heads.as_slice()
    }
}

// Kept: what passes a call on to the book is a line each; a trait over both logs would have to lend the book past their ghost
// fields, and of one generic log two crates could not each have a `new`.
impl Log for Tape {
    ghost means = { tape_means };

    fn reserve(
        &mut self,
        pid: PageId,
        kind: Kind,
        payload: &[u8],
    ) -> Result<Reservation, LogFault> {
        if self.book.any_pending() {
            return Err(LogFault::Pending(pid));
        }
        let len = payload.len();
        if !self.fits(len) {
            return Err(LogFault::Full(pid));
        }
        let at = self.book.mem.len();
        let lid = HEADER_LEN * self.book.heads.len() + at;
        self.book.extend(payload);
        let pointer = DiskPtr::Inline(lid as LogOffset);
        Ok(self.book.append(pid, kind, pointer, Place { at, len }))
    }

    fn complete(&mut self, reservation: Reservation) -> Result<(), Returned> {
        self.book.settle(reservation, Event::Complete)
    }

    fn abort(&mut self, reservation: Reservation) -> Result<(), Returned> {
        self.book.settle(reservation, Event::Abort)
    }

    fn sa_mark_replace(&mut self, pid: PageId, old_cache_infos: &[CacheInfo]) {
        self.book.mark(pid, old_cache_infos);
    }

    fn sa_mark_link(&mut self, _pid: PageId, _cache_info: CacheInfo) {}

    fn read(
        &self,
        pid: PageId,
        lsn: Position,
        pointer: DiskPtr,
        scratch: &mut [u8],
    ) -> Result<(Kind, usize), LogFault> {
        self.book.read(pid, lsn, pointer, scratch)
    }

    fn rewrite_blob_pointer(
        &mut self,
        pid: PageId,
        _lsn: Position,
        pointer: DiskPtr,
    ) -> Result<Reservation, LogFault> {
        Err(LogFault::NoMessage(pid, pointer))
    }

    fn propose(&self) -> Option<(PageId, LogOffset)> {
        None
    }

    fn stable(&self) -> Position {
        self.book.stable
    }

    fn make_durable(&mut self, lsn: Position) {
        self.book.raise(lsn);
    }
}
