ghost use Rattle.std.specs.Prelude.{◌≡◌, ◌+◌, ◌<◌, ◌≤◌, [], ◌∷◌, length, vec_len, vec_capacity};
ghost use Rattle.logs.specs.Meaning.{any_pending};
ghost use Rattle.logs.specs.Clauses.{OnRead};
ghost use Rattle.book.specs.Heads.{At, AtStatus, payload_of};
ghost use Rattle.book.specs.Books.{Begun, told, heads_of, mem_of, LiveIndex, PendingIndex, Met, BookSettle, Marks, Raised, Ready, Appended, Extended, Compacted, Overwritten};

use crate::book::Book;
use crate::head::{Head, Place};
use fault::{BytesFault, DiskPtr, PageId};
use logs::{
    CacheInfo, Event, Kind, LogFault, MAX_PAYLOAD, Position, Reservation, Returned, Status,
};

impl Book {
    // A book of no messages, in room that is lent for their headers, over this memory.
    pub fn new(number: u64, mut heads: Vec<Head>, mem: Vec<u8>) -> Book
        ensures { Begun number heads mem result }
    {
        heads.clear();
        Book {
            number,
            stable: 0,
            next: 1,
            heads,
            mem,
        }
    }

    // The index of the message at a position.
    pub fn find(&self, lsn: Position) -> Option<usize>
        ensures { At (heads_of self.now) lsn result }
    {
        self.heads.binary_search_by_key(&lsn, |h| h.lsn).ok()
    }

    // The index of the message at a position and pointer, if it has this status.
    fn find_by_status(&self, lsn: Position, pointer: DiskPtr, status: Status) -> Option<usize>
        ensures { AtStatus (heads_of self.now) lsn pointer status result }
    {
        let i = self.find(lsn)?;
        let h = self.heads[i];
        (h.status == status && h.pointer == pointer).then_some(i)
    }

    // The index of the live message at a position and pointer.
    pub fn live_at(&self, lsn: Position, pointer: DiskPtr) -> Option<usize>
        ensures { LiveIndex (mem_of self.now) (heads_of self.now) lsn pointer result }
    {
        self.find_by_status(lsn, pointer, Status::Live)
    }

    // The index of the pending message at a position and pointer.
    pub fn pending_at(&self, lsn: Position, pointer: DiskPtr) -> Option<usize>
        ensures { PendingIndex (mem_of self.now) (heads_of self.now) lsn pointer result }
    {
        self.find_by_status(lsn, pointer, Status::Pending)
    }

    // Whether a message is pending: only the last may be.
    pub fn any_pending(&self) -> bool
        ensures { result ≡ any_pending (told self.now) }
    {
        self.heads
            .last()
            .is_some_and(|h| h.status == Status::Pending)
    }

    // The event meets the message at an index, in place.
    fn meet(&mut self, i: usize, event: Event)
        requires { i < length (heads_of self.old) }
        ensures { Met self.old self.new i event }
    {
        self.heads[i].status.meet(event);
    }

    // The event meets the pending message of a reservation, which is spent by it.
    pub fn settle(&mut self, reservation: Reservation, event: Event) -> Result<(), Returned>
        ensures { BookSettle self.old self.new reservation event result }
    {
        let lsn = reservation.lsn();
        let pointer = reservation.pointer();
        let fault = LogFault::NotPending(pointer);
        let Some(i) = self.pending_at(lsn, pointer) else {
            return Err(Returned { reservation, fault });
        };
        reservation
            .spend(self.number, lsn, pointer)
            .map_err(|reservation| Returned { reservation, fault })?;
        self.meet(i, event);
        Ok(())
    }

    // A live message of the page is dead, if the entry names it.
    fn kill(&mut self, page: PageId, e: &CacheInfo)
        ensures { Marks self.old self.new page (e.now ∷ []) }
    {
        if let Some(i) = self.live_at(e.lsn, e.pointer)
            && self.heads[i].page == page
        {
            self.meet(i, Event::Mark);
        }
    }

    // The live messages of the page that the entries name are dead.
    pub fn mark(&mut self, page: PageId, entries: &[CacheInfo])
        ensures { Marks self.old self.new page entries.now }
    {
        for e in entries {
            self.kill(page, e);
        }
    }

    // A live message of the page, put to the front of the scratch.
    pub fn read(
        &self,
        page: PageId,
        lsn: Position,
        pointer: DiskPtr,
        scratch: &mut [u8],
    ) -> Result<(Kind, usize), LogFault>
        ensures { OnRead (told self.now) page lsn pointer scratch.old scratch.new result }
    {
        if scratch.len() < MAX_PAYLOAD {
            return Err(LogFault::Bytes(BytesFault::ScratchTooSmall));
        }
        let i = self
            .live_at(lsn, pointer)
            .ok_or(LogFault::NoMessage(page, pointer))?;
        let h = self.heads[i];
        if h.page != page {
            return Err(LogFault::OtherPage(page, pointer));
        }
        let payload = h.payload(&self.mem);
        scratch[..h.place.len].copy_from_slice(payload);
        Ok((h.kind, h.place.len))
    }

    // The told stable position is at least l.
    pub fn raise(&mut self, l: Position)
        ensures { Raised self.old self.new l }
    {
        self.stable = self.stable.max(l);
    }

    // One more message, pending.
    pub fn append(
        &mut self,
        page: PageId,
        kind: Kind,
        pointer: DiskPtr,
        place: Place,
    ) -> Reservation
        requires { Ready self.old place }
        ensures { Appended self.old self.new page kind pointer place result }
    {
        let lsn = self.next;
        self.heads.push_reserved(Head {
            lsn,
            pointer,
            page,
            kind,
            place,
            status: Status::Pending,
        });
        self.next = lsn + 1;
        Reservation::new(self.number, lsn, pointer)
    }

    // More memory, with the payload in it.
    pub fn extend(&mut self, payload: &[u8])
        requires { vec_len self.old.mem + length payload.now ≤ vec_capacity self.old.mem }
        ensures { Extended self.old self.new payload.now }
    {
        self.mem.extend_from_slice(payload).unwrap();
    }

    // Dead and cancelled messages leave.
    pub fn compact(&mut self)
        ensures { Compacted self.old self.new }
    {
        self.heads.retain(|h| h.status == Status::Live);
    }

    // The payload, written into the memory.
    pub fn overwrite(&mut self, at: usize, payload: &[u8])
        requires { at + length payload.now ≤ length (mem_of self.old) }
        ensures { Overwritten self.old self.new at payload.now }
    {
        let end = at + payload.len();
        self.mem[at..end].copy_from_slice(payload);
    }
}

impl Head {
    // Its payload, in the memory of its log.
    fn payload<'a>(&self, mem: &'a [u8]) -> &'a [u8]
        requires { self.now.place.at + self.now.place.len ≤ length mem.now }
        ensures { result.now ≡ payload_of mem.now self.now }
    {
        let end = self.place.at + self.place.len;
        &mem[self.place.at..end]
    }
}
