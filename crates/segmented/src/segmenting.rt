ghost use Rattle.std.specs.Prelude.{◌≡◌, ℕ, pos, ◌+◌, ◌*◌, ◌^◌, ◌<◌, ◌≤◌, max, true, false, length, take, drop, IfOk};
ghost use Rattle.std.specs.List.{list_any};
ghost use Rattle.fault.specs.declared.disk_pointer.DiskPtr.TheVariants as pointer;
ghost use Rattle.logs.specs.Meaning.{any_pending, same_blob};
ghost use Rattle.logs.specs.Clauses.{OnReserve};
ghost use Rattle.book.specs.Books.{heads_of, mem_of, told, Appended};
ghost use Rattle.segmented.specs.Layout.{free_seg, free_slot, Picked, in_slot};
ghost use Rattle.segmented.specs.Segments.{seg_means, empty_segmented, OnReady, Able, Next, Swept, Put, Proposes};

use crate::scans::{SEGMENT_LEN, lowest_page, seg_busy, slot_busy, slot_of, sparse_segment};
use crate::segmented::Segmented;
use book::{Book, Head, Place};
use fault::{BlobPointer, DiskPtr, LogOffset, PageId};
use logs::{
    CacheInfo, Event, HEADER_LEN, Kind, Log, LogFault, MAX_PAYLOAD, POSITION_END, Position,
    Reservation, Returned,
};
use std::alloc::{AllocError, Global};

// The headers that a segment has room for.
const SEGMENT_HEADERS: usize = SEGMENT_LEN / HEADER_LEN;

// The longest payload that lies in a segment.
const MAX_INLINE: usize = 512;

// Where a message lies that points to a slot.
fn blob_at(lid: usize, i: usize) -> DiskPtr
    requires { i < 2 ^ 63 }
    ensures { result ≡ pointer.Blob lid (pos i) }
{
    DiskPtr::Blob(lid as LogOffset, i as BlobPointer)
}

impl Segmented {
    // The lowest free segment.
    fn free_segment(&self) -> Option<usize>
        ensures { Picked (free_seg self.now.active (heads_of self.now.book)) self.now.segs result }
    {
        (0..self.segs).find(|q| *q != self.active && !seg_busy(&self.book.heads, *q as u64))
    }

    // The lowest free blob slot.
    fn free_slot(&self) -> Option<usize>
        ensures { Picked (free_slot (heads_of self.now.book)) self.now.slots result }
    {
        (0..self.slots).find(|i| !slot_busy(&self.book.heads, *i as u64))
    }

    // Makes room for so many bytes and a message of the page, or says that there is none.
    // Kept: that nothing is pending, that there is room and that a slot is one of the log's are premises of three calls each;
    // a token for one would borrow the log while it lives.
    // Inlined: a refusal is as large as a pointer with its page, and where it is handed on it would be copied each time.
    #[inline(always)]
    fn make_ready(&mut self, pid: PageId, need: usize) -> Result<(), LogFault>
        requires quiet { any_pending (told self.old.book) ≡ false }
        requires least { 32 ≤ need }
        requires most { need ≤ 4096 }
        ensures { OnReady self.old self.new pid need result }
    {
        if self.book.next >= POSITION_END {
            return Err(LogFault::Full(pid));
        }
        if self.fill + need <= SEGMENT_LEN {
            return Ok(());
        }
        let q = self.free_segment().ok_or(LogFault::Full(pid))?;
        self.book.compact();
        self.active = q;
        self.fill = 0;
        Ok(())
    }

    // Dead and cancelled messages leave, so that none points to a free slot.
    fn sweep(&mut self)
        ensures { Swept self.old self.new }
    {
        self.book.compact();
    }

    // Where the next header lies.
    fn next_lid(&self) -> usize
        ensures { result ≡ self.now.active * 4096 + self.now.fill }
    {
        self.active * SEGMENT_LEN + self.fill
    }

    // Where the payload of a slot lies.
    fn slot_place(&self, i: usize, len: usize) -> Place
        requires { i < self.now.slots }
        ensures at { result.at ≡ self.now.segs * 4096 + i * 1152 }
        ensures len { result.len ≡ len }
    {
        let at = self.segs * SEGMENT_LEN + i * MAX_PAYLOAD;
        Place { at, len }
    }

    // Kept: a page, a kind and a payload come one beside the other from here on, as in the call of the log that brings them.

    // A pending message, whose header lies next in the active segment and takes so many bytes of it.
    fn put(
        &mut self,
        pid: PageId,
        kind: Kind,
        pointer: DiskPtr,
        place: Place,
        taken: usize,
    ) -> Reservation
        requires { Next self.old pid kind pointer place taken }
        ensures { Appended self.old.book self.new.book pid kind pointer place result }
    {
        let reservation = self.book.append(pid, kind, pointer, place);
        self.fill += taken;
        reservation
    }

    // A pending message with its payload in the active segment.
    fn put_inline(&mut self, pid: PageId, kind: Kind, payload: &[u8]) -> Reservation
        requires able { Able self.old (32 + length payload.now) }
        requires short { length payload.now ≤ 512 }
        ensures { Put self.old self.new pid kind payload.now result }
    {
        let len = payload.len();
        let lid = self.next_lid();
        let at = lid + HEADER_LEN;
        self.book.overwrite(at, payload);
        let pointer = DiskPtr::Inline(lid as LogOffset);
        self.put(pid, kind, pointer, Place { at, len }, HEADER_LEN + len)
    }

    // A pending message that points to a slot.
    fn put_pointer(&mut self, pid: PageId, kind: Kind, i: usize, len: usize) -> Reservation
        requires able { Able self.old 32 }
        requires short { len ≤ 1152 }
        requires slot { i < self.old.slots }
        ensures put { Put self.old self.new pid kind (take len (drop (self.old.segs * 4096 + i * 1152) (mem_of self.old.book))) result }
        ensures same { (x : ℕ) → same_blob result.pointer (pointer.Blob x (pos i)) ≡ true }
    {
        let pointer = blob_at(self.next_lid(), i);
        let place = self.slot_place(i, len);
        self.put(pid, kind, pointer, place, HEADER_LEN)
    }

    // A pending message with its payload in a slot that none points to.
    fn put_blob(&mut self, pid: PageId, kind: Kind, payload: &[u8], i: usize) -> Reservation
        requires able { Able self.old 32 }
        requires short { length payload.now ≤ 1152 }
        requires slot { i < self.old.slots }
        requires vacant { list_any (in_slot i) (heads_of self.old.book) ≡ false }
        ensures { Put self.old self.new pid kind payload.now result }
    {
        let place = self.slot_place(i, payload.len());
        self.book.overwrite(place.at, payload);
        self.put_pointer(pid, kind, i, place.len)
    }

    // Reserves a payload of at most 512 bytes.
    fn reserve_inline(
        &mut self,
        pid: PageId,
        kind: Kind,
        payload: &[u8],
    ) -> Result<Reservation, LogFault>
        requires quiet { any_pending (told self.old.book) ≡ false }
        requires short { length payload.now ≤ 512 }
        ensures { OnReserve (seg_means self.old) (seg_means self.new) pid kind payload.now result }
    {
        self.make_ready(pid, HEADER_LEN + payload.len())?;
        Ok(self.put_inline(pid, kind, payload))
    }

    // Reserves a payload above 512 bytes.
    fn reserve_blob(
        &mut self,
        pid: PageId,
        kind: Kind,
        payload: &[u8],
    ) -> Result<Reservation, LogFault>
        requires quiet { any_pending (told self.old.book) ≡ false }
        requires long { 512 < length payload.now }
        ensures { OnReserve (seg_means self.old) (seg_means self.new) pid kind payload.now result }
    {
        if payload.len() > MAX_PAYLOAD {
            return Err(LogFault::Full(pid));
        }
        let i = self.free_slot().ok_or(LogFault::Full(pid))?;
        self.make_ready(pid, HEADER_LEN)?;
        self.sweep();
        Ok(self.put_blob(pid, kind, payload, i))
    }

    // An empty log with this number, of so many segments, at least one, and so many blob slots.
    pub fn new(
        heap: Global,
        number: u64,
        segments: u16,
        slots: u16,
    ) -> Result<Segmented, AllocError>
        ensures { IfOk result (λ t. seg_means t ≡ empty_segmented number (max 1 segments) slots) }
    {
        let segs = usize::from(segments.max(1));
        let slots = usize::from(slots);
        let heads = Vec::with_capacity(heap, segs * SEGMENT_HEADERS)?;
        let mut mem = Vec::new(heap);
        mem.resize(segs * SEGMENT_LEN + slots * MAX_PAYLOAD, 0)?;
        let book = Book::new(number, heads, mem);
        Ok(Segmented {
            book,
            segs,
            slots,
            active: 0,
            fill: 0,
        })
    }

    // The lowest page of the closed segment with the fewest live messages, 1 to 3, and where that segment starts.
    pub fn sparsest(&self) -> Option<(PageId, LogOffset)>
        ensures { Proposes self.now result }
    {
        let q = sparse_segment(&self.book.heads, self.segs, self.active)?;
        let page = lowest_page(&self.book.heads, q as u64)?;
        Some((page, (q * SEGMENT_LEN) as LogOffset))
    }

    // The headers of its messages, in order of reserving.
    pub fn heads(&self) -> &[Head]
        ensures { result.now ≡ heads_of self.now.book }
    {
        self.book.heads.as_slice()
    }
}

// Kept: what passes a call on to the book is a line each; a trait over both logs would have to lend the book past their ghost
// fields, and of one generic log two crates could not each have a `new`.
impl Log for Segmented {
    ghost means = { seg_means };

    fn reserve(
        &mut self,
        pid: PageId,
        kind: Kind,
        payload: &[u8],
    ) -> Result<Reservation, LogFault> {
        if self.book.any_pending() {
            return Err(LogFault::Pending(pid));
        }
        if payload.len() > MAX_INLINE {
            self.reserve_blob(pid, kind, payload)
        } else {
            self.reserve_inline(pid, kind, payload)
        }
    }

    fn complete(&mut self, reservation: Reservation) -> Result<(), Returned> {
        self.book.settle(reservation, Event::Complete)
    }

    fn abort(&mut self, reservation: Reservation) -> Result<(), Returned> {
        self.book.settle(reservation, Event::Abort)
    }

    fn sa_mark_replace(&mut self, pid: PageId, old_cache_infos: &[CacheInfo]) {
        self.book.mark(pid, old_cache_infos);
    }

    fn sa_mark_link(&mut self, _pid: PageId, _cache_info: CacheInfo) {}

    fn read(
        &self,
        pid: PageId,
        lsn: Position,
        pointer: DiskPtr,
        scratch: &mut [u8],
    ) -> Result<(Kind, usize), LogFault> {
        self.book.read(pid, lsn, pointer, scratch)
    }

    fn rewrite_blob_pointer(
        &mut self,
        pid: PageId,
        lsn: Position,
        pointer: DiskPtr,
    ) -> Result<Reservation, LogFault> {
        let fault = LogFault::NoMessage(pid, pointer);
        let i = slot_of(pointer).ok_or(fault)?;
        let j = self.book.live_at(lsn, pointer).ok_or(fault)?;
        if self.book.any_pending() {
            return Err(LogFault::Pending(pid));
        }
        let h = self.book.heads[j];
        self.make_ready(pid, HEADER_LEN)?;
        Ok(self.put_pointer(pid, h.kind, i as usize, h.place.len))
    }

    fn propose(&self) -> Option<(PageId, LogOffset)> {
        self.sparsest()
    }

    fn stable(&self) -> Position {
        self.book.stable
    }

    fn make_durable(&mut self, lsn: Position) {
        self.book.raise(lsn);
    }
}
