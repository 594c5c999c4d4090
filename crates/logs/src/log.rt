ghost use Rattle.std.specs.Prelude.{◌≡◌};
ghost use Rattle.logs.specs.Meaning.{Meaning};
ghost use Rattle.logs.specs.Standing.{Standing};
ghost use Rattle.logs.specs.Clauses.{OnReserve, OnSettle, Marked, OnRead, OnMove, Durable};
ghost use Rattle.logs.specs.declared.messages.Event.TheVariants.{Complete, Abort};

use crate::log_fault::LogFault;
use crate::messages::{CacheInfo, Kind, Position};
use crate::reservation::{Reservation, Returned};
use fault::{DiskPtr, LogOffset, PageId};

// A log, by what it means.
// Kept: a position and a pointer come one beside the other here, as in sled's calls and in its entries.
pub trait Log {
    ghost means: { Self → Meaning };

    // Adds a pending message.
    fn reserve(&mut self, pid: PageId, kind: Kind, payload: &[u8]) -> Result<Reservation, LogFault>
        ensures { OnReserve (means self.old) (means self.new) pid kind payload.now result };

    // Makes a pending message live.
    fn complete(&mut self, reservation: Reservation) -> Result<(), Returned>
        ensures { OnSettle (means self.old) (means self.new) reservation Complete result };

    // Cancels a pending message.
    fn abort(&mut self, reservation: Reservation) -> Result<(), Returned>
        ensures { OnSettle (means self.old) (means self.new) reservation Abort result };

    // Makes the named live messages of the page dead.
    fn sa_mark_replace(&mut self, pid: PageId, old_cache_infos: &[CacheInfo])
        ensures { Marked (means self.old) (means self.new) pid old_cache_infos.now };

    // Changes nothing.
    fn sa_mark_link(&mut self, pid: PageId, cache_info: CacheInfo)
        ensures { means self.new ≡ means self.old };

    // The kind and the length of a live message of the page, whose payload is put to the front of the scratch.
    // Kept: the caller lends the scratch and keeps it: a slice of it as the answer would hold it borrowed, and a Vec would allocate.
    fn read(
        &self,
        pid: PageId,
        lsn: Position,
        pointer: DiskPtr,
        scratch: &mut [u8],
    ) -> Result<(Kind, usize), LogFault>
        ensures { OnRead (means self.now).messages pid lsn pointer scratch.old scratch.new result };

    // Adds a pending message of the page that has the payload of a live blob.
    fn rewrite_blob_pointer(
        &mut self,
        pid: PageId,
        lsn: Position,
        pointer: DiskPtr,
    ) -> Result<Reservation, LogFault>
        ensures { OnMove (means self.old) (means self.new) pid lsn pointer result };

    // A page and an offset in a segment that are worth rewriting: any answer will do.
    fn propose(&self) -> Option<(PageId, LogOffset)>;

    // The told stable position.
    fn stable(&self) -> Position
        ensures { result ≡ (means self.now).stable };

    // Brings the told stable position to at least the one given.
    fn make_durable(&mut self, lsn: Position)
        ensures { Durable (means self.old) (means self.new) lsn };
}

// What every log keeps: which messages are live after each call.
pub fn laws_stand()
    ensures { Standing }
{}
