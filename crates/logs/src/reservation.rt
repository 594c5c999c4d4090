ghost use Rattle.std.specs.Prelude.{◌≡◌};
ghost use Rattle.logs.specs.Meaning.{Spent, entry_of};

use crate::log_fault::LogFault;
use crate::messages::{CacheInfo, Position};
use fault::DiskPtr;

// A place in a log that has to be handed to complete or abort: a caller can neither drop it nor take it apart.
pub struct Reservation {
    log: u64,
    lsn: Position,
    pointer: DiskPtr,
}

// A reservation that a log did not take, and why. It may be handed to another log, or given up.
pub struct Returned {
    pub reservation: Reservation,
    pub fault: LogFault,
}

impl Reservation {
    // A reservation of the message at a position and pointer, in the log with this number.
    pub fn new(log: u64, lsn: Position, pointer: DiskPtr) -> Reservation
        ensures log { result.log ≡ log }
        ensures lsn { result.lsn ≡ lsn }
        ensures pointer { result.pointer ≡ pointer }
    {
        Reservation { log, lsn, pointer }
    }

    // The number of its log.
    pub fn log(&self) -> u64
        ensures { result ≡ self.now.log }
    {
        self.log
    }

    pub fn lsn(&self) -> Position
        ensures { result ≡ self.now.lsn }
    {
        self.lsn
    }

    pub fn pointer(&self) -> DiskPtr
        ensures { result ≡ self.now.pointer }
    {
        self.pointer
    }

    // The entry that names its message, with no stamp and no size yet.
    // Kept: 0 for none yet is the form of sled's entries, which only the cache gives a stamp and a size.
    pub fn entry(&self) -> CacheInfo
        ensures { result ≡ entry_of self.now }
    {
        CacheInfo {
            ts: 0,
            lsn: self.lsn,
            pointer: self.pointer,
            log_size: 0,
        }
    }

    // Ends the reservation of the message that a log has just settled; any other is given back.
    // Kept: the three that name a message are its own fields, and a struct for them would be a second reservation.
    pub fn spend(self, log: u64, lsn: Position, pointer: DiskPtr) -> Result<(), Reservation>
        ensures { Spent self log lsn pointer result }
    {
        if self.log != log || self.lsn != lsn || self.pointer != pointer {
            return Err(self);
        }
        self.end();
        Ok(())
    }

    // Only this crate takes it apart, and leaves the log as it is.
    fn end(self) {
        let Reservation {
            log: _,
            lsn: _,
            pointer: _,
        } = self;
    }
}

impl Returned {
    // Ends the reservation, and says why it was not taken. No log hears of it: a message that was pending stays so.
    pub fn give_up(self) -> LogFault
        ensures { result ≡ self.fault }
    {
        let Returned { reservation, fault } = self;
        reservation.end();
        fault
    }
}
