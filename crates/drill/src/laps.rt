// A stopwatch over a log: how long reserve with complete takes, and a read, when so much of its room is taken.
ghost use Rattle.std.specs.Prelude.{◌<◌};

use crate::random::Random;
use fault::PageId;
use logs::{CacheInfo, Kind, Log, LogFault, MAX_PAYLOAD, Returned};
use std::io;
use std::time::Instant;

const WRITES: u64 = 500;

const READS: u64 = 100000;

// Nanoseconds of a call.
#[derive(Clone, Copy)]
pub struct Lap {
    pub write: u64,
    pub read: u64,
}

impl Lap {
    // What no call takes longer than.
    pub const SLOWEST: Lap = Lap {
        write: u64::MAX,
        read: u64::MAX,
    };

    // The better of both.
    pub fn best(self, other: Lap) -> Lap {
        Lap {
            write: self.write.min(other.write),
            read: self.read.min(other.read),
        }
    }
}

// The entry of a message of 100 bytes that is live now.
fn write<L: Log>(log: &mut L, page: PageId) -> Result<CacheInfo, LogFault> {
    let reservation = log.reserve(page, Kind::Node, &[7u8; 100])?;
    let entry = reservation.entry();
    log.complete(reservation).map_err(Returned::give_up)?;
    Ok(entry)
}

fn write_many<L: Log>(log: &mut L) -> Result<(), LogFault> {
    for page in 0..WRITES {
        write(log, page)?;
    }
    Ok(())
}

// Reads messages at random, of which the one at i is page i's.
fn read_many<L: Log>(log: &L, entries: &[CacheInfo]) -> Result<(), LogFault> {
    let mut scratch = [0u8; MAX_PAYLOAD];
    let mut random = Random::new(9);
    for _ in 0..READS {
        if let Some(i) = random.index(entries.len()) {
            let entry = entries[i];
            log.read(i as u64, entry.lsn, entry.pointer, &mut scratch)?;
        }
    }
    Ok(())
}

// Each page from 0 on has one live message.
fn fill<L: Log>(rt: &HostRuntime, log: &mut L, count: u64) -> io::Result<Vec<CacheInfo>> {
    let mut entries = Vec::new(rt.alloc());
    for page in 0..count {
        if let Ok(entry) = write(log, page) {
            entries.push(entry)?;
        }
    }
    Ok(entries)
}

// What so many calls made, and the nanoseconds that each took.
fn timed<T: Drop, F: FnOnce() -> T>(rt: &HostRuntime, calls: u64, run: F) -> io::Result<(T, u64)>
    requires some { 0 < calls }
    requires runs { F.IsAlwaysCallable run }
{
    let start = Instant::now(rt)?;
    let made = run();
    let taken = start.elapsed(rt)?.as_nanos() / calls as u128;
    Ok((made, u64::try_from(taken).unwrap_or(u64::MAX)))
}

// What a call takes, if every call does what it should.
pub fn run_lap<L: Log>(
    rt: &HostRuntime,
    log: &mut L,
    count: u64,
) -> io::Result<Result<Lap, LogFault>> {
    let entries = fill(rt, log, count)?;
    let (all_read, read) = timed(rt, READS, || read_many(log, entries.as_slice()))?;
    let (all_written, write) = timed(rt, WRITES, || write_many(log))?;
    Ok(all_read.and(all_written).map(|()| Lap { write, read }))
}
