// Random calls on a log, and what a plain model says of each.
use crate::model::{HEADER, Model, Plain, Step};
use crate::random::Random;
use crate::tally::{Tally, count};
use fault::{DiskPtr, PageId};
use logs::{CacheInfo, Kind, Log, LogFault, MAX_PAYLOAD, Reservation, Returned, Status};
use std::alloc::AllocError;

#[derive(Drop)]
pub struct Drill<L> {
    log: L,
    model: Model,
    random: Random,
    pub tally: Tally,
}

// Ends a reservation that should not have been given.
fn give_up(reservation: Reservation) {
    let log = reservation.log();
    let lsn = reservation.lsn();
    let pointer = reservation.pointer();
    reservation.spend(log, lsn, pointer).unwrap();
}

// The bytes of a payload: each differs from the one before.
fn fill(bytes: &mut [u8], seed: u8) {
    let mut next = seed;
    for byte in bytes {
        *byte = next;
        next = next.wrapping_mul(5).wrapping_add(seed | 1);
    }
}

static KINDS: [Kind; 5] = [
    Kind::Counter,
    Kind::Free,
    Kind::Meta,
    Kind::Link,
    Kind::Node,
];

fn entry_of(plain: &Plain) -> CacheInfo {
    CacheInfo {
        ts: 0,
        lsn: plain.lsn,
        pointer: plain.pointer,
        log_size: 0,
    }
}

// Whether it was refused with this fault.
fn refused(got: Result<Reservation, LogFault>, fault: LogFault) -> bool {
    got.map(give_up) == Err(fault)
}

// While it is pending nothing else is reserved, and it is not read.
fn refuses_meanwhile<L: Log>(log: &mut L, page: PageId, reservation: &Reservation) -> bool {
    let mut scratch = [0u8; MAX_PAYLOAD];
    let pointer = reservation.pointer();
    let read = log.read(page, reservation.lsn(), pointer, &mut scratch);
    let other = log.reserve(page, Kind::Free, b"");
    refused(other, LogFault::Pending(page)) && read == Err(LogFault::NoMessage(page, pointer))
}

// A reservation of another log, or of a message that is not pending, is given back.
fn refuses_strangers<L: Log>(log: &mut L, reservation: &Reservation) -> bool {
    let number = reservation.log();
    let lsn = reservation.lsn();
    let pointer = reservation.pointer();
    let another = log
        .complete(Reservation::new(number ^ 1, lsn, pointer))
        .map_err(Returned::give_up);
    let later = log
        .abort(Reservation::new(number, lsn ^ 1, pointer))
        .map_err(Returned::give_up);
    let expected = Err(LogFault::NotPending(pointer));
    another == expected && later == expected
}

fn is_zero(bytes: &[u8]) -> bool {
    bytes.iter().all(|byte| *byte == 0)
}

// Whether so many bytes are a payload's, and the others zero.
fn is_filled(bytes: &[u8; MAX_PAYLOAD], seed: u8, len: usize) -> bool {
    let mut expected = [0u8; MAX_PAYLOAD];
    let Some(payload) = expected.get_mut(..len) else {
        return false;
    };
    fill(payload, seed);
    *bytes == expected
}

impl<L: Log> Drill<L> {
    pub fn new(log: L, model: Model, random: Random) -> Drill<L> {
        Drill {
            log,
            model,
            random,
            tally: Tally::default(),
        }
    }

    // A message that was written once, if any; mostly the next live one from a random place on.
    fn pick(&mut self) -> Option<Plain> {
        let from = self.random.index(self.model.plains.len())?;
        let rest = &self.model.plains[from..];
        if self.random.draw() % 4 == 0 {
            return rest.first().copied();
        }
        rest.iter()
            .find(|plain| plain.status == Status::Live)
            .copied()
    }

    // The page of a message, or another.
    fn page_for(&mut self, plain: &Plain) -> PageId {
        if self.random.draw() % 4 == 0 {
            plain.page ^ 1
        } else {
            plain.page
        }
    }

    // Completes a reservation or, now and then, aborts it.
    fn settle(&mut self, reservation: Reservation) -> (Result<(), Returned>, Status) {
        if self.random.draw() % 8 == 0 {
            count(&mut self.tally.cancelled);
            return (self.log.abort(reservation), Status::Cancelled);
        }
        count(&mut self.tally.live);
        (self.log.complete(reservation), Status::Live)
    }

    // A pending message is settled, and the model has it too.
    fn finish(&mut self, reservation: Reservation, step: Step) -> Result<(), AllocError> {
        let Step { plain, shape } = step;
        let same = reservation.lsn() == plain.lsn && reservation.pointer() == plain.pointer;
        let alone = refuses_meanwhile(&mut self.log, plain.page, &reservation)
            && refuses_strangers(&mut self.log, &reservation);
        let (taken, status) = self.settle(reservation);
        let taken = taken.map_err(Returned::give_up).is_ok();
        self.tally.expect(same && alone && taken);
        let plain = Plain { status, ..plain };
        self.model.add(Step { plain, shape })
    }

    // What a call that reserves for a page did, and what the model says of it.
    fn compare(
        &mut self,
        page: PageId,
        got: Result<Reservation, LogFault>,
        expected: Option<Step>,
    ) -> Result<(), AllocError> {
        match (got, expected) {
            (Ok(reservation), Some(step)) => self.finish(reservation, step),
            (got, None) => {
                if got.is_err() {
                    count(&mut self.tally.full);
                }
                self.tally.expect(refused(got, LogFault::Full(page)));
                Ok(())
            }
            (Err(_), Some(_)) => {
                self.tally.expect(false);
                Ok(())
            }
        }
    }

    fn write(&mut self) -> Result<(), AllocError> {
        let page = self.random.draw() % 8;
        let kind = KINDS[(self.random.draw() % 5) as usize];
        let len = (self.random.draw() % 1200) as usize;
        let seed = (self.random.draw() % 256) as u8;
        let mut bytes = [0u8; 1200];
        fill(&mut bytes, seed);
        let expected = self.model.place(len as u64).map(|(pointer, shape)| {
            let plain = Plain {
                lsn: self.model.next,
                pointer,
                page,
                kind,
                len,
                seed,
                status: Status::Pending,
            };
            Step { plain, shape }
        });
        let got = self.log.reserve(page, kind, &bytes[..len]);
        self.compare(page, got, expected)
    }
}

impl<L: Log> Drill<L> {
    // Moves the pointer of a live blob.
    fn shift(&mut self) -> Result<(), AllocError> {
        let Some(plain) = self.pick() else {
            return Ok(());
        };
        let Plain {
            page,
            lsn,
            pointer,
            ..
        } = plain;
        let got = self.log.rewrite_blob_pointer(page, lsn, pointer);
        match (pointer, self.model.live_at(lsn, pointer)) {
            (DiskPtr::Blob(_, slot), Some(source)) => {
                count(&mut self.tally.moved);
                let expected = self.model.inline_place(HEADER).map(|(lid, shape)| {
                    let plain = Plain {
                        lsn: self.model.next,
                        pointer: DiskPtr::Blob(lid, slot),
                        ..source
                    };
                    Step { plain, shape }
                });
                self.compare(page, got, expected)
            }
            _ => {
                self.tally
                    .expect(refused(got, LogFault::NoMessage(page, pointer)));
                Ok(())
            }
        }
    }

    // Reads a message for its page, or for another.
    fn read(&mut self) {
        let Some(plain) = self.pick() else {
            return;
        };
        let page = self.page_for(&plain);
        let mut scratch = [0u8; MAX_PAYLOAD];
        let got = self.log.read(page, plain.lsn, plain.pointer, &mut scratch);
        let same = match self.model.live_at(plain.lsn, plain.pointer) {
            None => got == Err(LogFault::NoMessage(page, plain.pointer)) && is_zero(&scratch),
            Some(live) if live.page == page => {
                got == Ok((live.kind, live.len)) && is_filled(&scratch, live.seed, live.len)
            }
            Some(_) => got == Err(LogFault::OtherPage(page, plain.pointer)) && is_zero(&scratch),
        };
        match got {
            Ok(_) => count(&mut self.tally.read),
            Err(_) => count(&mut self.tally.unread),
        }
        self.tally.expect(same);
    }

    // Marks a message for its page, or for another.
    fn mark(&mut self) {
        let Some(plain) = self.pick() else {
            return;
        };
        let page = self.page_for(&plain);
        let entry = entry_of(&plain);
        self.log.sa_mark_replace(page, &[entry]);
        self.model.mark(page, entry);
    }

    fn propose(&mut self) {
        let got = self.log.propose();
        if got.is_some() {
            count(&mut self.tally.proposed);
        }
        self.tally.expect(got == self.model.proposal());
    }

    // Tells a stable position, which never falls.
    fn tell(&mut self) {
        let lsn = self.random.draw() % 4096;
        self.log.make_durable(lsn);
        self.model.stable = self.model.stable.max(lsn);
        self.tally.expect(self.log.stable() == self.model.stable);
    }

    fn step(&mut self) -> Result<(), AllocError> {
        // Kept: how often a step is taken stands beside its call; in a table of closures each would borrow the whole drill.
        match self.random.draw() % 8 {
            0..=2 => self.write()?,
            3 => self.shift()?,
            4 | 5 => self.mark(),
            6 => self.propose(),
            _ => self.tell(),
        }
        self.read();
        Ok(())
    }

    pub fn run(&mut self, steps: u64) -> Result<(), AllocError> {
        for _ in 0..steps {
            self.step()?;
            self.model.prune();
        }
        Ok(())
    }
}
