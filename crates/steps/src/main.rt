// Takes the same steps on a tape and on a segmented log, and prints what each did and the messages after.
#![tactic(auto)]

mod listed;
mod shown;

use fault::PageId;
use listed::Listed;
use logs::{CacheInfo, Kind, Log, LogFault, Reservation, Returned};
use segmented::Segmented;
use shown::{show_entry, show_messages, show_proposal, show_read};
use std::io;
use tape::Tape;

// Where the message is that is settled now: a log has completed or aborted its reservation.
fn settled<F: FnOnce(Reservation) -> Result<(), Returned>>(
    reservation: Reservation,
    settle: F,
) -> Result<CacheInfo, LogFault>
    requires { F.IsAlwaysCallable settle }
{
    let entry = reservation.entry();
    settle(reservation).map_err(Returned::give_up)?;
    Ok(entry)
}

fn finish<L: Log>(log: &mut L, reservation: Reservation) -> Result<CacheInfo, LogFault> {
    settled(reservation, |reservation| log.complete(reservation))
}

fn put<L: Log>(
    log: &mut L,
    page: PageId,
    kind: Kind,
    payload: &[u8],
) -> Result<CacheInfo, LogFault> {
    let reservation = log.reserve(page, kind, payload)?;
    finish(log, reservation)
}

fn shift<L: Log>(log: &mut L, page: PageId, entry: CacheInfo) -> Result<CacheInfo, LogFault> {
    let reservation = log.rewrite_blob_pointer(page, entry.lsn, entry.pointer)?;
    finish(log, reservation)
}

// While a message is pending no other is reserved, and one that is aborted is never read.
fn wait_and_abort<L: Log>(rt: &HostRuntime, log: &mut L) -> io::Result<()> {
    match log.reserve(9, Kind::Link, b"pending") {
        Ok(reservation) => {
            let entry = reservation.entry();
            let other = put(log, 10, Kind::Link, b"other");
            let early = show_read(rt, log, 9, entry);
            let gone = settled(reservation, |reservation| log.abort(reservation));
            early?;
            show_entry(rt, "put page 10 meanwhile", other)?;
            show_entry(rt, "abort page 9", gone)?;
            show_read(rt, log, 9, entry)
        }
        Err(fault) => show_entry(rt, "reserve page 9", Err(fault)),
    }
}

// A live message is read for its page only, and not once it is marked.
fn read_and_mark<L: Log>(rt: &HostRuntime, log: &mut L, entry: CacheInfo) -> io::Result<()> {
    show_read(rt, log, 3, entry)?;
    show_read(rt, log, 2, entry)?;
    let moved = shift(log, 3, entry);
    show_entry(rt, "move page 3", moved)?;
    log.sa_mark_replace(2, &[entry]);
    show_read(rt, log, 3, entry)?;
    log.sa_mark_replace(3, &[entry]);
    show_read(rt, log, 3, entry)?;
    if let Ok(at) = moved {
        show_read(rt, log, 3, at)?;
    }
    Ok(())
}

// Fills the log, all but the last few messages dead at once.
fn fill<L: Log>(rt: &HostRuntime, log: &mut L, payload: &[u8]) -> io::Result<()> {
    for i in 0..26u64 {
        let entry = put(log, 20 + i, Kind::Node, payload);
        show_entry(rt, "put", entry)?;
        if let Ok(entry) = entry
            && i < 19
        {
            log.sa_mark_replace(20 + i, &[entry]);
        }
    }
    show_proposal(rt, log)
}

fn play<L: Log + Listed>(rt: &HostRuntime, log: &mut L) -> io::Result<()> {
    let long = [7u8; 600];
    let short = [9u8; 400];
    let entry = put(log, 2, Kind::Node, &short);
    show_entry(rt, "put page 2", entry)?;
    let entry = put(log, 3, Kind::Node, &long);
    show_entry(rt, "put page 3", entry)?;
    if let Ok(entry) = entry {
        read_and_mark(rt, log, entry)?;
    }
    wait_and_abort(rt, log)?;
    show_messages(rt, log)?;
    fill(rt, log, &short)?;
    let entry = put(log, 4, Kind::Node, &long);
    show_entry(rt, "put page 4", entry)?;
    log.make_durable(5);
    println!(rt; "  stable {}", log.stable())?;
    show_messages(rt, log)
}

// A reservation of the tape, handed to the other log and then to the tape.
fn cross(rt: &HostRuntime, tape: &mut Tape, other: &mut Segmented) -> io::Result<()> {
    match tape.reserve(11, Kind::Free, b"") {
        Ok(reservation) => match other.complete(reservation) {
            Ok(()) => println!(rt; "  taken by the other log"),
            Err(Returned { reservation, fault }) => {
                let entry = finish(tape, reservation);
                show_entry(rt, "complete in the other log", Err(fault))?;
                show_entry(rt, "complete in its own log", entry)
            }
        },
        Err(fault) => show_entry(rt, "reserve page 11", Err(fault)),
    }
}

fn main(rt: HostRuntime) -> io::Result<()> {
    let mut tape = Tape::new(rt.alloc(), 1, 9000)?;
    let mut segmented = Segmented::new(rt.alloc(), 2, 3, 2)?;
    println!(rt; "tape of 9000 bytes")?;
    play(&rt, &mut tape)?;
    println!(rt; "3 segments, 2 blob slots")?;
    play(&rt, &mut segmented)?;
    let mut small = Tape::new(rt.alloc(), 3, 64)?;
    println!(rt; "two logs")?;
    cross(&rt, &mut small, &mut segmented)
}
