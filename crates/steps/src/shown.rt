// What the steps print.
use crate::listed::Listed;
use book::Head;
use fault::{DiskPtr, PageId};
use logs::{CacheInfo, Log, LogFault, MAX_PAYLOAD};
use std::io;

pub fn show_entry(
    rt: &HostRuntime,
    what: &str,
    entry: Result<CacheInfo, LogFault>,
) -> io::Result<()> {
    match entry {
        Ok(CacheInfo { lsn, pointer, .. }) => println!(rt; "  {what}: lsn {lsn} {pointer:?}"),
        Err(fault) => println!(rt; "  {what}: {fault}"),
    }
}

// A message that was read, by its length and its first byte.
pub fn show_read<L: Log>(
    rt: &HostRuntime,
    log: &L,
    page: PageId,
    entry: CacheInfo,
) -> io::Result<()> {
    let mut scratch = [0u8; MAX_PAYLOAD];
    let lsn = entry.lsn;
    match log.read(page, lsn, entry.pointer, &mut scratch) {
        Ok((kind, n)) => println!(rt;
            "  read page {page} lsn {lsn}: {kind:?} of {n} bytes from {}",
            scratch[0]
        ),
        Err(fault) => println!(rt; "  read page {page} lsn {lsn}: {fault}"),
    }
}

pub fn show_proposal<L: Log>(rt: &HostRuntime, log: &L) -> io::Result<()> {
    match log.propose() {
        Some((page, offset)) => println!(rt; "  propose: page {page} offset {offset}"),
        None => println!(rt; "  propose: none"),
    }
}

fn show_head(rt: &HostRuntime, head: &Head) -> io::Result<()> {
    let Head {
        lsn,
        pointer,
        page,
        kind,
        place,
        status,
    } = head;
    let len = place.len;
    println!(rt; "    {lsn} {pointer:?} page {page} {kind:?} {len} {status:?}")
}

pub fn show_messages<L: Listed>(rt: &HostRuntime, log: &L) -> io::Result<()> {
    println!(rt; "  messages:")?;
    for head in log.list() {
        show_head(rt, head)?;
    }
    Ok(())
}
