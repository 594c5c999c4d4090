ghost use Rattle.std.specs.Prelude.{◌≡◌, ℕ, ◌/◌};
ghost use Rattle.fault.specs.Pointers.{lid_of};
ghost use Rattle.segmented.specs.Layout.{slot_is, busy_head, seg_busy, slot_busy, live_in, SlotOf, Sparse, Lowest};

use book::Head;
use fault::{DiskPtr, PageId};
use logs::Status;

// The bytes of a segment.
pub(crate) const SEGMENT_LEN: usize = 4096;

// Whether the message is live or pending.
fn is_busy(h: &Head) -> bool
    ensures { result ≡ busy_head h.now }
{
    matches!(h.status, Status::Pending | Status::Live)
}

// The segment that a pointer points into.
fn segment_of(pointer: DiskPtr) -> u64
    ensures { result ≡ lid_of pointer / 4096 }
{
    pointer.lid() / SEGMENT_LEN as u64
}

// The blob slot of a pointer.
pub(crate) fn slot_of(pointer: DiskPtr) -> Option<u64>
    ensures { SlotOf pointer result }
{
    match pointer {
        DiskPtr::Inline(_) => None,
        DiskPtr::Blob(_, i) => u64::try_from(i).ok(),
    }
}

// Whether a pointer points to the slot.
fn in_slot(pointer: DiskPtr, i: u64) -> bool
    ensures { result ≡ slot_is i pointer }
{
    matches!(pointer, DiskPtr::Blob(_, j) if j >= 0 && j as u64 == i)
}

// Whether a live or pending message lies in the segment.
pub(crate) fn seg_busy(heads: &[Head], q: u64) -> bool
    ensures { result ≡ seg_busy q heads.now }
{
    heads
        .iter()
        .any(|h| is_busy(h) && segment_of(h.pointer) == q)
}

// Whether a live or pending message points to the slot.
pub(crate) fn slot_busy(heads: &[Head], i: u64) -> bool
    ensures { result ≡ slot_busy i heads.now }
{
    heads.iter().any(|h| is_busy(h) && in_slot(h.pointer, i))
}

// Whether a live message lies in the segment.
fn live_in(h: &Head, q: u64) -> bool
    ensures { result ≡ live_in q h.now }
{
    h.status == Status::Live && segment_of(h.pointer) == q
}

// The closed segment with the fewest live messages, 1 to 3, the lowest among equals.
// Kept: a rule of the project: walks over segments and messages, one in the other, left by their label.
pub(crate) fn sparse_segment(heads: &[Head], segs: usize, active: usize) -> Option<usize>
    ensures { (m : ℕ) × Sparse heads.now active segs m result }
{
    let mut best = None;
    let mut fewest = 4usize;
    'segments: for q in 0..segs {
        if q == active {
            continue 'segments;
        }
        let mut count = 0usize;
        for h in heads {
            if !live_in(h, q as u64) {
                continue;
            }
            count += 1;
            if count >= fewest {
                continue 'segments;
            }
        }
        if count == 0 {
            continue 'segments;
        }
        fewest = count;
        best = Some(q);
    }
    best
}

// The lowest page of a live message in the segment.
pub(crate) fn lowest_page(heads: &[Head], q: u64) -> Option<PageId>
    ensures { Lowest q heads.now result }
{
    heads.iter().filter(|h| live_in(h, q)).map(|h| h.page).min()
}
