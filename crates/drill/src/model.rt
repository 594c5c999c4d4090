// A plain model of a log: a list of messages, each of which knows how its bytes were made.
use fault::{BlobPointer, DiskPtr, LogOffset, PageId};
use logs::{CacheInfo, HEADER_LEN, Kind, MAX_PAYLOAD, Position, Status};
use std::alloc::{AllocError, Global};
use std::fmt;

// How many bytes a segment has.
const SEGMENT_LEN: u64 = 4096;

// The longest payload that lies in a segment.
const MAX_INLINE: u64 = 512;

// How many bytes a header has.
pub const HEADER: u64 = HEADER_LEN as u64;

#[derive(Clone, Copy)]
pub struct Plain {
    pub lsn: Position,
    pub pointer: DiskPtr,
    pub page: PageId,
    pub kind: Kind,
    pub len: usize,
    pub seed: u8,
    pub status: Status,
}

// What a log's space is made of.
#[derive(Clone, Copy)]
pub enum Shape {
    // So many bytes, of which so many are used.
    Tape { room: u64, used: u64 },
    Segments(Segments),
}

// So many segments and blob slots, the active segment, and how far it is filled.
#[derive(Clone, Copy)]
pub struct Segments {
    pub count: u64,
    pub slots: BlobPointer,
    pub active: u64,
    pub fill: u64,
}

// A message to come, and the shape after it.
#[derive(Clone, Copy)]
pub struct Step {
    pub plain: Plain,
    pub shape: Shape,
}

#[derive(Drop)]
pub struct Model {
    pub plains: Vec<Plain>,
    pub next: Position,
    pub stable: Position,
    shape: Shape,
}

// Where a segment begins.
fn offset_of(segment: u64) -> LogOffset {
    segment.saturating_mul(SEGMENT_LEN)
}

impl Plain {
    fn is_live(&self) -> bool {
        self.status == Status::Live
    }

    fn is_busy(&self) -> bool {
        self.is_live() || self.status == Status::Pending
    }

    fn lies_in(&self, segment: u64) -> bool {
        self.pointer.lid() / SEGMENT_LEN == segment
    }

    fn points_to(&self, slot: BlobPointer) -> bool {
        matches!(self.pointer, DiskPtr::Blob(_, i) if i == slot)
    }

    // Whether it is live, and named so.
    fn answers_to(&self, lsn: Position, pointer: DiskPtr) -> bool {
        self.is_live() && self.lsn == lsn && self.pointer == pointer
    }
}

// Which messages lie where.
impl Model {
    // Whether a live or pending message lies in the segment.
    fn is_segment_busy(&self, segment: u64) -> bool {
        self.plains
            .iter()
            .any(|plain| plain.is_busy() && plain.lies_in(segment))
    }

    fn is_slot_busy(&self, slot: BlobPointer) -> bool {
        self.plains
            .iter()
            .any(|plain| plain.is_busy() && plain.points_to(slot))
    }

    fn live_in(&self, segment: u64) -> usize {
        self.plains
            .iter()
            .filter(|plain| plain.is_live() && plain.lies_in(segment))
            .count()
    }

    fn lowest_page(&self, segment: u64) -> Option<PageId> {
        self.plains
            .iter()
            .filter(|plain| plain.is_live() && plain.lies_in(segment))
            .map(|plain| plain.page)
            .min()
    }

    // The closed segment with the fewest live messages, 1 to 3.
    fn sparsest(&self, segments: Segments) -> Option<u64> {
        (0..segments.count)
            .filter(|segment| *segment != segments.active)
            .map(|segment| (self.live_in(segment), segment))
            .filter(|(live, _)| (1..4).contains(live))
            .min()
            .map(|(_, segment)| segment)
    }
}

// Where the next message goes.
impl Model {
    fn free_segment(&self, segments: Segments) -> Option<u64> {
        (0..segments.count).find(|segment| *segment != segments.active
            && !self.is_segment_busy(*segment))
    }

    fn free_slot(&self, slots: BlobPointer) -> Option<BlobPointer> {
        (0..slots).find(|slot| !self.is_slot_busy(*slot))
    }

    // Where so many bytes go, and the shape after that.
    pub fn inline_place(&self, bytes: u64) -> Option<(LogOffset, Shape)> {
        match self.shape {
            Shape::Tape { room, used } => {
                let after = used.saturating_add(bytes);
                (after <= room).then_some((used, Shape::Tape { room, used: after }))
            }
            Shape::Segments(segments) => {
                let (at, after) = self.place_in(segments, bytes)?;
                Some((at, Shape::Segments(after)))
            }
        }
    }

    // Where so many bytes go: to the active segment, or else to the front of a free one.
    fn place_in(&self, segments: Segments, bytes: u64) -> Option<(LogOffset, Segments)> {
        let Segments { active, fill, .. } = segments;
        let after = fill.saturating_add(bytes);
        if after <= SEGMENT_LEN {
            let at = offset_of(active).saturating_add(fill);
            return Some((
                at,
                Segments {
                    fill: after,
                    ..segments
                },
            ));
        }
        let active = self.free_segment(segments)?;
        Some((
            offset_of(active),
            Segments {
                active,
                fill: bytes,
                ..segments
            },
        ))
    }

    // Where a payload goes, and the shape after that.
    pub fn place(&self, len: u64) -> Option<(DiskPtr, Shape)> {
        if len > MAX_PAYLOAD as u64 {
            return None;
        }
        if let Shape::Segments(segments) = self.shape
            && len > MAX_INLINE
        {
            let slot = self.free_slot(segments.slots)?;
            let (lid, after) = self.inline_place(HEADER)?;
            return Some((DiskPtr::Blob(lid, slot), after));
        }
        let (lid, after) = self.inline_place(len.saturating_add(HEADER))?;
        Some((DiskPtr::Inline(lid), after))
    }
}

impl Model {
    pub fn new(heap: Global, shape: Shape) -> Model {
        Model {
            plains: Vec::new(heap),
            next: 1,
            stable: 0,
            shape,
        }
    }

    pub fn proposal(&self) -> Option<(PageId, LogOffset)> {
        match self.shape {
            Shape::Tape { .. } => None,
            Shape::Segments(segments) => {
                let segment = self.sparsest(segments)?;
                Some((self.lowest_page(segment)?, offset_of(segment)))
            }
        }
    }

    // The live message there.
    pub fn live_at(&self, lsn: Position, pointer: DiskPtr) -> Option<Plain> {
        self.plains
            .iter()
            .copied()
            .find(|plain| plain.answers_to(lsn, pointer))
    }

    // One more message.
    pub fn add(&mut self, step: Step) -> Result<(), AllocError> {
        self.plains.push(step.plain)?;
        self.next = self.next.saturating_add(1);
        self.shape = step.shape;
        Ok(())
    }

    // The live message of the page that the entry names is dead.
    pub fn mark(&mut self, page: PageId, entry: CacheInfo) {
        for plain in self.plains.iter_mut() {
            if plain.page == page && plain.answers_to(entry.lsn, entry.pointer) {
                plain.status = Status::Dead;
            }
        }
    }

    // Forgets messages that are neither live nor pending once there are many.
    pub fn prune(&mut self) {
        if self.plains.len() >= 600 {
            self.plains.retain(|plain| plain.is_busy());
        }
    }
}

impl fmt::Display for Shape {
    fn fmt<W: fmt::Write>(&self, f: &mut fmt::Formatter<W>) -> fmt::Result {
        match self {
            Shape::Tape { room, .. } => write!(f, "tape {room}"),
            Shape::Segments(Segments { count, slots, .. }) => {
                write!(f, "segments {count}, slots {slots}")
            }
        }
    }
}
