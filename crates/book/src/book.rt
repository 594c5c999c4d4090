ghost use Rattle.std.specs.Prelude.{◌≡◌, ◌<◌, true, length};
ghost use Rattle.book.specs.Heads.{ranked, calm};

use crate::head::Head;
use logs::Position;

// The messages of a log in order of reserving, and the memory that holds their payloads. Positions rise, each payload lies
// within the memory and is no longer than a payload may be, and no message but the last is pending.
#[derive(Drop)]
pub struct Book {
    pub number: u64,
    pub stable: Position,
    pub next: Position,
    pub heads: Vec<Head>,
    pub mem: Vec<u8>,
    ghost first: { 0 < next },
    ghost ranks: { ranked 0 next (length mem.items) heads.items ≡ true },
    ghost last: { calm heads.items ≡ true },
}
