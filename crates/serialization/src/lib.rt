// The bytes of each kind of payload. A value has one sequence of bytes: it reads back as that value with any rest left
// over, and no other bytes read as it. Every fault in bytes is told by its number, the first from the front.
#![tactic(auto)]

pub mod counters;
mod groups;
pub mod links;
mod lists;
pub mod metas;
pub mod nodes;
mod piece;
pub mod serialize;
mod writer;

pub use serialize::{Free, PAYLOAD, Serialize};
