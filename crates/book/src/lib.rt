// The messages of a log in order of reserving, and the memory that holds their payloads: every call of a log but those that
// reserve, once for all logs that keep their messages here.
#![tactic(auto)]

pub mod book;
pub mod booking;
pub mod head;

pub use book::Book;
pub use head::{Head, Place};
