// A log that writes on to its end, uses no space again and proposes nothing.
#![tactic(auto)]

pub mod tape;
pub mod taping;

pub use tape::Tape;
