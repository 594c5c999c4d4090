// Bounded values that lie in place: a byte string of at most N bytes and a table of at most N rows. Each means a list, and
// each call says which list it leaves; none asks for memory.
#![tactic(auto)]

pub mod ivec;
pub mod table;

pub use ivec::IVec;
pub use table::Table;
