// Rows in the order of their keys. One seek, one insert and one remove serve every kind of row that has a key, and every
// kind of key that has an order; each call is an equation over the list of rows.
#![tactic(auto)]

pub mod edits;
pub mod rows;
pub mod seek;

pub use edits::TableFull;
pub use rows::Keyed;
