// Nodes, links and roots. A Node and a Meta can only be made lawful: rows in rising order of their keys, and a prefix
// within the upper bound. What a call does is an equation over lists: the value after is the definition's, and a refused
// call changes nothing. What a page holds, a base with its links applied in order, is defined here once.
#![tactic(auto)]

pub mod apply;
pub mod data;
pub mod link;
pub mod meta;
pub mod node;
pub mod parts;
pub mod roots;
pub mod rows;

pub use data::Data;
pub use link::Link;
pub use meta::Meta;
pub use node::Node;
pub use parts::NodeParts;
pub use rows::{Held, IndexRow, Key, LeafRow, Root, Row, Value};
