ghost use Rattle.fault.specs.Reports.{node_report};

use crate::{Layer, Refusal, Report};
use thiserror::Error;

// Why a node or a Meta does not take a change.
#[derive(Clone, Copy, PartialEq, Eq, Debug, Error)]
pub enum NodeFault {
    // The parts make no lawful node or Meta, or the separator is shorter than the prefix.
    #[error("refused 5: the parts make no lawful node, Meta or separator: put keys in rising order and keep prefix_len within hi and separator")]
    Unlawful = 5,
    // The node is being merged away, and takes no link.
    #[error("refused 22: the node is being merged away: link to its left neighbour")]
    Merging = 22,
    // The key is not below the node's upper bound.
    #[error("refused 23: the key is not below the node's hi: go on to next")]
    NotBelowHi = 23,
    // The change is for the other kind of node.
    #[error("refused 24: the link is for the other kind of node: a leaf takes Set and Del, an index Confirm and splits")]
    WrongKind = 24,
    // A new key finds sixteen rows.
    #[error("refused 25: the node has sixteen rows: split it first")]
    Full = 25,
    // A child is already being merged, or none is, or the child is page 0.
    #[error("refused 26: page 0, a child already merging, or none to confirm: finish or begin a merge first")]
    BadChild = 26,
    // No row points to the child.
    #[error("refused 27: no row points to the merging child: replace the node")]
    NoPointer = 27,
    // A new name finds eight roots.
    #[error("refused 38: there are eight roots: remove one first")]
    TooManyRoots = 38,
}

impl Refusal for NodeFault {
    ghost told = { node_report };

    fn report(&self) -> Report {
        Report::of_value(*self as u8, Layer::Node)
    }
}
