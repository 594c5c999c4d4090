use crate::rows::{Key, Value};
use fault::PageId;

// A change of a node, kept beside the node until it is written anew.
#[derive(Clone, Copy)]
pub enum Link {
    // A new value is set for a key.
    Set(Key, Value),
    // The value of a key is removed.
    Del(Key),
    // A child of this index is to be merged away.
    ParentMergeIntention(PageId),
    // The child has been merged into its left neighbour.
    ParentMergeConfirm,
    // This node is to be merged into its left neighbour.
    ChildMergeCap,
}
