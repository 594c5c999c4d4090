ghost use Rattle.std.specs.Prelude.{◌≡◌, Bool, true};
ghost use Rattle.bounded.specs.Bytes.{bytes_of};
ghost use Rattle.node.specs.Nodes.{lawful, inside, empty_leaf};
ghost use Rattle.node.specs.Meanings.{parts_of};

use crate::data::Data;
use crate::rows::Key;
use std::num::NonZeroU64;

// The parts of a node, which may break its rules.
#[derive(Clone, Copy)]
pub struct NodeParts {
    // How many bytes the keys of the rows leave out, which all keys of the node begin with.
    pub prefix_len: u8,
    // The right neighbour.
    pub next: Option<NonZeroU64>,
    // The child that is being merged away.
    pub merging_child: Option<NonZeroU64>,
    // Whether this node is being merged away.
    pub merging: bool,
    // The first key that may be here.
    pub lo: Key,
    // The first key that may not, or empty where there is none.
    // Kept: sled's own form, and the payload's: an empty key bounds nothing, so an Option would have two ways to say none.
    pub hi: Key,
    pub data: Data,
}

impl NodeParts {
    // A leaf with no rows, no bounds and no neighbours.
    pub fn empty_leaf() -> NodeParts
        ensures { parts_of result ≡ empty_leaf }
    {
        NodeParts {
            prefix_len: 0,
            next: None,
            merging_child: None,
            merging: false,
            lo: Key::empty(),
            hi: Key::empty(),
            data: Data::empty_leaf(),
        }
    }

    // Whether the keys strictly rise, and the prefix is within the upper bound unless that is empty.
    pub fn is_lawful(&self) -> bool
        ensures { result ≡ lawful (parts_of self.now) }
    {
        let prefixed = self.hi.is_empty() || self.prefix_len as usize <= self.hi.len();
        prefixed && self.data.is_ordered()
    }

    // Whether a key, without the prefix, is below the upper bound.
    pub(crate) fn is_inside(&self, key: &Key) -> bool
        ensures { result ≡ inside (bytes_of key.now) (parts_of self.now) }
    {
        self.hi.is_empty() || *key < self.hi.skip(self.prefix_len as usize)
    }
}
