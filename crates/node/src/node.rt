ghost use Rattle.std.specs.Prelude.{◌≡◌, true};
ghost use Rattle.node.specs.Nodes.{lawful};
ghost use Rattle.node.specs.Meanings.{parts_of};

use crate::parts::NodeParts;

// A node that keeps the rules: its keys strictly rise, and `prefix_len` is within `hi` unless that is empty.
#[derive(Clone, Copy)]
pub struct Node {
    pub(crate) parts: NodeParts,
    ghost ruled: { lawful (parts_of parts) ≡ true },
}
