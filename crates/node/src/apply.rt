ghost use Rattle.std.specs.Prelude.{◌≡◌, Bool, true, false, map, Ok, Err, MatchResult};
ghost use Rattle.bounded.specs.Bytes.{bytes_of};
ghost use Rattle.fault.specs.declared.node_fault.NodeFault.TheVariants.{Unlawful};
ghost use Rattle.node.specs.Nodes.{lawful, empty_leaf};
ghost use Rattle.node.specs.Links.{set_leaf, del_leaf, intend_child, confirm_in, applied, parent_split, folded};
ghost use Rattle.node.specs.Meanings.{parts_of, link_of};
ghost use Rattle.node.specs.Outcomes.{node_of, Does, Answers, Folds};

use crate::link::Link;
use crate::node::Node;
use crate::parts::NodeParts;
use crate::rows::{Key, Value};
use fault::{NodeFault, PageId};
use std::num::NonZeroU64;

impl Node {
    // The node of these parts, which have to keep the rules.
    pub fn new(parts: NodeParts) -> Result<Node, NodeFault>
        ensures { MatchResult result (λ node. node.parts ≡ parts) (λ e. (e ≡ Unlawful) × (lawful (parts_of parts) ≡ false)) }
    {
        if !parts.is_lawful() {
            return Err(NodeFault::Unlawful);
        }
        Ok(Node { parts })
    }

    // A leaf with no rows, no bounds and no neighbours.
    pub fn empty_leaf() -> Node
        ensures { node_of result ≡ empty_leaf }
    {
        Node {
            parts: NodeParts::empty_leaf(),
        }
    }

    pub fn parts(&self) -> &NodeParts
        ensures { result.now ≡ self.now.parts }
    {
        &self.parts
    }

    // Applies a link.
    pub fn apply(&mut self, link: &Link) -> Result<(), NodeFault>
        ensures { Does node_of self.old self.new (applied (link_of link.now) (node_of self.old)) result }
    {
        if self.parts.merging {
            return Err(NodeFault::Merging);
        }
        match *link {
            Link::Set(key, value) => self.set_leaf(key, value),
            Link::Del(key) => self.del_leaf(&key),
            Link::ParentMergeIntention(pid) => self.intend(pid),
            Link::ParentMergeConfirm => self.confirm(),
            Link::ChildMergeCap => {
                self.parts.merging = true;
                Ok(())
            }
        }
    }

    // Sets the value of a key, given without the prefix.
    pub fn set_leaf(&mut self, key: Key, val: Value) -> Result<(), NodeFault>
        ensures { Does node_of self.old self.new (set_leaf (bytes_of key) (bytes_of val) (node_of self.old)) result }
    {
        if !self.parts.is_inside(&key) {
            return Err(NodeFault::NotBelowHi);
        }
        self.parts.data.set(key, val)
    }

    // Removes the row of a key, given without the prefix, if there is one.
    pub fn del_leaf(&mut self, key: &Key) -> Result<(), NodeFault>
        ensures { Does node_of self.old self.new (del_leaf (bytes_of key.now) (node_of self.old)) result }
    {
        self.parts.data.del(key)
    }

    // Notes the child that is to be merged away.
    fn intend(&mut self, pid: PageId) -> Result<(), NodeFault>
        ensures { Does node_of self.old self.new (intend_child pid (node_of self.old)) result }
    {
        if self.parts.merging_child.is_some() {
            return Err(NodeFault::BadChild);
        }
        let child = NonZeroU64::new(pid).ok_or(NodeFault::BadChild)?;
        self.parts.merging_child = Some(child);
        Ok(())
    }

    // Removes the child that has been merged away.
    fn confirm(&mut self) -> Result<(), NodeFault>
        ensures { Does node_of self.old self.new (confirm_in (node_of self.old) (node_of self.old).child) result }
    {
        let child = self.parts.merging_child.ok_or(NodeFault::BadChild)?;
        self.parts.data.parent_merge_confirm(child.get())?;
        self.parts.merging_child = None;
        Ok(())
    }

    // Adds a row for the page `to` at a separator, given with the prefix, and says whether the separator is new.
    pub fn parent_split(&mut self, at: &Key, to: PageId) -> Result<bool, NodeFault>
        ensures { Answers node_of self.old self.new (parent_split (bytes_of at.now) to (node_of self.old)) result }
    {
        let prefix_len = self.parts.prefix_len as usize;
        if at.len() < prefix_len {
            return Err(NodeFault::Unlawful);
        }
        self.parts.data.split(at.skip(prefix_len), to)
    }

    // What a page holds: the base with the links applied in order.
    pub fn fold(base: Node, links: &[Link]) -> Result<Node, NodeFault>
        ensures { Folds (folded (node_of base) (map link_of links.now)) result }
    {
        let mut node = base;
        for link in links {
            node.apply(link)?;
        }
        Ok(node)
    }
}
