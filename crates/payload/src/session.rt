// What the program holds, and what a command does to it.
ghost use Rattle.std.specs.Prelude.{◌≡◌, Bool, [], IfOk, Ok, OnErr, OnOk};
ghost use Rattle.node.specs.Links.{applied, parent_split, set_root, root_for};
ghost use Rattle.node.specs.Nodes.{empty_leaf};
ghost use Rattle.node.specs.Outcomes.{node_of, meta_of};
ghost use Rattle.serialization.specs.Formats.{link_bytes, node_bytes, meta_bytes};
ghost use Rattle.payload.specs.declared.answer.Answer.TheVariants.{Root};
ghost use Rattle.payload.specs.Asked.{step_of, contents_of};
ghost use Rattle.payload.specs.Holding.{Same, or_else};
ghost use Rattle.payload.specs.Telling.{bytes_told};

use crate::answer::Answer;
use crate::command::{Change, Command, Shape};
use crate::making::{link_of, node_of, value_of};
use crate::payload::Payload;
use fault::{PageId, ValueFault};
use node::{Key, Meta, Node};

// The held node, and the held Meta.
#[derive(Drop)]
pub struct Session {
    node: Node,
    meta: Meta,
}

impl Session {
    // The empty leaf, and no roots.
    pub fn new() -> Session
        ensures node { node_of result.node ≡ empty_leaf }
        ensures roots { meta_of result.meta ≡ [] }
    {
        Session {
            node: Node::empty_leaf(),
            meta: Meta::empty(),
        }
    }

    // Carries a command out. A refused one leaves what is held as it was.
    pub fn run(&mut self, command: &Command) -> Result<Answer, ValueFault>
        ensures { OnErr result (Same self.old self.new) }
    {
        match command {
            Command::Link(change) => self.link(change),
            Command::Node(shape) => self.hold(shape),
            Command::Split(at, to) => self.split(at.as_slice(), *to),
            Command::Counter(value) => Ok(Answer::Counter(Payload::new(value))),
            Command::Root(name) => self.root(name.as_slice()),
            Command::SetRoot(name, page) => self.set_root(name.as_slice(), *page),
            Command::DelRoot(name) => self.del_root(name.as_slice()),
            Command::Read(kind, payload) => Ok(Answer::Read(value_of(*kind, payload.as_slice())?)),
        }
    }

    // Kept: that a refused command changes nothing is a clause of each call; a type could say it of a copy only.

    // Applies a link to the held node.
    fn link(&mut self, change: &Change) -> Result<Answer, ValueFault>
        ensures same { OnErr result (Same self.old self.new) }
        ensures held { OnOk result (node_of self.new.node ≡ or_else (applied (step_of change.now) (node_of self.old.node)) (node_of self.old.node)) }
        ensures told { IfOk result (λ a. bytes_told a ≡ link_bytes (step_of change.now)) }
    {
        let link = link_of(change)?;
        let payload = Payload::new(&link);
        Ok(match self.node.apply(&link) {
            Ok(()) => Answer::Linked(payload, self.node),
            Err(fault) => Answer::NotLinked(payload, fault),
        })
    }

    // Holds another node.
    fn hold(&mut self, shape: &Shape) -> Result<Answer, ValueFault>
        ensures same { OnErr result (Same self.old self.new) }
        ensures held { OnOk result (node_of self.new.node ≡ contents_of shape.now) }
        ensures told { IfOk result (λ a. bytes_told a ≡ node_bytes (contents_of shape.now)) }
    {
        let node = node_of(shape)?;
        let payload = Payload::new(&node);
        self.node = node;
        Ok(Answer::Node(payload))
    }

    // Adds a child to the held node.
    fn split(&mut self, at: &[u8], to: PageId) -> Result<Answer, ValueFault>
        ensures same { OnErr result (Same self.old self.new) }
        ensures held { OnOk result ((new : Bool) × (parent_split at.now to (node_of self.old.node) ≡ Ok (new, node_of self.new.node))) }
    {
        let at = Key::from_slice(at)?;
        let new = self.node.parent_split(&at, to)?;
        Ok(Answer::Split(new, self.node))
    }

    fn root(&self, name: &[u8]) -> Result<Answer, ValueFault>
        ensures { IfOk result (λ a. a ≡ Root (root_for name.now (meta_of self.now.meta))) }
    {
        let name = Key::from_slice(name)?;
        Ok(Answer::Root(self.meta.get_root(&name)))
    }

    fn set_root(&mut self, name: &[u8], page: PageId) -> Result<Answer, ValueFault>
        ensures same { OnErr result (Same self.old self.new) }
        ensures held { OnOk result (set_root name.now page (meta_of self.old.meta) ≡ Ok (meta_of self.new.meta)) }
        ensures told { IfOk result (λ a. bytes_told a ≡ meta_bytes (meta_of self.new.meta)) }
    {
        let name = Key::from_slice(name)?;
        let former = self.meta.set_root(name, page)?;
        Ok(Answer::Roots(former, Payload::new(&self.meta)))
    }

    fn del_root(&mut self, name: &[u8]) -> Result<Answer, ValueFault>
        ensures same { OnErr result (Same self.old self.new) }
        ensures told { IfOk result (λ a. bytes_told a ≡ meta_bytes (meta_of self.new.meta)) }
    {
        let name = Key::from_slice(name)?;
        let former = self.meta.del_root(&name);
        Ok(Answer::Roots(former, Payload::new(&self.meta)))
    }
}
