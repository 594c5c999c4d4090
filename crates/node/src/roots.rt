ghost use Rattle.std.specs.Prelude.{◌≡◌, Bool, true, false, [], MatchResult};
ghost use Rattle.bounded.specs.Bytes.{bytes_of};
ghost use Rattle.bounded.specs.Rows.{rows_of};
ghost use Rattle.fault.specs.declared.node_fault.NodeFault.TheVariants.{Unlawful};
ghost use Rattle.keyed.specs.Rows.{without};
ghost use Rattle.node.specs.Nodes.{ordered, sought};
ghost use Rattle.node.specs.Links.{set_root, root_for};
ghost use Rattle.node.specs.Meanings.{roots_of};
ghost use Rattle.node.specs.Outcomes.{meta_of, Roots};

use crate::meta::Meta;
use crate::rows::{Key, ROOTS, Root};
use bounded::Table;
use fault::{NodeFault, PageId};
use keyed::edits::{remove_row, set_row};
use keyed::seek::{find_row, is_rising};

impl Meta {
    // No roots.
    pub fn empty() -> Meta
        ensures { meta_of result ≡ [] }
    {
        Meta {
            roots: Table::new(Root::default()),
        }
    }

    // The Meta of these roots, whose names have to rise.
    pub fn new(roots: Table<Root, ROOTS>) -> Result<Meta, NodeFault>
        ensures { MatchResult result (λ meta. meta.roots ≡ roots) (λ e. (e ≡ Unlawful) × (ordered (roots_of (rows_of roots)) ≡ false)) }
    {
        if !is_rising(roots.as_slice()) {
            return Err(NodeFault::Unlawful);
        }
        Ok(Meta { roots })
    }

    pub fn roots(&self) -> &[Root]
        ensures { result.now ≡ rows_of self.now.roots }
    {
        self.roots.as_slice()
    }

    // The same with the room that is left.
    pub fn table(&self) -> &Table<Root, ROOTS>
        ensures { result.now ≡ self.now.roots }
    {
        &self.roots
    }

    // The page of a name.
    pub fn get_root(&self, table: &Key) -> Option<PageId>
        ensures { result ≡ root_for (bytes_of table.now) (meta_of self.now) }
    {
        find_row(self.roots.as_slice(), table).map(|root| root.value)
    }

    // Sets the page of a name, and answers the page that it had.
    pub fn set_root(&mut self, name: Key, pid: PageId) -> Result<Option<PageId>, NodeFault>
        ensures { Roots (bytes_of name) (set_root (bytes_of name) pid (meta_of self.old)) self.old self.new result }
    {
        let root = Root {
            key: name,
            value: pid,
        };
        let former = set_row(&mut self.roots, root).map_err(|_| NodeFault::TooManyRoots)?;
        Ok(former.map(|root| root.value))
    }

    // Removes a name, and answers the page that it had.
    pub fn del_root(&mut self, name: &Key) -> Option<PageId>
        ensures after { meta_of self.new ≡ without (sought (bytes_of name.now)) (meta_of self.old) }
        ensures value { result ≡ root_for (bytes_of name.now) (meta_of self.old) }
    {
        remove_row(&mut self.roots, name).map(|root| root.value)
    }
}
