ghost use Rattle.std.specs.Prelude.{◌≡◌, Bool, true, []};
ghost use Rattle.bounded.specs.Bytes.{bytes_of};
ghost use Rattle.node.specs.Nodes.{ordered_rows, row_count, index, leaf};
ghost use Rattle.node.specs.Links.{set_rows, del_rows, confirm_rows, split_rows};
ghost use Rattle.node.specs.Outcomes.{Does, Answers};
ghost use Rattle.node.specs.Meanings.{data_of, Pointed};

use crate::rows::{IndexRow, Key, LeafRow, ROWS, Value};
use bounded::Table;
use fault::{NodeFault, PageId};
use keyed::edits::{remove_row, set_row};
use keyed::seek::{find_row, is_rising};

// The rows of a node, of its kind.
#[derive(Clone, Copy)]
pub enum Data {
    Index(Table<IndexRow, ROWS>),
    Leaf(Table<LeafRow, ROWS>),
}

impl Data {
    // A leaf with no rows.
    pub fn empty_leaf() -> Data
        ensures { data_of result ≡ leaf [] }
    {
        Data::Leaf(Table::new(LeafRow::default()))
    }

    // An index with no rows.
    pub fn empty_index() -> Data
        ensures { data_of result ≡ index [] }
    {
        Data::Index(Table::new(IndexRow::default()))
    }

    // How many rows there are.
    pub fn len(&self) -> usize
        ensures { result ≡ row_count (data_of self.now) }
    {
        match self {
            Data::Index(rows) => rows.len(),
            Data::Leaf(rows) => rows.len(),
        }
    }

    // Whether the keys strictly rise.
    pub(crate) fn is_ordered(&self) -> bool
        ensures { result ≡ ordered_rows (data_of self.now) }
    {
        match self {
            Data::Index(rows) => is_rising(rows.as_slice()),
            Data::Leaf(rows) => is_rising(rows.as_slice()),
        }
    }

    // Kept: that the rows rise is a premise of the calls of a node alone, since `NodeParts` may hold rows that do not.
    pub(crate) fn set(&mut self, key: Key, value: Value) -> Result<(), NodeFault>
        requires { ordered_rows (data_of self.old) ≡ true }
        ensures does { Does data_of self.old self.new (set_rows (bytes_of key) (bytes_of value) (data_of self.old)) result }
        ensures ordered { ordered_rows (data_of self.new) ≡ true }
    {
        let Data::Leaf(rows) = self else {
            return Err(NodeFault::WrongKind);
        };
        set_row(rows, LeafRow { key, value }).map_err(|_| NodeFault::Full)?;
        Ok(())
    }

    pub(crate) fn del(&mut self, key: &Key) -> Result<(), NodeFault>
        requires { ordered_rows (data_of self.old) ≡ true }
        ensures does { Does data_of self.old self.new (del_rows (bytes_of key.now) (data_of self.old)) result }
        ensures ordered { ordered_rows (data_of self.new) ≡ true }
    {
        let Data::Leaf(rows) = self else {
            return Err(NodeFault::WrongKind);
        };
        remove_row(rows, key);
        Ok(())
    }

    // Removes the first row that points to the child, which has been merged away.
    pub fn parent_merge_confirm(&mut self, merged_child_pid: PageId) -> Result<(), NodeFault>
        ensures does { Does data_of self.old self.new (confirm_rows merged_child_pid (data_of self.old)) result }
        ensures ordered { ordered_rows (data_of self.old) ≡ true → ordered_rows (data_of self.new) ≡ true }
    {
        let Data::Index(rows) = self else {
            return Err(NodeFault::WrongKind);
        };
        let i = place_of(rows.as_slice(), merged_child_pid).ok_or(NodeFault::NoPointer)?;
        rows.remove(i);
        Ok(())
    }

    // Adds a row for a new key, and says whether it is new.
    pub(crate) fn split(&mut self, key: Key, to: PageId) -> Result<bool, NodeFault>
        requires { ordered_rows (data_of self.old) ≡ true }
        ensures does { Answers data_of self.old self.new (split_rows (bytes_of key) to (data_of self.old)) result }
        ensures ordered { ordered_rows (data_of self.new) ≡ true }
    {
        let Data::Index(rows) = self else {
            return Err(NodeFault::WrongKind);
        };
        if find_row(rows.as_slice(), &key).is_some() {
            return Ok(false);
        }
        set_row(rows, IndexRow { key, value: to }).map_err(|_| NodeFault::Full)?;
        Ok(true)
    }
}

// The place of the first row that points to the page.
fn place_of(rows: &[IndexRow], page: PageId) -> Option<usize>
    ensures { Pointed page rows.now result }
{
    rows.iter().position(|row| row.value == page)
}
