// The values that a command's words make.
ghost use Rattle.std.specs.Prelude.{◌≡◌, ℕ, map, IfOk, MatchResult, vec_items};
ghost use Rattle.bounded.specs.Bytes.{bytes_of};
ghost use Rattle.bounded.specs.Rows.{rows_of};
ghost use Rattle.fault.specs.declared.bytes_fault.BytesFault.TheVariants.{TooLong};
ghost use Rattle.fault.specs.declared.value_fault.ValueFault.TheVariants.{Bytes};
ghost use Rattle.node.specs.Meanings.{link_of, row_of};
ghost use Rattle.node.specs.Nodes.{Str};
ghost use Rattle.node.specs.Outcomes.{node_of};
ghost use Rattle.payload.specs.Asked.{step_of, row_asked, contents_of};
ghost use Rattle.payload.specs.Telling.{bytes_read, kind_read};

use crate::answer::Read;
use crate::command::{Change, Kind, Row, Rows, Shape};
use bounded::Table;
use fault::{BytesFault, NodeFault, PageId, ValueFault};
use node::rows::ROWS;
use node::{Data, Held, Key, Link, Meta, Node, NodeParts, Value};
use serialization::Free;
use serialization::serialize::decode;

// The link of a change, if its strings are short enough.
pub fn link_of(change: &Change) -> Result<Link, ValueFault>
    ensures { MatchResult result (λ link. link_of link ≡ step_of change.now) (λ e. e ≡ Bytes TooLong) }
{
    match change {
        Change::Set(key, value) => {
            let key = Key::from_slice(key.as_slice())?;
            let value = Value::from_slice(value.as_slice())?;
            Ok(Link::Set(key, value))
        }
        Change::Del(key) => Ok(Link::Del(Key::from_slice(key.as_slice())?)),
        Change::Intend(page) => Ok(Link::ParentMergeIntention(*page)),
        Change::Confirm => Ok(Link::ParentMergeConfirm),
        Change::Cap => Ok(Link::ChildMergeCap),
    }
}

// A value or a page that a row was asked to have, and what is made of it.
trait Asked {
    type Made: Held + Copy + Default;

    ghost Meaning: { Type 0 };

    ghost asked: { Self → Meaning };

    ghost made: { Self.Made → Meaning };

    fn make(&self) -> Result<Self::Made, BytesFault>
        ensures { MatchResult result (λ v. made v ≡ asked self.now) (λ e. e ≡ TooLong) };
}

impl Asked for Vec<u8> {
    type Made = Value;

    ghost Meaning = { Str };

    ghost asked = { vec_items };

    ghost made = { bytes_of };

    fn make(&self) -> Result<Value, BytesFault> {
        Value::from_slice(self.as_slice())
    }
}

impl Asked for PageId {
    type Made = PageId;

    ghost Meaning = { ℕ };

    ghost asked = { λ p. p };

    ghost made = { λ p. p };

    fn make(&self) -> Result<PageId, BytesFault> {
        Ok(*self)
    }
}

fn row_of<A: Asked>(row: &Row<A>) -> Result<node::Row<A::Made>, BytesFault>
    ensures { MatchResult result (λ r. row_of A.made r ≡ row_asked A.asked row.now) (λ e. e ≡ TooLong) }
{
    let key = Key::from_slice(row.key.as_slice())?;
    let value = row.value.make()?;
    value.held();
    Ok(node::Row { key, value })
}

fn table_of<A: Asked>(rows: &[Row<A>]) -> Result<Table<node::Row<A::Made>, ROWS>, ValueFault>
    ensures { IfOk result (λ t. map (row_of A.made) (rows_of t) ≡ map (row_asked A.asked) rows.now) }
{
    let mut table = Table::new(node::Row::default());
    for row in rows {
        table.push(row_of(row)?).map_err(|_| NodeFault::Full)?;
    }
    Ok(table)
}

// The node of a shape, if it keeps the rules.
pub fn node_of(shape: &Shape) -> Result<Node, ValueFault>
    ensures { IfOk result (λ node. node_of node ≡ contents_of shape.now) }
{
    let data = match &shape.rows {
        Rows::Leaf(rows) => Data::Leaf(table_of(rows.as_slice())?),
        Rows::Index(rows) => Data::Index(table_of(rows.as_slice())?),
    };
    let parts = NodeParts {
        prefix_len: shape.prefix_len,
        next: shape.next,
        merging_child: shape.child,
        merging: shape.merging,
        lo: Key::from_slice(shape.lo.as_slice())?,
        hi: Key::from_slice(shape.hi.as_slice())?,
        data,
    };
    Ok(Node::new(parts)?)
}

// The value that bytes are read as.
pub fn value_of(kind: Kind, payload: &[u8]) -> Result<Read, ValueFault>
    ensures kind { IfOk result (λ v. kind_read v ≡ kind) }
    ensures bytes { IfOk result (λ v. bytes_read v ≡ payload.now) }
{
    let value = match kind {
        Kind::Counter => Read::Counter(decode::<u64>(payload)?),
        Kind::Free => {
            decode::<Free>(payload)?;
            Read::Free
        }
        Kind::Meta => Read::Meta(decode::<Meta>(payload)?),
        Kind::Link => Read::Link(decode::<Link>(payload)?),
        Kind::Node => Read::Node(decode::<Node>(payload)?),
    };
    Ok(value)
}
