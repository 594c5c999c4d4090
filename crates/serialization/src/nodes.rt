// Nodes as payloads.
ghost use Rattle.std.specs.Prelude.{◌≡◌, ℕ};
ghost use Rattle.std.specs.NonZero.{non_zero_u64_get};
ghost use Rattle.std.specs.Option.{option_map};
ghost use Rattle.node.specs.Nodes.{Rows, Contents};
ghost use Rattle.node.specs.Meanings.{data_of, parts_of};
ghost use Rattle.node.specs.Outcomes.{node_of};
ghost use Rattle.serialization.specs.Formats.{or_zero, data_bytes, parse_data, node_bytes, parse_parts, parse_node};
ghost use Rattle.serialization.specs.Fitting.{FitsPage, FitsRows, FitsParts, FitsNode};
ghost use Rattle.serialization.specs.Laws.{node-back, node-only};

use crate::piece::{Piece, read_front, write_front};
use crate::serialize::Serialize;
use crate::writer::Writer;
use bounded::Table;
use fault::BytesFault;
use node::{Data, Key, Node, NodeParts};
use std::num::NonZeroU64;

// The number of a page, or 0 for none.
fn page_number(page: Option<NonZeroU64>) -> u64
    ensures value { result ≡ or_zero (option_map non_zero_u64_get page) }
    ensures fits { FitsPage (option_map non_zero_u64_get page) }
{
    page.map_or(0, NonZeroU64::get)
}

// Kept: the two kinds are the format's own numbers and stand here only; an enum of them would say each twice.
impl Piece for Data {
    ghost Meaning = { Rows };

    ghost meaning = { data_of };

    ghost bytes = { data_bytes };

    ghost parse = { parse_data };

    ghost Fits = { FitsRows };

    ghost most = { 1067 };

    fn take(buf: &mut &[u8]) -> Result<Data, BytesFault> {
        match u8::take(buf)? {
            0 => Ok(Data::Index(Table::take(buf)?)),
            1 => Ok(Data::Leaf(Table::take(buf)?)),
            _ => Err(BytesFault::OutOfRange),
        }
    }

    fn put(&self, to: &mut Writer) {
        match self {
            Data::Index(rows) => {
                to.push(0);
                rows.put(to);
            }
            Data::Leaf(rows) => {
                to.push(1);
                rows.put(to);
            }
        }
    }
}

impl Piece for NodeParts {
    ghost Meaning = { Contents };

    ghost meaning = { parts_of };

    ghost bytes = { node_bytes };

    ghost parse = { parse_parts };

    ghost Fits = { FitsParts };

    ghost most = { 1139 };

    fn take(buf: &mut &[u8]) -> Result<NodeParts, BytesFault> {
        let prefix_len = u8::take(buf)?;
        let next = NonZeroU64::new(u64::take(buf)?);
        let merging_child = NonZeroU64::new(u64::take(buf)?);
        let merging = bool::take(buf)?;
        let lo = Key::take(buf)?;
        let hi = Key::take(buf)?;
        let data = Data::take(buf)?;
        Ok(NodeParts {
            prefix_len,
            next,
            merging_child,
            merging,
            lo,
            hi,
            data,
        })
    }

    fn put(&self, to: &mut Writer) {
        self.prefix_len.put(to);
        page_number(self.next).put(to);
        page_number(self.merging_child).put(to);
        self.merging.put(to);
        self.lo.put(to);
        self.hi.put(to);
        self.data.put(to);
    }
}

impl Serialize for Node {
    ghost Value = { Contents };

    ghost value = { node_of };

    ghost bytes = { node_bytes };

    ghost parse = { parse_node };

    ghost Fits = { FitsNode };

    ghost back = { node-back };

    ghost only = { node-only };

    fn serialize_into(&self, buf: &mut [u8]) -> Result<usize, BytesFault> {
        write_front(self.parts(), buf)
    }

    fn deserialize(buf: &mut &[u8]) -> Result<Node, BytesFault> {
        let parts = read_front::<NodeParts>(buf)?;
        Node::new(parts).map_err(|_| BytesFault::Unlawful)
    }
}
