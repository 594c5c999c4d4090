// Links as payloads.
ghost use Rattle.std.specs.Prelude.{◌≡◌, ℕ};
ghost use Rattle.node.specs.Links.{Step};
ghost use Rattle.node.specs.Meanings.{link_of};
ghost use Rattle.serialization.specs.Formats.{link_bytes, parse_link};
ghost use Rattle.serialization.specs.Fitting.{FitsLink};
ghost use Rattle.serialization.specs.Laws.{link_back, link_only};

use crate::piece::{Piece, read_front, write_front};
use crate::serialize::Serialize;
use crate::writer::Writer;
use fault::BytesFault;
use node::{Key, LeafRow, Link};

// Kept: the tags are the format's own numbers and stand here only; an enum of them would say each twice.
impl Piece for Link {
    ghost Meaning = { Step };

    ghost meaning = { link_of };

    ghost bytes = { link_bytes };

    ghost parse = { parse_link };

    ghost Fits = { FitsLink };

    ghost most = { 67 };

    fn take(buf: &mut &[u8]) -> Result<Link, BytesFault> {
        match u8::take(buf)? {
            0 => {
                let row = LeafRow::take(buf)?;
                Ok(Link::Set(row.key, row.value))
            }
            1 => Ok(Link::Del(Key::take(buf)?)),
            2 => Ok(Link::ParentMergeIntention(u64::take(buf)?)),
            3 => Ok(Link::ParentMergeConfirm),
            4 => Ok(Link::ChildMergeCap),
            _ => Err(BytesFault::OutOfRange),
        }
    }

    fn put(&self, to: &mut Writer) {
        match *self {
            Link::Set(key, value) => {
                to.push(0);
                LeafRow { key, value }.put(to);
            }
            Link::Del(key) => {
                to.push(1);
                key.put(to);
            }
            Link::ParentMergeIntention(page) => {
                to.push(2);
                page.put(to);
            }
            Link::ParentMergeConfirm => to.push(3),
            Link::ChildMergeCap => to.push(4),
        }
    }
}

impl Serialize for Link {
    ghost Value = { Step };

    ghost value = { link_of };

    ghost bytes = { link_bytes };

    ghost parse = { parse_link };

    ghost Fits = { FitsLink };

    ghost back = { link_back };

    ghost only = { link_only };

    fn serialize_into(&self, buf: &mut [u8]) -> Result<usize, BytesFault> {
        write_front(self, buf)
    }

    fn deserialize(buf: &mut &[u8]) -> Result<Link, BytesFault> {
        read_front(buf)
    }
}
