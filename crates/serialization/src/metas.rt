// Roots as payloads.
ghost use Rattle.std.specs.Prelude.{ℕ, List};
ghost use Rattle.node.specs.Nodes.{Row};
ghost use Rattle.node.specs.Outcomes.{meta_of};
ghost use Rattle.serialization.specs.Formats.{meta_bytes, parse_meta};
ghost use Rattle.serialization.specs.Fitting.{FitsMeta};
ghost use Rattle.serialization.specs.Laws.{meta_back, meta_only};

use crate::piece::{read_front, write_front};
use crate::serialize::Serialize;
use bounded::Table;
use fault::BytesFault;
use node::rows::ROOTS;
use node::{Meta, Root};

impl Serialize for Meta {
    ghost Value = { List (Row ℕ) };

    ghost value = { meta_of };

    ghost bytes = { meta_bytes };

    ghost parse = { parse_meta };

    ghost Fits = { FitsMeta };

    ghost back = { meta_back };

    ghost only = { meta_only };

    fn serialize_into(&self, buf: &mut [u8]) -> Result<usize, BytesFault> {
        write_front(self.table(), buf)
    }

    fn deserialize(buf: &mut &[u8]) -> Result<Meta, BytesFault> {
        let roots = read_front::<Table<Root, ROOTS>>(buf)?;
        Meta::new(roots).map_err(|_| BytesFault::Unlawful)
    }
}
