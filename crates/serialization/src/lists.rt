// Tables of rows as bytes: the count, and then each row.
ghost use Rattle.std.specs.Prelude.{ℕ, ◌+◌, ◌*◌, List, map};
ghost use Rattle.bounded.specs.Rows.{rows_of};
ghost use Rattle.node.specs.Nodes.{Row};
ghost use Rattle.node.specs.Meanings.{row_of};
ghost use Rattle.serialization.specs.Formats.{row_bytes, parse_row, list_bytes, parse_list};
ghost use Rattle.serialization.specs.Fitting.{FitsRow, FitsList};

use crate::piece::Piece;
use crate::writer::Writer;
use bounded::Table;
use fault::BytesFault;
use node::{Held, Row};

impl<V: Piece + Held + Copy + Default, const N: usize> Piece for Table<Row<V>, N> {
    ghost Meaning = { List (Row V.Meaning) };

    ghost meaning = { λ t. map (row_of V.meaning) (rows_of t) };

    ghost bytes = { list_bytes (row_bytes V.bytes) };

    ghost parse = { parse_list N (parse_row V.parse) };

    ghost Fits = { FitsList N (FitsRow V.Fits) };

    ghost most = { 10 + N * (25 + V.most) };

    fn take(buf: &mut &[u8]) -> Result<Self, BytesFault> {
        let count = u64::take(buf)?;
        if count > N as u64 {
            return Err(BytesFault::OutOfRange);
        }
        let mut rows = Table::new(Row::default());
        for _ in 0..count {
            let row = Row::take(buf)?;
            rows.push(row).unwrap();
        }
        Ok(rows)
    }

    fn put(&self, to: &mut Writer) {
        (self.len() as u64).put(to);
        for row in self.as_slice() {
            row.put(to);
        }
    }
}
