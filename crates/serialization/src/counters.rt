// Counters and free pages as payloads.
ghost use Rattle.std.specs.Prelude.{◌≡◌, ℕ, List, []};
ghost use Rattle.serialization.specs.Parsing.{Parsed, read};
ghost use Rattle.serialization.specs.Numbers.{number, parse_number};
ghost use Rattle.serialization.specs.Fitting.{FitsNumber};
ghost use Rattle.serialization.specs.Numbering.{number-back, number-only};
ghost use Rattle.serialization.specs.Laws.{free_back, free_only};

use crate::piece::{Piece, read_front, write_front};
use crate::serialize::{Free, Serialize};
use crate::writer::Writer;
use fault::BytesFault;

// A number that only grows.
impl Serialize for u64 {
    ghost Value = { ℕ };

    ghost value = { λ n. n };

    ghost bytes = { number };

    ghost parse = { parse_number };

    ghost Fits = { FitsNumber };

    ghost back = { number-back };

    ghost only = { number-only };

    fn serialize_into(&self, buf: &mut [u8]) -> Result<usize, BytesFault> {
        write_front::<u64>(self, buf)
    }

    fn deserialize(buf: &mut &[u8]) -> Result<u64, BytesFault> {
        read_front::<u64>(buf)
    }
}

impl Piece for Free {
    ghost Meaning = { Unit {0} };

    ghost meaning = { λ _. tt };

    ghost bytes = { λ _. [] };

    ghost parse = { λ bs. read tt bs };

    ghost Fits = { λ _. Unit {0} };

    ghost most = { 0 };

    fn take(_buf: &mut &[u8]) -> Result<Free, BytesFault> {
        Ok(Free)
    }

    fn put(&self, _to: &mut Writer) {}
}

impl Serialize for Free {
    ghost Value = { Unit {0} };

    ghost value = { λ _. tt };

    ghost bytes = { λ _. [] };

    ghost parse = { λ bs. read tt bs };

    ghost Fits = { λ _. Unit {0} };

    ghost back = { free_back };

    ghost only = { free_only };

    fn serialize_into(&self, buf: &mut [u8]) -> Result<usize, BytesFault> {
        write_front(self, buf)
    }

    fn deserialize(buf: &mut &[u8]) -> Result<Free, BytesFault> {
        read_front(buf)
    }
}
