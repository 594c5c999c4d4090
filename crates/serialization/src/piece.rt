// The parts of payloads: bytes, flags, numbers, strings and rows.
ghost use Rattle.std.specs.Prelude.{◌≡◌, ℕ, ◌+◌, ◌≤◌, Bool, cond, nat_lt, min, List, [], ◌∷◌, ◌++◌, length, OnOk};
ghost use Rattle.bounded.specs.Bytes.{bytes_of};
ghost use Rattle.node.specs.Nodes.{Str, Row};
ghost use Rattle.node.specs.Meanings.{row_of};
ghost use Rattle.serialization.specs.Parsing.{Parsed, parse_byte, parse_flag};
ghost use Rattle.serialization.specs.Numbers.{number, parse_number};
ghost use Rattle.serialization.specs.Formats.{flag_byte, str_bytes, parse_string, row_bytes, parse_row};
ghost use Rattle.serialization.specs.Fitting.{FitsNumber, FitsString, FitsRow};
ghost use Rattle.serialization.specs.Calls.{Takes, Reads, Writes};
ghost use Rattle.serialization.specs.Writing.{Room, Puts};

use crate::groups::{put_groups, take_groups};
use crate::serialize::PAYLOAD;
use crate::writer::Writer;
use bounded::IVec;
use fault::BytesFault;
use node::{Held, Key, Row};

// A part of a payload.
pub(crate) trait Piece: Sized {
    // What it means, the bytes that it has, what is read of bytes, and which there are.
    ghost Meaning: { Type 0 };

    ghost meaning: { Self → Meaning };

    ghost bytes: { Meaning → List ℕ };

    ghost parse: { List ℕ → Parsed Meaning };

    ghost Fits: { Meaning → Type 0 };

    // How many bytes it has at most.
    ghost most: { ℕ };

    fn take(buf: &mut &[u8]) -> Result<Self, BytesFault>
        ensures { Takes meaning (parse buf.old.now) buf.new.now result };

    fn put(&self, to: &mut Writer)
        requires { Room most to.old }
        ensures puts { Puts (bytes (meaning self.now)) to.old to.new }
        ensures bound { length (bytes (meaning self.now)) ≤ most }
        ensures fits { Fits (meaning self.now) };
}

// Writes a piece to the front of a scratch that is large enough for any, and says how many bytes it has.
pub(crate) fn write_front<P: Piece>(piece: &P, buf: &mut [u8]) -> Result<usize, BytesFault>
    requires { P.most ≤ 1152 }
    ensures writes { Writes (P.bytes (P.meaning piece.now)) buf.old buf.new result }
    ensures fits { OnOk result (P.Fits (P.meaning piece.now)) }
{
    if buf.len() < PAYLOAD {
        return Err(BytesFault::ScratchTooSmall);
    }
    let mut to = Writer { out: buf, at: 0 };
    piece.put(&mut to);
    Ok(to.at)
}

// Takes a piece from the front. Where there is none, the bytes are left where they were.
pub(crate) fn read_front<P: Piece>(buf: &mut &[u8]) -> Result<P, BytesFault>
    ensures { Reads P.meaning (P.parse buf.old.now) buf.old.now buf.new.now result }
{
    let mut rest = *buf;
    let piece = P::take(&mut rest)?;
    *buf = rest;
    Ok(piece)
}

impl Piece for u8 {
    ghost Meaning = { ℕ };

    ghost meaning = { λ b. b };

    ghost bytes = { λ b. b ∷ [] };

    ghost parse = { parse_byte };

    ghost Fits = { λ _. Unit {0} };

    ghost most = { 1 };

    fn take(buf: &mut &[u8]) -> Result<u8, BytesFault> {
        let (byte, rest) = buf.split_first().ok_or(BytesFault::EndsEarly)?;
        *buf = rest;
        Ok(*byte)
    }

    fn put(&self, to: &mut Writer) {
        to.push(*self);
    }
}

// Kept: a flag is 0 or 1 in the format, and that stands here only.
impl Piece for bool {
    ghost Meaning = { Bool };

    ghost meaning = { λ b. b };

    ghost bytes = { λ b. flag_byte b ∷ [] };

    ghost parse = { parse_flag };

    ghost Fits = { λ _. Unit {0} };

    ghost most = { 1 };

    fn take(buf: &mut &[u8]) -> Result<bool, BytesFault> {
        match u8::take(buf)? {
            0 => Ok(false),
            1 => Ok(true),
            _ => Err(BytesFault::OutOfRange),
        }
    }

    fn put(&self, to: &mut Writer) {
        to.push(u8::from(*self));
    }
}

impl Piece for u64 {
    ghost Meaning = { ℕ };

    ghost meaning = { λ n. n };

    ghost bytes = { number };

    ghost parse = { parse_number };

    ghost Fits = { FitsNumber };

    ghost most = { 10 };

    fn take(buf: &mut &[u8]) -> Result<u64, BytesFault> {
        take_groups(buf, 9)
    }

    fn put(&self, to: &mut Writer) {
        put_groups(*self, 9, to);
    }
}

// A string as bytes: its length, and then its bytes, of which no string has more than 255.
impl<const N: usize> Piece for IVec<N> {
    ghost Meaning = { Str };

    ghost meaning = { bytes_of };

    ghost bytes = { str_bytes };

    ghost parse = { parse_string (min N 255) };

    ghost Fits = { FitsString (min N 255) };

    ghost most = { cond (nat_lt N 128) 1 10 + min N 255 };

    fn take(buf: &mut &[u8]) -> Result<IVec<N>, BytesFault> {
        let len = u64::take(buf)?;
        if len > N.min(255) as u64 {
            return Err(BytesFault::OutOfRange);
        }
        let (body, rest) = buf
            .split_at_checked(len as usize)
            .ok_or(BytesFault::EndsEarly)?;
        *buf = rest;
        IVec::from_slice(body)
    }

    fn put(&self, to: &mut Writer) {
        put_groups(self.len() as u64, 9, to);
        to.extend(self.as_slice());
    }
}

// A row as bytes: its key, and then what it leads to.
impl<V: Piece + Held> Piece for Row<V> {
    ghost Meaning = { Row V.Meaning };

    ghost meaning = { row_of V.meaning };

    ghost bytes = { row_bytes V.bytes };

    ghost parse = { parse_row V.parse };

    ghost Fits = { FitsRow V.Fits };

    ghost most = { 25 + V.most };

    fn take(buf: &mut &[u8]) -> Result<Row<V>, BytesFault> {
        let key = Key::take(buf)?;
        let value = V::take(buf)?;
        value.held();
        Ok(Row { key, value })
    }

    fn put(&self, to: &mut Writer) {
        self.key.put(to);
        self.value.put(to);
    }
}
