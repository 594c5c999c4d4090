ghost use Rattle.std.specs.Prelude.{◌≡◌, ℕ, ◌≤◌, List, take};

use crate::strings::Hex;
use serialization::{PAYLOAD, Serialize};
use std::fmt;
use std::fmt::Display;
use std::marker::Model;

// The bytes of a value, which lie in place.
// Kept: making one asks for no memory, so that it cannot fail as a Vec would.
#[derive(Drop)]
pub struct Payload {
    bytes: [u8; PAYLOAD],
    len: usize,
}

// Clauses see the bytes.
impl Model for Payload {
    ghost Value = { List ℕ };

    ghost view = { λ p. take p.len p.bytes };

    ghost invariant = { λ p. p.len ≤ 1152 };
}

impl Payload {
    pub fn new<S: Serialize>(value: &S) -> Payload
        ensures { result ≡ S.bytes (S.value value.now) }
    {
        let mut bytes = [0; PAYLOAD];
        let len = value.serialize_into(&mut bytes).unwrap();
        Payload { bytes, len }
    }

    pub fn as_slice(&self) -> &[u8]
        ensures { result.now ≡ self.now }
    {
        &self.bytes[..self.len]
    }
}

impl fmt::Display for Payload {
    fn fmt<W: fmt::Write>(&self, f: &mut fmt::Formatter<W>) -> fmt::Result {
        fmt::Display::fmt(&Hex(self.as_slice()), f)
    }
}
