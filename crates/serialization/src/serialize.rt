ghost use Rattle.std.specs.Prelude.{◌≡◌, ℕ, List, ◌++◌, Ok, Err, OnOk};
ghost use Rattle.serialization.specs.Parsing.{Parsed};
ghost use Rattle.serialization.specs.Fitting.{ReadsBack, ReadsOnly};
ghost use Rattle.serialization.specs.Calls.{Writes, Reads, Decodes, whole};

use fault::BytesFault;

// How many bytes a payload has at most, and so how many a scratch has at least.
pub const PAYLOAD: usize = 1152;

// What a freed page is written as: no bytes.
#[derive(Clone, Copy, PartialEq, Eq, Debug)]
pub struct Free;

// A type whose values are kept as bytes.
// Kept: what it says of the bytes stands in `Piece` too: that is the crate's own, and a type of a caller's is none.
pub trait Serialize: Sized {
    // What a value means.
    ghost Value: { Type 0 };

    ghost value: { Self → Value };

    // The bytes that it has.
    ghost bytes: { Value → List ℕ };

    // What is read of bytes.
    ghost parse: { List ℕ → Parsed Value };

    // The values that there are: within the sizes, and lawful.
    ghost Fits: { Value → Type 0 };

    // Writes the bytes to the front of a scratch, and says how many they are.
    // Kept: the caller lends the scratch and keeps it, so the length comes beside it.
    fn serialize_into(&self, buf: &mut [u8]) -> Result<usize, BytesFault>
        ensures writes { Writes (bytes (value self.now)) buf.old buf.new result }
        ensures fits { OnOk result (Fits (value self.now)) };

    // Reads a value from the front, and leaves the rest.
    fn deserialize(buf: &mut &[u8]) -> Result<Self, BytesFault>
        ensures { Reads value (parse buf.old.now) buf.old.now buf.new.now result };

    ghost back: { ReadsBack bytes parse Fits };

    ghost only: { ReadsOnly bytes parse };
}

// What is made of a whole payload: bytes left over are told before a broken rule.
fn read_whole<S: Serialize + Drop>(payload: &[u8]) -> Result<S, BytesFault>
    ensures { Decodes S.value (whole (S.parse payload.now)) result }
{
    let mut rest = payload;
    match S::deserialize(&mut rest) {
        Ok(_) | Err(BytesFault::Unlawful) if !rest.is_empty() => Err(BytesFault::LeftOver),
        read => read,
    }
}

// The value of a whole payload.
pub fn decode<S: Serialize + Drop>(payload: &[u8]) -> Result<S, BytesFault>
    ensures reads { Decodes S.value (whole (S.parse payload.now)) result }
    ensures back { (v : S.Value) → S.Fits v → payload.now ≡ S.bytes v → Decodes S.value (Ok v) result }
    ensures only { (x : S) → result ≡ Ok x → payload.now ≡ S.bytes (S.value x) }
{
    read_whole(payload)
}
