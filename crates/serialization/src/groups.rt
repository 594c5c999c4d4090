// Numbers below 2^64 as groups of seven bits, lowest first.
ghost use Rattle.std.specs.Prelude.{◌≡◌, ℕ, ◌+◌, ◌^◌, ◌<◌, ◌≤◌, List, [], ◌∷◌, length, IfOk};
ghost use Rattle.serialization.specs.Numbers.{groups, limit, parse_groups};
ghost use Rattle.serialization.specs.Calls.{Takes};
ghost use Rattle.serialization.specs.Writing.{Room, Puts};

use crate::piece::Piece;
use crate::writer::Writer;
use fault::BytesFault;

// Takes a number of at most `more` groups after its first.
pub(crate) fn take_groups(buf: &mut &[u8], more: u32) -> Result<u64, BytesFault>
    requires { more ≤ 9 }
    ensures takes { Takes (λ x. x) (parse_groups more buf.old.now) buf.new.now result }
    ensures below { IfOk result (λ n. n < limit more) }
{
    let byte = u8::take(buf)?;
    let low = byte as u64;
    if more == 0 {
        return if low < 2 {
            Ok(low)
        } else {
            Err(BytesFault::BadNumber)
        };
    }
    if low < 128 {
        return Ok(low);
    }
    let high = take_groups(buf, more - 1)?;
    if high == 0 {
        return Err(BytesFault::BadNumber);
    }
    Ok(low - 128 + 128 * high)
}

// Writes a number that has at most `more` groups after its first.
pub(crate) fn put_groups(n: u64, more: u32, to: &mut Writer)
    requires { (n < limit more) × Room (length (groups more n)) to.old }
    ensures { Puts (groups more n) to.old to.new }
{
    if n < 128 {
        to.push(n as u8);
    } else {
        to.push(128 + (n % 128) as u8);
        put_groups(n / 128, more - 1, to);
    }
}
