ghost use Rattle.fault.specs.Reports.{bytes_report};

use crate::{Layer, Refusal, Report};
use thiserror::Error;

// Why bytes are no value, or a value has no bytes here.
#[derive(Clone, Copy, PartialEq, Eq, Debug, Error)]
pub enum BytesFault {
    // A string has more bytes than its kind may have.
    #[error("refused 4: the string is too long: shorten it")]
    TooLong = 4,
    // The bytes are those of a value that breaks the rules of its kind.
    #[error("refused 5: the bytes break the rules of their kind: put keys or names in rising order and keep prefix_len within hi")]
    Unlawful = 5,
    // The bytes end before the value does.
    #[error("refused 7: the bytes end early: give the whole payload")]
    EndsEarly = 7,
    // A number is not in its shortest form, or not below 2^64.
    #[error("refused 8: a number is not in its shortest form or is too big: write it anew")]
    BadNumber = 8,
    // A tag, a flag, a count or a length is none that its place allows.
    #[error("refused 9: a tag, flag, count or length is outside its values: compare it with the format")]
    OutOfRange = 9,
    // Bytes follow the value.
    #[error("refused 10: bytes are left over: give one payload alone")]
    LeftOver = 10,
    // The scratch has too few bytes for a payload.
    #[error("refused 12: the scratch is too small: lend 1152 bytes or more")]
    ScratchTooSmall = 12,
}

impl Refusal for BytesFault {
    ghost told = { bytes_report };

    fn report(&self) -> Report {
        Report::of_value(*self as u8, Layer::Bytes)
    }
}
