ghost use Rattle.std.specs.Prelude.{◌≡◌};
ghost use Rattle.logs.specs.Faults.{log_report};
ghost use Rattle.logs.specs.declared.log_fault.LogFault.TheVariants.{Bytes};

use fault::{BytesFault, DiskPtr, Layer, PageId, Refusal, Report};
use thiserror::Error;

// Why a log refuses.
#[derive(Clone, Copy, PartialEq, Eq, Debug, Error)]
pub enum LogFault {
    // What the bytes lent to it are refused for, held whole.
    #[error(transparent)]
    Bytes(BytesFault),
    // The payload does not fit, for this page.
    #[error("refused 29: no room in the log for page {0}: free pages or clean, or make a larger log")]
    Full(PageId),
    // A reservation is pending, so there is none for this page.
    #[error("refused 30: a reservation is pending, so none for page {0}: complete or abort it first")]
    Pending(PageId),
    // The reservation is of another log, or no such message is pending.
    #[error("refused 31: the reservation is not pending in this log: hand it to its own log")]
    NotPending(DiskPtr),
    // No live message is there.
    #[error("refused 32: no live message of page {0} there: replace or free the page")]
    NoMessage(PageId, DiskPtr),
    // The live message there is another page's.
    #[error("refused 33: the message there is not of page {0}: replace or free the page")]
    OtherPage(PageId, DiskPtr),
}

impl Refusal for LogFault {
    ghost told = { log_report };

    fn report(&self) -> Report {
        let (number, page, pointer) = match *self {
            LogFault::Bytes(fault) => return fault.report(),
            LogFault::Full(page) => (29, Some(page), None),
            LogFault::Pending(page) => (30, Some(page), None),
            LogFault::NotPending(pointer) => (31, None, Some(pointer)),
            LogFault::NoMessage(page, pointer) => (32, Some(page), Some(pointer)),
            LogFault::OtherPage(page, pointer) => (33, Some(page), Some(pointer)),
        };
        Report {
            number,
            page,
            pointer,
            layer: Layer::Log,
        }
    }
}

// Kept: the derive's `#[from]` does not say which variant it makes, and this promises it.
impl From<BytesFault> for LogFault {
    ghost from_gives = { λ fault r. r ≡ Bytes fault };

    fn from(fault: BytesFault) -> LogFault {
        LogFault::Bytes(fault)
    }
}
