ghost use Rattle.std.specs.Prelude.{◌≡◌};
ghost use Rattle.fault.specs.Reports.{value_report};
ghost use Rattle.fault.specs.declared.value_fault.ValueFault.TheVariants.{Bytes, Node};

use crate::{BytesFault, NodeFault, Refusal, Report};
use thiserror::Error;

// Why a payload could not be read, or what was read could not be applied: the fault below, held whole.
#[derive(Clone, Copy, PartialEq, Eq, Debug, Error)]
pub enum ValueFault {
    #[error(transparent)]
    Bytes(BytesFault),
    #[error(transparent)]
    Node(NodeFault),
}

impl Refusal for ValueFault {
    ghost told = { value_report };

    fn report(&self) -> Report {
        match self {
            ValueFault::Bytes(fault) => fault.report(),
            ValueFault::Node(fault) => fault.report(),
        }
    }
}

// Kept: the derive's `#[from]` does not say which variant it makes, and this promises it.
impl From<BytesFault> for ValueFault {
    ghost from_gives = { λ fault r. r ≡ Bytes fault };

    fn from(fault: BytesFault) -> ValueFault {
        ValueFault::Bytes(fault)
    }
}

// Kept: as the one above.
impl From<NodeFault> for ValueFault {
    ghost from_gives = { λ fault r. r ≡ Node fault };

    fn from(fault: NodeFault) -> ValueFault {
        ValueFault::Node(fault)
    }
}
