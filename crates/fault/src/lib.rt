// Why a call is refused, as the values' layers say it, and what every refusal tells: its number, the page and the pointer
// that it is about, and the layer that gave it.
#![tactic(auto)]

pub mod bytes_fault;
pub mod disk_pointer;
pub mod node_fault;
pub mod refusal;
pub mod report;
pub mod value_fault;

pub use bytes_fault::BytesFault;
pub use disk_pointer::DiskPtr;
pub use node_fault::NodeFault;
pub use refusal::Refusal;
pub use report::{Layer, Report};
pub use value_fault::ValueFault;

// The number of a page.
pub type PageId = u64;

// A place in the log, in bytes from its start.
pub type LogOffset = u64;

// A position in the log, in order of reserving.
pub type Lsn = i64;

// What names a payload that lies beside the log.
pub type BlobPointer = Lsn;
