// What a log means, and what every log promises: messages in order of reserving, each pending, live, dead or cancelled.
// A reservation cannot be lost: it has to be handed to complete or abort. The laws of what is live after each call are
// proved once, for every log.
#![tactic(auto)]

pub mod log;
pub mod log_fault;
pub mod messages;
pub mod reservation;

pub use log::Log;
pub use log_fault::LogFault;
pub use messages::{
    CacheInfo, Event, HEADER_LEN, Kind, MAX_PAYLOAD, POSITION_END, Position, Status,
};
pub use reservation::{Reservation, Returned};
