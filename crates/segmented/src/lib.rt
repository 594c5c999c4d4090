// A log in segments of 4,096 bytes, with payloads above 512 bytes in blob slots behind them. A message that does not fit in
// the active segment opens a free one: a closed segment in which no message lives. A blob slot to which no live message
// points is free again.
#![tactic(auto)]

pub mod scans;
pub mod segmented;
pub mod segmenting;

pub use segmented::Segmented;
