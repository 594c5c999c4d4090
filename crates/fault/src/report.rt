ghost use Rattle.std.specs.Prelude.{◌≡◌, None};

use crate::{DiskPtr, PageId};
use std::fmt;

// The part of the library that refused.
#[derive(Clone, Copy, PartialEq, Eq, Debug)]
pub enum Layer {
    Bytes,
    Node,
    Log,
    Cache,
}

// What a refusal tells.
#[derive(Clone, Copy, PartialEq, Eq, Debug)]
pub struct Report {
    pub number: u8,
    pub page: Option<PageId>,
    pub pointer: Option<DiskPtr>,
    pub layer: Layer,
}

impl Report {
    // No page and no pointer: whoever holds the value knows where it came from.
    pub(crate) fn of_value(number: u8, layer: Layer) -> Report
        ensures { result ≡ record { number = number; page = None; pointer = None; layer = layer } }
    {
        Report {
            number,
            page: None,
            pointer: None,
            layer,
        }
    }
}

impl fmt::Display for Layer {
    fn fmt<W: fmt::Write>(&self, f: &mut fmt::Formatter<W>) -> fmt::Result {
        f.write_str(match self {
            Layer::Bytes => "bytes",
            Layer::Node => "node",
            Layer::Log => "log",
            Layer::Cache => "cache",
        })
    }
}
