ghost use Rattle.std.specs.Prelude.{◌≡◌, true};
ghost use Rattle.bounded.specs.Rows.{rows_of};
ghost use Rattle.node.specs.Nodes.{ordered};
ghost use Rattle.node.specs.Meanings.{roots_of};

use crate::rows::{ROOTS, Root};
use bounded::Table;

// The roots, in rising order of their names.
#[derive(Clone, Copy)]
pub struct Meta {
    pub(crate) roots: Table<Root, ROOTS>,
    ghost ruled: { ordered (roots_of (rows_of roots)) ≡ true },
}
