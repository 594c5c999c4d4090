ghost use Rattle.std.specs.Prelude.{◌≡◌, Bool, true, false};
ghost use Rattle.bounded.specs.Rows.{rows_of};
ghost use Rattle.keyed.specs.Rows.{probe, between, rising, Put, Removed};

use crate::rows::Keyed;
use crate::seek::seek;
use bounded::Table;

// There is no room for a row with a new key.
#[derive(Clone, Copy, PartialEq, Eq, Debug)]
pub struct TableFull;

// Kept: that the rows rise is a premise inside these contracts, since any rows may stand in the table that a caller brings.

// Puts the row in the place of the one that has its key, and answers that one; or else where its key belongs, if there is room.
pub fn set_row<R: Keyed + Copy, const N: usize>(
    table: &mut Table<R, N>,
    row: R,
) -> Result<Option<R>, TableFull>
    ensures { rising (between R.Key.cmp R.key_of) (rows_of table.old) ≡ true → Put (between R.Key.cmp R.key_of) row N (rows_of table.old) (rows_of table.new) result }
{
    match seek(table.as_slice(), row.key()) {
        Ok(i) => Ok(table.replace(i, row)),
        Err(i) => {
            table.insert(i, row).map_err(|_| TableFull)?;
            Ok(None)
        }
    }
}

// Takes the row away that has the key, and answers it.
pub fn remove_row<R: Keyed + Copy, const N: usize>(
    table: &mut Table<R, N>,
    key: &R::Key,
) -> Option<R>
    ensures { rising (between R.Key.cmp R.key_of) (rows_of table.old) ≡ true → Removed (between R.Key.cmp R.key_of) (probe R.Key.cmp R.key_of key.now) (rows_of table.old) (rows_of table.new) result }
{
    let Ok(i) = seek(table.as_slice(), key) else {
        return None;
    };
    table.remove(i)
}
