ghost use Rattle.std.specs.Prelude.{◌≡◌, ◌≤◌, [], length};
ghost use Rattle.bounded.specs.Rows.{rows_of, Pushed, Inserted, Removed, Replaced};

use crate::table::Table;

impl<T: Copy, const N: usize> Table<T, N> {
    // A table of no rows, with `fill` in its spare room.
    pub fn new(fill: T) -> Self
        ensures { rows_of result ≡ [] }
    {
        Table {
            rows: [fill; N],
            len: 0,
        }
    }

    pub fn len(&self) -> usize
        ensures { (result ≡ length (rows_of self.now)) × (result ≤ N) }
    {
        self.len
    }

    pub fn as_slice(&self) -> &[T]
        ensures { result.now ≡ rows_of self.now }
    {
        &self.rows[..self.len]
    }

    // Adds a row at the end, or hands it back where there is no room.
    pub fn push(&mut self, x: T) -> Result<(), T>
        ensures { Pushed N x (rows_of self.old) (rows_of self.new) result }
    {
        if self.len >= N {
            return Err(x);
        }
        self.rows[self.len] = x;
        self.len += 1;
        Ok(())
    }

    // Puts a row at the place i, or hands it back where there is no room or no such place.
    pub fn insert(&mut self, i: usize, x: T) -> Result<(), T>
        ensures { Inserted N i x (rows_of self.old) (rows_of self.new) result }
    {
        if self.len >= N || i > self.len {
            return Err(x);
        }
        self.rows.copy_within(i..self.len, i + 1);
        self.rows[i] = x;
        self.len += 1;
        Ok(())
    }

    // Takes away the row at the place i, if there is one.
    pub fn remove(&mut self, i: usize) -> Option<T>
        ensures { Removed i (rows_of self.old) (rows_of self.new) result }
    {
        if i >= self.len {
            return None;
        }
        let row = self.rows[i];
        self.rows.copy_within(i + 1..self.len, i);
        self.len -= 1;
        Some(row)
    }

    // Writes over the row at the place i, if there is one.
    pub fn replace(&mut self, i: usize, x: T) -> Option<T>
        ensures { Replaced i x (rows_of self.old) (rows_of self.new) result }
    {
        if i >= self.len {
            return None;
        }
        let former = self.rows[i];
        self.rows[i] = x;
        Some(former)
    }
}
