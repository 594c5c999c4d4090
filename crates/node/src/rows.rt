ghost use Rattle.std.specs.Prelude.{◌≡◌, ◌^◌, ◌<◌, []};
ghost use Rattle.std.specs.Coded.{le_prop, Unit-prop};
ghost use Rattle.bounded.specs.Bytes.{bytes_of};
ghost use Rattle.keyed.specs.Order.{bytes_only};

use bounded::IVec;
use fault::PageId;
use keyed::Keyed;
use std::alloc::AllocError;

// A key, a bound or a name.
pub type Key = IVec<24>;

pub type Value = IVec<40>;

// How many rows a node has at most.
pub const ROWS: usize = 16;

// How many roots there are at most.
pub const ROOTS: usize = 8;

// What a row may lead to, and what holds of every value of its type.
pub trait Held {
    ghost holds: { Self → Type 0 };

    // In one way at most, so that rows of the same key and value are one value.
    ghost once: { (x : Self) → IsProp (holds x) };

    // Does nothing. Code for any type calls it before it makes a row, since it cannot see by itself what holds.
    fn held(&self)
        ensures { holds self.now };
}

impl Held for PageId {
    ghost holds = { λ page. page < 2 ^ 64 };

    ghost once = { λ _. le_prop };

    fn held(&self) {
        let _page = *self;
    }
}

// A string's bounds are in its own type.
impl Held for Value {
    ghost holds = { λ _. Unit {0} };

    ghost once = { λ _. Unit-prop };

    fn held(&self) {}
}

// A key and what it leads to.
#[derive(Copy)]
pub struct Row<V: Held> {
    pub key: Key,
    pub value: V,
    ghost fits: { V.holds value } by { V.once value },
}

// A row of a leaf.
pub type LeafRow = Row<Value>;

// A row of an index: the page where keys from this one on are.
pub type IndexRow = Row<PageId>;

// A name and the page that it stands for.
pub type Root = Row<PageId>;

// Kept: the derives are refused over a ghost field beside a type parameter.
impl<V: Held + Copy> Clone for Row<V> {
    ghost is_clone = { λ t u. t ≡ u };

    ghost is_infallible = { λ _. Unit {0} };

    fn clone(&self) -> Result<Self, AllocError> {
        Ok(*self)
    }
}

impl<V: Held + Default> Default for Row<V> {
    ghost is_default = { λ row. (bytes_of row.key ≡ []) × V.is_default row.value };

    fn default() -> Self {
        let key = Key::default();
        let value = V::default();
        value.held();
        Row { key, value }
    }
}

impl<V: Held> Keyed for Row<V> {
    type Key = Key;

    ghost key_of = { λ row. row.key };

    ghost only_itself = { bytes_only };

    fn key(&self) -> &Key {
        &self.key
    }
}
