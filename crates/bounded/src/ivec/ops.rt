ghost use Rattle.std.specs.Prelude.{◌≡◌, ℕ, ◌<◌, ◌≤◌, min, refl, List, [], length, drop, Decides, MatchResult, ◌==◌};
ghost use Rattle.std.specs.Cmp.{on_equiv, on_total, on_per, partial_order_from_agreeing_total, nat_cmp_total, nat_eq_equiv, unsigned_ties, partial_equiv_from_equiv};
ghost use Rattle.std.specs.Cmp.Lexicographic.{lists_per, lists_equiv, lists_total, lists_ties};
ghost use Rattle.std.specs.Ordering.{nat_cmp, as_partial_cmp};
ghost use Rattle.fault.specs.declared.bytes_fault.BytesFault.TheVariants.{TooLong};
ghost use Rattle.bounded.specs.Bytes.{bytes_of, by_bytes, same_bytes};

use crate::ivec::IVec;
use fault::BytesFault;
use std::cmp::Ordering;

impl<const N: usize> IVec<N> {
    // The string of no bytes.
    pub fn empty() -> IVec<N>
        ensures { bytes_of result ≡ [] }
    {
        IVec {
            bytes: [0; N],
            len: 0,
        }
    }

    // The string of the bytes of s, which are at most N and at most 255.
    pub fn from_slice(s: &[u8]) -> Result<IVec<N>, BytesFault>
        ensures { MatchResult result (λ v. (bytes_of v ≡ s.now) × (length s.now ≤ min N 255)) (λ e. (e ≡ TooLong) × (min N 255 < length s.now)) }
    {
        if s.len() > N.min(255) {
            return Err(BytesFault::TooLong);
        }
        let mut bytes = [0; N];
        bytes[..s.len()].copy_from_slice(s);
        Ok(IVec {
            bytes,
            len: s.len() as u8,
        })
    }

    pub fn len(&self) -> usize
        ensures { (result ≡ length (bytes_of self.now)) × ((result ≤ N) × (result ≤ 255)) }
    {
        self.len as usize
    }

    pub fn is_empty(&self) -> bool
        ensures { result ≡ (length (bytes_of self.now) == 0) }
    {
        self.len == 0
    }

    pub fn as_slice(&self) -> &[u8]
        ensures { result.now ≡ bytes_of self.now }
    {
        &self.bytes[..self.len as usize]
    }

    // The string without its first n bytes.
    pub fn skip(&self, n: usize) -> IVec<N>
        ensures { bytes_of result ≡ drop n (bytes_of self.now) }
    {
        let start = n.min(self.len());
        IVec::from_slice(&self.as_slice()[start..]).unwrap()
    }
}

// Kept: an array of any size has no Default that a derive could call.
impl<const N: usize> Default for IVec<N> {
    ghost is_default = { λ v. bytes_of v ≡ [] };

    fn default() -> Self {
        IVec::empty()
    }
}

// Kept: tried, and the laws of a derived order do not close: it would compare the array and then the length, and the order of strings is that of their bytes.
impl<const N: usize> PartialEq for IVec<N> {
    ghost eq = { same_bytes };

    ghost laws = { on_per bytes_of (lists_per (partial_equiv_from_equiv nat_eq_equiv)) };

    fn eq(&self, other: &Self) -> bool
        ensures eq { result ≡ same_bytes self.now other.now }
        ensures value { Decides result (self.now ≡ other.now) }
    {
        self.as_slice() == other.as_slice()
    }
}

impl<const N: usize> Eq for IVec<N> {
    ghost laws = { on_equiv bytes_of (lists_equiv nat_eq_equiv) };
}

impl<const N: usize> PartialOrd for IVec<N> {
    ghost partial_cmp = { as_partial_cmp by_bytes };

    ghost laws = { partial_order_from_agreeing_total by_bytes (on_total bytes_of (lists_total nat_cmp_total)) (λ v w. refl) (λ v w. lists_ties nat_cmp unsigned_ties (bytes_of v) (bytes_of w)) };

    fn partial_cmp(&self, other: &Self) -> Option<Ordering> {
        Some(self.cmp(other))
    }
}

// The order of the bytes, first to last: a string comes before what it begins.
impl<const N: usize> Ord for IVec<N> {
    ghost cmp = { by_bytes };

    ghost total = { on_total bytes_of (lists_total nat_cmp_total) };

    ghost matches_partial_cmp = { λ v w. refl };

    ghost matches_eq = { λ v w. lists_ties nat_cmp unsigned_ties (bytes_of v) (bytes_of w) };

    fn cmp(&self, other: &Self) -> Ordering {
        self.as_slice().cmp(&other.as_slice())
    }
}
