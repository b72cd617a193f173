//! Sets of bytes.

ghost use Rattle.std.specs.Prelude.{◌≡◌, ℕ, Bool, false, ◌||◌, not, ⊤};
ghost use Rattle.std.specs.FinSet as set;

use std::alloc::AllocError;
use std::marker::Model;

/// A set of bytes, with a bit for each byte: byte `b` is bit `b % 64` of word `b / 64`.
#[derive(Debug, Drop)]
pub struct ByteSet {
    words: [u64; 4],
}

impl Model for ByteSet {
    ghost use Rattle.std.specs.Ordering.{nat_cmp};
    ghost use Rattle.std.specs.FinSet as set;
    ghost use Rattle.std.specs.Coded.{coded_ℕ};
    ghost use Rattle.lx_ere.specs.Bytes.{bytes_where, has_bit};

    ghost Value = { set.FinSet nat_cmp };

    ghost coded = { set.code coded_ℕ };

    ghost view = { λ s. bytes_where (has_bit s.words) };
}

impl PartialEq for ByteSet {
    ghost use Rattle.std.specs.Prelude.{◌↔◌, IsTrue};
    ghost use Rattle.std.specs.Cmp.{partial_equiv_from_equiv};
    ghost use Rattle.lx_ere.specs.Equality.{same_sets};
    ghost use Rattle.lx_ere.specs.EqualityLaws.{sets_equivalence};

    ghost eq = { same_sets };

    ghost laws = { partial_equiv_from_equiv sets_equivalence };

    /// Returns true if the two have the same bytes.
    fn eq(&self, other: &ByteSet) -> bool
        ensures value { result ≡ same_sets self.now other.now }
        ensures same { IsTrue result ↔ (self.now ≡ other.now) }
    {
        let words = self.words.as_slice();
        let others = other.words.as_slice();
        words == others
    }
}

impl Eq for ByteSet {
    ghost use Rattle.lx_ere.specs.EqualityLaws.{sets_equivalence};

    ghost laws = { sets_equivalence };
}

impl Clone for ByteSet {
    ghost is_clone = { λ s copy. copy ≡ s };

    ghost is_infallible = { λ _. ⊤ };

    fn clone(&self) -> Result<ByteSet, AllocError> {
        Ok(self.duplicate())
    }
}

impl ByteSet {
    ghost use Rattle.lx_ere.specs.Bytes.{bytes_where, byte_set, is_between, in_ranges};

    /// Returns the empty set.
    pub fn empty() -> ByteSet
        ensures { result ≡ bytes_where (λ _. false) }
    {
        ByteSet { words: [0; 4] }
    }

    /// Returns the set of one byte.
    pub fn of(byte: u8) -> ByteSet
        ensures { result ≡ byte_set byte }
    {
        let mut set = ByteSet::empty();
        set.insert(byte);
        set
    }

    /// Returns the set of all bytes except one.
    pub fn all_but(byte: u8) -> ByteSet
        ensures { result ≡ bytes_where (λ b. not (is_between byte byte b)) }
    {
        ByteSet::of(byte).complement()
    }

    /// Returns true if the byte is in the set.
    pub fn has(&self, byte: u8) -> bool
        ensures { result ≡ set.contains self.now byte }
    {
        (self.words[byte as usize / 64] >> (byte % 64)) & 1 == 1
    }

    /// Adds a byte.
    pub fn insert(&mut self, byte: u8)
        ensures { (test : ℕ → Bool) → self.old ≡ bytes_where test
            → self.new ≡ bytes_where (λ b. is_between byte byte b || test b) }
    {
        let place = byte as usize / 64;
        self.words[place] |= 1 << (byte % 64);
    }

    /// Adds the bytes from the first to the last.
    pub fn insert_range(&mut self, first: u8, last: u8)
        ensures { (test : ℕ → Bool) → self.old ≡ bytes_where test
            → self.new ≡ bytes_where (λ b. is_between first last b || test b) }
    {
        for byte in first..=last {
            self.insert(byte);
        }
    }

    /// Adds the bytes of the ranges, each from its first byte to its last.
    pub fn insert_ranges(&mut self, ranges: &[(u8, u8)])
        ensures { (test : ℕ → Bool) → self.old ≡ bytes_where test
            → self.new ≡ bytes_where (λ b. in_ranges ranges.now b || test b) }
    {
        for range in ranges {
            self.insert_range(range.0, range.1);
        }
    }

    // Returns the same set. Its value is known by its bytes.
    fn duplicate(&self) -> ByteSet
        ensures same { result ≡ self.now }
        ensures listed { result ≡ bytes_where (λ b. set.contains self.now b) }
    {
        ByteSet { words: self.words }
    }

    /// Returns the bytes of both sets.
    pub fn union(&self, other: &ByteSet) -> ByteSet
        ensures { result
            ≡ bytes_where (λ b. set.contains other.now b || set.contains self.now b) }
    {
        let mut union = self.duplicate();
        for byte in 0..=255 {
            if other.has(byte) {
                union.insert(byte);
            }
        }
        union
    }

    /// Returns the bytes that aren't in the set.
    pub fn complement(&self) -> ByteSet
        ensures others { result ≡ bytes_where (λ b. not (set.contains self.now b)) }
        ensures tested { (test : ℕ → Bool) → self.now ≡ bytes_where test
            → result ≡ bytes_where (λ b. not (test b)) }
    {
        let first = self.words[0];
        let second = self.words[1];
        let third = self.words[2];
        let fourth = self.words[3];
        ByteSet {
            words: [!first, !second, !third, !fourth],
        }
    }
}
