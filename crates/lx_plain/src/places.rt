//! Sets of positions in a text.

ghost use Rattle.std.specs.Prelude.{◌≡◌, ℕ, ◌+◌, false, ◌∷◌, [], ◌||◌, ◌&&◌, not, IsTrue, IfOk, OnOk};
ghost use Rattle.std.specs.FinSet as set;
ghost use Rattle.std.specs.Ordering.{nat_cmp};
ghost use Rattle.std.specs.BTreeSet.{contains, btree_set_len, IsOrdered};
ghost use Rattle.lx_ere.specs.Regex.{one_of};
ghost use Rattle.lx_ere.specs.Matching.{Matches, no_names};
ghost use Rattle.lx_plain.specs.Places.{AreBehind, is_byte_at};

use lx_ere::set::ByteSet;
use std::alloc::{AllocError, Global};
use std::collections::BTreeSet;

/// Returns the positions after one byte of the set, from each of the starts.
pub(crate) fn positions_after_byte(
    alloc: Global,
    set: &ByteSet,
    text: &[u8],
    starts: &BTreeSet<usize>,
) -> Result<BTreeSet<usize>, AllocError>
    ensures { IfOk result (AreBehind set.now text.now starts.now) }
{
    let mut ends = BTreeSet::new(alloc);
    for start in starts {
        if has_byte_at(set, text, *start) {
            ends.insert(*start + 1)?;
        }
    }
    Ok(ends)
}

// Returns true if a byte of the set is at the position.
fn has_byte_at(set: &ByteSet, text: &[u8], place: usize) -> bool
    ensures { result ≡ is_byte_at set.now text.now place }
{
    match text.get(place) {
        Some(byte) => set.has(*byte),
        None => false,
    }
}

/// Adds further positions. Returns those that are new.
pub(crate) fn add_new(
    alloc: Global,
    places: &mut BTreeSet<usize>,
    further: &BTreeSet<usize>,
) -> Result<BTreeSet<usize>, AllocError>
    ensures all { OnOk result ((j : ℕ) → contains nat_cmp places.new j
        ≡ (contains nat_cmp places.old j || contains nat_cmp further.now j)) }
    ensures ordered { OnOk result (IsOrdered nat_cmp places.new) }
    ensures count { IfOk result
        (λ fresh. btree_set_len places.new ≡ btree_set_len places.old + btree_set_len fresh) }
    ensures new { IfOk result (λ fresh.
        (j : ℕ) → contains nat_cmp fresh j
        ≡ (contains nat_cmp further.now j && not (contains nat_cmp places.old j))) }
{
    let mut fresh = BTreeSet::new(alloc);
    // the positions are in order
    let _len = places.len();
    for place in further {
        if places.insert(*place)? {
            fresh.insert(*place)?;
        }
    }
    Ok(fresh)
}

/// Returns a copy of the positions.
pub(crate) fn copy_of(places: &BTreeSet<usize>) -> Result<BTreeSet<usize>, AllocError>
    ensures same { IfOk result
        (λ copy. (j : ℕ) → contains nat_cmp copy j ≡ contains nat_cmp places.now j) }
    ensures ordered { IfOk result (λ copy. IsOrdered nat_cmp copy) }
{
    let copy = places.clone()?;
    // the copy is in order
    let _len = copy.len();
    Ok(copy)
}
