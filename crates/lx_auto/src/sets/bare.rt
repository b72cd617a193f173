//! Ranges of positions between two members of a set.

ghost use Rattle.std.specs.Prelude.{◌≡◌, ◌<◌, ◌≤◌, ◌⊎◌, ℕ, Contains, true, length, slice_index};
ghost use Rattle.lx_auto.specs.SetSteps.{IsRising};
ghost use Rattle.lx_auto.specs.BarePositions.{IsBareIn};

/// A range of positions without members of a set, from `from` up to `until`. `passed` is the number of members before its first position.
#[derive(Clone, Copy)]
pub(crate) struct Bare {
    pub(crate) from: usize,
    pub(crate) until: usize,
    pub(crate) passed: usize,
}

/// The empty range.
pub(crate) const NOWHERE: Bare = Bare {
    from: 0,
    until: 0,
    passed: 0,
};

// A position after all members.
const BEHIND_ALL: usize = 65_536;

/// Returns true if each member is greater than the previous one.
pub(crate) fn is_rising(set: &[u16]) -> bool
    ensures { result ≡ true → IsRising set.now }
{
    let mut i = 1;
    'members: while i < set.len() {
        if set[i] <= set[i - 1] {
            return false;
        }
        i += 1;
    }
    true
}

// Returns the number of members before a position. The first `passed` members are known to be before it.
fn members_before(set: &[u16], passed: usize, position: usize) -> usize
    requires within { passed ≤ length set.now }
    ensures within { result ≤ length set.now }
    ensures before { (j : ℕ) → passed ≤ j → j < result → slice_index set.now j < position }
    ensures behind { result < length set.now → position ≤ slice_index set.now result }
{
    let mut before = passed;
    'members: while before < set.len() && (set[before] as usize) < position {
        before += 1;
    }
    before
}

// Returns the member with this number, or a position after all members.
fn member_at(set: &[u16], before: usize) -> usize
    ensures { before < length set.now → result ≡ slice_index set.now before }
{
    match set.get(before) {
        Some(member) => *member as usize,
        None => BEHIND_ALL,
    }
}

// Returns a number of members that are known to be before a position.
fn passed_by(bare: Bare, position: usize) -> usize
    ensures known { result ≡ bare.passed ⊎ result ≡ 0 }
    ensures before { result ≡ bare.passed → result ≡ 0 ⊎ bare.from ≤ position }
{
    if bare.from <= position {
        bare.passed
    } else {
        0
    }
}

// Returns the range from this position up to the next member.
fn bare_from(set: &[u16], bare: Bare, position: usize) -> Bare
    requires rising { IsRising set.now }
    requires bare { IsBareIn set.now bare }
    ensures bare { IsBareIn set.now result }
    ensures from { result.from ≡ position }
{
    let passed = members_before(set, passed_by(bare, position), position);
    let until = member_at(set, passed);
    Bare {
        from: position,
        until,
        passed,
    }
}

/// Returns the range if this position is in it, otherwise the range from this position on. So each member is visited once. The result is empty if the
/// members aren't known to be in ascending order.
pub(crate) fn bare_at(set: &[u16], rising: bool, bare: Bare, position: usize) -> Bare
    requires rising { rising ≡ true → IsRising set.now }
    requires bare { IsBareIn set.now bare }
    ensures bare { IsBareIn set.now result }
    ensures from { result.from ≤ position }
    ensures absent { (q : ℕ) → result.from ≤ q → q < result.until → Contains set.now q → ⊥ }
{
    if !rising {
        return NOWHERE;
    }
    if bare.from <= position && position < bare.until {
        return bare;
    }
    bare_from(set, bare, position)
}
