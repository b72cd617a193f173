//! The texts that the positions of a specification spell.

ghost use Rattle.std.specs.Prelude.{◌≡◌, ◌≢◌, ◌↔◌, ℕ, List, [], Some, slice_get};
ghost use Rattle.lx_ere.specs.Matching.{Matches};
ghost use Rattle.lx_rules.specs.Choice.{SpecNames};
ghost use Rattle.lx_rules.specs.Invariant.{IsWellFormed};
ghost use Rattle.lx_rules.specs.Plain.{PlainSpec};
ghost use Rattle.lx_auto.specs.PositionSets.{NumberedRule, rules_of};
ghost use Rattle.lx_auto.specs.Spelling.{IsSpelled};

/// States a law: paths through the positions of a rule spell exactly the non-empty texts of its pattern (Glushkov 1961). The limits are counted by
/// these paths, and automata are built by them.
pub fn positions_spell_patterns()
    ensures { (spec : PlainSpec) (i : ℕ) (rule : NumberedRule) (text : List ℕ) → IsWellFormed spec → slice_get (rules_of spec) i ≡ Some rule → text ≢ [] →
        Matches (SpecNames spec) rule.rule.reading.tree text ↔ IsSpelled rule text }
{}
