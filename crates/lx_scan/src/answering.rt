//! A law on the choice of a scanner: it agrees with the answers of the tables.

ghost use Rattle.std.specs.Prelude.{ℕ, Bool, List};
ghost use Rattle.lx_tables.specs.Model.{Table};
ghost use Rattle.lx_scan.specs.Answers.{IsByAnswers, choice_of};

/// States a law: `choice_of` is the choice by answers, for all tables, conditions and texts, at line begin or not.
pub fn choice_is_by_answers()
    ensures { (table : Table) (condition : ℕ) (begin : Bool) (text : List ℕ)
        → IsByAnswers table condition begin text (choice_of table condition begin text) }
{}
