//! Lists of rules, and automata that accept the numbers of such lists.

ghost use Rattle.std.specs.Prelude.{◌≡◌, ◌<◌, ◌++◌, [], ◌∷◌, ℕ, Bool, List, All, OnOk, OnErr, length, slice_index_or};
ghost use Rattle.lx_rules.specs.Plain.{PlainSpec};
ghost use Rattle.lx_automaton.specs.Automata.{Machine, answer};
ghost use Rattle.lx_automaton.specs.Meaning.{IsAnswer};
ghost use Rattle.lx_automaton.specs.Lists.{AreEnds, IsListAutomatonOf, begin_of, first_rule, lists_from};

use crate::automaton::Automaton;
use std::alloc::{AllocError, Global};
use std::marker::Model;

/// Lists of rules, numbered from 0.
#[derive(Drop)]
pub struct RuleLists {
    /// The rules of all lists, one list after the other.
    rules: Vec<u16>,
    /// For each list, the number of rules up to its end.
    ends: Vec<usize>,
}

impl Model for RuleLists {
    ghost Value = { List (List ℕ) };

    ghost view = { λ l. lists_from l.rules.items 0 l.ends.items };

    ghost invariant = { λ l. AreEnds 0 l.ends.items (length l.rules.items) };
}

/// An automaton that accepts numbers of lists of rules, and these lists.
#[derive(Drop)]
pub struct ListAutomaton {
    /// Automaton whose `accepts` gives the number of a list.
    pub automaton: Automaton,
    pub lists: RuleLists,
}

// Returns the number of rules before the list with this number.
fn begin(ends: &[usize], number: usize) -> usize
    requires { number < length ends.now }
    ensures { result ≡ begin_of 0 ends.now number }
{
    if number == 0 { 0 } else { ends[number - 1] }
}

// Returns the rules of the list with this number.
fn list_at<'a>(rules: &'a [u16], ends: &[usize], number: usize) -> &'a [u16]
    requires ends { AreEnds 0 ends.now (length rules.now) }
    requires number { number < length ends.now }
    ensures { result.now ≡ slice_index_or (lists_from rules.now 0 ends.now) number [] }
{
    let from = begin(ends, number);
    let end = ends[number];
    &rules[from..end]
}

impl RuleLists {
    /// Makes an empty list of lists.
    pub fn new(alloc: Global) -> RuleLists
        ensures { result ≡ [] }
    {
        RuleLists {
            rules: Vec::new(alloc),
            ends: Vec::new(alloc),
        }
    }

    /// Returns the number of lists.
    pub fn count(&self) -> usize
        ensures { result ≡ length self.now }
    {
        self.ends.len()
    }

    /// Returns the rules of the list with this number.
    pub fn list(&self, number: usize) -> &[u16]
        requires { number < length self.now }
        ensures { result.now ≡ slice_index_or self.now number [] }
    {
        list_at(&self.rules, &self.ends, number)
    }

    /// Appends a list. If memory is exhausted, nothing changes.
    pub fn push(&mut self, list: &[u16]) -> Result<(), AllocError>
        ensures pushed { OnOk result (self.new ≡ self.old ++ list.now ∷ []) }
        ensures unchanged { OnErr result (self.new ≡ self.old) }
    {
        let begin = self.rules.len();
        self.rules.extend_from_slice(list)?;
        let end = self.rules.len();
        let Ok(()) = self.ends.push(end) else {
            self.rules.truncate(begin);
            return Err(AllocError);
        };
        Ok(())
    }
}

/// States a law: the first rule of a list automaton's list is the earliest rule that matches. So its answer is that of an automaton of the same
/// specification.
pub fn first_rules_are_answers()
    ensures { (spec : PlainSpec) (m : Machine) (lists : List (List ℕ)) (condition : ℕ)
        (begin : Bool) (text : List ℕ) → IsListAutomatonOf spec m lists
        → condition < length spec.conditions → All (λ b. b < 256) text
        → IsAnswer spec condition begin text (first_rule lists (answer m condition begin text)) }
{}
