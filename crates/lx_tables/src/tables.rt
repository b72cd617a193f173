//! Tables of a scanner in memory: an automaton over byte classes, kinds, and the actions of rules.

ghost use Rattle.std.specs.Prelude.{◌≡◌, ◌<◌, ◌≤◌, length, IfSome, option_map, slice_index};
ghost use Rattle.std.specs.Option.{ForSome};
ghost use Rattle.lx_rules.specs.views.Rules.{names_view};
ghost use Rattle.lx_automaton.specs.Automata.{state_count, start_of, accepted_by, class_target, target_of};
ghost use Rattle.lx_automaton.specs.EncodedOptions.{decoded_option};
ghost use Rattle.lx_tables.specs.Joined.{IsJoined};
ghost use Rattle.lx_tables.specs.Model.{Table, IsTable, AreByteClasses, rule_at, kind_at};
ghost use Rattle.lx_tables.specs.Views.{rules_view};

use crate::TableRule;
use crate::joined::Joined;
use lx_automaton::{Automaton, State};
use lx_rules::rule::Step;
use std::marker::Model;

/// The tables of a scanner: an automaton over byte classes, the kinds of tokens, and the rules. Each rule has the steps of its action, and a flag
/// that is true if it ends with `$`.
#[derive(Drop)]
pub struct Tables {
    pub(crate) automaton: Automaton,
    /// Names of the kinds.
    pub(crate) kinds: Vec<Vec<u8>>,
    pub(crate) rules: Vec<TableRule>,
    // Table that repeats the others for speed. No contract depends on its presence.
    pub(crate) joined: Option<Joined>,
}

impl Model for Tables {
    ghost Value = { Table };

    ghost view = { λ t.
        record
        { machine = t.automaton; kinds = names_view t.kinds.items; rules = rules_view t.rules.items } };

    ghost invariant = { λ t.
        IsTable (record
        { machine = t.automaton; kinds = names_view t.kinds.items; rules = rules_view t.rules.items })
        × ForSome t.joined (λ j.
        IsJoined (record
        { machine = t.automaton; kinds = names_view t.kinds.items; rules = rules_view t.rules.items })
        j.columns.items j.entries.items j.labels.items) };
}

impl Tables {
    /// Makes tables of these parts.
    pub(crate) fn of_parts(
        automaton: Automaton,
        kinds: Vec<Vec<u8>>,
        rules: Vec<TableRule>,
    ) -> Tables
        requires { IsTable (record
            { machine = automaton; kinds = names_view kinds.items; rules = rules_view rules.items }) }
        ensures parts { result ≡ record
            { machine = automaton; kinds = names_view kinds.items; rules = rules_view rules.items } }
        ensures table { IsTable result }
    {
        Tables {
            automaton,
            kinds,
            rules,
            joined: None,
        }
    }

    /// Returns the automaton.
    pub fn automaton(&self) -> &Automaton
        ensures machine { result.now ≡ self.now.machine }
        ensures table { IsTable self.now }
    {
        &self.automaton
    }

    /// Returns the number of start conditions, 1 to 64.
    pub fn conditions(&self) -> u16
        ensures count { result ≡ length self.now.machine.starts }
        ensures table { IsTable self.now }
    {
        self.automaton.conditions()
    }

    /// Returns the state in which a condition begins, at the start of a line or elsewhere.
    pub fn start(&self, condition: u16, at_line_begin: bool) -> State
        requires { condition < length self.now.machine.starts }
        ensures start { result.0 ≡ start_of self.now.machine condition at_line_begin }
        ensures state { result.0 < state_count self.now.machine }
        ensures table { IsTable self.now }
    {
        self.automaton.start(condition, at_line_begin)
    }

    /// Returns the number of states, 1 to 16,512.
    pub fn states(&self) -> u32
        ensures count { result ≡ state_count self.now.machine }
        ensures table { IsTable self.now }
    {
        self.automaton.states()
    }

    /// Returns the target of a state on a class, encoded: 0 for none, or one more than the target.
    pub(crate) fn encoded_option(&self, state: u32, class: u8) -> u16
        requires state { state < state_count self.now.machine }
        requires class { class < self.now.machine.width }
        ensures { decoded_option result ≡ class_target self.now.machine state class }
    {
        match self.automaton.class_step(State(state), class) {
            Some(target) => target.0 as u16 + 1,
            None => 0,
        }
    }

    /// Returns the target of a state on a class of bytes, or None if the step is missing.
    pub fn class_step(&self, state: State, class: u8) -> Option<State>
        requires state { state.0 < state_count self.now.machine }
        requires class { class < self.now.machine.width }
        ensures target { option_map (λ s. s.0) result
            ≡ class_target self.now.machine state.0 class }
        ensures state { IfSome result (λ s. s.0 < state_count self.now.machine) }
    {
        self.automaton.class_step(state, class)
    }

    /// Returns the target of a state on a byte, or None if the step is missing.
    pub fn step(&self, state: State, byte: u8) -> Option<State>
        requires { state.0 < state_count self.now.machine }
        ensures target { option_map (λ s. s.0) result ≡ target_of self.now.machine state.0 byte }
        ensures state { IfSome result (λ s. s.0 < state_count self.now.machine) }
        ensures table { IsTable self.now }
    {
        self.automaton.step(state, byte)
    }

    /// Returns the rule that a state accepts, or None if it accepts none.
    pub fn accepts(&self, state: State) -> Option<u16>
        requires { state.0 < state_count self.now.machine }
        ensures rule { result ≡ accepted_by self.now.machine state.0 }
        ensures below { IfSome result (λ rule. rule < length self.now.rules) }
    {
        self.automaton.accepts(state)
    }

    /// Returns the number of rules, at most 4,096.
    pub fn rules(&self) -> u16
        ensures count { result ≡ length self.now.rules }
        ensures table { IsTable self.now }
    {
        self.rules.len() as u16
    }

    /// Returns true if a rule ends with `$`. Then the newline after its tokens is cut off.
    pub fn cut(&self, rule: u16) -> bool
        requires { rule < length self.now.rules }
        ensures { result ≡ (rule_at self.now rule).line_end }
    {
        self.rules[rule as usize].line_end
    }

    /// Returns the steps of a rule's action. A return comes last.
    pub fn steps(&self, rule: u16) -> &[Step]
        requires { rule < length self.now.rules }
        ensures { result.now ≡ (rule_at self.now rule).steps }
    {
        self.rules[rule as usize].steps.as_slice()
    }

    /// Returns the number of kinds with names, at most 4,096.
    pub fn kinds(&self) -> u32
        ensures { result ≡ length self.now.kinds }
    {
        self.kinds.len() as u32
    }

    /// Returns the name of a kind, which is an identifier.
    pub fn kind(&self, number: u32) -> &[u8]
        requires { number < length self.now.kinds }
        ensures { result.now ≡ kind_at self.now number }
    {
        &self.kinds[number as usize]
    }

    /// Returns the number of byte classes, 1 to 256. Two bytes are in one class exactly if every state has the same step on both, or none on both.
    /// The classes are numbered from 0 by their least bytes.
    pub fn classes(&self) -> u16
        ensures count { result ≡ self.now.machine.width }
        ensures few { result ≤ 256 }
        ensures classes { AreByteClasses self.now.machine }
        ensures table { IsTable self.now }
    {
        self.automaton.classes()
    }

    /// Returns the class of a byte.
    pub fn class(&self, byte: u8) -> u8
        ensures class { result ≡ slice_index self.now.machine.classes byte }
        ensures below { result < self.now.machine.width }
    {
        self.automaton.class(byte)
    }

    /// Returns the joined table of the same automaton and rules, if there is one.
    pub fn joined_table(&self) -> Option<&Joined>
        ensures joined { IfSome result
            (λ j. IsJoined self.now j.now.columns.items j.now.entries.items j.now.labels.items) }
        ensures table { IsTable self.now }
    {
        self.joined.as_ref()
    }
}
