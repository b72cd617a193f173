//! Deterministic automata (Rabin and Scott 1959), kept as rows of states over classes of bytes.

ghost use Rattle.std.specs.Prelude.{◌≡◌, ◌<◌, length, map, slice_index, IfSome, option_map};
ghost use Rattle.lx_automaton.specs.Automata.{Machine, IsMachine, HasByteClasses, state_count, start_of, accepted_by, class_target, target_of};
ghost use Rattle.lx_automaton.specs.EncodedOptions.{decoded_option, machine_of};

use std::marker::Model;

/// The number of a state. It is a state of an automaton if it is below the automaton's `states()`.
#[derive(Clone, Copy, Debug, PartialEq, Eq)]
pub struct State(pub u32);

/// A deterministic automaton over bytes. Two bytes are in one class exactly if every state has equal steps on both. The classes are numbered by their
/// least bytes.
#[derive(Drop)]
pub struct Automaton {
    /// For each start condition, the state without line begin and the state at line begin.
    starts: Vec<(u32, u32)>,
    /// Class of each of the 256 bytes.
    classes: Vec<u8>,
    /// Number of classes.
    width: usize,
    /// For each state, 0 or one more than the rule that it accepts.
    accepted: Vec<u16>,
    /// Row by row, 0 or one more than the target. The target of state s on class c is at s * width + c.
    targets: Vec<u16>,
}

impl Model for Automaton {
    ghost Value = { Machine };

    ghost view = { λ a.
        machine_of a.starts.items a.classes.items a.width a.accepted.items a.targets.items };

    ghost invariant = { λ a.
        IsMachine
        (machine_of a.starts.items a.classes.items a.width a.accepted.items a.targets.items)
        × HasByteClasses (machine_of a.starts.items a.classes.items a.width a.accepted.items
        a.targets.items) };
}

impl Automaton {
    /// Makes an automaton of these lists: for each condition the two states in which it begins, the class of each byte, and the number of classes.
    /// The accepted rules of the states, and their targets row by row, are encoded as 0 for none or one more than a number.
    pub fn of(
        starts: Vec<(u32, u32)>,
        classes: Vec<u8>,
        width: usize,
        accepted: Vec<u16>,
        targets: Vec<u16>,
    ) -> Automaton
        requires machine { IsMachine
            (machine_of starts.items classes.items width accepted.items targets.items) }
        requires classes { HasByteClasses
            (machine_of starts.items classes.items width accepted.items targets.items) }
        ensures { result
            ≡ machine_of starts.items classes.items width accepted.items targets.items }
    {
        Automaton {
            starts,
            classes,
            width,
            accepted,
            targets,
        }
    }

    /// Returns the number of start conditions, 1 to 64.
    pub fn conditions(&self) -> u16
        ensures count { result ≡ length self.now.starts }
        ensures machine { IsMachine self.now }
        ensures classes { HasByteClasses self.now }
    {
        self.starts.len() as u16
    }

    /// Returns the number of states, at most 16,512.
    pub fn states(&self) -> u32
        ensures count { result ≡ state_count self.now }
        ensures machine { IsMachine self.now }
    {
        self.accepted.len() as u32
    }

    /// Returns the state in which a condition begins, at the start of a line or elsewhere.
    pub fn start(&self, condition: u16, at_line_begin: bool) -> State
        requires { condition < length self.now.starts }
        ensures start { result.0 ≡ start_of self.now condition at_line_begin }
        ensures state { result.0 < state_count self.now }
    {
        let (elsewhere, at_begin) = self.starts[condition as usize];
        if at_line_begin {
            State(at_begin)
        } else {
            State(elsewhere)
        }
    }

    /// Returns the number of byte classes, 1 to 256.
    pub fn classes(&self) -> u16
        ensures count { result ≡ self.now.width }
        ensures machine { IsMachine self.now }
        ensures classes { HasByteClasses self.now }
    {
        self.width as u16
    }

    /// Returns the class of a byte.
    pub fn class(&self, byte: u8) -> u8
        ensures class { result ≡ slice_index self.now.classes byte }
        ensures below { result < self.now.width }
        ensures bytes { length self.now.classes ≡ 256 }
    {
        self.classes[byte as usize]
    }

    /// Returns the target of a state on a class of bytes, or None if the step is missing.
    pub fn class_step(&self, state: State, class: u8) -> Option<State>
        requires state { state.0 < state_count self.now }
        requires class { class < self.now.width }
        ensures target { option_map (λ s. s.0) result ≡ class_target self.now state.0 class }
        ensures state { IfSome result (λ s. s.0 < state_count self.now) }
    {
        let encoded = self.targets[state.0 as usize * self.width + class as usize];
        if encoded == 0 {
            None
        } else {
            Some(State(encoded as u32 - 1))
        }
    }

    /// Returns the target of a state on a byte, or None if the step is missing.
    pub fn step(&self, state: State, byte: u8) -> Option<State>
        requires { state.0 < state_count self.now }
        ensures target { option_map (λ s. s.0) result ≡ target_of self.now state.0 byte }
        ensures state { IfSome result (λ s. s.0 < state_count self.now) }
    {
        self.class_step(state, self.class(byte))
    }

    /// Returns the rule that a state accepts, or None if it accepts none.
    pub fn accepts(&self, state: State) -> Option<u16>
        requires { state.0 < state_count self.now }
        ensures { result ≡ accepted_by self.now state.0 }
    {
        let encoded = self.accepted[state.0 as usize];
        if encoded == 0 {
            None
        } else {
            Some(encoded - 1)
        }
    }

    /// Returns for each start condition the state without line begin and the state at line begin.
    pub fn starts(&self) -> &[(u32, u32)]
        ensures { result.now ≡ self.now.starts }
    {
        &self.starts
    }

    /// Returns the class of each of the 256 bytes.
    pub fn byte_classes(&self) -> &[u8]
        ensures { result.now ≡ self.now.classes }
    {
        &self.classes
    }

    /// Returns for each state 0 or one more than the rule that it accepts.
    pub fn encoded_rules(&self) -> &[u16]
        ensures { map decoded_option result.now ≡ self.now.accepted }
    {
        &self.accepted
    }

    /// Returns row by row 0 or one more than the target. The target of state s on class c is at s * classes + c.
    pub fn encoded_targets(&self) -> &[u16]
        ensures { map decoded_option result.now ≡ self.now.targets }
    {
        &self.targets
    }
}
