//! Automata with provisional byte classes, of which `with_byte_classes` makes automata.

ghost use Rattle.std.specs.Prelude.{◌≡◌, ◌<◌, ◌≤◌, slice_index};
ghost use Rattle.lx_automaton.specs.Automata.{Machine, IsMachine, state_count, class_target};
ghost use Rattle.lx_automaton.specs.EncodedOptions.{machine_of, decoded_option};

use std::marker::Model;

/// An automaton over at most 256 provisional classes. Every state has equal steps on the bytes of one class, and may also have equal steps on two
/// classes.
#[derive(Drop)]
pub struct AutomatonDraft {
    pub(crate) starts: Vec<(u32, u32)>,
    pub(crate) classes: Vec<u8>,
    pub(crate) width: usize,
    pub(crate) accepted: Vec<u16>,
    pub(crate) targets: Vec<u16>,
}

impl Model for AutomatonDraft {
    ghost Value = { Machine };

    ghost view = { λ d.
        machine_of d.starts.items d.classes.items d.width d.accepted.items d.targets.items };

    ghost invariant = { λ d.
        IsMachine
        (machine_of d.starts.items d.classes.items d.width d.accepted.items d.targets.items) };
}

impl AutomatonDraft {
    /// Returns the number of states.
    pub(crate) fn states(&self) -> usize
        ensures count { result ≡ state_count self.now }
        ensures machine { IsMachine self.now }
    {
        self.accepted.len()
    }

    /// Returns the provisional class of a byte.
    pub(crate) fn class(&self, byte: usize) -> usize
        requires { byte < 256 }
        ensures class { result ≡ slice_index self.now.classes byte }
        ensures below { result < self.now.width }
        ensures narrow { self.now.width ≤ 256 }
    {
        self.classes[byte] as usize
    }

    /// Returns the target of a state on a class, encoded: 0 for none, or one more than the target.
    pub(crate) fn encoded_target(&self, state: usize, class: usize) -> u16
        requires state { state < state_count self.now }
        requires class { class < self.now.width }
        ensures { decoded_option result ≡ class_target self.now state class }
    {
        self.targets[state * self.width + class]
    }

    /// Makes a draft of these lists, which are those of an automaton.
    pub fn of(
        starts: Vec<(u32, u32)>,
        classes: Vec<u8>,
        width: usize,
        accepted: Vec<u16>,
        targets: Vec<u16>,
    ) -> AutomatonDraft
        requires { IsMachine
            (machine_of starts.items classes.items width accepted.items targets.items) }
        ensures { result
            ≡ machine_of starts.items classes.items width accepted.items targets.items }
    {
        AutomatonDraft {
            starts,
            classes,
            width,
            accepted,
            targets,
        }
    }
}
