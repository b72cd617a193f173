//! Selections of the items that are printed.

ghost use Rattle.std.specs.Prelude.{◌≡◌};

use lx_rules::rule::Kind;
use lx_scan::Item;
use std::marker::Model;

/// The kinds of tokens that are printed, and a flag for echoes.
#[derive(Debug, Drop)]
pub struct Selection {
    names: Vec<bool>,
    numbers: Vec<u32>,
    echoes: bool,
}

impl Model for Selection {
    ghost use Rattle.lx_forms.specs.Forms.{Selected};

    ghost Value = { Selected };

    ghost view = { λ s.
        record { names = s.names.items; numbers = s.numbers.items; echoes = s.echoes } };
}

impl Selection {
    ghost use Rattle.lx_forms.specs.Forms.{has_kind, is_selected};

    /// Returns a selection. It has the named kinds for which `names` is true, in the order of the tables' list of kinds, and the kinds with these
    /// numbers. It has echoes if `echoes` is true. A named kind after the end of `names` isn't selected. Allocates nothing.
    pub fn new(names: Vec<bool>, numbers: Vec<u32>, echoes: bool) -> Selection
        ensures { result
            ≡ record { names = names.items; numbers = numbers.items; echoes = echoes } }
    {
        Selection {
            names,
            numbers,
            echoes,
        }
    }

    fn has_kind(&self, kind: Kind) -> bool
        ensures { result ≡ has_kind self.now kind }
    {
        match kind {
            Kind::Name(place) => {
                let place = place as usize;
                place < self.names.len() && self.names[place]
            }
            Kind::Number(number) => self.numbers.contains(&number),
        }
    }

    /// Returns true if the item is printed.
    pub fn has(&self, item: &Item) -> bool
        ensures { result ≡ is_selected self.now item.now }
    {
        match item {
            Item::Token { kind, .. } => self.has_kind(*kind),
            Item::Echo { .. } => self.echoes,
        }
    }
}
