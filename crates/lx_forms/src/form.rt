//! The form in which a listing is printed.

ghost use Rattle.std.specs.Prelude.{◌≡◌, ◌<◌, ◌^◌, IsTrue, map};
ghost use Rattle.lx_forms.specs.Forms.{bare_form, name_of, number_in, passes};
ghost use Rattle.lx_forms.specs.Views.{form_view};

use crate::format::Format;
use crate::selection::Selection;
use lx_scan::{FlatItem, Item};

/// The form of a listing.
#[derive(Debug, Drop)]
pub struct Form<'a> {
    /// Number of the first file. The next one has the next number.
    pub first: u32,
    /// Names of the files, of any bytes, in order. They replace the numbers. A file after the list has an empty name.
    pub names: Option<&'a [Vec<u8>]>,
    /// The selected items, if not every item is printed. The lines of files whose reading failed are always printed.
    pub only: Option<Selection>,
    /// True if the texts of items are printed.
    pub text: bool,
    pub format: Format,
}

impl<'a> Form<'a> {
    /// Returns the form without options.
    pub fn bare() -> Form<'a>
        ensures { form_view result ≡ bare_form }
    {
        Form {
            first: 0,
            names: None,
            only: None,
            text: true,
            format: Format::Lines,
        }
    }

    /// Returns true if it is the form without options.
    pub fn is_bare(&self) -> bool
        ensures { IsTrue result → form_view self.now ≡ bare_form }
    {
        self.first == 0
            && self.names.is_none()
            && self.only.is_none()
            && self.text
            && self.format == Format::Lines
    }

    /// Returns true if the item is printed.
    #[inline(always)]
    #[tactic(auto, unfolding(crate::specs::Forms::passes))]
    pub(crate) fn passes(&self, item: &Item) -> bool
        ensures { result ≡ passes (form_view self.now) item.now }
    {
        match &self.only {
            Some(selection) => selection.has(item),
            None => true,
        }
    }

    /// Returns true if a flat item is printed.
    #[inline(always)]
    #[tactic(auto, unfolding(crate::specs::Forms::passes))]
    pub(crate) fn passes_flat(&self, item: &FlatItem) -> bool
        ensures { result ≡ passes (form_view self.now) item.now }
    {
        if self.only.is_none() {
            return true;
        }
        self.passes(&item.item())
    }

    /// Returns the number of a file.
    pub(crate) fn number_of(&self, file: u32) -> u64
        ensures number { result ≡ number_in (form_view self.now) file }
        ensures few { result < 10 ^ 18 }
    {
        u64::from(self.first) + u64::from(file)
    }
}

/// Returns the name of a file, which is empty after the list.
pub(crate) fn name_of(names: &[Vec<u8>], file: u32) -> &[u8]
    ensures { result.now ≡ name_of (map (λ name. name.items) names.now) file }
{
    let file = file as usize;
    if file < names.len() {
        names[file].as_slice()
    } else {
        b""
    }
}
