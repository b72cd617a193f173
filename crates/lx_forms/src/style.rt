//! The style of a form's lines.

ghost use Rattle.lx_forms.specs.Views.{form_view};

use crate::form::Form;
use crate::format::Format;
use crate::json_lines::{place_json_prefix, place_json_rest, push_json_cut_line, push_json_line};
use crate::strings::is_text_at;
use crate::text_lines::{place_text_prefix, push_text_cut_line, push_text_start};
use lx_line::{LinePrefix, LineStyle, RestParts, place_fields};
use lx_piece::Plan;
use lx_rules::rule::Kind;
use lx_scan::{FlatItem, Item};
use std::alloc::AllocError;

/// The style of a form's lines.
#[derive(Clone, Copy)]
pub struct FormStyle<'a> {
    pub form: &'a Form<'a>,
}

impl<'a> LinePrefix for FormStyle<'a> {
    ghost use Rattle.lx_forms.specs.FormStyles.{prefix_in};

    ghost prefix = { λ s plan file kind. prefix_in (form_view s.form.now) plan file kind };

    #[inline(always)]
    fn are_long() -> bool {
        true
    }

    fn place_prefix(
        &self,
        buf: &mut [u8],
        plan: &Plan,
        file: u32,
        kind: Option<Kind>,
    ) -> Option<usize> {
        match self.form.format {
            Format::Lines => place_text_prefix(self.form, buf, plan, file, kind),
            Format::Json => place_json_prefix(self.form, buf, plan, file, kind),
        }
    }
}

impl<'a> LineStyle for FormStyle<'a> {
    ghost use Rattle.lx_forms.specs.FormStyleLaws.{form_text, form_whole};
    ghost use Rattle.lx_forms.specs.FormStyles.{PlacesIn, rest_in, style_of};
    ghost use Rattle.lx_forms.specs.Forms.{passes};
    ghost use Rattle.lx_forms.specs.PartLaws.{form_parts};

    ghost style = { λ s. style_of (form_view s.form.now) };

    ghost lists = { λ s. passes (form_view s.form.now) };

    ghost places = { λ s. PlacesIn (form_view s.form.now) };

    ghost rest = { λ s. rest_in (form_view s.form.now) };

    #[inline(always)]
    fn has_line(&self, item: &FlatItem) -> bool {
        self.form.passes_flat(item)
    }

    #[inline(always)]
    fn can_place(&self, bytes: &[u8], from: usize, len: usize) -> bool {
        match self.form.format {
            Format::Lines => true,
            Format::Json => !self.form.text || is_text_at(bytes, from, len),
        }
    }

    #[inline(always)]
    fn place_rest(&self, buf: &mut [u8], at: usize, parts: RestParts) -> usize {
        match self.form.format {
            Format::Lines => place_fields(buf, at, self.form.text, parts),
            Format::Json => place_json_rest(buf, at, self.form.text, parts),
        }
    }

    fn push_start(
        &self,
        block: &mut Vec<u8>,
        plan: &Plan,
        file: u32,
        item: &Item,
        text: &[u8],
    ) -> Result<bool, AllocError> {
        if !self.form.passes(item) {
            return Ok(false);
        }
        match self.form.format {
            Format::Lines => push_text_start(block, self.form, plan, file, item),
            Format::Json => {
                push_json_line(block, self.form, plan, file, item, text)?;
                Ok(false)
            }
        }
    }

    fn push_cut_line(&self, block: &mut Vec<u8>, file: u32) -> Result<(), AllocError> {
        match self.form.format {
            Format::Lines => push_text_cut_line(block, self.form, file),
            Format::Json => push_json_cut_line(block, self.form, file),
        }
    }

    ghost whole = { λ s. form_whole (form_view s.form.now) };

    ghost by_text = { λ s. form_text (form_view s.form.now) };

    ghost by_parts = { λ s. form_parts (form_view s.form.now) };
}
