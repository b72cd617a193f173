//! The options of a scanner in C.

ghost use Rattle.std.specs.Prelude.{◌≡◌, ◌<◌, Some, [], false, length, slice_index_or, IfOk, IfErr, option_map};
ghost use Rattle.std.specs.List.{list_all};
ghost use Rattle.lx_rules.specs.Identifiers as identifiers;
ghost use Rattle.lx_rules.specs.views.Rules.{names_view};
ghost use Rattle.lx_c.specs.Options as specs;

use crate::fault::OptionFault;
use lx_rules::identifier::{is_digit, is_identifier};
use std::alloc::{AllocError, Global};
use std::marker::Model;

/// The options of a scanner in C: the prefix of its names, the names of the start conditions if
/// they are known, the file that declares its kinds, if there is one, and the form: code for each
/// state, or rows by classes of bytes.
#[derive(Drop)]
pub struct Options {
    prefix: Vec<u8>,
    conditions: Vec<Vec<u8>>,
    include: Option<Vec<u8>>,
    direct: bool,
}

impl Model for Options {
    ghost use Rattle.std.specs.Prelude.{option_map};
    ghost use Rattle.lx_rules.specs.views.Rules.{names_view};
    ghost use Rattle.lx_c.specs.Options.{Options, AreOptions, options_of};

    ghost Value = { Options };

    ghost view = { λ o.
        options_of o.prefix.items (names_view o.conditions.items)
        (option_map (λ file. file.items) o.include) o.direct };

    ghost invariant = { λ o.
        AreOptions (options_of o.prefix.items (names_view o.conditions.items)
        (option_map (λ file. file.items) o.include) o.direct) };
}

fn is_small_letter(c: u8) -> bool
    ensures { result ≡ specs.is_small_letter c }
{
    b'a' <= c && c <= b'z'
}

fn is_prefix_byte(c: u8) -> bool
    ensures { result ≡ specs.is_prefix_byte c }
{
    is_small_letter(c) || (is_digit(c) || c == b'_')
}

fn are_prefix_bytes(text: &[u8]) -> bool
    ensures { result ≡ list_all specs.is_prefix_byte text.now }
{
    text.iter().all(|c| is_prefix_byte(*c))
}

// Returns true if the text is a small letter and then up to 31 small letters, digits or `_`.
fn is_prefix(text: &[u8]) -> bool
    ensures { result ≡ specs.is_prefix text.now }
{
    let Some((first, rest)) = text.split_first() else {
        return false;
    };
    is_small_letter(*first) && (are_prefix_bytes(rest) && rest.len() <= 31)
}

fn all_are_identifiers(names: &[Vec<u8>]) -> bool
    ensures { result ≡ list_all (λ name. identifiers.is_identifier name.items) names.now }
{
    names.iter().all(|name| is_identifier(name))
}

fn are_identifiers(names: &[Vec<u8>]) -> bool
    ensures { result ≡ list_all identifiers.is_identifier (names_view names.now) }
{
    all_are_identifiers(names)
}

fn is_include_byte(c: u8) -> bool
    ensures { result ≡ specs.is_include_byte c }
{
    b' ' <= c && c <= b'~' && !(c == b'"' || c == b'\\')
}

fn are_include_bytes(file: &[u8]) -> bool
    ensures { result ≡ list_all specs.is_include_byte file.now }
{
    file.iter().all(|c| is_include_byte(*c))
}

// Returns true if no file is named, or one of 1 to 255 such bytes.
fn is_include(include: &Option<Vec<u8>>) -> bool
    ensures { result ≡ specs.is_include (option_map (λ file. file.items) include.now) }
{
    match include {
        None => true,
        Some(file) => 1 <= file.len() && (file.len() <= 255 && are_include_bytes(file)),
    }
}

impl Options {
    /// Makes options of these parts, with rows by classes of bytes. The prefix is a small letter,
    /// and then up to 31 small letters, digits or `_`. The names of the conditions, of each in
    /// order or of none, are identifiers. The name of the file is 1 to 255 bytes of 32 to 126 without `"`
    /// and `\`. Err: the first part that isn't so.
    pub fn of(
        prefix: Vec<u8>,
        conditions: Vec<Vec<u8>>,
        include: Option<Vec<u8>>,
    ) -> Result<Options, OptionFault>
        ensures ok { IfOk result (λ o.
            o ≡ specs.options_of prefix.items (names_view conditions.items)
            (option_map (λ file. file.items) include) false) }
        ensures err { IfErr result (λ e.
            Some e ≡ specs.option_fault (specs.options_of prefix.items (names_view conditions.items)
            (option_map (λ file. file.items) include) false)) }
    {
        if !is_prefix(&prefix) {
            return Err(OptionFault::Prefix);
        }
        if !are_identifiers(&conditions) {
            return Err(OptionFault::Condition);
        }
        if !is_include(&include) {
            return Err(OptionFault::Include);
        }
        Ok(Options {
            prefix,
            conditions,
            include,
            direct: false,
        })
    }

    /// Returns the options of a scanner of a file for lex or flex, whose names begin with `yy`. AllocError if an allocation fails.
    pub fn of_lex(alloc: Global) -> Result<Options, AllocError>
        ensures { IfOk result (λ o. o ≡ specs.yy_options) }
    {
        let mut prefix = Vec::new(alloc);
        prefix.extend_from_slice(b"yy")?;
        Ok(Options {
            prefix,
            conditions: Vec::new(alloc),
            include: None,
            direct: true,
        })
    }

    /// Returns the same with these names of the conditions, of each in order, if all are
    /// identifiers, as those of a specification are; else the same.
    pub fn named(self, conditions: Vec<Vec<u8>>) -> Options
        ensures { result ≡ specs.named self (names_view conditions.items) }
    {
        if !are_identifiers(&conditions) {
            return self;
        }
        Options {
            prefix: self.prefix,
            conditions,
            include: self.include,
            direct: self.direct,
        }
    }

    /// Returns the prefix.
    pub fn prefix(&self) -> &[u8]
        ensures { result.now ≡ self.now.prefix }
    {
        &self.prefix
    }

    /// Returns the number of conditions whose names are known: all or none.
    pub(crate) fn conditions(&self) -> usize
        ensures { result ≡ length self.now.conditions }
    {
        self.conditions.len()
    }

    /// Returns the name of a condition.
    pub(crate) fn condition(&self, number: usize) -> &[u8]
        requires { number < length self.now.conditions }
        ensures { result.now ≡ slice_index_or self.now.conditions number [] }
    {
        &self.conditions[number]
    }

    /// Returns the name of the file that declares the kinds.
    pub fn include(&self) -> Option<&[u8]>
        ensures { option_map (λ file. file.now) result ≡ self.now.include }
    {
        self.include.as_ref().map(|file| file.as_slice())
    }

    /// Returns the same with code for each state, or with rows by classes of bytes.
    pub fn directly(self, direct: bool) -> Options
        ensures { result ≡ specs.directly self direct }
    {
        Options {
            prefix: self.prefix,
            conditions: self.conditions,
            include: self.include,
            direct,
        }
    }

    /// Returns true if code for each state is asked for.
    pub fn is_direct(&self) -> bool
        ensures { result ≡ self.now.direct }
    {
        self.direct
    }

    /// Returns true if a file declares the kinds.
    pub fn has_include(&self) -> bool
        ensures { result ≡ specs.has_file self.now.include }
    {
        self.include.is_some()
    }
}
