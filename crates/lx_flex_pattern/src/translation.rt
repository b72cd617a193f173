//! Translates flex patterns to texts that lx reads.

ghost use Rattle.std.specs.Prelude.{◌≡◌, ◌↔◌, true, IfOk, IfSome, IsTrue};
ghost use Rattle.lx_ere.specs.Pattern.{IsPattern, IsSubstitute};
ghost use Rattle.lx_ere.specs.Regex.{reading_of, regex_of};
ghost use Rattle.lx_flex_pattern.specs.Mirror.{IsMirrored, Mirrors};
ghost use Rattle.lx_flex_pattern.specs.Translation.{HaveSameTexts, IsReadAs, IsTranslation, IsSubstituteOf};

use crate::fault::PatternFault;
use crate::mirror::mirrors;
use crate::printing::{print_pattern, printed_tree};
use lx_ere::read::MAX_PATTERN_BYTES;
use lx_ere::{EreFault, Expr, Pattern};
use std::alloc::{AllocError, Global};

/// Reads the text as lx does.
fn read_back(alloc: Global, text: &[u8]) -> Result<Option<Pattern>, AllocError>
    ensures { IfOk result (λ read. IfSome read (λ p. IsPattern text.now (reading_of p))) }
{
    match lx_ere::read_pattern(alloc, text) {
        Ok(read) => Ok(Some(read)),
        Err(EreFault::NoReading) => Ok(None),
        Err(EreFault::Memory) => Err(AllocError),
    }
}

/// Reads the text as lx does for a substitute.
fn read_back_substitute(alloc: Global, text: &[u8]) -> Result<Option<Expr>, AllocError>
    ensures { IfOk result (λ read. IfSome read (λ e. IsSubstitute text.now (regex_of e))) }
{
    match lx_ere::read_substitute(alloc, text) {
        Ok(read) => Ok(Some(read)),
        Err(EreFault::NoReading) => Ok(None),
        Err(EreFault::Memory) => Err(AllocError),
    }
}

/// Returns true exactly if the tree that lx read has the form of the other one. Then both have the same texts.
#[tactic(auto, using(crate::proofs::Mirroring::mirrors_decides, crate::proofs::SameTexts::mirrors_texts))]
pub fn has_same_texts(tree: &Expr, read: &Expr) -> bool
    ensures same { result ≡ true → HaveSameTexts (regex_of tree.now) (regex_of read.now) }
    ensures form { IsTrue result ↔ Mirrors (regex_of tree.now) (regex_of read.now) }
{
    mirrors(tree, read)
}

/// Returns true exactly if the pattern that lx read has the anchors and the form of the other one. Then both have the same texts.
pub fn is_read_as(pattern: &Pattern, read: &Pattern) -> bool
    ensures same { result ≡ true → IsReadAs (reading_of pattern.now) (reading_of read.now) }
    ensures form { IsTrue result ↔ IsMirrored (reading_of pattern.now) (reading_of read.now) }
{
    if pattern.line_begin != read.line_begin {
        return false;
    }
    if pattern.line_end != read.line_end {
        return false;
    }
    has_same_texts(&pattern.expr, &read.expr)
}

/// Translates the pattern to a text that lx reads as a pattern with the same anchors and the same texts.
///
/// Err: [`PatternFault::TooLarge`] if the text has more bytes than lx accepts. [`PatternFault::NotRead`] if lx wouldn't read it as the same pattern, which doesn't
/// happen to the trees of `read_pattern`.
pub fn translate(alloc: Global, pattern: &Pattern) -> Result<Vec<u8>, PatternFault>
    ensures { IfOk result (λ text. IsTranslation (reading_of pattern.now) text.items) }
{
    let text = print_pattern(alloc, pattern)?;
    if text.len() > MAX_PATTERN_BYTES {
        return Err(PatternFault::TooLarge);
    }
    let Some(read) = read_back(alloc, text.as_slice())? else {
        return Err(PatternFault::NotRead);
    };
    if !is_read_as(pattern, &read) {
        return Err(PatternFault::NotRead);
    }
    Ok(text)
}

/// Translates the tree to a text that lx reads as a substitute with the same texts. Fails like [`translate`].
pub fn translate_substitute(alloc: Global, tree: &Expr) -> Result<Vec<u8>, PatternFault>
    ensures { IfOk result (λ text. IsSubstituteOf (regex_of tree.now) text.items) }
{
    let text = printed_tree(alloc, tree)?;
    if text.len() > MAX_PATTERN_BYTES {
        return Err(PatternFault::TooLarge);
    }
    let Some(read) = read_back_substitute(alloc, text.as_slice())? else {
        return Err(PatternFault::NotRead);
    };
    if !has_same_texts(tree, &read) {
        return Err(PatternFault::NotRead);
    }
    Ok(text)
}
