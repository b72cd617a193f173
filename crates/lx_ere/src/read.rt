//! Reads patterns and substitutes once from left to right (POSIX.1-2017, XCU `lex`, "Regular Expressions in lex", "Definitions in lex").

ghost use Rattle.std.specs.Prelude.{◌≡◌, ◌++◌, ◌⊎◌, IfOk, Err, IsTrue, List, length, ℕ};
ghost use Rattle.lx_ere.specs.Regex.{Regex, Reading, regex_of, reading_of};
ghost use Rattle.lx_ere.specs.Bounds.{has_ordered_bounds};
ghost use Rattle.lx_ere.specs.Grammar.{Lexeme, IsAlternation};
ghost use Rattle.lx_ere.specs.Brackets.{begins_with};
ghost use Rattle.lx_ere.specs.Spelling.{Spells, Lexes};
ghost use Rattle.lx_ere.specs.Pattern.{IsPattern, IsSubstitute};
ghost use Rattle.lx_ere.specs.PatternGrammar.{IsPatternEnd};
ghost use Rattle.lx_ere.specs.Lexing.{lexeme_at, body_of, ending_at, Reads};

use crate::expr::{Expr, Pattern};
use crate::fault::EreFault;
use crate::groups::{finish, no_groups, step};
use crate::lexeme::lexeme_at;
use crate::prefix::{begins_with, skip};
use std::alloc::Global;

/// Greatest number of bytes of a pattern or a substitute.
pub const MAX_PATTERN_BYTES: usize = 1024;

/// Reads the alternation at the start. Returns it with the text after its last spelling.
fn read_alternation(alloc: Global, text: &[u8]) -> Result<(Expr, &[u8]), EreFault>
    ensures reading { IfOk result (λ f. Reads text.now (regex_of f.0) f.1.now) }
    ensures refused { result ≡ Err EreFault.NoReading → (tree : Regex) (ending : List ℕ)
        → Reads text.now tree ending → ⊥ }
{
    let mut groups = no_groups(alloc);
    let mut rest = text;
    loop {
        let Some((lexeme, behind)) = lexeme_at(alloc, rest)? else {
            break;
        };
        let Some(next) = step(alloc, groups, lexeme)? else {
            return Err(EreFault::NoReading);
        };
        groups = next;
        rest = behind;
    }
    match finish(alloc, groups)? {
        Some(tree) => Ok((tree, rest)),
        None => Err(EreFault::NoReading),
    }
}

/// Skips a `^` at the start.
fn strip_caret(text: &[u8]) -> &[u8]
    ensures { result.now ≡ body_of text.now }
{
    if begins_with(b'^', text) {
        skip(1, text)
    } else {
        text
    }
}

/// Returns true if the text is the anchor of a line's end, and false if it is empty. Returns `None` if a pattern can't end with it.
fn ending_at(text: &[u8]) -> Option<bool>
    ensures { result ≡ ending_at text.now }
{
    if text.is_empty() {
        Some(false)
    } else if text == b"$".as_slice() || text == b"/\\n".as_slice() {
        Some(true)
    } else {
        None
    }
}

/// Reads a pattern: its anchors and its expression.
///
/// The text has at most 1,024 bytes. It is read once, from left to right. The result is the reading by the grammar of `lex` (XCU `lex`, "Regular
/// Expressions in lex"). `^` is an anchor only at the start, `$` and `/\n` only at the end. An interval applies to all to its left in its branch.
/// Err: [`EreFault::NoReading`] exactly if the text is unreadable, [`EreFault::Memory`] if an allocation failed.
pub fn read_pattern(alloc: Global, text: &[u8]) -> Result<Pattern, EreFault>
    ensures reading { IfOk result (λ p. IsPattern text.now (reading_of p)) }
    ensures refused { result ≡ Err EreFault.NoReading → (r : Reading) → IsPattern text.now r → ⊥ }
{
    if text.len() > MAX_PATTERN_BYTES {
        return Err(EreFault::NoReading);
    }
    let line_begin = begins_with(b'^', text);
    let (expr, ending) = read_alternation(alloc, strip_caret(text))?;
    match ending_at(ending) {
        Some(line_end) => Ok(Pattern {
            line_begin,
            line_end,
            expr,
        }),
        None => Err(EreFault::NoReading),
    }
}

/// Reads a substitute, the text by which a name is defined: an expression without anchors.
///
/// The text has at most 1,024 bytes. Err: [`EreFault::NoReading`] exactly if the text is unreadable, [`EreFault::Memory`] if an allocation failed.
pub fn read_substitute(alloc: Global, text: &[u8]) -> Result<Expr, EreFault>
    ensures reading { IfOk result (λ e. IsSubstitute text.now (regex_of e)) }
    ensures refused { result ≡ Err EreFault.NoReading → (tree : Regex) → IsSubstitute text.now tree
        → ⊥ }
{
    if text.len() > MAX_PATTERN_BYTES {
        return Err(EreFault::NoReading);
    }
    let (expr, ending) = read_alternation(alloc, text)?;
    if ending.is_empty() {
        Ok(expr)
    } else {
        Err(EreFault::NoReading)
    }
}

/// States a law: the start of a text is at most one spelling of a lexeme.
pub fn one_spelling()
    ensures { (t u : List ℕ) (l m : Lexeme) (v w : List ℕ) → Spells t l v → Spells u m w
        → t ++ v ≡ u ++ w → (t ≡ u) × (l ≡ m) × (v ≡ w) }
{}

/// States a law: a text has at most one reading as a pattern.
pub fn one_reading()
    ensures { (text : List ℕ) (r s : Reading) → IsPattern text r → IsPattern text s → r ≡ s }
{}

/// States a law: a text has at most one reading as a substitute.
pub fn one_substitute()
    ensures { (text : List ℕ) (r s : Regex) → IsSubstitute text r → IsSubstitute text s → r ≡ s }
{}

/// States a law: a text has a reading as a pattern, or it has none, and it is decidable which. The same holds for substitutes.
pub fn some_reading()
    ensures patterns { (text : List ℕ)
        → ((r : Reading) × IsPattern text r) ⊎ ((r : Reading) → IsPattern text r → ⊥) }
    ensures substitutes { (text : List ℕ) → ((tree : Regex) × IsSubstitute text tree)
        ⊎ ((tree : Regex) → IsSubstitute text tree → ⊥) }
{}

/// States a law: in each interval of a reading, the low bound is at most the high one (XBD 9.4.6).
pub fn bounds_are_ordered()
    ensures patterns { (text : List ℕ) (r : Reading) → IsPattern text r
        → IsTrue (has_ordered_bounds r.tree) }
    ensures substitutes { (text : List ℕ) (tree : Regex) → IsSubstitute text tree
        → IsTrue (has_ordered_bounds tree) }
{}

/// States a law: a text with a reading as a pattern has no space or tab outside quotes, brackets and escapes. So `pattern_end` is its end.
pub fn pattern_reaches_end()
    ensures { (text : List ℕ) (r : Reading) → IsPattern text r → IsPatternEnd text (length text) }
{}
