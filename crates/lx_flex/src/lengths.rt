//! The lengths and bytes of the texts that an expression matches.

ghost use Rattle.std.specs.Prelude.{◌≡◌, false, IfSome};
ghost use Rattle.lx_ere.specs.Regex.{regex_of};
ghost use Rattle.lx_flex.specs.Lengths.{HasLength, HasNoNewline, length_of, matches_empty};

use lx_ere::Expr;

/// Returns the length of all texts that the expression matches, if it is found to be the same for all.
#[tactic(auto, using(crate::proofs::TextLengths::nil_length, crate::proofs::TextLengths::set_length, crate::proofs::TextLengths::then_length, crate::proofs::TextLengths::or_length, crate::proofs::TextLengths::times_length, crate::proofs::TextLengths::no_length, crate::proofs::TextForms::counted))]
pub fn fixed_length(tree: &Expr) -> Option<u32>
    ensures form { result ≡ length_of (regex_of tree.now) }
    ensures meaning { IfSome result (HasLength (regex_of tree.now)) }
{
    match tree {
        Expr::Nil => Some(0),
        Expr::Set(_) => Some(1),
        Expr::Then(first, second) => {
            let one = fixed_length(first)?;
            let other = fixed_length(second)?;
            one.checked_add(other)
        }
        Expr::Or(this, that) => {
            let one = fixed_length(this)?;
            let other = fixed_length(that)?;
            if one == other { Some(one) } else { None }
        }
        Expr::Times { body, low, high } => {
            let length = fixed_length(body)?;
            if length == 0 {
                return Some(0);
            }
            if *high != Some(*low) {
                return None;
            }
            length.checked_mul(u32::from(*low))
        }
        Expr::Name(_) => None,
    }
}

/// Returns true if the expression matches the empty text. A name isn't known, and counts as false.
pub fn matches_empty(tree: &Expr) -> bool
    ensures { result ≡ matches_empty (regex_of tree.now) }
{
    match tree {
        Expr::Nil => true,
        Expr::Set(_) => false,
        Expr::Then(first, second) => matches_empty(first) && matches_empty(second),
        Expr::Or(this, that) => matches_empty(this) || matches_empty(that),
        Expr::Times { body, low, high: _ } => *low == 0 || matches_empty(body),
        Expr::Name(_) => false,
    }
}

/// Returns false if no text that the expression matches has a newline.
#[tactic(auto, using(crate::proofs::TextForms::nil_newline, crate::proofs::TextForms::set_newline, crate::proofs::TextForms::then_newline, crate::proofs::TextForms::or_newline, crate::proofs::TextForms::times_newline))]
pub fn may_have_newline(tree: &Expr) -> bool
    ensures { result ≡ false → HasNoNewline (regex_of tree.now) }
{
    match tree {
        Expr::Nil => false,
        Expr::Set(set) => set.has(b'\n'),
        Expr::Then(first, second) => may_have_newline(first) || may_have_newline(second),
        Expr::Or(this, that) => may_have_newline(this) || may_have_newline(that),
        Expr::Times {
            body,
            low: _,
            high: _,
        } => may_have_newline(body),
        Expr::Name(_) => true,
    }
}

/// Returns true if the expression has an operator for which flex takes its texts to have several lengths: `|`, `*`, `+`, `?` or an interval.
pub fn has_operator(tree: &Expr) -> bool {
    match tree {
        Expr::Nil => false,
        Expr::Set(_) => false,
        Expr::Then(first, second) => has_operator(first) || has_operator(second),
        Expr::Or(_, _) => true,
        Expr::Times {
            body: _,
            low: _,
            high: _,
        } => true,
        Expr::Name(_) => true,
    }
}
