//! Expressions and patterns (POSIX.1-2017, XBD 9.4; XCU `lex`, "Regular Expressions in lex").

ghost use Rattle.std.specs.Prelude.{◌≡◌, ◌↔◌, IfOk, IsTrue};
ghost use Rattle.std.specs.Cmp.{on_equiv, partial_equiv_from_equiv};
ghost use Rattle.lx_ere.specs.Regex.{regex_of, reading_of};
ghost use Rattle.lx_ere.specs.Equality.{same_trees, same_readings};
ghost use Rattle.lx_ere.specs.EqualityLaws.{trees_equivalence, readings_equivalence};

use crate::set::ByteSet;
use std::alloc::AllocError;

/// An extended regular expression over bytes.
#[derive(Debug, Drop)]
pub enum Expr {
    /// The empty word.
    Nil,
    /// One byte of the set.
    Set(ByteSet),
    /// The first expression, then the second.
    Then(Box<Expr>, Box<Expr>),
    /// Either expression.
    Or(Box<Expr>, Box<Expr>),
    /// The body from `low` to `high` times, each at most 255. If `high` is `None`, there is no upper bound.
    Times {
        /// Repeated expression.
        body: Box<Expr>,
        /// Least number of repetitions.
        low: u8,
        /// Greatest number of repetitions, if there is a bound.
        high: Option<u8>,
    },
    /// The expression of a name that is defined elsewhere.
    Name(Vec<u8>),
}

/// An expression with its anchors, which apply to all of it.
#[derive(Debug, Drop)]
pub struct Pattern {
    /// True if a match has to begin at the start of a line (`^`).
    pub line_begin: bool,
    /// True if a match has to be followed by a newline (`$`).
    pub line_end: bool,
    /// Matched expression.
    pub expr: Expr,
}

impl Clone for Expr {
    ghost is_clone = { λ e copy. regex_of copy ≡ regex_of e };

    fn clone(&self) -> Result<Expr, AllocError> {
        copy_of(self)
    }
}

// Returns an expression of the same form with equal parts.
fn copy_of(tree: &Expr) -> Result<Expr, AllocError>
    ensures { IfOk result (λ copy. regex_of copy ≡ regex_of tree.now) }
{
    match tree {
        Expr::Nil => Ok(Expr::Nil),
        Expr::Set(set) => Ok(Expr::Set(set.clone()?)),
        Expr::Then(first, second) => {
            let first = Box::new(*Box::allocator(first), copy_of(first)?)?;
            let second = Box::new(*Box::allocator(second), copy_of(second)?)?;
            Ok(Expr::Then(first, second))
        }
        Expr::Or(this, that) => {
            let this = Box::new(*Box::allocator(this), copy_of(this)?)?;
            let that = Box::new(*Box::allocator(that), copy_of(that)?)?;
            Ok(Expr::Or(this, that))
        }
        Expr::Times { body, low, high } => {
            let body = Box::new(*Box::allocator(body), copy_of(body)?)?;
            Ok(Expr::Times {
                body,
                low: *low,
                high: *high,
            })
        }
        Expr::Name(name) => Ok(Expr::Name(name.clone()?)),
    }
}

// Returns true if the two trees have the same form and equal parts.
fn same_tree(left: &Expr, right: &Expr) -> bool
    ensures { result ≡ same_trees (regex_of left.now) (regex_of right.now) }
{
    match left {
        Expr::Nil => matches!(right, Expr::Nil),
        Expr::Set(set) => match right {
            Expr::Set(other) => set == other,
            _ => false,
        },
        Expr::Then(first, second) => match right {
            Expr::Then(other_first, other_second) => {
                same_tree(first, other_first) && same_tree(second, other_second)
            }
            _ => false,
        },
        Expr::Or(this, that) => match right {
            Expr::Or(other_this, other_that) => {
                same_tree(this, other_this) && same_tree(that, other_that)
            }
            _ => false,
        },
        Expr::Times { body, low, high } => match right {
            Expr::Times {
                body: other_body,
                low: other_low,
                high: other_high,
            } => same_tree(body, other_body) && low == other_low && high == other_high,
            _ => false,
        },
        Expr::Name(name) => match right {
            Expr::Name(other) => name == other,
            _ => false,
        },
    }
}

impl PartialEq for Expr {
    ghost eq = { λ a b. same_trees (regex_of a) (regex_of b) };

    ghost laws = { partial_equiv_from_equiv (on_equiv regex_of trees_equivalence) };

    /// Returns true if the two are the same tree, regardless of their places in memory.
    fn eq(&self, other: &Expr) -> bool
        ensures value { result ≡ same_trees (regex_of self.now) (regex_of other.now) }
        ensures same { IsTrue result ↔ (regex_of self.now ≡ regex_of other.now) }
    {
        same_tree(self, other)
    }
}

impl Eq for Expr {
    ghost laws = { on_equiv regex_of trees_equivalence };
}

impl PartialEq for Pattern {
    ghost eq = { λ a b. same_readings (reading_of a) (reading_of b) };

    ghost laws = { partial_equiv_from_equiv (on_equiv reading_of readings_equivalence) };

    /// Returns true if the two have the same anchors and equal trees.
    fn eq(&self, other: &Pattern) -> bool
        ensures value { result ≡ same_readings (reading_of self.now) (reading_of other.now) }
        ensures same { IsTrue result ↔ (reading_of self.now ≡ reading_of other.now) }
    {
        self.line_begin == other.line_begin
            && self.line_end == other.line_end
            && self.expr == other.expr
    }
}

impl Eq for Pattern {
    ghost laws = { on_equiv reading_of readings_equivalence };
}
