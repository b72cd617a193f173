//! Compares the tree that lx reads with another one.

ghost use Rattle.std.specs.Prelude.{◌≡◌};
ghost use Rattle.lx_ere.specs.Regex.{regex_of};
ghost use Rattle.lx_flex_pattern.specs.Mirror.{does_mirror};

use lx_ere::Expr;

/// Returns true exactly if the tree that lx read has the form of the other one, with the same sets. The empty word is a body repeated no times.
pub(crate) fn mirrors(tree: &Expr, expr: &Expr) -> bool
    ensures { result ≡ does_mirror (regex_of tree.now) (regex_of expr.now) }
{
    match tree {
        Expr::Nil => match expr {
            Expr::Times { body: _, low, high } => *low == 0 && *high == Some(0),
            _ => false,
        },
        Expr::Set(set) => match expr {
            Expr::Set(found) => set == found,
            _ => false,
        },
        Expr::Then(first, second) => match expr {
            Expr::Then(lx_first, lx_second) => {
                mirrors(first, lx_first) && mirrors(second, lx_second)
            }
            _ => false,
        },
        Expr::Or(this, that) => match expr {
            Expr::Or(lx_this, lx_that) => mirrors(this, lx_this) && mirrors(that, lx_that),
            _ => false,
        },
        Expr::Times { body, low, high } => match expr {
            Expr::Times {
                body: lx_body,
                low: lx_low,
                high: lx_high,
            } => mirrors(body, lx_body) && low == lx_low && high == lx_high,
            _ => false,
        },
        Expr::Name(name) => match expr {
            Expr::Name(lx_name) => name == lx_name,
            _ => false,
        },
    }
}
