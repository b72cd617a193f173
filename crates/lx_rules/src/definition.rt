//! Definitions.

use lx_ere::expr::Expr;

/// A name and its expression.
#[derive(Drop)]
pub struct Definition {
    pub name: Vec<u8>,
    pub expr: Expr,
}
