//! The branches of a pattern, updated lexeme by lexeme.

use lx_diagnose::Span;
use lx_ere::lexeme::Lexeme;
use std::alloc::{AllocError, Global};

/// The part of a branch that was read. A unit is what flex repeats: a byte, an escape, brackets, a string, a name or a group, with its `* + ?`. An
/// interval in lx repeats all units of the branch.
#[derive(Clone, Copy)]
pub(crate) struct Branch {
    /// Position of the parenthesis that encloses it, if there is one.
    pub opened: usize,
    pub start: usize,
    /// Start of its last unit.
    pub last: usize,
    pub units: usize,
}

/// The open branches, with the innermost one apart, and a flag that is true if `*`, `+` or `?` was read last.
#[derive(Drop)]
pub(crate) struct Branches {
    pub outer: Vec<Branch>,
    pub innermost: Branch,
    pub behind_repeat: bool,
}

fn empty_branch(opened: usize, start: usize) -> Branch {
    Branch {
        opened,
        start,
        last: start,
        units: 0,
    }
}

/// Returns the open branches at the start of a pattern.
pub(crate) fn branches_at(alloc: Global, start: usize) -> Branches {
    Branches {
        outer: Vec::new(alloc),
        innermost: empty_branch(start, start),
        behind_repeat: false,
    }
}

fn with_unit(branch: Branch, at: usize) -> Branch {
    Branch {
        opened: branch.opened,
        start: branch.start,
        last: at,
        units: branch.units.saturating_add(1),
    }
}

fn with_interval(branch: Branch) -> Branch {
    Branch {
        opened: branch.opened,
        start: branch.start,
        last: branch.start,
        units: 1,
    }
}

/// Updates the branches with the lexeme at this position.
pub(crate) fn take_lexeme(
    branches: &mut Branches,
    lexeme: &Lexeme,
    at: Span,
) -> Result<(), AllocError> {
    branches.behind_repeat = matches!(lexeme, Lexeme::Repeat(_, _));
    match lexeme {
        Lexeme::Set(_) | Lexeme::Quoted(_, _) | Lexeme::Name(_) | Lexeme::EmptyWord => {
            branches.innermost = with_unit(branches.innermost, at.start);
        }
        Lexeme::Interval(_, _) => branches.innermost = with_interval(branches.innermost),
        Lexeme::OpenGroup => {
            branches.outer.push(branches.innermost)?;
            branches.innermost = empty_branch(at.start, at.end());
        }
        Lexeme::CloseGroup => {
            if let Some(outer) = branches.outer.pop() {
                branches.innermost = with_unit(outer, branches.innermost.opened);
            }
        }
        Lexeme::Bar => {
            branches.innermost = empty_branch(branches.innermost.opened, at.end());
        }
        Lexeme::Repeat(_, _) => {}
    }
    Ok(())
}
