//! The open groups while a pattern is read from left to right. They are on the heap, so that nesting takes no stack.

ghost use Rattle.std.specs.Prelude.{◌≡◌, IfOk, IfSome, Some, None, [], List, ℕ};
ghost use Rattle.std.specs.Option.{option_map};
ghost use Rattle.lx_ere.specs.Bytes.{byte_set};
ghost use Rattle.lx_ere.specs.Regex.{regex_of, one_of};
ghost use Rattle.lx_ere.specs.Grammar.{open_group, close_group, bar, interval, quoted, joined};
ghost use Rattle.lx_ere.specs.Stacks.{empty_frame, frame, stack, whole, total, push, again, step, finish};
ghost use Rattle.lx_ere.specs.Groups.{frame_of, groups_of};
ghost use Rattle.lx_ere.specs.Lexemes.{lexeme_of};

use crate::expr::Expr;
use crate::lexeme::Lexeme;
use crate::set::ByteSet;
use std::alloc::{AllocError, Global};

/// The part of an open group that was read.
#[derive(Drop)]
struct Frame {
    /// Alternatives before the last bar.
    before: Option<Expr>,
    /// Branch after that bar, without its last unit.
    branch: Option<Expr>,
    /// Last unit, which a repetition repeats.
    unit: Option<Expr>,
}

/// The innermost open group, and those around it, the outermost first.
#[derive(Drop)]
pub struct Groups {
    top: Frame,
    below: Vec<Frame>,
}

/// Returns a group of which nothing was read.
fn empty_frame() -> Frame
    ensures { frame_of result ≡ empty_frame }
{
    Frame {
        before: None,
        branch: None,
        unit: None,
    }
}

/// Returns the state before anything is read, without an open group.
pub fn no_groups(alloc: Global) -> Groups
    ensures { groups_of result ≡ stack empty_frame [] }
{
    Groups {
        top: empty_frame(),
        below: Vec::new(alloc),
    }
}

/// Returns the branch with its last unit.
fn whole(
    alloc: Global,
    branch: Option<Expr>,
    unit: Option<Expr>,
) -> Result<Option<Expr>, AllocError>
    ensures { IfOk result (λ o.
        option_map regex_of o ≡ whole (option_map regex_of branch) (option_map regex_of unit)) }
{
    match (branch, unit) {
        (Some(branch), Some(unit)) => {
            let left = Box::new(alloc, branch)?;
            let right = Box::new(alloc, unit)?;
            Ok(Some(Expr::Then(left, right)))
        }
        (Some(branch), None) => Ok(Some(branch)),
        (None, unit) => Ok(unit),
    }
}

/// Returns the alternation that was read. Returns `None` if nothing follows its last bar.
fn total(alloc: Global, frame: Frame) -> Result<Option<Expr>, AllocError>
    ensures { IfOk result (λ o. option_map regex_of o ≡ total (frame_of frame)) }
{
    let Frame {
        before,
        branch,
        unit,
    } = frame;
    let last = whole(alloc, branch, unit)?;
    match (before, last) {
        (Some(left), Some(right)) => {
            let left = Box::new(alloc, left)?;
            let right = Box::new(alloc, right)?;
            Ok(Some(Expr::Or(left, right)))
        }
        (None, last) => Ok(last),
        (Some(_), None) => Ok(None),
    }
}

/// Appends a unit to a group.
fn push(alloc: Global, frame: Frame, unit: Expr) -> Result<Frame, AllocError>
    ensures { IfOk result (λ next. frame_of next ≡ push (frame_of frame) (regex_of unit)) }
{
    let Frame {
        before,
        branch,
        unit: last,
    } = frame;
    let branch = whole(alloc, branch, last)?;
    Ok(Frame {
        before,
        branch,
        unit: Some(unit),
    })
}

/// Appends a unit to the innermost group.
fn push_unit(alloc: Global, groups: Groups, unit: Expr) -> Result<Groups, AllocError>
    ensures { IfOk result (λ next.
        groups_of next
        ≡ stack (push (groups_of groups).top (regex_of unit)) (groups_of groups).below) }
{
    let Groups { top, below } = groups;
    let top = push(alloc, top, unit)?;
    Ok(Groups { top, below })
}

/// Joins the bytes of a quoted string, one after the other.
fn join_bytes(alloc: Global, first: u8, more: &[u8]) -> Result<Expr, AllocError>
    ensures { IfOk result (λ e. regex_of e ≡ joined (one_of (byte_set first)) more.now) }
{
    let mut string = Expr::Set(ByteSet::of(first));
    for byte in more {
        let left = Box::new(alloc, string)?;
        let right = Box::new(alloc, Expr::Set(ByteSet::of(*byte)))?;
        string = Expr::Then(left, right);
    }
    Ok(string)
}

/// Takes the last unit out of the innermost group. Returns `None` if there is none.
pub fn take_unit(groups: Groups) -> Option<(Groups, Expr)>
    ensures some { IfSome result (λ f. groups_of f.0
        ≡ stack (frame (groups_of groups).top.before (groups_of groups).top.branch None)
        (groups_of groups).below) }
    ensures unit { option_map (λ f. regex_of f.1) result ≡ (groups_of groups).top.unit }
{
    let Groups { top, below } = groups;
    let Frame {
        before,
        branch,
        unit,
    } = top;
    let unit = unit?;
    let top = Frame {
        before,
        branch,
        unit: None,
    };
    Some((Groups { top, below }, unit))
}

/// Takes the branch with its last unit out of the innermost group. Returns `None` if the branch is empty.
pub fn take_branch(alloc: Global, groups: Groups) -> Result<Option<(Groups, Expr)>, AllocError>
    ensures some { IfOk result (λ o. IfSome o (λ f. groups_of f.0
        ≡ stack (frame (groups_of groups).top.before None None) (groups_of groups).below)) }
    ensures branch { IfOk result (λ o. option_map (λ f. regex_of f.1) o
        ≡ whole (groups_of groups).top.branch (groups_of groups).top.unit) }
{
    let Groups { top, below } = groups;
    let Frame {
        before,
        branch,
        unit,
    } = top;
    let Some(branch) = whole(alloc, branch, unit)? else {
        return Ok(None);
    };
    let top = Frame {
        before,
        branch: None,
        unit: None,
    };
    Ok(Some((Groups { top, below }, branch)))
}

/// Makes the expression the last unit of the innermost group, in the place of the one that `take_unit` took.
pub fn put_unit(groups: Groups, unit: Expr) -> Groups
    ensures { groups_of result
        ≡ stack (frame (groups_of groups).top.before (groups_of groups).top.branch (Some (regex_of unit)))
        (groups_of groups).below }
{
    let Groups { top, below } = groups;
    let Frame {
        before,
        branch,
        unit: _unit,
    } = top;
    let unit = Some(unit);
    Groups {
        top: Frame {
            before,
            branch,
            unit,
        },
        below,
    }
}

/// Makes the expression the branch of the innermost group, in the place of the one that `take_branch` took.
pub fn put_branch(groups: Groups, branch: Expr) -> Groups
    ensures { groups_of result
        ≡ stack (frame (groups_of groups).top.before (Some (regex_of branch)) None)
        (groups_of groups).below }
{
    let Groups { top, below } = groups;
    let Frame {
        before,
        branch: _branch,
        unit: _unit,
    } = top;
    let branch = Some(branch);
    Groups {
        top: Frame {
            before,
            branch,
            unit: None,
        },
        below,
    }
}

/// Repeats the last unit.
fn repeat_last(
    alloc: Global,
    groups: Groups,
    low: u8,
    high: Option<u8>,
) -> Result<Option<Groups>, AllocError>
    ensures { IfOk result (λ o. option_map groups_of o ≡ again low high (groups_of groups)) }
{
    let Groups { top, below } = groups;
    let Frame {
        before,
        branch,
        unit,
    } = top;
    match unit {
        Some(unit) => {
            let body = Box::new(alloc, unit)?;
            let unit = Some(Expr::Times { body, low, high });
            Ok(Some(Groups {
                top: Frame {
                    before,
                    branch,
                    unit,
                },
                below,
            }))
        }
        None => Ok(None),
    }
}

/// Repeats the whole branch.
fn repeat_branch(
    alloc: Global,
    groups: Groups,
    low: u8,
    high: Option<u8>,
) -> Result<Option<Groups>, AllocError>
    ensures { IfOk result
        (λ o. option_map groups_of o ≡ step (interval low high) (groups_of groups)) }
{
    let Groups { top, below } = groups;
    let Frame {
        before,
        branch,
        unit,
    } = top;
    match whole(alloc, branch, unit)? {
        Some(branch) => {
            let body = Box::new(alloc, branch)?;
            let branch = Some(Expr::Times { body, low, high });
            Ok(Some(Groups {
                top: Frame {
                    before,
                    branch,
                    unit: None,
                },
                below,
            }))
        }
        None => Ok(None),
    }
}

/// Opens a group.
fn open_group(groups: Groups) -> Result<Groups, AllocError>
    ensures { IfOk result (λ next. step open_group (groups_of groups) ≡ Some (groups_of next)) }
{
    let Groups { top, mut below } = groups;
    below.push(top)?;
    Ok(Groups {
        top: empty_frame(),
        below,
    })
}

/// Closes the innermost group.
fn close_group(alloc: Global, groups: Groups) -> Result<Option<Groups>, AllocError>
    ensures { IfOk result (λ o. option_map groups_of o ≡ step close_group (groups_of groups)) }
{
    let Groups { top, mut below } = groups;
    let Some(tree) = total(alloc, top)? else {
        return Ok(None);
    };
    match below.pop() {
        Some(outer) => {
            let top = push(alloc, outer, tree)?;
            Ok(Some(Groups { top, below }))
        }
        None => Ok(None),
    }
}

/// Ends an alternative.
fn next_alternative(alloc: Global, groups: Groups) -> Result<Option<Groups>, AllocError>
    ensures { IfOk result (λ o. option_map groups_of o ≡ step bar (groups_of groups)) }
{
    let Groups { top, below } = groups;
    match total(alloc, top)? {
        Some(tree) => Ok(Some(Groups {
            top: Frame {
                before: Some(tree),
                branch: None,
                unit: None,
            },
            below,
        })),
        None => Ok(None),
    }
}

/// Takes one more lexeme. Returns `None` if it isn't allowed here.
pub fn step(alloc: Global, groups: Groups, lexeme: Lexeme) -> Result<Option<Groups>, AllocError>
    ensures { IfOk result
        (λ o. option_map groups_of o ≡ step (lexeme_of lexeme) (groups_of groups)) }
{
    match lexeme {
        Lexeme::Set(set) => Ok(Some(push_unit(alloc, groups, Expr::Set(set))?)),
        Lexeme::Quoted(first, more) => {
            let string = join_bytes(alloc, first, more.as_slice())?;
            Ok(Some(push_unit(alloc, groups, string)?))
        }
        Lexeme::Name(name) => Ok(Some(push_unit(alloc, groups, Expr::Name(name))?)),
        Lexeme::Interval(low, high) => repeat_branch(alloc, groups, low, high),
        Lexeme::OpenGroup => Ok(Some(open_group(groups)?)),
        Lexeme::CloseGroup => close_group(alloc, groups),
        Lexeme::Repeat(low, high) => repeat_last(alloc, groups, low, high),
        Lexeme::EmptyWord => Ok(Some(push_unit(alloc, groups, Expr::Nil)?)),
        Lexeme::Bar => next_alternative(alloc, groups),
    }
}

/// Returns the alternation that was read, if no group is open and something follows the last bar.
pub fn finish(alloc: Global, groups: Groups) -> Result<Option<Expr>, AllocError>
    ensures { IfOk result
        (λ o. option_map regex_of o ≡ finish (groups_of groups).top (groups_of groups).below) }
{
    let Groups { top, below } = groups;
    if below.is_empty() {
        total(alloc, top)
    } else {
        Ok(None)
    }
}
