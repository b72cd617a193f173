//! Repeats expressions by the bounds of intervals. A bound above 255 needs several intervals, since those of `Expr` have bounds up to 255.

ghost use Rattle.std.specs.Prelude.{◌≡◌, ◌≤◌, ◌<◌, IfErr, IfOk, Some, true};
ghost use Rattle.lx_ere.specs.Regex.{Regex, regex_of, then, times};
ghost use Rattle.lx_flex_pattern.specs.Faults.{is_limit};
ghost use Rattle.lx_flex_pattern.specs.Intervals.{IsKeptAs, block};
ghost use Rattle.lx_flex_pattern.specs.Limits.{max_flex_bound};

use crate::bounds::Bounds;
use crate::fault::PatternFault;
use lx_ere::Expr;
use std::alloc::{AllocError, Global};

// Greatest number of nodes of an expression that is copied. Without a limit, intervals of intervals would double it each time.
const MAX_COPIED_NODES: u16 = 1024;

// Number of repetitions of a block.
const BLOCK: u16 = 64;

// Returns the number of nodes that are left of this number after those of the tree. Returns `None` if the tree has more.
fn nodes_left(tree: &Expr, nodes: u16) -> Option<u16> {
    let nodes = nodes.checked_sub(1)?;
    match tree {
        Expr::Nil | Expr::Set(_) | Expr::Name(_) => Some(nodes),
        Expr::Then(first, second) => nodes_left(second, nodes_left(first, nodes)?),
        Expr::Or(this, that) => nodes_left(that, nodes_left(this, nodes)?),
        Expr::Times {
            body,
            low: _,
            high: _,
        } => nodes_left(body, nodes),
    }
}

// Returns the body repeated from `low` to `high` times.
fn times(alloc: Global, body: Expr, low: u8, high: Option<u8>) -> Result<Expr, AllocError>
    ensures { IfOk result (λ e. regex_of e ≡ times (regex_of body) low high) }
{
    let body = Box::new(alloc, body)?;
    Ok(Expr::Times { body, low, high })
}

// Returns from `low` to `high` blocks of the body.
fn blocks(alloc: Global, body: Expr, low: u8, high: u8) -> Result<Expr, AllocError>
    ensures { IfOk result
        (λ e. regex_of e ≡ times (block (regex_of body)) low (Some high)) }
{
    let block = times(alloc, body, 64, Some(64))?;
    times(alloc, block, low, Some(high))
}

// Returns blocks of the body, then the rest of the repetitions. Needs a copy of the body.
fn blocks_before(
    alloc: Global,
    body: Expr,
    low: u8,
    high: u8,
    rest_low: u8,
    rest_high: Option<u8>,
) -> Result<Expr, PatternFault>
    ensures ok { IfOk result (λ e. regex_of e
        ≡ then (times (block (regex_of body)) low (Some high))
        (times (regex_of body) rest_low rest_high)) }
    ensures err { IfErr result (λ fault. is_limit fault ≡ true) }
{
    if nodes_left(&body, MAX_COPIED_NODES).is_none() {
        return Err(PatternFault::TooLarge);
    }
    let rest = times(alloc, body.clone()?, rest_low, rest_high)?;
    let front = blocks(alloc, body, low, high)?;
    let front = Box::new(alloc, front)?;
    let rest = Box::new(alloc, rest)?;
    Ok(Expr::Then(front, rest))
}

// Returns the body repeated exactly `count` times.
#[tactic(auto, using(crate::proofs::BoundLemmas::exact_blocks, crate::proofs::BoundLemmas::exact_before))]
fn exactly(alloc: Global, body: Expr, count: u16) -> Result<Expr, PatternFault>
    requires large { 255 < count }
    requires fits { count ≤ max_flex_bound }
    ensures ok { IfOk result (λ e. (t : Regex) → IsKeptAs t (regex_of body)
        → IsKeptAs (times t count (Some count)) (regex_of e)) }
    ensures err { IfErr result (λ fault. is_limit fault ≡ true) }
{
    let whole = (count / BLOCK) as u8;
    let rest = (count % BLOCK) as u8;
    if rest == 0 {
        return Ok(blocks(alloc, body, whole, whole)?);
    }
    let repeated = blocks_before(alloc, body, whole, whole, rest, Some(rest))?;
    Ok(repeated)
}

// Returns the body repeated from `low` to `high` times.
#[tactic(auto, using(crate::proofs::BoundLemmas::near_before, crate::proofs::BoundLemmas::far_before))]
fn between(alloc: Global, body: Expr, low: u16, high: u16) -> Result<Expr, PatternFault>
    requires ordered { low ≤ high }
    requires large { 255 < high }
    requires fits { high ≤ max_flex_bound }
    ensures ok { IfOk result (λ e. (t : Regex) → IsKeptAs t (regex_of body)
        → IsKeptAs (times t low (Some high)) (regex_of e)) }
    ensures err { IfErr result (λ fault. is_limit fault ≡ true) }
{
    let whole = low / BLOCK;
    let rest = low % BLOCK;
    let left = high - whole * BLOCK;
    if left <= 255 {
        let repeated = blocks_before(
            alloc,
            body,
            whole as u8,
            whole as u8,
            rest as u8,
            Some(left as u8),
        )?;
        return Ok(repeated);
    }
    let over = left - rest - (BLOCK - 1);
    let most = whole + over / BLOCK;
    let rest_high = rest + (BLOCK - 1) + over % BLOCK;
    let repeated = blocks_before(
        alloc,
        body,
        whole as u8,
        most as u8,
        rest as u8,
        Some(rest_high as u8),
    )?;
    Ok(repeated)
}

// Returns the body repeated at least `low` times.
#[tactic(auto, using(crate::proofs::BoundLemmas::least_before))]
fn at_least(alloc: Global, body: Expr, low: u16) -> Result<Expr, PatternFault>
    requires large { 255 < low }
    requires fits { low ≤ max_flex_bound }
    ensures ok { IfOk result (λ e. (t : Regex) → IsKeptAs t (regex_of body)
        → IsKeptAs (times t low None) (regex_of e)) }
    ensures err { IfErr result (λ fault. is_limit fault ≡ true) }
{
    let whole = (low / BLOCK) as u8;
    let rest = (low % BLOCK) as u8;
    let repeated = blocks_before(alloc, body, whole, whole, rest, None)?;
    Ok(repeated)
}

/// Returns the body repeated as the bounds say.
///
/// Err: a limit if the body is too large to be copied.
pub(crate) fn repeated(alloc: Global, body: Expr, bounds: Bounds) -> Result<Expr, PatternFault>
    ensures ok { IfOk result (λ e. (t : Regex) → IsKeptAs t (regex_of body)
        → IsKeptAs (times t bounds.low bounds.high) (regex_of e)) }
    ensures err { IfErr result (λ fault. is_limit fault ≡ true) }
{
    let Bounds { low, high } = bounds;
    match high {
        Some(high) => {
            if high <= 255 {
                Ok(times(alloc, body, low as u8, Some(high as u8))?)
            } else if low == high {
                exactly(alloc, body, high)
            } else {
                between(alloc, body, low, high)
            }
        }
        None => {
            if low <= 255 {
                Ok(times(alloc, body, low as u8, None)?)
            } else {
                at_least(alloc, body, low)
            }
        }
    }
}
