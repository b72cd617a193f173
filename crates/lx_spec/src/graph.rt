//! The graph of mentions between definitions, and the facts that follow from it.

ghost use Rattle.std.specs.Prelude.{◌≡◌, ℕ, ◌+◌, ◌<◌, ◌≤◌, ◌↔◌, [], slice_index, Contains, IsTrue, IfOk, OnOk, vec_len};
ghost use Rattle.lx_rules.specs.Limits.{max_name_depth};
ghost use Rattle.lx_spec.specs.Graph.{IsMention, AreBelow, Leads, AreMarked, list_at, is_marked, Follow, AreSound, Reach};

use lx_rules::limits::MAX_NAME_DEPTH;
use std::alloc::{AllocError, Global};

/// A mention of one definition by another, by their numbers.
#[derive(Clone, Copy)]
pub struct Mention {
    pub from: usize,
    pub to: usize,
}

// Returns `count` empty lists.
fn empty_lists(alloc: Global, count: usize) -> Result<Vec<Vec<usize>>, AllocError>
    ensures len { IfOk result (λ lists. vec_len lists ≡ count) }
    ensures empty { IfOk result (λ lists. (j : ℕ) → list_at lists.items j ≡ []) }
{
    let mut lists = Vec::with_capacity(alloc, count)?;
    for _ in 0..count {
        lists.push(Vec::new(alloc))?;
    }
    Ok(lists)
}

// Returns for each definition the list of those that mention it.
fn mentioners_of(
    alloc: Global,
    count: usize,
    mentions: &[Mention],
) -> Result<Vec<Vec<usize>>, AllocError>
    requires { AreBelow mentions.now count }
    ensures len { IfOk result (λ lists. vec_len lists ≡ count) }
    ensures each { IfOk result
        (λ lists. (i j : ℕ) → Contains (list_at lists.items j) i ↔ IsMention mentions.now i j) }
{
    let mut mentioners = empty_lists(alloc, count)?;
    for mention in mentions {
        mentioners[mention.to].push(mention.from)?;
    }
    Ok(mentioners)
}

// Returns the numbers of the marked definitions.
fn numbers_of(alloc: Global, marks: &[bool]) -> Result<Vec<usize>, AllocError>
    ensures { IfOk result
        (λ numbers. (i : ℕ) → Contains numbers.items i ↔ IsTrue (is_marked marks.now i)) }
{
    let mut numbers = Vec::new(alloc);
    for i in 0..marks.len() {
        if marks[i] {
            numbers.push(i)?;
        }
    }
    Ok(numbers)
}

// Marks the definitions with these numbers, and pushes the newly marked ones onto the stack.
fn mark_all(
    numbers: &[usize],
    marks: &mut Vec<bool>,
    pending: &mut Vec<usize>,
) -> Result<(), AllocError>
    requires { (i : ℕ) → Contains numbers.now i → i < vec_len marks.old }
    ensures { OnOk result (AreMarked numbers.now marks.old.items marks.new.items pending.old.items
        pending.new.items) }
{
    for number in numbers {
        if !marks[*number] {
            marks[*number] = true;
            pending.push(*number)?;
        }
    }
    Ok(())
}

/// Marks each definition that leads to a marked one.
pub(crate) fn spread(
    alloc: Global,
    mentions: &[Mention],
    marks: Vec<bool>,
) -> Result<Vec<bool>, AllocError>
    requires { AreBelow mentions.now (vec_len marks) }
    ensures len { IfOk result (λ m. vec_len m ≡ vec_len marks) }
    ensures led { IfOk result
        (λ m. (i : ℕ) → IsTrue (is_marked m.items i) ↔ Leads mentions.now marks.items i) }
{
    let mentioners = mentioners_of(alloc, marks.len(), mentions)?;
    // marked definitions whose mentioners may still be unmarked
    let mut pending = numbers_of(alloc, &marks)?;
    let mut marks = marks;
    while let Some(number) = pending.pop() {
        mark_all(&mentioners[number], &mut marks, &mut pending)?;
    }
    Ok(marks)
}

// Makes one round: each depth becomes at least one more than those of the mentioned definitions.
fn deepen(mentions: &[Mention], depths: &mut Vec<u8>)
    requires below { AreBelow mentions.now (vec_len depths.old) }
    ensures len { vec_len depths.new ≡ vec_len depths.old }
    ensures sound { AreSound (IsMention mentions.now) depths.old.items
        → AreSound (IsMention mentions.now) depths.new.items }
    ensures reach { (most : ℕ) → most < max_name_depth
        → Reach (IsMention mentions.now) depths.old.items most
        → Reach (IsMention mentions.now) depths.new.items (most + 1) }
{
    for mention in mentions {
        let depth = depths[mention.from].max(depths[mention.to].min(MAX_NAME_DEPTH - 1) + 1);
        depths[mention.from] = depth;
    }
}

/// Returns for each definition the number of names that can follow it in a chain of mentions. `MAX_NAME_DEPTH` represents all greater numbers too.
pub(crate) fn depths_of(
    alloc: Global,
    count: usize,
    mentions: &[Mention],
) -> Result<Vec<u8>, AllocError>
    requires { AreBelow mentions.now count }
    ensures len { IfOk result (λ depths. vec_len depths ≡ count) }
    ensures depths { IfOk result (λ depths.
        (i n : ℕ) → n ≤ max_name_depth
        → ((n ≤ slice_index depths.items i) ↔ Follow (IsMention mentions.now) n i)) }
{
    let mut depths = vec![in alloc; 0; count]?;
    for _ in 0..MAX_NAME_DEPTH {
        deepen(mentions, &mut depths);
    }
    Ok(depths)
}
