//! Names that are nested too deep, or in a circle.

use crate::names::{Visit, names_in, number_of, substitute_of};
use crate::outline::Outline;
use crate::places::Span;
use lx_rules::limits::MAX_NAME_DEPTH;
use std::alloc::{AllocError, Global};

// A mention of a definition, with its place.
#[derive(Clone, Copy)]
struct PlacedMention {
    to: usize,
    at: Span,
}

// The progress in following a definition.
#[derive(Clone, Copy)]
enum Stage {
    // It wasn't followed yet.
    Pending,
    // It leads to the definition that is being followed.
    Open,
    // It was followed completely. This is the number of names in the longest chain from it on.
    Done(usize),
}

// The range of a definition's mentions: from `first` up to `end`.
#[derive(Clone, Copy)]
struct MentionRange {
    first: usize,
    end: usize,
}

// A definition that is being followed, and the number of its next mention.
#[derive(Clone, Copy)]
struct DepthStep {
    definition: usize,
    next: usize,
}

/// The way in which names are too deep.
#[derive(Clone, Copy)]
pub(crate) enum Depth {
    /// A definition leads to itself, by the mention at this place.
    Circle(Span),
    /// The chain of names is too long.
    TooLong,
}

/// The mentions of definitions by definitions.
#[derive(Drop)]
pub(crate) struct Mentions {
    mentions: Vec<PlacedMention>,
    rows: Vec<MentionRange>,
    stages: Vec<Stage>,
}

fn push_mentions(
    outline: &Outline,
    text: &[u8],
    names: &[Span],
    mentions: &mut Vec<PlacedMention>,
) -> Result<(), AllocError> {
    for name in names {
        let at = *name;
        if let Some(to) = number_of(outline, text, at) {
            mentions.push(PlacedMention { to, at })?;
        }
    }
    Ok(())
}

fn set_row(rows: &mut [MentionRange], number: usize, row: MentionRange) {
    if number < rows.len() {
        rows[number] = row;
    }
}

fn row_of(rows: &[MentionRange], number: usize) -> MentionRange {
    if number < rows.len() {
        rows[number]
    } else {
        MentionRange { first: 0, end: 0 }
    }
}

fn set_stage(stages: &mut [Stage], number: usize, stage: Stage) {
    if number < stages.len() {
        stages[number] = stage;
    }
}

fn stage_of(stages: &[Stage], number: usize) -> Stage {
    if number < stages.len() {
        stages[number]
    } else {
        Stage::Done(0)
    }
}

/// Collects the mentions by the definitions to which a rule leads.
pub(crate) fn mentions_of(
    alloc: Global,
    outline: &Outline,
    text: &[u8],
    visits: &[Visit],
) -> Result<Mentions, AllocError> {
    let mut mentions = Vec::new(alloc);
    let count = outline.definitions.len();
    let mut rows = vec![in alloc; MentionRange { first: 0, end: 0 }; count]?;
    let stages = vec![in alloc; Stage::Pending; count]?;
    for visit in visits {
        let number = visit.definition;
        let names = names_in(alloc, text, substitute_of(&outline.definitions, number))?;
        let first = mentions.len();
        push_mentions(outline, text, &names, &mut mentions)?;
        let end = mentions.len();
        set_row(&mut rows, number, MentionRange { first, end });
    }
    Ok(Mentions {
        mentions,
        rows,
        stages,
    })
}

fn height(mentions: &[PlacedMention], stages: &[Stage], row: MentionRange) -> usize {
    let mut most: usize = 0;
    for i in row.first..row.end {
        if i < mentions.len() {
            if let Stage::Done(names) = stage_of(stages, mentions[i].to) {
                most = most.max(names);
            }
        }
    }
    most.saturating_add(1)
}

// Takes one step: follows a mention, or completes a definition. Returns the mention if it closes a circle.
fn take_step(
    mentions: &[PlacedMention],
    rows: &[MentionRange],
    stages: &mut [Stage],
    steps: &mut Vec<DepthStep>,
    step: DepthStep,
) -> Result<Option<Span>, AllocError> {
    let row = row_of(rows, step.definition);
    if step.next >= row.end || step.next >= mentions.len() {
        let names = height(mentions, stages, row);
        set_stage(stages, step.definition, Stage::Done(names));
        return Ok(None);
    }
    let mention = mentions[step.next];
    steps.push(DepthStep {
        definition: step.definition,
        next: step.next + 1,
    })?;
    match stage_of(stages, mention.to) {
        Stage::Open => Ok(Some(mention.at)),
        Stage::Done(_) => Ok(None),
        Stage::Pending => {
            set_stage(stages, mention.to, Stage::Open);
            steps.push(DepthStep {
                definition: mention.to,
                next: row_of(rows, mention.to).first,
            })?;
            Ok(None)
        }
    }
}

/// Finds names that are too deep from a definition on.
pub(crate) fn depth_from(
    alloc: Global,
    mentions: &mut Mentions,
    definition: usize,
) -> Result<Option<Depth>, AllocError> {
    let Mentions {
        mentions,
        rows,
        stages,
    } = mentions;
    let most_steps = mentions
        .len()
        .saturating_add(rows.len())
        .saturating_add(rows.len());
    let mut steps = Vec::new(alloc);
    if let Stage::Pending = stage_of(stages, definition) {
        set_stage(stages, definition, Stage::Open);
        steps.push(DepthStep {
            definition,
            next: row_of(rows, definition).first,
        })?;
    }
    for _ in 0..most_steps {
        let Some(step) = steps.pop() else {
            break;
        };
        if let Some(at) = take_step(mentions, rows, stages, &mut steps, step)? {
            return Ok(Some(Depth::Circle(at)));
        }
    }
    match stage_of(stages, definition) {
        Stage::Done(names) => Ok(if names > usize::from(MAX_NAME_DEPTH) {
            Some(Depth::TooLong)
        } else {
            None
        }),
        Stage::Pending | Stage::Open => Ok(None),
    }
}
