//! Finds all that is suspicious in a text.

ghost use Rattle.std.specs.Prelude.{◌<◌, length};

use crate::action::look_at_action;
use crate::kinds::{KindSet, WarningKind};
use crate::layout::{DefinitionPart, Layout, TextPart};
use crate::pattern::look_at_pattern;
use crate::skipped::look_at_skipped;
use crate::suspects::{Subject, Suspect, SuspectSearch, push_part, push_suspect};
use crate::untaken::untaken_bytes;
use crate::warnings::Known;
use lx_diagnose::Span;
use lx_diagnose::places::between;
use lx_diagnose::scan::{is_listed, part, skip_name};
use lx_ere::{EreFault, read_substitute};
use lx_reach::far_ahead;
use lx_spec::Spec;
use lx_spec::action::{Action, read_action};
use lx_tables::Tables;
use std::alloc::{AllocError, Global};

// Words after `%` that declare conditions. Any other word that begins like one also declares, but is suspicious.
const CONDITION_WORDS: &[u8] = b" s S x X start ";

fn look_at_declaration(search: &mut SuspectSearch<'_>, line: &TextPart) -> Result<(), AllocError> {
    let text = search.text;
    let start = line.at.start.saturating_add(1);
    let word = between(start, skip_name(text, start, line.at.end()));
    if is_listed(CONDITION_WORDS, part(text, word)) {
        return Ok(());
    }
    let suspect = Suspect {
        kind: WarningKind::ConditionWord,
        at: between(line.at.start, word.end()),
        phrase: "`%@` declares conditions, as each word with this first letter does",
        subject: Subject::Parts(word, word),
    };
    push_suspect(search, &line.allowed, suspect)
}

fn look_at_conditions(
    search: &mut SuspectSearch<'_>,
    layout: &Layout,
    entered: &[bool],
) -> Result<(), AllocError> {
    for i in 0..layout.conditions.len() {
        // INITIAL is the first condition, and isn't declared
        if i + 1 < entered.len() && !entered[i + 1] {
            let condition = &layout.conditions[i];
            let phrase = "no rule enters the condition @";
            push_part(
                search,
                &condition.allowed,
                WarningKind::NeverEntered,
                condition.at,
                phrase,
            )?;
        }
    }
    Ok(())
}

// Returns true if rules reach the definition of a name.
fn is_used(spec: &Spec, name: &[u8]) -> bool {
    for definition in &spec.definitions {
        if definition.name.as_slice() == name {
            return true;
        }
    }
    false
}

fn unused_phrase(alloc: Global, substitute: &[u8]) -> Result<&'static str, AllocError> {
    match read_substitute(alloc, substitute) {
        Ok(_) => Ok("`@` is not used"),
        Err(EreFault::NoReading) => Ok("`@` is not used, and has no reading"),
        Err(EreFault::Memory) => Err(AllocError),
    }
}

// Warns of a definition that isn't used.
fn look_at_use(
    search: &mut SuspectSearch<'_>,
    spec: &Spec,
    definition: &DefinitionPart,
) -> Result<(), AllocError> {
    let alloc = search.alloc;
    let text = search.text;
    if is_used(spec, part(text, definition.name)) {
        return Ok(());
    }
    let phrase = unused_phrase(alloc, part(text, definition.substitute))?;
    push_part(
        search,
        &definition.allowed,
        WarningKind::UnusedDefinition,
        definition.name,
        phrase,
    )
}

fn is_shared(alloc: Global, action: &[u8]) -> Result<bool, AllocError> {
    Ok(matches!(read_action(alloc, action)?, Some(Action::Shared)))
}

// Warns of a rule in a list of conditions whose pattern is flex's `<<EOF>>`.
fn look_at_end_rule(
    search: &mut SuspectSearch<'_>,
    allowed: &KindSet,
    pattern: Span,
    behind_bar: bool,
) -> Result<(), AllocError> {
    let text = search.text;
    if part(text, pattern) != b"<<EOF>>".as_slice() {
        return Ok(());
    }
    let phrase = if behind_bar {
        "`@` is seven bytes of text, and no rule is for the end of a file: give its action to the rules before it, and delete it"
    } else {
        "`@` is seven bytes of text, and no rule is for the end of a file: delete it"
    };
    push_part(search, allowed, WarningKind::EofRule, pattern, phrase)
}

fn look_at_choice(
    search: &mut SuspectSearch<'_>,
    layout: &Layout,
    chosen: &[bool],
) -> Result<(), AllocError> {
    for i in 0..layout.rules.len() {
        let rule = &layout.rules[i];
        if i < chosen.len() && !chosen[i] {
            let never_chosen = Suspect {
                kind: WarningKind::NeverChosen,
                at: between(rule.start, rule.pattern.end()),
                phrase: "",
                subject: Subject::Takers(i),
            };
            push_suspect(search, &rule.allowed, never_chosen)?;
        }
    }
    Ok(())
}

fn look_at_rules(search: &mut SuspectSearch<'_>, layout: &Layout) -> Result<(), AllocError> {
    let alloc = search.alloc;
    let text = search.text;
    let mut behind_bar = false;
    for rule in &layout.rules {
        let allowed = &rule.allowed;
        look_at_end_rule(search, allowed, rule.pattern, behind_bar)?;
        look_at_pattern(search, allowed, rule.pattern)?;
        look_at_action(search, allowed, rule.action)?;
        behind_bar = is_shared(alloc, part(text, rule.action))?;
    }
    Ok(())
}

// Returns the name of a condition, or for INITIAL the line that begins the rules section.
fn condition_part(layout: &Layout, condition: u16) -> Option<&TextPart> {
    if condition == 0 {
        return layout.rules_begin.as_ref();
    }
    layout.conditions.get(usize::from(condition) - 1)
}

// Warns of the bytes that no rule takes in a condition.
fn look_at_untaken(
    search: &mut SuspectSearch<'_>,
    layout: &Layout,
    tables: &Tables,
    condition: u16,
) -> Result<(), AllocError>
    requires { condition < length tables.now.machine.starts }
{
    let alloc = search.alloc;
    let Some(named) = condition_part(layout, condition) else {
        return Ok(());
    };
    if untaken_bytes(alloc, tables, condition)?.is_empty() {
        return Ok(());
    }
    let suspect = Suspect {
        kind: WarningKind::UnreadBytes,
        at: named.at,
        phrase: "",
        subject: Subject::Untaken(condition),
    };
    push_suspect(search, &named.allowed, suspect)
}

fn look_at_all_untaken(
    search: &mut SuspectSearch<'_>,
    layout: &Layout,
    known: &Known<'_>,
) -> Result<(), AllocError> {
    for condition in 0..known.tables.conditions() {
        if usize::from(condition) < known.entered.len() && known.entered[usize::from(condition)] {
            look_at_untaken(search, layout, known.tables, condition)?;
        }
    }
    Ok(())
}

// Warns of rules for which runs of a byte are read to their end without a match.
fn look_at_runs(
    search: &mut SuspectSearch<'_>,
    layout: &Layout,
    known: &Known<'_>,
) -> Result<(), AllocError> {
    let alloc = search.alloc;
    for far in &far_ahead(alloc, known.tables, known.entered)? {
        if let Some(rule) = layout.rules.get(usize::from(far.rule)) {
            let suspect = Suspect {
                kind: WarningKind::FarAhead,
                at: between(rule.start, rule.pattern.end()),
                phrase: "a run of the byte `@` is read to its end, and where no match ends with it, again after each of its bytes",
                subject: Subject::Byte(far.byte),
            };
            push_suspect(search, &rule.allowed, suspect)?;
        }
    }
    Ok(())
}

// Examines the substitutes of definitions. If the specification is known, skips those that it doesn't use.
fn look_at_substitutes(
    search: &mut SuspectSearch<'_>,
    layout: &Layout,
    spec: Option<&Spec>,
) -> Result<(), AllocError> {
    let text = search.text;
    for definition in &layout.definitions {
        let is_told = match spec {
            Some(spec) => is_used(spec, part(text, definition.name)),
            None => true,
        };
        if is_told {
            let allowed = &definition.allowed;
            look_at_pattern(search, allowed, definition.substitute)?;
        }
    }
    Ok(())
}

/// Finds what is suspicious in single lines of a text. The specification is unknown if the text is rejected.
pub(crate) fn look_at_lines(
    search: &mut SuspectSearch<'_>,
    layout: &Layout,
    spec: Option<&Spec>,
) -> Result<(), AllocError> {
    for line in &layout.declarations {
        look_at_declaration(search, line)?;
    }
    look_at_substitutes(search, layout, spec)?;
    look_at_rules(search, layout)?;
    look_at_skipped(search, layout)
}

/// Finds what is suspicious in the parts of a text. Examines runs of a byte only if asked, since this takes long.
pub(crate) fn look_at_text(
    search: &mut SuspectSearch<'_>,
    asked: &KindSet,
    layout: &Layout,
    known: &Known<'_>,
) -> Result<(), AllocError> {
    look_at_conditions(search, layout, known.entered)?;
    for definition in &layout.definitions {
        look_at_use(search, known.spec, definition)?;
    }
    look_at_choice(search, layout, known.chosen)?;
    look_at_lines(search, layout, Some(known.spec))?;
    look_at_all_untaken(search, layout, known)?;
    if asked.contains(WarningKind::FarAhead) {
        look_at_runs(search, layout, known)?;
    }
    Ok(())
}
