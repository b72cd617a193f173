//! Makes the specification of a scanner from the rules of a file for lex or flex.

ghost use Rattle.std.specs.Cmp.Lexicographic.{pointwise};
ghost use Rattle.std.specs.Prelude.{◌≡◌, ◌++◌, ◌+◌, ◌<◌, ◌∷◌, [], false, true, length, map, nat_eq, IfOk, IfSome, IsTrue, OnOk, Some};
ghost use Rattle.std.specs.List.{list_all, list_any};
ghost use Rattle.std.specs.Option.{option_map};
ghost use Rattle.lx_ere.specs.Bounds.{has_ordered_bounds};
ghost use Rattle.lx_ere.specs.Regex as ere;
ghost use Rattle.lx_ere.specs.Regex.{regex_of};
ghost use Rattle.lx_flex_pattern.specs.ReadingOf as flex;
ghost use Rattle.lx_lex.specs.Checked.{is_idle, is_sound};
ghost use Rattle.lx_lex.specs.Cuts as cuts;
ghost use Rattle.lx_lex.specs.Cuts.{IsCutSpec, part_rule, part_rules, parts_of, with_parts};
ghost use Rattle.lx_lex.specs.Translation.{IsPlainSpec, IsScannerSpec, before_rules, plain_rule, reach_of, rules_of, with_context};
ghost use Rattle.lx_lex.specs.views.{file_rule};
ghost use Rattle.lx_rules.specs.Invariant.{are_conditions, are_distinct, are_rising_below, are_start_conditions, begins_initial};
ghost use Rattle.lx_rules.specs.Names.{names_of};
ghost use Rattle.lx_rules.specs.Nesting.{is_no_name};
ghost use Rattle.lx_rules.specs.views.Conditions.{condition_view};
ghost use Rattle.lx_rules.specs.views.Rules.{rule_view};
ghost use Rattle.lx_rules.specs.views.Specs.{spec_view};

use crate::outline::{cut_between, is_varying};
use lx_c::pushing::push_number;
use lx_ere::{ByteSet, Expr, Pattern};
use lx_flex::rules::FlexRule;
use lx_flex_pattern::PatternReading;
use lx_rules::limits::{MAX_RULES, MAX_START_CONDITIONS};
use lx_rules::{Condition, Rule, Spec, Step, Steps};
use std::alloc::{AllocError, Global};

// Returns an expression that is followed by another one.
fn then(alloc: Global, first: Expr, second: Expr) -> Result<Expr, AllocError>
    ensures { IfOk result (λ e. regex_of e ≡ ere.then (regex_of first) (regex_of second)) }
{
    let first = Box::new(alloc, first)?;
    let second = Box::new(alloc, second)?;
    Ok(Expr::Then(first, second))
}

// Returns an expression that matches the texts of either.
fn either(alloc: Global, this: Expr, that: Expr) -> Result<Expr, AllocError>
    ensures { IfOk result (λ e. regex_of e ≡ ere.or (regex_of this) (regex_of that)) }
{
    let this = Box::new(alloc, this)?;
    let that = Box::new(alloc, that)?;
    Ok(Expr::Or(this, that))
}

// Returns an expression that is repeated.
fn times(alloc: Global, body: Expr, low: u8, high: Option<u8>) -> Result<Expr, AllocError>
    ensures { IfOk result (λ e. regex_of e ≡ ere.times (regex_of body) low high) }
{
    let body = Box::new(alloc, body)?;
    Ok(Expr::Times { body, low, high })
}

// Returns an expression with what has to follow its texts.
fn with_context(
    alloc: Global,
    expr: Expr,
    line_end: bool,
    trailing: Option<Expr>,
) -> Result<Expr, AllocError>
    ensures { IfOk result (λ e.
        regex_of e ≡ with_context (regex_of expr) line_end (option_map regex_of trailing)) }
{
    match trailing {
        Some(context) => then(alloc, expr, context),
        None => {
            if line_end {
                then(alloc, expr, Expr::Set(ByteSet::of(b'\n')))
            } else {
                Ok(expr)
            }
        }
    }
}

// Returns the rule of a pattern.
fn rule_of(
    alloc: Global,
    line: u32,
    conditions: Option<Vec<u16>>,
    reading: PatternReading,
) -> Result<Rule, AllocError>
    ensures { IfOk result (λ rule. rule_view rule ≡ plain_rule (record
        { line = line; conditions = option_map (λ v. v.items) conditions; reading = Some (flex.reading_of reading) })
        (flex.reading_of reading)) }
{
    let PatternReading {
        pattern,
        trailing,
        length: _,
        parts: _,
    } = reading;
    let Pattern {
        line_begin,
        line_end,
        expr,
    } = pattern;
    let expr = with_context(alloc, expr, line_end, trailing)?;
    let action = Steps::from_vec(Vec::new(alloc))?;
    Ok(Rule {
        line,
        conditions,
        pattern: Pattern {
            line_begin,
            line_end: false,
            expr,
        },
        action,
    })
}

// Adds the rule of a rule of the file, if it has a pattern.
fn add_rule(alloc: Global, rules: &mut Vec<Rule>, raw: FlexRule) -> Result<(), AllocError>
    ensures { OnOk result (map rule_view rules.new.items
        ≡ map rule_view rules.old.items ++ rules_of (file_rule raw ∷ [])) }
{
    let FlexRule {
        place,
        conditions,
        reading,
        action: _,
    } = raw;
    match reading {
        None => Ok(()),
        Some(reading) => {
            rules.push(rule_of(alloc, place.line, conditions, reading)?)?;
            Ok(())
        }
    }
}

// Returns the rules that have patterns.
fn rules_of(alloc: Global, raws: Vec<FlexRule>) -> Result<Vec<Rule>, AllocError>
    ensures { IfOk result (λ rules. map rule_view rules.items ≡ rules_of (map file_rule raws.items)) }
{
    let mut rules = Vec::new(alloc);
    for raw in raws {
        add_rule(alloc, &mut rules, raw)?;
    }
    Ok(rules)
}

// Returns true if no definition is named, and the bounds of intervals are in order.
fn has_no_name(tree: &Expr) -> bool
    ensures { result ≡ is_no_name (names_of (regex_of tree.now)) }
{
    match tree {
        Expr::Nil => true,
        Expr::Set(_) => true,
        Expr::Then(first, second) => has_no_name(first) && has_no_name(second),
        Expr::Or(this, that) => has_no_name(this) && has_no_name(that),
        Expr::Times {
            body,
            low: _,
            high: _,
        } => has_no_name(body),
        Expr::Name(_) => false,
    }
}

fn is_at_most(low: u8, high: Option<u8>) -> bool
    ensures { result ≡ Rattle.lx_ere.specs.Bounds.is_ordered low high }
{
    match high {
        None => true,
        Some(high) => low <= high,
    }
}

fn has_ordered_bounds(tree: &Expr) -> bool
    ensures { result ≡ has_ordered_bounds (regex_of tree.now) }
{
    match tree {
        Expr::Nil => true,
        Expr::Set(_) => true,
        Expr::Then(first, second) => has_ordered_bounds(first) && has_ordered_bounds(second),
        Expr::Or(this, that) => has_ordered_bounds(this) && has_ordered_bounds(that),
        Expr::Times { body, low, high } => is_at_most(*low, *high) && has_ordered_bounds(body),
        Expr::Name(_) => true,
    }
}

// Returns true if the numbers are in ascending order, and below a bound.
fn are_rising_below(most: u16, numbers: &[u16]) -> bool
    ensures { result ≡ true → IsTrue (are_rising_below most numbers.now) }
{
    let mut left = numbers;
    for _ in numbers {
        let Some((number, more)) = left.split_first() else {
            return left.is_empty();
        };
        let next = match more.first() {
            Some(next) => *next,
            None => most,
        };
        if *number >= next {
            return false;
        }
        left = more;
    }
    left.is_empty()
}

fn are_conditions(most: u16, conditions: &Option<Vec<u16>>) -> bool
    ensures { result ≡ true
        → IsTrue (are_conditions most (option_map (λ v. v.items) conditions.now)) }
{
    match conditions {
        None => true,
        Some(list) => are_rising_below(most, list.as_slice()),
    }
}

fn is_idle(steps: &[Step]) -> bool
    ensures { result ≡ is_idle steps.now }
{
    steps.is_empty()
}

// Returns true if a rule may be one of a specification with this number of conditions, and without definitions.
fn is_sound(conditions: u16, rule: &Rule) -> bool
    ensures { result ≡ true → IsTrue (is_sound conditions (rule_view rule.now)) }
{
    rule.line > 0
        && are_conditions(conditions, &rule.conditions)
        && is_idle(rule.action.as_slice())
        && has_no_name(&rule.pattern.expr)
        && has_ordered_bounds(&rule.pattern.expr)
}

fn are_sound(conditions: u16, rules: &[Rule]) -> bool
    ensures { result ≡ true → IsTrue (list_all (is_sound conditions) (map rule_view rules.now)) }
{
    let mut left = rules;
    for _ in rules {
        let Some((rule, more)) = left.split_first() else {
            return left.is_empty();
        };
        if !is_sound(conditions, rule) {
            return false;
        }
        left = more;
    }
    left.is_empty()
}

fn same_name(one: &[u8], other: &[u8]) -> bool
    ensures { result ≡ pointwise nat_eq one.now other.now }
{
    one == other
}

fn has_condition(conditions: &[Condition], name: &[u8]) -> bool
    ensures { result ≡ false
        → list_any (λ other. pointwise nat_eq other name.now) (map (λ s. s.name) (map condition_view conditions.now)) ≡ false }
{
    let mut left = conditions;
    for _ in conditions {
        let Some((condition, more)) = left.split_first() else {
            return !left.is_empty();
        };
        if same_name(condition.name.as_slice(), name) {
            return true;
        }
        left = more;
    }
    !left.is_empty()
}

// Returns true if no two conditions have the same name.
fn are_distinct(conditions: &[Condition]) -> bool
    ensures { result ≡ true
        → IsTrue (are_distinct (map (λ s. s.name) (map condition_view conditions.now))) }
{
    let mut left = conditions;
    for _ in conditions {
        let Some((condition, more)) = left.split_first() else {
            return left.is_empty();
        };
        if has_condition(more, condition.name.as_slice()) {
            return false;
        }
        left = more;
    }
    left.is_empty()
}

// Returns true if the first condition is `INITIAL`.
fn begins_initial(conditions: &[Condition]) -> bool
    ensures { result ≡ begins_initial (map condition_view conditions.now) }
{
    match conditions.first() {
        None => false,
        Some(first) => same_name(first.name.as_slice(), b"INITIAL") && !first.exclusive,
    }
}

// Makes a specification of these conditions and rules, without definitions and kinds. Returns `None` if none can have them.
fn plain_specification(alloc: Global, conditions: Vec<Condition>, rules: Vec<Rule>) -> Option<Spec>
    ensures { IfSome result (λ spec. IsPlainSpec (map condition_view conditions.items)
        (map rule_view rules.items) (spec_view spec)) }
{
    if conditions.len() > MAX_START_CONDITIONS || rules.len() > MAX_RULES {
        return None;
    }
    if !begins_initial(&conditions) {
        return None;
    }
    if !are_distinct(&conditions) {
        return None;
    }
    let count = conditions.len() as u16;
    if !are_sound(count, &rules) {
        return None;
    }
    Some(Spec {
        conditions,
        definitions: Vec::new(alloc),
        kinds: Vec::new(alloc),
        rules,
    })
}

/// Makes the specification of a scanner: its rules are those of the file, one for one, without those for `<<EOF>>`.
///
/// A rule's pattern is the text that has to be there for a match: with trailing context, which is cut off again when the scanner runs. Returns `None`
/// if the conditions or rules are none that a specification can have. The reader of files gives no such ones.
pub fn specification_of(
    alloc: Global,
    conditions: Vec<Condition>,
    raws: Vec<FlexRule>,
) -> Result<Option<Spec>, AllocError>
    ensures { IfOk result (λ made. IfSome made (λ spec.
        IsScannerSpec (map condition_view conditions.items) (map file_rule raws.items)
        (spec_view spec))) }
{
    let rules = rules_of(alloc, raws)?;
    Ok(plain_specification(alloc, conditions, rules))
}

// Returns the expression that matches the texts of another one, each from its last byte to its first.
fn reversed(alloc: Global, tree: &Expr) -> Result<Expr, AllocError>
    ensures { IfOk result (λ e. regex_of e ≡ cuts.reversed (regex_of tree.now)) }
{
    match tree {
        Expr::Nil => Ok(Expr::Nil),
        Expr::Set(set) => Ok(Expr::Set(set.clone()?)),
        Expr::Then(first, second) => {
            let last = reversed(alloc, second)?;
            let first = reversed(alloc, first)?;
            then(alloc, last, first)
        }
        Expr::Or(this, that) => {
            let this = reversed(alloc, this)?;
            let that = reversed(alloc, that)?;
            either(alloc, this, that)
        }
        Expr::Times { body, low, high } => {
            let body = reversed(alloc, body)?;
            times(alloc, body, *low, *high)
        }
        Expr::Name(name) => Ok(Expr::Name(name.clone()?)),
    }
}

// Adds the rule of a part. It is active in a condition of its own alone.
fn add_part(alloc: Global, rules: &mut Vec<Rule>, line: u32, expr: Expr) -> Result<(), AllocError>
    ensures count { OnOk result (length rules.new.items ≡ length rules.old.items + 1) }
    ensures rule { OnOk result (length rules.old.items < 65535
        → map rule_view rules.new.items ≡ map rule_view rules.old.items
        ++ part_rule (length rules.old.items + 1) (record { line = line; tree = regex_of expr }) ∷ []) }
{
    let number = u16::try_from(rules.len().saturating_add(1)).unwrap_or(u16::MAX);
    let mut active = Vec::new(alloc);
    active.push(number)?;
    rules.push(Rule {
        line,
        conditions: Some(active),
        pattern: Pattern {
            line_begin: false,
            line_end: false,
            expr,
        },
        action: Steps::from_vec(Vec::new(alloc))?,
    })?;
    Ok(())
}

// Adds the rules of both parts of a rule with trailing context.
fn add_both(
    alloc: Global,
    rules: &mut Vec<Rule>,
    line: u32,
    token: &Expr,
    context: &Expr,
) -> Result<(), AllocError>
    ensures count { OnOk result (length rules.new.items ≡ length rules.old.items + 2) }
    ensures rules { OnOk result (length rules.new.items < 65536
        → map rule_view rules.new.items ≡ map rule_view rules.old.items
        ++ part_rules (length rules.old.items + 1) (with_parts true line (regex_of token.now) (regex_of context.now) [])) }
{
    add_part(alloc, rules, line, token.clone()?)?;
    add_part(alloc, rules, line, reversed(alloc, context)?)
}

// Adds the rules of the parts of a rule, if both vary.
fn add_parts(alloc: Global, rules: &mut Vec<Rule>, raw: &FlexRule) -> Result<(), AllocError>
    ensures count { OnOk result (length rules.new.items
        ≡ length rules.old.items + length (parts_of (file_rule raw.now ∷ []))) }
    ensures rules { OnOk result (length rules.new.items < 65536
        → map rule_view rules.new.items ≡ map rule_view rules.old.items
        ++ part_rules (length rules.old.items + 1) (parts_of (file_rule raw.now ∷ []))) }
{
    let Some(reading) = &raw.reading else {
        return Ok(());
    };
    let Some(context) = &reading.trailing else {
        return Ok(());
    };
    let token = &reading.pattern.expr;
    if is_varying(cut_between(token, context)) {
        return add_both(alloc, rules, raw.place.line, token, context);
    }
    Ok(())
}

// Returns `INITIAL`, and this number of further conditions.
fn part_conditions(alloc: Global, count: usize) -> Result<Vec<Condition>, AllocError>
    ensures { IfOk result (λ conditions. length conditions.items ≡ count + 1) }
{
    let mut conditions = Vec::new(alloc);
    conditions.push(Condition {
        name: Vec::from_slice(alloc, b"INITIAL")?,
        exclusive: false,
    })?;
    for number in 0..count {
        let mut name = Vec::from_slice(alloc, b"part")?;
        push_number(&mut name, number as u64)?;
        conditions.push(Condition {
            name,
            exclusive: true,
        })?;
    }
    Ok(conditions)
}

/// Makes the specification that finds where tokens with trailing context of several lengths end. It has two rules for each such rule r/s of the file, each
/// in a condition of its own: the first matches r, and the second s from its last byte to its first. Returns `None` if there are too many.
pub fn cut_specification_of(alloc: Global, raws: &[FlexRule]) -> Result<Option<Spec>, AllocError>
    ensures { IfOk result (λ made.
        IfSome made (λ spec. IsCutSpec (map file_rule raws.now) (spec_view spec))) }
{
    let mut rules = Vec::new(alloc);
    for raw in raws {
        add_parts(alloc, &mut rules, raw)?;
    }
    if rules.len() >= MAX_START_CONDITIONS {
        return Ok(None);
    }
    let conditions = part_conditions(alloc, rules.len())?;
    Ok(plain_specification(alloc, conditions, rules))
}
