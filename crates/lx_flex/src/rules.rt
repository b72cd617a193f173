//! The rules section (flex's manual, "Format of the Rules Section", "Start Conditions").

ghost use Rattle.std.specs.Prelude.{◌≡◌, ◌≢◌, ◌<◌, ◌++◌, ◌∷◌, ⊤, [], IfOk, IfSome, IsSome, is_some, MatchOption, OnOk, false, true, length, vec_len};
ghost use Rattle.std.specs.List.{range_with_len};
ghost use Rattle.std.specs.Option.{option_map};
ghost use Rattle.lx_flex.specs.Activity.{condition_number};
ghost use Rattle.lx_flex.specs.ConditionLists.{AreAllDeclared, IsList, IsNoList, after_name, name_len, name_of, numbers_of, unspaced};
ghost use Rattle.lx_flex.specs.RulesSections.{IsAfterCode, IsFurther, IsLater, IsRulesSection, Follows, begins_digit, begins_list, if_any, is_braced_name, is_code, is_end, is_first_code, is_later_code, opens_scope};
ghost use Rattle.lx_flex.specs.States.{HasRead, IfNoFault, IsClosed, IsListRead, begun, conditions_of, left, names_of, state_of, with_rule, with_scope};

use crate::c_code::{strip_mark, take_action, take_block, take_line, take_lines};
use crate::conditions::{name_at, place_of};
use crate::cursor::{
    FilePlace, TextCursor, TextRange, begins_blank, blank_run, front, is_blank, skip, space_run,
};
use crate::definitions::{Declared, add_code};
use crate::report::{ImportCause, ReadFault, Reports, stop};
use crate::scopes::Scopes;
use crate::warning::warn_of_pattern;
use lx_ere::prefix::begins_with;
use lx_flex_pattern::reading::MAX_FLEX_PATTERN_BYTES;
use lx_flex_pattern::{NamedPatterns, PatternFault, PatternReading, read_pattern};
use lx_rules::limits::MAX_RULES;
use std::alloc::{AllocError, Global};

// Greatest number of parts that the patterns before a rule may have. An automaton within the limits takes far fewer.
const MAX_PARTS_OF_FILE: u32 = 262_144;

/// The action of a rule, as it is written.
#[derive(Debug, Clone, Copy, PartialEq, Eq)]
pub enum RuleAction {
    /// `|`, the action of the next rule.
    Bar,
    /// C text.
    Code(TextRange),
}

/// A rule, as it is written.
#[derive(Debug, Drop)]
pub struct FlexRule {
    pub place: FilePlace,
    /// Conditions that it names, with those of the scopes around it. `None` if there are none.
    pub conditions: Option<Vec<u16>>,
    /// Pattern of the rule. `None` for `<<EOF>>`.
    pub reading: Option<PatternReading>,
    pub action: RuleAction,
}

/// C text after a number of rules.
#[derive(Debug, Clone, Copy, PartialEq, Eq)]
pub struct CodeAfterRules {
    /// Number of rules before it.
    pub rules: usize,
    pub code: TextRange,
}

/// The rules section.
#[derive(Debug, Drop)]
pub struct FlexRules {
    /// C text before the first rule.
    pub first_code: Vec<TextRange>,
    pub list: Vec<FlexRule>,
    /// C text between rules, in the order of the file.
    pub code: Vec<CodeAfterRules>,
}

/// The rules that were read, and the scopes that are open.
#[derive(Drop)]
struct Rules {
    scopes: Scopes,
    first_code: Vec<TextRange>,
    list: Vec<FlexRule>,
    code: Vec<CodeAfterRules>,
    /// True before the first rule. Indented lines are code then.
    prologue: bool,
    /// Number of parts of the patterns.
    parts: u32,
}

/// Returns the number of conditions.
fn condition_count(declared: &Declared) -> u16
    requires { vec_len declared.now.conditions < 65536 }
    ensures { result ≡ length (names_of declared.now) }
{
    u16::try_from(declared.conditions.len()).unwrap_or(u16::MAX)
}

/// Returns all conditions.
#[tactic(auto, using(crate::proofs::Joining::range_next))]
fn all_conditions(alloc: Global, declared: &Declared) -> Result<Vec<u16>, AllocError>
    requires { vec_len declared.now.conditions < 65536 }
    ensures { IfOk result (λ v. v.items ≡ range_with_len 0 (length (names_of declared.now))) }
{
    let mut numbers = Vec::new(alloc);
    for number in 0..condition_count(declared) {
        numbers.push(number)?;
    }
    Ok(numbers)
}

/// Skips blanks and newlines between the names of a list.
fn skip_space(cursor: &mut TextCursor)
    ensures { left cursor.new ≡ unspaced (left cursor.old) }
{
    let count = space_run(cursor.rest());
    cursor.advance(count);
}

/// Reads a name of a list, and adds its number.
fn read_condition(
    cursor: &mut TextCursor,
    declared: &Declared,
    reports: &mut Reports,
    numbers: &mut Vec<u16>,
) -> Result<bool, ReadFault>
    requires { vec_len declared.now.conditions < 65536 }
    ensures none { IfOk result (λ was. was ≡ false → name_len (left cursor.old) ≡ 0) }
    ensures same { IfOk result (λ was. was ≡ false → reports.new.fatal ≡ reports.old.fatal) }
    ensures name { IfOk result (λ was. was ≡ true → (name_len (left cursor.old) ≢ 0)
        × (left cursor.new ≡ after_name (left cursor.old))) }
    ensures number { IfOk result (λ was. was ≡ true → numbers.new.items
        ≡ numbers.old.items ++ numbers_of (names_of declared.now) (name_of (left cursor.old) ∷ [])) }
    ensures reported { IfOk result (λ was. was ≡ true → IfNoFault reports.old.fatal reports.new.fatal
        (is_some (condition_number (names_of declared.now) (name_of (left cursor.old))) ≡ true)) }
{
    let name = name_at(cursor.rest());
    if name.is_empty() {
        return Ok(false);
    }
    let found = place_of(declared.conditions.as_slice(), name);
    let place = cursor.place();
    cursor.advance(name.len());
    match found {
        Some(number) => numbers.push(number)?,
        None => reports.add(place, ImportCause::UnknownCondition, true)?,
    }
    Ok(true)
}

/// Reads the conditions of a list, starting after its `<`. Returns `None` if it isn't a list.
fn read_list(
    alloc: Global,
    cursor: &mut TextCursor,
    declared: &Declared,
    reports: &mut Reports,
) -> Result<Option<Vec<u16>>, ReadFault>
    requires { vec_len declared.now.conditions < 65536 }
    ensures list { IfOk result (λ found. MatchOption found (IsNoList (names_of declared.now) (left cursor.old))
        (λ own. IsList (names_of declared.now) (left cursor.old) own.items (left cursor.new))) }
    ensures reported { IfOk result (λ found. IfSome found (λ _. IfNoFault reports.old.fatal reports.new.fatal
        (AreAllDeclared (names_of declared.now) (left cursor.old)))) }
    ensures kept { OnOk result (IfNoFault reports.old.fatal reports.new.fatal ⊤) }
{
    if cursor.begins_with(b"*>") {
        cursor.advance(2);
        return Ok(Some(all_conditions(alloc, declared)?));
    }
    let mut numbers = Vec::new(alloc);
    for _ in 0..cursor.text.len() {
        skip_space(cursor);
        if !read_condition(cursor, declared, reports, &mut numbers)? {
            return Ok(None);
        }
        skip_space(cursor);
        let ends = cursor.is_at(b'>');
        let goes_on = cursor.is_at(b',');
        cursor.advance(1);
        if ends {
            return Ok(Some(numbers));
        }
        if !goes_on {
            return Ok(None);
        }
    }
    Ok(None)
}

/// Reads the action after a pattern.
fn read_action(cursor: &mut TextCursor) -> Result<RuleAction, ReadFault>
    ensures { OnOk result (IsFurther (left cursor.old) (left cursor.new)) }
{
    cursor.skip_blanks();
    if cursor.is_at(b'|') {
        cursor.skip_line();
        return Ok(RuleAction::Bar);
    }
    if cursor.begins_with(b"%{") {
        cursor.advance(2);
        return Ok(RuleAction::Code(take_block(cursor)?));
    }
    Ok(RuleAction::Code(take_action(cursor)?))
}

/// Returns the conditions, or `None` if there are none.
fn if_any(conditions: Vec<u16>) -> Option<Vec<u16>>
    ensures { option_map (λ v. v.items) result ≡ if_any conditions.items }
{
    if conditions.is_empty() {
        None
    } else {
        Some(conditions)
    }
}

/// Returns true if an action or the line's end follows the pattern.
fn is_behind_pattern(cursor: &TextCursor) -> bool {
    match cursor.peek_at(0) {
        None => true,
        Some(byte) => is_blank(byte) || byte == b'\n' || byte == b'\r',
    }
}

/// Reads the pattern at the start of a text that may go on for long.
fn pattern_at(
    alloc: Global,
    text: &[u8],
    declared: &Declared,
    names: &NamedPatterns,
) -> Result<PatternReading, PatternFault> {
    let window = front(MAX_FLEX_PATTERN_BYTES, text);
    let reading = read_pattern(alloc, window, names, declared.options.for_patterns())?;
    if reading.length == window.len() && window.len() < text.len() {
        return Err(PatternFault::TooLarge);
    }
    Ok(reading)
}

/// Adds the warnings on a pattern that begins here, if warnings are reported.
fn warn_if_asked(
    alloc: Global,
    cursor: &TextCursor,
    declared: &Declared,
    names: &NamedPatterns,
    reading: &PatternReading,
    reports: &mut Reports,
) -> Result<(), AllocError>
    ensures { OnOk result (reports.new.fatal ≡ reports.old.fatal) }
{
    if !reports.warns {
        return Ok(());
    }
    let options = declared.options.for_patterns();
    let text = front(reading.length, cursor.rest());
    warn_of_pattern(
        alloc,
        cursor.place(),
        text,
        reading,
        names,
        options,
        reports,
    )
}

/// Advances over a pattern that was read. Returns `None` with a report if no action follows it.
fn take_pattern(
    cursor: &mut TextCursor,
    reading: PatternReading,
    reports: &mut Reports,
) -> Result<Option<PatternReading>, ReadFault>
    ensures later { OnOk result (IsLater (left cursor.old) (left cursor.new)) }
    ensures some { IfOk result (λ r. IfNoFault reports.old.fatal reports.new.fatal (IsSome r)) }
{
    cursor.advance(reading.length);
    if is_behind_pattern(cursor) {
        return Ok(Some(reading));
    }
    reports.add(cursor.place(), ImportCause::BadRule, true)?;
    Ok(None)
}

/// Reports a fault of a pattern, and skips it.
fn skip_pattern(
    cursor: &mut TextCursor,
    cause: PatternFault,
    reports: &mut Reports,
) -> Result<(), ReadFault>
    ensures later { OnOk result (IsLater (left cursor.old) (left cursor.new)) }
    ensures fatal { OnOk result (reports.new.fatal ≡ true) }
{
    reports.add(cursor.place(), ImportCause::Pattern(cause), true)?;
    let length = lx_ere::pattern_end(cursor.line_rest());
    cursor.advance(length);
    Ok(())
}

/// Reads the pattern, or returns `None` with a report. Its action follows.
fn read_rule_pattern(
    alloc: Global,
    cursor: &mut TextCursor,
    declared: &Declared,
    names: &NamedPatterns,
    reports: &mut Reports,
) -> Result<Option<PatternReading>, ReadFault>
    ensures later { OnOk result (IsLater (left cursor.old) (left cursor.new)) }
    ensures some { IfOk result (λ r. IfNoFault reports.old.fatal reports.new.fatal (IsSome r)) }
{
    match pattern_at(alloc, cursor.rest(), declared, names) {
        Ok(reading) => {
            warn_if_asked(alloc, cursor, declared, names, &reading, reports)?;
            let taken = take_pattern(cursor, reading, reports)?;
            Ok(taken)
        }
        Err(PatternFault::Memory) => Err(ReadFault::Memory),
        Err(cause) => {
            skip_pattern(cursor, cause, reports)?;
            Ok(None)
        }
    }
}

/// Reads what a rule matches: its pattern, or `None` for `<<EOF>>`. Returns `None` with a report if there is neither.
fn read_rule_start(
    alloc: Global,
    cursor: &mut TextCursor,
    declared: &Declared,
    names: &NamedPatterns,
    reports: &mut Reports,
) -> Result<Option<Option<PatternReading>>, ReadFault>
    ensures later { OnOk result (IsLater (left cursor.old) (left cursor.new)) }
    ensures some { IfOk result (λ r. IfNoFault reports.old.fatal reports.new.fatal (IsSome r)) }
{
    if cursor.begins_with(b"<<EOF>>") {
        cursor.advance(7);
        return Ok(Some(None));
    }
    match read_rule_pattern(alloc, cursor, declared, names, reports)? {
        Some(reading) => Ok(Some(Some(reading))),
        None => Ok(None),
    }
}

/// Reads a rule, starting at its pattern.
fn read_rule(
    alloc: Global,
    cursor: &mut TextCursor,
    declared: &Declared,
    names: &NamedPatterns,
    reports: &mut Reports,
    rules: &mut Rules,
    own: &[u16],
) -> Result<(), ReadFault>
    requires { vec_len declared.now.conditions < 65536 }
    ensures further { OnOk result (IsFurther (left cursor.old) (left cursor.new)) }
    ensures rule { OnOk result (IfNoFault reports.old.fatal reports.new.fatal
        (state_of rules.new ≡ with_rule (length (names_of declared.now)) own.now (state_of rules.old))) }
{
    let place = cursor.place();
    if rules.list.len() >= MAX_RULES {
        return stop(place, ImportCause::TooMany);
    }
    if rules.parts > MAX_PARTS_OF_FILE {
        return stop(place, ImportCause::LargePatterns);
    }
    let start = read_rule_start(alloc, cursor, declared, names, reports)?;
    let action = read_action(cursor)?;
    let Some(reading) = start else {
        return Ok(());
    };
    if let Some(reading) = &reading {
        rules.parts = rules.parts.saturating_add(u32::from(reading.parts));
    }
    let conditions = rules
        .scopes
        .conditions_inside(alloc, condition_count(declared), own)?;
    rules.list.push(FlexRule {
        place,
        conditions: if_any(conditions),
        reading,
        action,
    })?;
    Ok(())
}

/// Returns true if the text begins with a name and a closing brace.
fn is_braced_name(text: &[u8]) -> bool
    ensures { result ≡ is_braced_name text.now }
{
    let name = name_at(text);
    !name.is_empty() && begins_with(b'}', skip(name.len(), text))
}

fn begins_digit(text: &[u8]) -> bool
    ensures { result ≡ begins_digit text.now }
{
    match text {
        [first, ..] => first.is_ascii_digit(),
        [] => false,
    }
}

/// Returns true if the next byte is a `{` that opens a scope: neither a name in braces nor a number follows.
fn opens_scope(cursor: &TextCursor) -> bool
    ensures { result ≡ opens_scope (left cursor.now) }
{
    let inside = skip(1, cursor.rest());
    cursor.is_at(b'{') && !(is_braced_name(inside) || begins_digit(inside))
}

/// Opens a scope.
fn open_scope(
    alloc: Global,
    cursor: &mut TextCursor,
    declared: &Declared,
    rules: &mut Rules,
    own: &[u16],
) -> Result<(), ReadFault>
    requires { vec_len declared.now.conditions < 65536 }
    ensures further { OnOk result (IsFurther (left cursor.old) (left cursor.new)) }
    ensures opened { OnOk result (state_of rules.new
        ≡ with_scope (length (names_of declared.now)) own.now (state_of rules.old)) }
{
    let place = cursor.place();
    if rules.scopes.is_full() {
        return stop(place, ImportCause::TooMany);
    }
    let conditions = rules
        .scopes
        .conditions_inside(alloc, condition_count(declared), own)?;
    rules.scopes.open(conditions, place)?;
    cursor.advance(1);
    if is_behind_pattern(cursor) {
        let _code = take_action(cursor)?;
    }
    Ok(())
}

/// Skips lines of code.
fn skip_code(cursor: &mut TextCursor, rules: &mut Rules) -> Result<(), ReadFault>
    requires { rules.old.prologue ≡ false }
    ensures code { OnOk result (IsAfterCode (left cursor.old) (left cursor.new)) }
    ensures same { OnOk result (state_of rules.new ≡ state_of rules.old) }
{
    for _ in 0..cursor.text.len() {
        if cursor.is_at_end() {
            return Ok(());
        }
        if !read_code(cursor, rules)? {
            return Ok(());
        }
    }
    Ok(())
}

/// Skips to the next line that isn't empty, if nothing follows a list of conditions on its line.
fn skip_to_next(cursor: &mut TextCursor, rules: &mut Rules) -> Result<(), ReadFault>
    requires { rules.old.prologue ≡ false }
    ensures follows { OnOk result (Follows (left cursor.old) (left cursor.new)) }
    ensures same { OnOk result (state_of rules.new ≡ state_of rules.old) }
{
    if !cursor.is_blank_line() {
        return Ok(());
    }
    skip_code(cursor, rules)?;
    cursor.skip_blanks();
    Ok(())
}

/// Reads a list of conditions, and the rule or the scope after it.
fn read_listed(
    alloc: Global,
    cursor: &mut TextCursor,
    declared: &Declared,
    names: &NamedPatterns,
    reports: &mut Reports,
    rules: &mut Rules,
) -> Result<(), ReadFault>
    requires few { vec_len declared.now.conditions < 65536 }
    requires begun { rules.old.prologue ≡ false }
    ensures { OnOk result (IfNoFault reports.old.fatal reports.new.fatal
        (IsListRead (names_of declared.now) (left cursor.old) (left cursor.new)
        (state_of rules.old) (state_of rules.new))) }
{
    let place = cursor.place();
    cursor.advance(1);
    let Some(own) = read_list(alloc, cursor, declared, reports)? else {
        reports.add(place, ImportCause::BadRule, true)?;
        cursor.skip_line();
        return Ok(());
    };
    skip_to_next(cursor, rules)?;
    let own = own.as_slice();
    if opens_scope(cursor) {
        open_scope(alloc, cursor, declared, rules, own)?;
        return Ok(());
    }
    read_rule(alloc, cursor, declared, names, reports, rules, own)?;
    Ok(())
}

/// Closes a scope.
fn close_scope(
    cursor: &mut TextCursor,
    reports: &mut Reports,
    rules: &mut Rules,
) -> Result<(), ReadFault>
    ensures further { OnOk result (IsFurther (left cursor.old) (left cursor.new)) }
    ensures closed { OnOk result (IfNoFault reports.old.fatal reports.new.fatal
        (IsClosed (state_of rules.old) (state_of rules.new))) }
{
    if !rules.scopes.close() {
        reports.add(cursor.place(), ImportCause::BadRule, true)?;
    }
    cursor.advance(1);
    let _code = take_action(cursor)?;
    Ok(())
}

/// Adds C text that isn't an action: before the first rule, or between rules.
fn keep_code(rules: &mut Rules, code: TextRange) -> Result<(), ReadFault>
    ensures { OnOk result (state_of rules.new ≡ state_of rules.old) }
{
    if rules.prologue {
        return add_code(&mut rules.first_code, code);
    }
    let after = rules.list.len();
    rules.code.push(CodeAfterRules { rules: after, code })?;
    Ok(())
}

/// Reads code before the first rule: a block or an indented line. Returns true if there was any.
fn read_first_code(cursor: &mut TextCursor, rules: &mut Rules) -> Result<bool, ReadFault>
    ensures was { IfOk result (λ was. was ≡ is_first_code (left cursor.old)) }
    ensures code { IfOk result (λ was. was ≡ true → IsFurther (left cursor.old) (left cursor.new)) }
    ensures none { IfOk result (λ was. was ≡ false → left cursor.new ≡ left cursor.old) }
    ensures same { OnOk result (state_of rules.new ≡ state_of rules.old) }
{
    if cursor.begins_with(b"%{") {
        let code = take_lines(cursor)?;
        keep_code(rules, code)?;
        return Ok(true);
    }
    if begins_blank(cursor.rest()) {
        let code = take_line(cursor);
        keep_code(rules, code)?;
        return Ok(true);
    }
    Ok(false)
}

/// Reads code after the first rule: a block or an indented comment. Returns true if there was any.
fn read_later_code(cursor: &mut TextCursor, rules: &mut Rules) -> Result<bool, ReadFault>
    ensures was { IfOk result (λ was. was ≡ is_later_code (left cursor.old)) }
    ensures code { IfOk result (λ was. was ≡ true → IsFurther (left cursor.old) (left cursor.new)) }
    ensures none { IfOk result (λ was. was ≡ false → left cursor.new ≡ left cursor.old) }
    ensures same { OnOk result (state_of rules.new ≡ state_of rules.old) }
{
    let rest = cursor.rest();
    let inner = skip(blank_run(rest), rest);
    if strip_mark(b"%{", inner).is_some() {
        cursor.skip_blanks();
        cursor.advance(2);
        let code = take_block(cursor)?;
        keep_code(rules, code)?;
        return Ok(true);
    }
    if begins_blank(rest) && strip_mark(b"/*", inner).is_some() {
        let code = take_action(cursor)?;
        keep_code(rules, code)?;
        return Ok(true);
    }
    Ok(false)
}

/// Reads an empty line, code or comments between rules. Returns true if there was any.
fn read_code(cursor: &mut TextCursor, rules: &mut Rules) -> Result<bool, ReadFault>
    ensures was { IfOk result (λ was. was ≡ is_code rules.old.prologue (left cursor.old)) }
    ensures code { IfOk result (λ was. was ≡ true → IsFurther (left cursor.old) (left cursor.new)
        × (state_of rules.new ≡ state_of rules.old)) }
    ensures none { IfOk result (λ was. was ≡ false → (left cursor.new ≡ left cursor.old)
        × (state_of rules.new ≡ begun (state_of rules.old))) }
{
    if cursor.is_blank_line() {
        cursor.skip_line();
        return Ok(true);
    }
    if !rules.prologue {
        return read_later_code(cursor, rules);
    }
    let was = read_first_code(cursor, rules)?;
    rules.prologue = was;
    Ok(was)
}

/// Returns true if a list of conditions begins here.
fn begins_list(cursor: &TextCursor) -> bool
    ensures { result ≡ begins_list (left cursor.now) }
{
    cursor.is_at(b'<') && !cursor.begins_with(b"<<EOF>>")
}

/// Reads one rule, or another construct that begins on a line.
fn read_line(
    alloc: Global,
    cursor: &mut TextCursor,
    declared: &Declared,
    names: &NamedPatterns,
    reports: &mut Reports,
    rules: &mut Rules,
) -> Result<(), ReadFault>
    requires { vec_len declared.now.conditions < 65536 }
    ensures { OnOk result (IfNoFault reports.old.fatal reports.new.fatal
        (HasRead (names_of declared.now) (left cursor.old) (left cursor.new)
        (state_of rules.old) (state_of rules.new))) }
{
    if read_code(cursor, rules)? {
        return Ok(());
    }
    cursor.skip_blanks();
    if cursor.is_at(b'}') {
        close_scope(cursor, reports, rules)?;
        return Ok(());
    }
    if begins_list(cursor) {
        read_listed(alloc, cursor, declared, names, reports, rules)?;
        return Ok(());
    }
    read_rule(alloc, cursor, declared, names, reports, rules, &[])?;
    Ok(())
}

/// Returns true at the end of the rules section: at a `%%` line or at the file's end.
fn is_section_end(cursor: &TextCursor) -> bool
    ensures { result ≡ is_end (left cursor.now) }
{
    cursor.is_at_end() || cursor.begins_with(b"%%")
}

/// Reads the rules section, up to its `%%` line or the file's end.
pub(crate) fn read_rules(
    alloc: Global,
    cursor: &mut TextCursor,
    declared: &Declared,
    names: &NamedPatterns,
    reports: &mut Reports,
) -> Result<FlexRules, ReadFault>
    requires { vec_len declared.now.conditions < 65536 }
    ensures { IfOk result (λ rules. IfNoFault reports.old.fatal reports.new.fatal
        (IsRulesSection (names_of declared.now) (left cursor.old) (left cursor.new)
        (conditions_of rules.list.items))) }
{
    let mut rules = Rules {
        scopes: Scopes::new(alloc),
        first_code: Vec::new(alloc),
        list: Vec::new(alloc),
        code: Vec::new(alloc),
        prologue: true,
        parts: 0,
    };
    for _ in 0..cursor.text.len() {
        if is_section_end(cursor) {
            break;
        }
        read_line(alloc, cursor, declared, names, reports, &mut rules)?;
    }
    let Rules {
        scopes,
        first_code,
        list,
        code,
        prologue: _,
        parts: _,
    } = rules;
    match scopes.innermost_place() {
        Some(place) => stop(place, ImportCause::NotClosed),
        None => Ok(FlexRules {
            first_code,
            list,
            code,
        }),
    }
}
