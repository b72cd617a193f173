//! A scanner in C and its header, as texts.

ghost use Rattle.std.specs.Prelude.{codes, length, IfOk, IfSome, ◌++◌, ◌≡◌};
ghost use Rattle.lx_lex.specs.Arrays.{HasArrays, HasCutArrays, arrays_text, cut_arrays_text};
ghost use Rattle.lx_lex.specs.Lists.{HasListArrays, HasSmallPlaces, list_arrays_text};
ghost use Rattle.lx_lex.specs.StateCode.{HasForm, automaton_arrays, walk_text};

use crate::actions::{CodePlaces, push_actions};
use crate::arrays::{arrays_of, cut_arrays_of, lines_in};
use crate::forms::ScannerForm;
use crate::list_arrays::list_arrays_of;
use crate::outline::FileOutline;
use crate::rule_code::{push_cuts, push_matches};
use crate::skeleton_calls::{
    ACCESS, ACCESS_LINES, CREATE, DELETE, DESTROY, FATAL, M4, MAIN, MEMORY, POSITION, SCAN,
    SCAN_BYTES, SCAN_STRING, STATES, SWITCH,
};
use crate::skeleton_head::{
    BUFFERS, CLOSING, CONDITIONS, GUTS, HEADER_TYPES, HELPERS, INTERFACE, MACROS, NAMES, NAMES_2,
    OPENING, SYSTEM, TEXT_MACROS, TYPES, VARIABLES,
};
use crate::skeleton_scan::{
    ACCEPT, CUT, END_OF_FILE, GROW, INPUT, READ, REFILL, REJECT, STEPS, TAKE, UNPUT, WALK, YYLEX,
    YYLEX_END,
};
use crate::skeleton_states::{STATE_BEGIN, STATE_MACROS, STATE_STOP};
use crate::source_names::SourceName;
use crate::state_code::{state_arrays_of, states_of};
use crate::template::{Environment, Output, push_template};
use lx_automaton::ListAutomaton;
use lx_c::pushing::push_number_then;
use lx_tables::Tables;
use std::alloc::{AllocError, Global};

/// The options with which a scanner is printed.
#[derive(Clone, Copy)]
pub struct PrintOptions<'a> {
    /// Files that the text was read of.
    pub sources: &'a [SourceName<'a>],
    /// Name of the printed file, for `#line`.
    pub printed: &'a [u8],
    /// Macros of `-D`, each a name or `name=value`.
    pub macros: &'a [&'a str],
    pub form: ScannerForm,
}

/// The tables that a scanner is printed of.
#[derive(Clone, Copy)]
pub struct ScannerTables<'t> {
    /// Tables of the rules.
    pub tables: &'t Tables,
    /// Tables that find the ends of tokens with trailing context of several lengths, if there are such rules.
    pub cut_tables: Option<&'t Tables>,
    /// All rules that match after each text, if the actions use `REJECT`.
    pub lists: Option<&'t ListAutomaton>,
}

/// Returns the options of a file, as its templates ask for them.
fn environment_of<'a>(
    alloc: Global,
    outline: &'a FileOutline<'_>,
    in_header: bool,
    form: ScannerForm,
) -> Result<Environment<'a>, AllocError> {
    let options = &outline.declared.options;
    let prefix = options.value_of(b"prefix").unwrap_or(b"yy");
    let joins = outline.actions_have(b"yymore") && options.place_of(b"yymore").is_none();
    let in_states = form == ScannerForm::States;
    let may_lack_actions = outline.may_leave_out_rules() && outline.has_pattern();
    let scans_bytes = options.is_on(b"yy_scan_string") || options.is_on(b"yy_scan_bytes");
    let mut environment = Environment::new(options.words_on(alloc)?, prefix);
    environment.add_all(&[
        (b"in-header", in_header),
        (b"prefix", prefix != b"yy".as_slice()),
        (b"bol", outline.has_line_begin()),
        (b"varying", outline.has_varying_cut()),
        (b"yymore", joins),
        (b"reject", outline.has_reject()),
        (b"states", in_states),
        (b"labels", in_states && !may_lack_actions),
        (b"scan", scans_bytes || options.is_on(b"yy_scan_buffer")),
        (b"scan-bytes", scans_bytes),
    ])?;
    Ok(environment)
}

/// Appends templates, one after the other.
fn push_all(
    alloc: Global,
    output: &mut Output,
    environment: &Environment,
    templates: &[&[u8]],
) -> Result<(), AllocError> {
    for template in templates {
        push_template(alloc, output, environment, template)?;
    }
    Ok(())
}

/// Appends a macro with a number.
fn push_define(output: &mut Output, name: &[u8], number: u64) -> Result<(), AllocError> {
    output.push(b"#define ")?;
    output.push(name)?;
    output.push(b" ")?;
    push_number_then(&mut output.text, number, b"\n")
}

/// Appends the macros of `-D`. One without a value is 1.
fn push_macros(output: &mut Output, macros: &[&str]) -> Result<(), AllocError> {
    for text in macros {
        output.push(b"#define ")?;
        let mut has_value = false;
        for byte in text.as_bytes() {
            let ends_name = *byte == b'=' && !has_value;
            has_value = has_value || ends_name;
            output.push(&[if ends_name { b' ' } else { *byte }])?;
        }
        output.push(if has_value { b"\n" } else { b" 1\n" })?;
    }
    Ok(())
}

/// Appends the type of `yyextra`, if the file names one.
fn push_extra_type(output: &mut Output, outline: &FileOutline) -> Result<(), AllocError> {
    match outline.declared.options.value_of(b"extra-type") {
        Some(name) => {
            output.push(b"#define YY_EXTRA_TYPE ")?;
            output.push(name)?;
            output.push(b"\n")
        }
        None => Ok(()),
    }
}

/// Appends a macro for each start condition.
fn push_conditions(output: &mut Output, outline: &FileOutline) -> Result<(), AllocError> {
    let mut number: u64 = 0;
    for condition in outline.declared.conditions.as_slice() {
        push_define(output, condition.name.as_slice(), number)?;
        number = number.saturating_add(1);
    }
    Ok(())
}

/// Appends the numbers that the arrays of rows are read by.
fn push_row_macros(output: &mut Output, tables: &Tables) -> Result<(), AllocError> {
    let classes = u64::from(tables.classes());
    push_define(output, b"YY_NUL_CLASS", u64::from(tables.class(0)))?;
    push_define(output, b"YY_RULE_COLUMN", classes)?;
    push_define(output, b"YY_END_CLASS", classes + 1)?;
    push_define(output, b"YY_ROW_WIDTH", classes + 2)
}

/// Appends the numbers of rules, and what the arrays are read by.
fn push_table_macros(
    output: &mut Output,
    tables: &Tables,
    form: ScannerForm,
) -> Result<(), AllocError> {
    output.push(b"\n")?;
    push_define(output, b"YY_DEFAULT_RULE", u64::from(tables.rules()) + 1)?;
    output.push(
        b"#define YY_NUM_RULES YY_DEFAULT_RULE\n#define YY_END_OF_BUFFER (YY_DEFAULT_RULE + 1)\n",
    )?;
    output.push(b"#define YY_STATE_EOF(state) (YY_END_OF_BUFFER + (state) + 1)\n\n")?;
    match form {
        ScannerForm::Rows => push_row_macros(output, tables),
        ScannerForm::States => Ok(()),
    }
}

/// Appends the array of the rules whose tokens may have newlines. The default rule's token may be one.
fn push_newlines(output: &mut Output, outline: &FileOutline) -> Result<(), AllocError> {
    output.push(b"static const unsigned char yy_newline[] = {\n0,")?;
    for rule in outline.rules.as_slice() {
        if let Some(pattern) = rule.pattern {
            output.push(if pattern.has_newline { b"1," } else { b"0," })?;
        }
    }
    output.push(b"1};\n")
}

/// Appends the array of the lines of rules, for traces.
fn push_rule_lines(output: &mut Output, outline: &FileOutline) -> Result<(), AllocError> {
    output.push(b"static const int yy_rule_linenum[] = {\n0,")?;
    for rule in outline.rules.as_slice() {
        if rule.pattern.is_some() {
            push_number_then(&mut output.text, u64::from(rule.place.line), b",")?;
        }
    }
    output.push(b"0};\n")
}

/// Appends the arrays of what rules may match.
fn push_rule_arrays(
    output: &mut Output,
    environment: &Environment,
    outline: &FileOutline,
) -> Result<(), AllocError> {
    if environment.has(b"yylineno") && !environment.has(b"states") {
        push_newlines(output, outline)?;
    }
    if environment.has(b"debug") {
        push_rule_lines(output, outline)?;
    }
    output.push(b"\n")
}

/// Appends the numbers that the arrays for the ends of tokens are read by.
fn push_cut_macros(output: &mut Output, tables: &Tables) -> Result<(), AllocError> {
    output.push(b"\n")?;
    push_define(output, b"YY_CUT_NUL_CLASS", u64::from(tables.class(0)))?;
    push_define(output, b"YY_CUT_RULE_COLUMN", u64::from(tables.classes()))
}

/// Appends the numbers that the arrays for `REJECT` are read by.
fn push_list_macros(output: &mut Output, lists: &ListAutomaton) -> Result<(), AllocError> {
    let automaton = &lists.automaton;
    output.push(b"\n")?;
    push_define(
        output,
        b"YY_REJECT_NUL_CLASS",
        u64::from(automaton.class(0)),
    )?;
    push_define(
        output,
        b"YY_REJECT_LIST_COLUMN",
        u64::from(automaton.classes()),
    )
}

/// Appends the code of `%top`, and what begins a scanner and its header.
fn push_opening(
    alloc: Global,
    output: &mut Output,
    environment: &Environment,
    outline: &FileOutline,
    options: PrintOptions,
    places: CodePlaces,
) -> Result<(), AllocError> {
    places.push_all_code(output, outline.declared.top.as_slice())?;
    push_template(alloc, output, environment, OPENING)?;
    push_macros(output, options.macros)
}

/// Appends the part of a scanner before the arrays of its automaton.
fn push_head(
    alloc: Global,
    output: &mut Output,
    environment: &Environment,
    outline: &FileOutline,
    tables: &Tables,
    options: PrintOptions,
    places: CodePlaces,
) -> Result<(), AllocError> {
    push_opening(alloc, output, environment, outline, options, places)?;
    push_all(
        alloc,
        output,
        environment,
        &[
            NAMES,
            NAMES_2,
            SYSTEM,
            TYPES,
            BUFFERS,
            MACROS,
            TEXT_MACROS,
            VARIABLES,
        ],
    )?;
    push_table_macros(output, tables, options.form)
}

/// Appends the user's declarations, and the start conditions.
fn push_declarations(
    output: &mut Output,
    outline: &FileOutline,
    places: CodePlaces,
) -> Result<(), AllocError> {
    push_extra_type(output, outline)?;
    places.push_all_code(output, outline.declared.code.as_slice())?;
    output.push(b"\n")?;
    push_conditions(output, outline)?;
    output.push(b"\n")
}

/// Appends what `yylex` needs, and its beginning, up to the code for states.
fn push_before_walk(
    alloc: Global,
    output: &mut Output,
    environment: &Environment,
    outline: &FileOutline,
    places: CodePlaces,
) -> Result<(), AllocError> {
    push_all(
        alloc,
        output,
        environment,
        &[
            GUTS,
            INTERFACE,
            HELPERS,
            READ,
            STATE_MACROS,
            STEPS,
            CUT,
            REJECT,
            YYLEX,
        ],
    )?;
    places.push_all_code(output, outline.first_code.as_slice())?;
    push_template(alloc, output, environment, STATE_BEGIN)
}

/// Appends the walk by rows, and what is done with its match.
fn push_rows_walk(
    alloc: Global,
    output: &mut Output,
    environment: &Environment,
    outline: &FileOutline,
    cut_tables: Option<&Tables>,
) -> Result<(), AllocError> {
    push_all(alloc, output, environment, &[WALK, END_OF_FILE, ACCEPT])?;
    if outline.has_cut() {
        push_cuts(output, environment, outline, cut_tables)?;
    }
    push_template(alloc, output, environment, TAKE)
}

/// Appends the rest of `yylex` after the code for states, and what it needs.
fn push_after_walk(
    alloc: Global,
    output: &mut Output,
    environment: &Environment,
    outline: &FileOutline,
    tables: ScannerTables,
    places: CodePlaces,
) -> Result<(), AllocError> {
    if environment.has(b"states") {
        push_matches(alloc, output, environment, outline, tables)?;
        push_template(alloc, output, environment, STATE_STOP)?;
    } else {
        push_rows_walk(alloc, output, environment, outline, tables.cut_tables)?;
    }
    push_actions(alloc, output, places, outline)?;
    push_all(
        alloc,
        output,
        environment,
        &[YYLEX_END, GROW, REFILL, UNPUT, INPUT],
    )
}

/// Appends the functions of the interface.
fn push_calls(
    alloc: Global,
    output: &mut Output,
    environment: &Environment,
) -> Result<(), AllocError> {
    push_all(
        alloc,
        output,
        environment,
        &[
            POSITION,
            CREATE,
            SWITCH,
            DELETE,
            SCAN,
            SCAN_BYTES,
            SCAN_STRING,
            STATES,
            FATAL,
            ACCESS,
            ACCESS_LINES,
            DESTROY,
            MEMORY,
            MAIN,
            M4,
        ],
    )
}

/// Returns where the C text of a file comes from and goes to.
fn places_of<'a>(
    outline: &FileOutline<'a>,
    environment: &Environment,
    options: PrintOptions<'a>,
) -> CodePlaces<'a> {
    CodePlaces {
        text: outline.text,
        sources: options.sources,
        printed: options.printed,
        with_lines: environment.has(b"line"),
        as_labels: environment.has(b"labels"),
    }
}

/// Returns the part of a scanner between the arrays of its rules and the other arrays.
fn middle_of(
    alloc: Global,
    environment: &Environment,
    outline: &FileOutline,
    tables: ScannerTables,
) -> Result<Output, AllocError> {
    let mut output = Output::after(alloc, 0);
    push_rule_arrays(&mut output, environment, outline)?;
    if let Some(tables) = tables.cut_tables {
        push_cut_macros(&mut output, tables)?;
    }
    if let Some(lists) = tables.lists {
        push_list_macros(&mut output, lists)?;
    }
    Ok(output)
}

/// Returns the part of a scanner from its arrays to the code for states. It begins after a number of lines.
fn code_before_walk(
    alloc: Global,
    environment: &Environment,
    outline: &FileOutline,
    places: CodePlaces,
    lines: u32,
) -> Result<Output, AllocError> {
    let mut output = Output::after(alloc, lines);
    push_declarations(&mut output, outline, places)?;
    push_before_walk(alloc, &mut output, environment, outline, places)?;
    Ok(output)
}

/// Returns the part of a scanner after the code for states. It begins after a number of lines.
fn code_after_walk(
    alloc: Global,
    environment: &Environment,
    outline: &FileOutline,
    tables: ScannerTables,
    places: CodePlaces,
    lines: u32,
) -> Result<Output, AllocError> {
    let mut output = Output::after(alloc, lines);
    push_after_walk(alloc, &mut output, environment, outline, tables, places)?;
    push_calls(alloc, &mut output, environment)?;
    if !outline.functions.of(outline.text).is_empty() {
        places.push_code(&mut output, outline.functions)?;
    }
    Ok(output)
}

/// Returns the arrays that find the ends of tokens, or the empty text if none is wanted.
fn cut_arrays_or_none(alloc: Global, tables: Option<&Tables>) -> Result<Vec<u8>, AllocError>
    ensures { IfOk result (λ text.
        IfSome tables.entry (λ t. text.items ≡ cut_arrays_text t.now)) }
{
    match tables {
        Some(tables) => cut_arrays_of(alloc, tables),
        None => Ok(Vec::new(alloc)),
    }
}

/// Returns the arrays of the rules that match after each text, or the empty text if none are wanted.
fn list_arrays_or_none(alloc: Global, lists: Option<&ListAutomaton>) -> Result<Vec<u8>, AllocError>
    ensures arrays { IfOk result (λ text.
        IfSome lists.entry (λ l. text.items ≡ list_arrays_text l.now.automaton l.now.lists)) }
    ensures small { IfOk result (λ _. IfSome lists.entry (λ l. HasSmallPlaces l.now.lists)) }
{
    match lists {
        Some(lists) => list_arrays_of(alloc, lists),
        None => Ok(Vec::new(alloc)),
    }
}

/// Returns the arrays of the rules in a form.
fn rule_arrays(alloc: Global, form: ScannerForm, tables: &Tables) -> Result<Vec<u8>, AllocError>
    ensures { IfOk result (λ text. text.items ≡ automaton_arrays form tables.now) }
{
    match form {
        ScannerForm::Rows => arrays_of(alloc, tables),
        ScannerForm::States => state_arrays_of(alloc, tables),
    }
}

/// Returns the code for states, or the empty text for the form that has none.
fn walk_of(alloc: Global, form: ScannerForm, tables: &Tables) -> Result<Vec<u8>, AllocError>
    ensures { IfOk result (λ text. text.items ≡ walk_text form tables.now) }
{
    match form {
        ScannerForm::Rows => Ok(Vec::new(alloc)),
        ScannerForm::States => states_of(alloc, tables),
    }
}

/// The arrays of a scanner, and its code for states.
#[derive(Drop)]
struct ScannerArrays {
    rules: Vec<u8>,
    walk: Vec<u8>,
    /// Arrays for the ends of tokens.
    cuts: Vec<u8>,
    /// Arrays for `REJECT`.
    lists: Vec<u8>,
}

/// Returns the arrays of tables, and the code for their states.
fn scanner_arrays(
    alloc: Global,
    tables: ScannerTables,
    form: ScannerForm,
) -> Result<ScannerArrays, AllocError>
    ensures rules { IfOk result (λ arrays. arrays.rules.items
        ≡ automaton_arrays form tables.entry.tables.now) }
    ensures walk { IfOk result (λ arrays. arrays.walk.items
        ≡ walk_text form tables.entry.tables.now) }
    ensures cuts { IfOk result (λ arrays.
        IfSome tables.entry.cut_tables (λ t. arrays.cuts.items ≡ cut_arrays_text t.now)) }
    ensures lists { IfOk result (λ arrays.
        IfSome tables.entry.lists (λ l. arrays.lists.items ≡ list_arrays_text l.now.automaton l.now.lists)) }
    ensures small { IfOk result (λ _. IfSome tables.entry.lists (λ l. HasSmallPlaces l.now.lists)) }
{
    Ok(ScannerArrays {
        rules: rule_arrays(alloc, form, tables.tables)?,
        walk: walk_of(alloc, form, tables.tables)?,
        cuts: cut_arrays_or_none(alloc, tables.cut_tables)?,
        lists: list_arrays_or_none(alloc, tables.lists)?,
    })
}

/// The texts between the arrays of a scanner.
#[derive(Drop)]
struct ScannerTexts {
    head: Output,
    middle: Output,
    before_walk: Output,
    after_walk: Output,
}

/// Joins the parts of a scanner: its arrays and the texts between them.
fn joined(texts: ScannerTexts, arrays: &ScannerArrays) -> Result<Vec<u8>, AllocError>
    ensures rules { IfOk result (λ text. text.items ≡ texts.head.text.items ++ (arrays.now.rules.items
        ++ (texts.middle.text.items ++ arrays.now.cuts.items ++ arrays.now.lists.items ++ texts.before_walk.text.items
        ++ (arrays.now.walk.items ++ texts.after_walk.text.items)))) }
    ensures cuts { IfOk result (λ text. text.items
        ≡ texts.head.text.items ++ arrays.now.rules.items ++ texts.middle.text.items
        ++ (arrays.now.cuts.items ++ (arrays.now.lists.items ++ texts.before_walk.text.items
        ++ arrays.now.walk.items ++ texts.after_walk.text.items))) }
    ensures lists { IfOk result (λ text. text.items
        ≡ texts.head.text.items ++ arrays.now.rules.items ++ texts.middle.text.items ++ arrays.now.cuts.items
        ++ (arrays.now.lists.items ++ (texts.before_walk.text.items ++ arrays.now.walk.items
        ++ texts.after_walk.text.items))) }
{
    let ScannerTexts {
        head,
        middle,
        before_walk,
        after_walk,
    } = texts;
    let Output { text, .. } = head;
    let mut text = text;
    text.extend_from_slice(arrays.rules.as_slice())?;
    text.extend_from_slice(middle.text.as_slice())?;
    text.extend_from_slice(arrays.cuts.as_slice())?;
    text.extend_from_slice(arrays.lists.as_slice())?;
    text.extend_from_slice(before_walk.text.as_slice())?;
    text.extend_from_slice(arrays.walk.as_slice())?;
    text.extend_from_slice(after_walk.text.as_slice())?;
    Ok(text)
}

/// Returns the number of lines before the declarations of a scanner.
fn lines_before_code(head: &mut Output, arrays: &ScannerArrays, middle: &Output) -> u32 {
    head.line()
        .saturating_sub(1)
        .saturating_add(lines_in(arrays.rules.as_slice()))
        .saturating_add(lines_in(middle.text.as_slice()))
        .saturating_add(lines_in(arrays.cuts.as_slice()))
        .saturating_add(lines_in(arrays.lists.as_slice()))
}

/// Returns the texts between the arrays.
fn texts_of<'a>(
    alloc: Global,
    outline: &FileOutline<'a>,
    tables: ScannerTables,
    options: PrintOptions<'a>,
    arrays: &ScannerArrays,
) -> Result<ScannerTexts, AllocError> {
    let environment = environment_of(alloc, outline, false, options.form)?;
    let places = places_of(outline, &environment, options);
    let mut head = Output::after(alloc, 0);
    push_head(
        alloc,
        &mut head,
        &environment,
        outline,
        tables.tables,
        options,
        places,
    )?;
    let middle = middle_of(alloc, &environment, outline, tables)?;
    let lines = lines_before_code(&mut head, arrays, &middle);
    let mut before_walk = code_before_walk(alloc, &environment, outline, places, lines)?;
    let lines = before_walk
        .line()
        .saturating_sub(1)
        .saturating_add(lines_in(arrays.walk.as_slice()));
    let after_walk = code_after_walk(alloc, &environment, outline, tables, places, lines)?;
    Ok(ScannerTexts {
        head,
        middle,
        before_walk,
        after_walk,
    })
}

/// Returns a scanner in C of a file and its tables. It has the arrays of each of these, or the code for the states of the first.
pub fn scanner_of<'a>(
    alloc: Global,
    outline: &FileOutline<'a>,
    tables: ScannerTables,
    options: PrintOptions<'a>,
) -> Result<Vec<u8>, AllocError>
    ensures rules { IfOk result (λ text.
        HasForm options.entry.form tables.entry.tables.now text.items) }
    ensures cuts { IfOk result (λ text.
        IfSome tables.entry.cut_tables (λ t. HasCutArrays t.now text.items)) }
    ensures lists { IfOk result (λ text.
        IfSome tables.entry.lists (λ l. HasListArrays l.now.automaton l.now.lists text.items)) }
{
    let arrays = scanner_arrays(alloc, tables, options.form)?;
    let texts = texts_of(alloc, outline, tables, options, &arrays)?;
    joined(texts, &arrays)
}

/// Appends a header.
fn push_header(
    alloc: Global,
    output: &mut Output,
    environment: &Environment,
    outline: &FileOutline,
    options: PrintOptions,
    places: CodePlaces,
) -> Result<(), AllocError> {
    push_opening(alloc, output, environment, outline, options, places)?;
    push_all(alloc, output, environment, &[SYSTEM, TYPES])?;
    push_extra_type(output, outline)?;
    push_all(
        alloc,
        output,
        environment,
        &[BUFFERS, HEADER_TYPES, INTERFACE, CONDITIONS],
    )?;
    push_conditions(output, outline)?;
    push_template(alloc, output, environment, CLOSING)
}

/// Returns the header of a scanner.
pub fn header_of<'a>(
    alloc: Global,
    outline: &FileOutline<'a>,
    options: PrintOptions<'a>,
) -> Result<Vec<u8>, AllocError> {
    let environment = environment_of(alloc, outline, true, options.form)?;
    let places = places_of(outline, &environment, options);
    let mut output = Output::after(alloc, 0);
    push_header(alloc, &mut output, &environment, outline, options, places)?;
    let Output { text, .. } = output;
    Ok(text)
}
