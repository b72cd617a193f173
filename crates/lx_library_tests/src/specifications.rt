//! Tests worked specifications: their contents, or their faults.

use crate::expressions::{show, show_pattern};
use crate::texts::{holds, put, put_name, put_number, unwrap_text};
use lx_spec::{Code, Definition, Rule, Spec, SpecFault, Step, read_spec};
use std::fmt::Write;
use std::process::Abort;

/// Appends a name, with `!` before it for an exclusive condition.
fn show_name(rt: &impl Abort, out: &mut String, name: &[u8], exclusive: bool) {
    if exclusive {
        put(rt, out, "!");
    }
    put_name(rt, out, name);
    put(rt, out, " ");
}

/// Appends the conditions and the kinds by their names.
fn show_names(rt: &impl Abort, out: &mut String, spec: &Spec) {
    for condition in &spec.conditions {
        show_name(rt, out, condition.name.as_slice(), condition.exclusive);
    }
    put(rt, out, "/ ");
    for kind in &spec.kinds {
        show_name(rt, out, kind.as_slice(), false);
    }
    put(rt, out, "\n");
}

/// Appends a definition.
fn show_definition(rt: &impl Abort, out: &mut String, definition: &Definition) {
    show_name(rt, out, definition.name.as_slice(), false);
    show(rt, out, &definition.expr);
    put(rt, out, "\n");
}

/// Appends the conditions and the steps of a rule.
fn show_action(rt: &impl Abort, out: &mut String, conditions: &Option<Vec<u16>>, action: &[Step]) {
    writeln!(out, " {conditions:?} {action:?}").expect(rt, "memory");
}

/// Appends a rule: the first line, the pattern, the conditions and the steps.
fn show_rule(rt: &impl Abort, out: &mut String, rule: &Rule) {
    put_number(rt, out, rule.line);
    put(rt, out, " ");
    show_pattern(rt, out, &rule.pattern);
    show_action(rt, out, &rule.conditions, rule.action.as_slice());
}

/// Appends the definitions and the rules, one a line.
fn show_lines(rt: &impl Abort, out: &mut String, spec: &Spec) {
    for definition in &spec.definitions {
        show_definition(rt, out, definition);
    }
    for rule in &spec.rules {
        show_rule(rt, out, rule);
    }
}

/// Returns the contents of a specification.
fn to_text<R: Abort + AllocGlobal>(rt: &R, spec: &Spec) -> String {
    let mut out = String::new(rt.alloc());
    show_names(rt, &mut out, spec);
    show_lines(rt, &mut out, spec);
    out
}

/// Returns the contents of a text, or its fault.
fn saying<R: Abort + AllocGlobal>(rt: &R, text: &[u8]) -> String {
    match read_spec(rt.alloc(), text) {
        Ok(spec) => to_text(rt, &spec),
        Err(fault) => fault_of(rt, &fault),
    }
}

/// Returns a fault as it is printed.
fn fault_of<R: Abort + AllocGlobal>(rt: &R, fault: &SpecFault) -> String {
    unwrap_text(rt, format!(in rt.alloc(); "{fault}"))
}

/// Asserts the contents of a text.
fn expect_saying<R: Abort + AllocGlobal>(rt: &R, text: &[u8], want: &str) {
    let got = saying(rt, text);
    holds(rt, got.as_str() == want, got.as_str());
}

/// Asserts the contents of each text.
fn expect<R: Abort + AllocGlobal>(rt: &R, rows: &[(&[u8], &str)]) {
    for (text, want) in rows {
        expect_saying(rt, text, want);
    }
}

/// Rules that are rejected.
const REFUSED_RULES: &[(&[u8], &str)] = &[
    (b"%%\na/b ;\n", "E10 at line 2"),
    (b"%%\n(^a) ;\n", "E10 at line 2"),
    (b"%%\na{3,2} ;\n", "E10 at line 2"),
    (b"%%\n{N} ;\n", "E11 at line 2"),
    (b"%%\n<Q>a ;\n", "E13 at line 2"),
    (b"%%\na BEGIN Q;\n", "E13 at line 2"),
    (b"%%\na REJECT;\n", "E20 at line 2"),
    (b"%%\na return;\n", "E20 at line 2"),
    (b"%%\na {\n", "E03 at line 2"),
    (b"%%\na |\n", "E21 at line 2"),
    (b"%%\na return 2147483648;\n", "E20 at line 2"),
    (b"%%\na return 01;\n", "E20 at line 2"),
    (b"%%\n<A> a ;\n", "E13 at line 2"),
];

/// Definitions that are rejected, and one that no rule reaches.
const REFUSED_DEFINITIONS: &[(&[u8], &str)] = &[
    (b"A {A}\n%%\n{A} ;\n", "E12 at line 3"),
    (b"a b\n", "E02 at line 0"),
    (b"x-y 1\n%%\n", "E04 at line 1"),
    (b"D 1\nD 2\n%%\n", "E05 at line 2"),
    (b"%x INITIAL\n%%\n", "E05 at line 1"),
    (b"%option yylineno\n%%\n", "E04 at line 1"),
    (b"%{\n", "E03 at line 1"),
    (b"A (\n%%\na ;\n", "INITIAL / \n3 [97] None []\n"),
];

/// Specifications with conditions, definitions that rules reach, kinds in order of first appearance, and steps.
const READ: &[(&[u8], &str)] = &[
    (
        b"%x C\n%s S\r\nD [0-9]\n%%\na |\n<S,0>b { ECHO; return AB; }\n<C>{D} return 'A'; return Z;\nc BEGIN C;\n%%\n}{\n",
        "INITIAL !C S / AB \nD [48-57]\n5 [97] None [Echo, Return(Name(0))]\n6 [98] Some([0, 2]) [Echo, Return(Name(0))]\n7 <D> Some([1]) [Return(Number(65))]\n8 [99] None [Begin(1)]\n",
    ),
    (
        b"A a\nB {C}+\nC c|{E}\nD (\nE e\n%%\n{E}x ;\n{B} ;\n",
        "INITIAL / \nB <C>{1,}\nC ([99]|<E>)\nE [101]\n7 (<E> [120]) None []\n8 <B> None []\n",
    ),
    (
        b"%%\na return B; return D;\nb |\nc return A;\nd { ECHO; return (B); ; }\n",
        "INITIAL / B A \n2 [97] None [Return(Name(0))]\n3 [98] None [Return(Name(1))]\n4 [99] None [Return(Name(1))]\n5 [100] None [Echo, Return(Name(0))]\n",
    ),
    (
        b"/* note\nmore */\n%option noyywrap\n%%\na return A;\n%%\n}{\n",
        "INITIAL / A \n5 [97] None [Return(Name(0))]\n",
    ),
];

/// Specifications in which CR LF reads as LF.
const CR_LF: &[(&[u8], &str)] = &[
    (
        b"D [0-9]\n%%\na{D}+ return ID;\n. ;\n",
        "INITIAL / ID \nD [48-57]\n3 ([97] <D>{1,}) None [Return(Name(0))]\n4 [0-9 11-255] None []\n",
    ),
    (
        b"D [0-9]\r\n%%\r\na{D}+ return ID;\r\n. ;\r\n",
        "INITIAL / ID \nD [48-57]\n3 ([97] <D>{1,}) None [Return(Name(0))]\n4 [0-9 11-255] None []\n",
    ),
];

#[test]
fn specifications_say_what_was_worked_out_by_hand(rt: HostRuntime) {
    expect(&rt, REFUSED_RULES);
    expect(&rt, REFUSED_DEFINITIONS);
    expect(&rt, READ);
    expect(&rt, CR_LF);
}

#[test]
fn refused_memory_is_answered_as_such(rt: HostRuntime) {
    let text = b"%x C\nD [0-9]\nE {D}+\n%%\na |\n<C,0>{E} { ECHO; BEGIN C; return AB; }\n";
    let is_so = match read_spec(rt.alloc(), text) {
        Ok(spec) => spec.definitions.len() == 2 && spec.rules.len() == 2,
        Err(fault) => fault.code == Code::Memory && fault.line == 0,
    };
    assert!(rt; is_so);
}

/// A fault on a line.
const NO_ACTION: SpecFault = SpecFault {
    code: Code::NoAction,
    line: 7,
};

#[test]
fn faults_print_their_code_and_line(rt: HostRuntime) {
    let text = fault_of(&rt, &NO_ACTION);
    holds(&rt, text.as_str() == "E20 at line 7", text.as_str());
}
