//! Reads patterns and substitutes, and prints them in full: `(a b)` is a and then b, and an interval follows what it repeats.

use crate::stop::{Stop, end_of_print, refuse_from_here, say, say_fault, unless_refused};
use lx_ere::{ByteSet, EreFault, Expr, Pattern, pattern_end, read_pattern, read_substitute};
use std::alloc::Global;

/// Texts with intervals, names and escapes.
const TEXTS: &[&str] = &["ab{2}", "a({D}{1,2})", "\"\\01\"\"1\"", "\\x41*"];

fn print_text(rt: &impl Print, text: &str) -> Result<(), Stop> {
    end_of_print(print!(rt; "{text}"))
}

fn print_byte(rt: &impl Print, byte: u8) -> Result<(), Stop> {
    end_of_print(print!(rt; "{byte:02x}"))
}

fn print_set(rt: &impl Print, set: &ByteSet) -> Result<(), Stop> {
    print_text(rt, "[")?;
    for byte in 0..=255_u8 {
        if set.has(byte) {
            print_byte(rt, byte)?;
        }
    }
    print_text(rt, "]")
}

fn print_interval(rt: &impl Print, low: u8, high: Option<u8>) -> Result<(), Stop> {
    end_of_print(print!(rt; "{{{low},{high:?}}}"))
}

fn print_name(rt: &impl Print, name: &[u8]) -> Result<(), Stop> {
    print_text(rt, "name")?;
    for byte in name {
        end_of_print(print!(rt; " {byte:02x}"))?;
    }
    Ok(())
}

fn print_expr(rt: &impl Print, expr: &Expr) -> Result<(), Stop> {
    match expr {
        Expr::Nil => print_text(rt, "nothing"),
        Expr::Set(set) => print_set(rt, set),
        Expr::Then(first, second) => {
            print_text(rt, "(")?;
            print_expr(rt, first)?;
            print_text(rt, " ")?;
            print_expr(rt, second)?;
            print_text(rt, ")")
        }
        Expr::Or(first, second) => {
            print_text(rt, "(")?;
            print_expr(rt, first)?;
            print_text(rt, "|")?;
            print_expr(rt, second)?;
            print_text(rt, ")")
        }
        Expr::Times { body, low, high } => {
            print_expr(rt, body)?;
            print_interval(rt, *low, *high)
        }
        Expr::Name(name) => print_name(rt, name),
    }
}

fn print_anchors(rt: &impl Print, begin: bool, end: bool) -> Result<(), Stop> {
    end_of_print(print!(rt; "{begin} {end} "))
}

/// Prints an expression and ends the line.
fn print_expr_line(rt: &impl Print, expr: &Expr) -> Result<(), Stop> {
    print_expr(rt, expr)?;
    say(rt, "")
}

fn print_pattern(rt: &impl Print, pattern: &Pattern) -> Result<(), Stop> {
    print_anchors(rt, pattern.line_begin, pattern.line_end)?;
    print_expr_line(rt, &pattern.expr)
}

fn read_pattern_once(rt: &impl Print, alloc: Global, text: &str) -> Result<(), Stop> {
    match read_pattern(alloc, text.as_bytes()) {
        Ok(pattern) => print_pattern(rt, &pattern),
        Err(EreFault::Memory) => Err(Stop::Refused),
        Err(fault) => say_fault(rt, &fault),
    }
}

fn print_read(rt: &impl Print, alloc: Global, text: &str) -> Result<(), Stop> {
    match unless_refused(rt, read_pattern_once(rt, alloc, text)) {
        Some(ended) => ended,
        None => read_pattern_once(rt, alloc, text),
    }
}

/// Calls `read_pattern` with each text.
pub(crate) fn reads_patterns(rt: &impl Print, alloc: Global) -> Result<(), Stop> {
    for text in TEXTS {
        print_read(rt, alloc, text)?;
    }
    Ok(())
}

fn read_substitute_once(rt: &impl Print, alloc: Global, text: &str) -> Result<(), Stop> {
    match read_substitute(alloc, text.as_bytes()) {
        Ok(expr) => print_expr_line(rt, &expr),
        Err(EreFault::Memory) => Err(Stop::Refused),
        Err(fault) => say_fault(rt, &fault),
    }
}

fn print_substitute(rt: &impl Print, alloc: Global, text: &str) -> Result<(), Stop> {
    match unless_refused(rt, read_substitute_once(rt, alloc, text)) {
        Some(ended) => ended,
        None => read_substitute_once(rt, alloc, text),
    }
}

/// Calls `read_substitute` with each text.
pub(crate) fn reads_substitutes(rt: &impl Print, alloc: Global) -> Result<(), Stop> {
    for text in TEXTS {
        print_substitute(rt, alloc, text)?;
    }
    Ok(())
}

fn print_member(rt: &impl Print, byte: u8, has: bool) -> Result<(), Stop> {
    end_of_print(println!(rt; "{byte} {has}"))
}

fn print_members(rt: &impl Print, expr: &Expr) -> Result<(), Stop> {
    if let Expr::Set(set) = expr {
        for byte in b"/09:" {
            print_member(rt, *byte, set.has(*byte))?;
        }
    }
    Ok(())
}

/// Calls `has` on a set of digits.
pub(crate) fn has(rt: &impl Print, alloc: Global) -> Result<(), Stop> {
    let Ok(digits) = read_substitute(alloc, b"[0-9]") else {
        return Err(Stop::NotBegun);
    };
    refuse_from_here(alloc);
    print_members(rt, &digits)
}

/// Lines with quotes, brackets and escapes.
const LINES: &[&str] = &["a b", "\"a b\" c", "[ ]\\ x\ty", "abc"];

fn print_end(rt: &impl Print, end: usize) -> Result<(), Stop> {
    end_of_print(println!(rt; "{end}"))
}

/// Calls `pattern_end` with quotes, brackets and escapes.
pub(crate) fn ends_patterns(rt: &impl Print, alloc: Global) -> Result<(), Stop> {
    refuse_from_here(alloc);
    for text in LINES {
        print_end(rt, pattern_end(text.as_bytes()))?;
    }
    Ok(())
}
