//! Templates of C text: options keep or drop their lines, and fill in their marks.
//!
//! - Lines from `%if WORD` to `%end` are kept if the option is on, and those of `%if !WORD` if it is off. After `%else` it is the other way round.
//! - `@x` is the prefix of names, and `@@` is an `@`.
//! - In a reentrant scanner `@g` is `yyg->`, and the scanner is a parameter (`@p` alone, `@P` after others) and an argument (`@a`, `@A`).
//! - `@d` has the parameters of `yylex`.

use std::alloc::{AllocError, Global};

/// The options that templates ask for.
#[derive(Drop)]
pub(crate) struct Environment<'a> {
    /// Words of the options that are on.
    words: Vec<&'a [u8]>,
    /// Prefix of names.
    prefix: &'a [u8],
}

/// Returns the parameters of `yylex`.
fn parameters(values: bool, places: bool, reentrant: bool) -> &'static [u8] {
    match (values, places, reentrant) {
        (false, false, false) => b"void",
        (false, false, true) => b"yyscan_t yyscanner",
        (true, false, false) => b"YYSTYPE *yylval_param",
        (true, false, true) => b"YYSTYPE *yylval_param, yyscan_t yyscanner",
        (false, true, false) => b"YYLTYPE *yylloc_param",
        (false, true, true) => b"YYLTYPE *yylloc_param, yyscan_t yyscanner",
        (true, true, false) => b"YYSTYPE *yylval_param, YYLTYPE *yylloc_param",
        (true, true, true) => b"YYSTYPE *yylval_param, YYLTYPE *yylloc_param, yyscan_t yyscanner",
    }
}

impl<'a> Environment<'a> {
    /// Returns the environment with these words on.
    pub(crate) fn new(words: Vec<&'a [u8]>, prefix: &'a [u8]) -> Environment<'a> {
        Environment { words, prefix }
    }

    /// Switches on those options that have the flag.
    pub(crate) fn add_all(&mut self, switches: &[(&'a [u8], bool)]) -> Result<(), AllocError> {
        for (word, is_on) in switches {
            if *is_on {
                self.words.push(*word)?;
            }
        }
        Ok(())
    }

    pub(crate) fn has(&self, word: &[u8]) -> bool {
        for known in self.words.as_slice() {
            if *known == word {
                return true;
            }
        }
        false
    }
}

/// A text that is printed, with the number of its lines.
#[derive(Drop)]
pub(crate) struct Output {
    pub(crate) text: Vec<u8>,
    /// Number of bytes of the text whose newlines were counted.
    counted: usize,
    /// Number of newlines in these bytes.
    newlines: u32,
}

impl Output {
    /// Returns an empty text that begins after this number of lines.
    pub(crate) fn after(alloc: Global, newlines: u32) -> Output {
        Output {
            text: Vec::new(alloc),
            counted: 0,
            newlines,
        }
    }

    pub(crate) fn push(&mut self, bytes: &[u8]) -> Result<(), AllocError> {
        self.text.extend_from_slice(bytes)
    }

    /// Returns the number of the line that is printed now, from 1.
    pub(crate) fn line(&mut self) -> u32 {
        let rest = skip(self.counted, self.text.as_slice());
        for byte in rest {
            if *byte == b'\n' {
                self.newlines = self.newlines.saturating_add(1);
            }
        }
        self.counted = self.text.len();
        self.newlines.saturating_add(1)
    }

    /// Ends the line, if it has begun.
    pub(crate) fn end_line(&mut self) -> Result<(), AllocError> {
        match self.text.last() {
            Some(last) => {
                if *last == b'\n' {
                    return Ok(());
                }
            }
            None => return Ok(()),
        }
        self.push(b"\n")
    }
}

fn skip(n: usize, text: &[u8]) -> &[u8] {
    if n <= text.len() { &text[n..] } else { &[] }
}

fn front(n: usize, text: &[u8]) -> &[u8] {
    if n <= text.len() { &text[..n] } else { text }
}

/// Returns the number of bytes of the first line, with its newline.
fn line_length(text: &[u8]) -> usize {
    let mut count: usize = 0;
    for byte in text {
        count = count.saturating_add(1);
        if *byte == b'\n' {
            break;
        }
    }
    count
}

/// A line of a template.
enum TemplateLine<'t> {
    /// `%if` with a word. The flag is true if the option has to be off.
    If(&'t [u8], bool),
    Else,
    End,
    /// A line that is printed.
    Text,
}

fn line_kind(line: &[u8]) -> TemplateLine {
    if line == b"%else\n".as_slice() {
        return TemplateLine::Else;
    }
    if line == b"%end\n".as_slice() {
        return TemplateLine::End;
    }
    if front(4, line) != b"%if ".as_slice() {
        return TemplateLine::Text;
    }
    let words = skip(4, line);
    let word = front(words.len().saturating_sub(1), words);
    if front(1, word) == b"!".as_slice() {
        return TemplateLine::If(skip(1, word), true);
    }
    TemplateLine::If(word, false)
}

/// The parts of a template that are open, and whether they are kept.
#[derive(Drop)]
struct OpenParts {
    kept: Vec<bool>,
}

impl OpenParts {
    /// Returns true if lines are kept here.
    fn are_kept(&self) -> bool {
        for kept in self.kept.as_slice() {
            if !*kept {
                return false;
            }
        }
        true
    }

    /// Turns the innermost part into its other one.
    fn turn(&mut self) {
        if let Some(last) = self.kept.last_mut() {
            *last = !*last;
        }
    }
}

/// Returns the text of a mark.
fn mark_text<'a>(environment: &Environment<'a>, mark: u8) -> &'a [u8] {
    if mark == b'x' {
        return environment.prefix;
    }
    if mark == b'@' {
        return b"@";
    }
    let reentrant = environment.has(b"reentrant");
    match mark {
        b'g' => if reentrant { b"yyg->" } else { b"" },
        b'p' => if reentrant {
            b"yyscan_t yyscanner"
        } else {
            b"void"
        },
        b'P' => if reentrant {
            b", yyscan_t yyscanner"
        } else {
            b""
        },
        b'a' => if reentrant { b"yyscanner" } else { b"" },
        b'A' => if reentrant { b", yyscanner" } else { b"" },
        b'd' => {
            let values = environment.has(b"bison-bridge");
            parameters(values, environment.has(b"bison-locations"), reentrant)
        }
        _ => b"",
    }
}

/// Appends a line with its marks filled in.
fn push_filled(
    output: &mut Output,
    environment: &Environment,
    line: &[u8],
) -> Result<(), AllocError> {
    let mut marked = false;
    for byte in line {
        if marked {
            output.push(mark_text(environment, *byte))?;
            marked = false;
        } else if *byte == b'@' {
            marked = true;
        } else {
            output.push(&[*byte])?;
        }
    }
    Ok(())
}

/// Appends a template.
pub(crate) fn push_template(
    alloc: Global,
    output: &mut Output,
    environment: &Environment,
    template: &[u8],
) -> Result<(), AllocError> {
    let mut open = OpenParts {
        kept: Vec::new(alloc),
    };
    let mut rest = template;
    for _ in template {
        if rest.is_empty() {
            break;
        }
        let line = front(line_length(rest), rest);
        rest = skip(line.len(), rest);
        match line_kind(line) {
            TemplateLine::If(word, off) => open.kept.push(environment.has(word) != off)?,
            TemplateLine::Else => open.turn(),
            TemplateLine::End => {
                let _closed = open.kept.pop();
            }
            TemplateLine::Text => {
                if open.are_kept() {
                    push_filled(output, environment, line)?;
                }
            }
        }
    }
    Ok(())
}
