//! The commands of `lx` and their arguments, as tables.

use crate::request::MOST_TOLD;
use lx_piece::{MAX_ITEMS, MAX_WORKERS};

/// The name of an option.
pub(crate) enum Name {
    Short(char),
    Long(&'static str),
}

/// The range of numbers that an option takes, and its default.
pub(crate) struct NumberRange {
    pub least: i64,
    pub most: i64,
    pub default: Option<&'static str>,
}

/// The form of a command's argument.
pub(crate) enum ArgumentForm {
    /// An option without a value.
    Flag(Name),
    /// An option with a value, which the help calls by this name.
    Value(Name, &'static str),
    /// An option with a value, allowed any number of times.
    Values(Name, &'static str),
    /// An option with a number as its value, allowed once.
    Number(Name, &'static str, NumberRange),
    /// A required positional argument.
    Needed,
    /// An optional positional argument.
    Optional,
    /// One or more positional arguments.
    Several,
}

/// An argument of a command. `clap` reads it back by its id.
pub(crate) struct Argument {
    pub id: &'static str,
    pub form: ArgumentForm,
    pub help: &'static str,
}

/// A command.
pub(crate) struct Subcommand {
    pub name: &'static str,
    pub about: &'static str,
    pub arguments: &'static [Argument],
}

// Names of files.
const SPEC: Argument = Argument {
    id: "SPEC",
    form: ArgumentForm::Needed,
    help: "The specification; - is standard input",
};

const TABLES: Argument = Argument {
    id: "TABLES",
    form: ArgumentForm::Needed,
    help: "The tables, in either version of their text; - is standard input",
};

const RULES: Argument = Argument {
    id: "RULES",
    form: ArgumentForm::Needed,
    help: "The specification, or tables, whose text begins with lx-tables; - is standard input",
};

const FLEX: Argument = Argument {
    id: "FLEX",
    form: ArgumentForm::Needed,
    help: "The specification for flex; - is standard input",
};

const FILES: Argument = Argument {
    id: "FILE",
    form: ArgumentForm::Several,
    help: "The files, in the order of the listing; - is standard input, of which nothing is listed before its end without --stream",
};

// Options of `gen` and `up`.
const TARGET: Argument = Argument {
    id: "target",
    form: ArgumentForm::Value(Name::Short('o'), "FILE"),
    help: "Writes the text to FILE, all of it or nothing; - is standard output",
};

const SCANNER: Argument = Argument {
    id: "c",
    form: ArgumentForm::Flag(Name::Long("c")),
    help: "Prints a scanner in C in the place of tables",
};

const HEADER: Argument = Argument {
    id: "header",
    form: ArgumentForm::Flag(Name::Long("header")),
    help: "Prints the declarations of that scanner",
};

const PREFIX: Argument = Argument {
    id: "prefix",
    form: ArgumentForm::Value(Name::Long("prefix"), "P"),
    help: "What the names of that scanner begin with, and else lx",
};

const INCLUDE: Argument = Argument {
    id: "include",
    form: ArgumentForm::Value(Name::Long("include"), "FILE"),
    help: "The file that declares the kinds of that scanner, as bison writes one",
};

const DIRECT: Argument = Argument {
    id: "direct",
    form: ArgumentForm::Flag(Name::Long("direct")),
    help: "Makes it of code for each state, which is faster, in the place of rows",
};

// Options of `scan` and `run`.
const SCAN_WORKERS: Argument = Argument {
    id: "workers",
    form: ArgumentForm::Number(
        Name::Short('j'),
        "N",
        NumberRange {
            least: 1,
            most: MAX_WORKERS as i64,
            default: None,
        },
    ),
    help: "With how many threads the files are scanned, from 1 to 8; 4 if it isn't given",
};

const RUN_WORKERS: Argument = Argument {
    id: "workers",
    form: ArgumentForm::Number(
        Name::Short('j'),
        "N",
        NumberRange {
            least: 1,
            most: MAX_WORKERS as i64,
            default: None,
        },
    ),
    help: "With how many threads the files are scanned, from 1 to 8, and else on one",
};

const ITEMS: Argument = Argument {
    id: "items",
    form: ArgumentForm::Number(
        Name::Short('b'),
        "K",
        NumberRange {
            least: 1,
            most: MAX_ITEMS as i64,
            default: Some("256"),
        },
    ),
    help: "How many items are handed on at a time, from 1 to 4096; the listing is the same",
};

const STREAM: Argument = Argument {
    id: "stream",
    form: ArgumentForm::Flag(Name::Long("stream")),
    help: "Lists each file while it is read, on one thread and in memory that doesn't grow",
};

const NAMES: Argument = Argument {
    id: "names",
    form: ArgumentForm::Flag(Name::Long("names")),
    help: "Prints the names of files in the place of their numbers",
};

const ONLY: Argument = Argument {
    id: "only",
    form: ArgumentForm::Value(Name::Long("only"), "KIND,.."),
    help: "Prints tokens of these kinds alone, by name or number, and - for echoes",
};

const NO_TEXT: Argument = Argument {
    id: "no-text",
    form: ArgumentForm::Flag(Name::Long("no-text")),
    help: "Prints no texts",
};

const FORMAT: Argument = Argument {
    id: "format",
    form: ArgumentForm::Value(Name::Long("format"), "FORMAT"),
    help: "Prints lines of fields (text), as without it, or a JSON object a line (json)",
};

const FIRST: Argument = Argument {
    id: "first",
    form: ArgumentForm::Number(
        Name::Long("first"),
        "N",
        NumberRange {
            least: 0,
            most: u32::MAX as i64,
            default: Some("0"),
        },
    ),
    help: "The number of the first file",
};

const LIST: Argument = Argument {
    id: "list",
    form: ArgumentForm::Value(Name::Long("files-from"), "LIST"),
    help: "A file that names further files, one a line, behind those that are words",
};

const ZEROS: Argument = Argument {
    id: "zeros",
    form: ArgumentForm::Flag(Name::Short('0')),
    help: "The names in LIST are separated by bytes 0",
};

// Options of `check`.
const QUIET: Argument = Argument {
    id: "quiet",
    form: ArgumentForm::Flag(Name::Short('q')),
    help: "Prints the findings alone, without lines of the source and counts",
};

const WARNINGS: Argument = Argument {
    id: "warnings",
    form: ArgumentForm::Values(Name::Short('W'), "NAME"),
    help: "Switches a warning on, or off as no-NAME; all stands for each, and with error they are errors; lx explain warning lists them",
};

const MOST: Argument = Argument {
    id: "most",
    form: ArgumentForm::Number(
        Name::Long("most"),
        "N",
        NumberRange {
            least: 1,
            most: MOST_TOLD as i64,
            default: Some("20"),
        },
    ),
    help: "How many errors are said, from 1 to 100",
};

const JSON: Argument = Argument {
    id: "json",
    form: ArgumentForm::Flag(Name::Long("json")),
    help: "Prints the findings as SARIF 2.1.0",
};

const AS_FLEX: Argument = Argument {
    id: "flex",
    form: ArgumentForm::Flag(Name::Long("flex")),
    help: "Checks files for flex; comes first, and then -q, -W error, and options and files as for lx flex",
};

// Arguments of `explain`, `show` and `import`.
const WORD: Argument = Argument {
    id: "WORD",
    form: ArgumentForm::Optional,
    help: "The code or the cause; without it, all are listed",
};

const ALL: Argument = Argument {
    id: "all",
    form: ArgumentForm::Flag(Name::Long("all")),
    help: "Prints automata of more than 200 states too",
};

const ACTIONS: Argument = Argument {
    id: "actions",
    form: ArgumentForm::Value(Name::Short('c'), "FILE"),
    help: "The file that gets the actions in C",
};

const KINDS_PREFIX: Argument = Argument {
    id: "prefix",
    form: ArgumentForm::Value(Name::Long("prefix"), "P"),
    help: "What kinds begin with in that file, in small letters, and else lx",
};

const LOSSY: Argument = Argument {
    id: "lossy",
    form: ArgumentForm::Flag(Name::Long("lossy")),
    help: "Leaves out what can't be brought over, in the place of a refusal",
};

const GEN: &[Argument] = &[TARGET, SCANNER, HEADER, PREFIX, INCLUDE, DIRECT, SPEC];

const UP: &[Argument] = &[TARGET, SCANNER, HEADER, PREFIX, INCLUDE, DIRECT, TABLES];

const SCAN: &[Argument] = &[
    SCAN_WORKERS,
    ITEMS,
    STREAM,
    NAMES,
    ONLY,
    NO_TEXT,
    FORMAT,
    FIRST,
    LIST,
    ZEROS,
    TABLES,
    FILES,
];

const RUN: &[Argument] = &[
    RUN_WORKERS,
    ITEMS,
    STREAM,
    NAMES,
    ONLY,
    NO_TEXT,
    FORMAT,
    FIRST,
    LIST,
    ZEROS,
    SPEC,
    FILES,
];

const CHECK: &[Argument] = &[AS_FLEX, QUIET, WARNINGS, MOST, JSON, SPEC];

const EXPLAIN: &[Argument] = &[WORD];

const SHOW: &[Argument] = &[ALL, RULES];

const IMPORT: &[Argument] = &[TARGET, ACTIONS, KINDS_PREFIX, LOSSY, FLEX];

/// All commands: those that list, those that print the tables for listing, and those that help to write a specification.
pub(crate) const COMMANDS: &[Subcommand] = &[
    Subcommand {
        name: "gen",
        about: "Prints the tables of a specification, or a scanner in C",
        arguments: GEN,
    },
    Subcommand {
        name: "up",
        about: "Prints tables in version 2, or as a scanner in C",
        arguments: UP,
    },
    Subcommand {
        name: "scan",
        about: "Lists the tokens and the echoed bytes of files by tables",
        arguments: SCAN,
    },
    Subcommand {
        name: "run",
        about: "Lists the tokens and the echoed bytes of files by a specification",
        arguments: RUN,
    },
    Subcommand {
        name: "check",
        about: "Says what is wrong with a specification, and what is right but suspicious",
        arguments: CHECK,
    },
    Subcommand {
        name: "explain",
        about: "Says what a code of an error or a cause means, and what to do",
        arguments: EXPLAIN,
    },
    Subcommand {
        name: "show",
        about: "Prints the automaton as a graph for Graphviz",
        arguments: SHOW,
    },
    Subcommand {
        name: "import",
        about: "Prints a specification made of one for flex",
        arguments: IMPORT,
    },
];
