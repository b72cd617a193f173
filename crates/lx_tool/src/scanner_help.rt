//! The help of the commands `lex` and `flex`.

/// The first lines of the help of `flex`.
pub(crate) const FLEX_HEAD: &[u8] =
    br#"Prints a scanner in C of a file for flex, with the C code of its actions.

Usage: lx flex [OPTIONS] [FILE..]

"#;

/// The first lines of the help of `lex`.
pub(crate) const LEX_HEAD: &[u8] =
    br#"Prints a scanner in C of a file for lex, with the C code of its actions.
Patterns are those of POSIX: an interval repeats all that is before it in its branch.

Usage: lx lex [OPTIONS] [FILE..]

"#;

/// The files and options of both.
pub(crate) const SCANNER_OPTIONS: &[u8] =
    br#"FILE.. are read as one text. Without any, or for -, standard input is read.

  -t, --stdout            writes the scanner to standard output
  -o, --outfile=FILE      writes it to FILE, in the place of lex.yy.c
  -P, --prefix=PREFIX     replaces yy in the names of the interface, and in lex.yy.c
      --header-file[=FILE]
                          writes a header too: to FILE, or to lex.yy.h
  -i, --case-insensitive  ignores case in patterns
  -l, --lex-compat        inserts definitions as text, reads intervals as POSIX does,
                          makes yytext an array and counts lines
  -X, --posix-compat      reads intervals as POSIX does: ab{2} is (ab){2}
  -s, --nodefault         ends with an error where no rule matches
  -d, --debug             makes a scanner that traces its rules on standard error
  -R, --reentrant         makes a scanner without global variables
      --bison-bridge      gives yylex a parameter for the value of a token
      --bison-locations   gives it one for its place too
      --yylineno          counts lines in yylineno
      --array             makes yytext an array
      --stack             makes yy_push_state, yy_pop_state and yy_top_state
      --main              makes a main function
      --noyywrap          ends at the end of the first file, without calling yywrap
      --always-interactive, --never-interactive
                          reads line by line, or never does
      --read, -Cr, -f, -F
                          reads with read(2)
      --form=states, --form=rows
                          prints code for each state, or arrays with a row for each
  -D NAME[=VALUE]         defines a macro
  -L, --noline            prints no #line directives
  -b, --backup            writes to lex.backup in which states a scanner may go back to an
                          earlier end of a match
  -v, --verbose           prints a summary to standard error
  -w, --nowarn            prints no warnings
  -V, --version           prints the version
  -h, --help              prints this text
  -Ce -Cm                 ask for rows
  -7 -8 -B -C[afF] -I -T -c -n -p
                          are accepted and change nothing

Each word of %option is an option too, as --yylineno or --noyywrap.
"#;
