//! All topics: a paragraph for each code and for each cause, with two empty lines between the codes. A paragraph begins with the name; a cause has
//! its code after it in parentheses. Then come a line on what is wrong, a line on what to do, and mostly a line with an example.

pub(crate) const TOPICS: &str = r#"E01
    the text is longer than 1,048,576 bytes
    To do: split the specification, or shorten its comments


E02
    the text has no line that begins with %%, so the rules are missing
    To do: begin Rules by a line %%
    As in: DIGIT [0-9]

indented-percent (E02)
    %% comes after a blank, so it is code
    To do: begin it at the margin
    As in:  %%

rules-as-definitions (E02)
    a line of Definitions looks like a rule
    To do: put %% before it
    As in: if return IF;


E03
    a group, a comment or an action is open where the text ends
    To do: close it; the line is the one where it begins
    As in: a {

group-open (E03)
    %{ is not closed by a line that begins with %}
    To do: begin the line %} at the margin
    As in: %{

comment-open (E03)
    a comment of Definitions is not closed
    To do: close it by */ after the /*: /*/ leaves it open
    As in: /* names

action-open (E03)
    more braces are opened in an action than closed
    To do: close them; the rules after it are read as part of the action
    As in: a { return A;

action-comment-open (E03)
    a comment in an action is not closed
    To do: close it by */
    As in: a ; /* blanks

brace-hidden (E03)
    the closing brace is in a // comment or in quotes
    To do: put it on a line of its own
    As in: a { return A; // done }


E04
    a line of Definitions has no form
    To do: see the table of Definitions in docs/LANGUAGE.md
    As in: x-y 1

byte-order-mark (E04)
    the file begins with a byte order mark, which is invisible
    To do: save it as UTF-8 without it

wide-text (E04)
    the file is UTF-16
    To do: save it as ASCII or UTF-8

tables-given (E04)
    the text is one of tables
    To do: list by them with lx scan
    As in: lx-tables 2

rule-before-percent (E04)
    a rule comes before the line %%
    To do: begin Rules by %%
    As in: [0-9]+ return NUM;

option-word (E04)
    %option has another word than noyywrap, nounput and noinput
    To do: delete it; for case-insensitive write both letters, as [aA]
    As in: %option yylineno

option-form (E04)
    %option has no words, or has commas
    To do: put blanks between the words, or delete the line
    As in: %option noyywrap, nounput

top-group (E04)
    %top{ is not read
    To do: write %{ and %}, or delete it to its }
    As in: %top{

size-form (E04)
    %p, %n, %a, %e, %k and %o need a blank and a number after them; %array and %pointer take nothing
    To do: write %e 2000, or delete the line
    As in: %e2000

group-closes (E04)
    %} closes no group
    To do: delete it; %{ has to begin its line
    As in: %}

conditions-comma (E04)
    commas separate the names of conditions
    To do: put blanks between them: %x A B
    As in: %x A, B

conditions-form (E04)
    %s and %x need a blank and names after them
    To do: write %x A B; a name has letters, digits and _
    As in: %x 1st

percent-word (E04)
    no declaration of lex begins so
    To do: delete it; %token, %union and %type are of yacc
    As in: %token ID

c-line (E04)
    a line of C begins at the margin
    To do: put it between %{ and %}, or after a blank; a comment is /* */
    As in: #include <stdio.h>

name-alone (E04)
    a name is defined as nothing
    To do: put a pattern after it, or delete the line
    As in: DIGIT

name-form (E04)
    the name of a definition has another byte than letters, digits and _
    To do: rename it: my_name
    As in: my-name [a-z]


E05
    a name is declared twice, or INITIAL is, which is there in any case
    To do: choose another name
    As in: %x STR STR


E06
    there are more than 1,024 definitions, 64 conditions (INITIAL among them) or 4,096 rules
    To do: join some


E10
    a pattern, a substitute or a list of conditions has no reading
    To do: see the patterns in docs/LANGUAGE.md; a blank in a pattern has to be quoted

eof-rule (E10)
    no rule is for the end of a file; after conditions, as in <A><<EOF>>, it is seven bytes of text, and lx check warns
    To do: delete it; where a rule before it has the action |, give it this one's
    As in: <<EOF>> ;

all-conditions (E10)
    <*> is not read
    To do: name the conditions: <INITIAL,A,B>
    As in: %x A B, then <*>a ;

prefix-operator (E10)
    < at the beginning of a line opens a list of conditions
    To do: quote it: "<="
    As in: <= return LE;

prefix-blank (E10)
    a list of conditions has a blank
    To do: write <A,B>
    As in: %x A B, then <A, B>a ;

prefix-name (E10)
    what is between < and > is no list of conditions, or there is no >
    To do: write <A,B>; quote < where the byte is meant
    As in: %x A B, then <A-B>a ;

scope (E10)
    <A>{ is not read
    To do: write <A> before each rule, which begins at the margin, and delete the line }
    As in: %x A B, then <A>{

pattern-missing (E10)
    no pattern follows the list of conditions directly
    To do: put no blank after >
    As in: %x A B, then <A> a ;

comment-line (E10)
    a comment at the beginning of a line of Rules is read as a pattern
    To do: put a blank before it
    As in: /* words */

too-long (E10)
    a pattern has more than 1,024 bytes
    To do: use names for its parts

nothing-but-anchors (E10)
    there is nothing but ^ or $
    To do: for an empty line ^\n; for the byte "^"
    As in: ^$ ;

definition-anchor (E10)
    a substitute begins with ^ or ends with $
    To do: move the anchor into the rule: ^{N}, {N}$
    As in: LINE ^#.*, then {LINE} ;

definition-blank (E10)
    a substitute has a blank, which ends a pattern there too
    To do: quote it; a comment after a substitute is not skipped, so delete it
    As in: KEY if /* once */, then {KEY} ;

definition-equals (E10)
    = or : is between a name and its substitute
    To do: write the name, a blank and the pattern
    As in: DIGIT = [0-9], then {DIGIT} ;

look-ahead (E10)
    r/s is not read, but for r/\n
    To do: leave s out where it follows in any case, or take it into the token; for the byte \/
    As in: a/b ;

slash (E10)
    / has to be quoted
    To do: write "/" or "//"
    As in: // ;

caret-inside (E10)
    ^ comes after the beginning of a pattern
    To do: \^ for the byte; where a line's beginning is meant, a rule of its own, joined by |
    As in: a|^b ;

dollar-inside (E10)
    $ comes before the end of a pattern
    To do: \$ for the byte; where a line's end is meant, a rule of its own, joined by |
    As in: a$|b ;

quote-empty (E10)
    "" has nothing in it
    To do: leave it out
    As in: a""b ;

quote-inside (E10)
    a quote ends the string before it, and begins one that is empty or not closed
    To do: write \" for the byte
    As in: "say "hi"" ;

quote-open (E10)
    a string is not closed
    To do: close it, or write \" for the byte
    As in: "a ;

set-operator (E10)
    {-} and {+} of flex are not read
    To do: write the set itself: [b-df-hj-np-tv-z]
    As in: [a-z]{-}[aeiou] ;

interval-backwards (E10)
    the bounds of an interval run backwards
    To do: turn them round
    As in: a{3,2} ;

interval-large (E10)
    a bound is above 255
    To do: write an interval of an interval: (a{100}){10}
    As in: a{1000} ;

interval-low (E10)
    the lower bound is missing
    To do: write {0,n}
    As in: a{,3} ;

interval-form (E10)
    what is in the braces is no interval
    To do: write {m}, {m,} or {m,n}; \{ for the byte
    As in: a{2;3} ;

name-hyphen (E10)
    a name has a hyphen
    To do: write my_name, here and where it is defined
    As in: {my-name} ;

brace-open (E10)
    { begins neither a name nor an interval
    To do: \{ or "{" for the byte
    As in: { return LBRACE;

brackets-open (E10)
    brackets are not closed
    To do: \[ for the byte; in brackets ] comes first, or is written \]
    As in: [a-z ;

class-negated (E10)
    classes aren't negated inside
    To do: write [^[:alpha:]]
    As in: [[:^alpha:]] ;

class-unknown (E10)
    there is no class with this name
    To do: upper lower alpha digit alnum xdigit space blank punct print graph cntrl
    As in: [[:number:]] ;

class-range (E10)
    a class ends a range
    To do: put the - last
    As in: [[:digit:]-z] ;

range-shared (E10)
    one byte ends a range and begins another
    To do: write a-ce, or \-
    As in: [a-c-e] ;

range-backwards (E10)
    a range runs backwards
    To do: turn it round; for a-Z write A-Za-z
    As in: [z-a] ;

long-collation (E10)
    [. .] and [= =] have one byte between them
    To do: \[ for the byte [
    As in: [[.ch.]] ;

escape-large (E10)
    an octal or hexadecimal number is above 255
    To do: write a character of several bytes byte by byte: "\xC3\xA9"
    As in: \777 ;

escape-end (E10)
    nothing follows a backslash
    To do: \\ for the byte; a blank is " "
    As in: a\

group-option (E10)
    (? is not read
    To do: (?i:a) is [aA], (?s:.) is (.|\n), (?:a) is (a)
    As in: (?i:if) ;

repeat-behind-interval (E10)
    *, + or ? follows an interval
    To do: put the interval in parentheses: (a{2})*
    As in: a{2}* ;

nothing-to-repeat (E10)
    there is nothing before *, + or ?, or before an interval
    To do: \* or "*" for the byte
    As in: * return STAR;

empty-alternative (E10)
    an alternative is empty
    To do: write (a|b)?; \| for the byte
    As in: (a|) ;

group-not-open (E10)
    no ( is open
    To do: \) for the byte
    As in: a) ;

parenthesis-open (E10)
    a ( is not closed
    To do: \( for the byte; a blank ends a pattern, so quote it: " "
    As in: (a b) ;


E11
    a name in braces isn't defined
    To do: define it, or quote the brace; mind capitals
    As in: {DIGT}+ return NUM;

condition-as-name (E11)
    a name in braces is a condition's
    To do: write <N> before the pattern
    As in: %x STR, then {STR}a ;


E12
    names are nested more than 32 deep, or in a circle
    To do: write one of them out
    As in: A {B}, and B {A}


E13
    a condition isn't declared
    To do: write %x N or %s N in Definitions
    As in: <STR>a ;

tag (E13)
    <N> at the beginning of a rule is a list of conditions
    To do: quote it for the text itself: "<b>"
    As in: <b> return BOLD;

begin-variable (E13)
    BEGIN takes a condition by its name, and there are no variables
    To do: name the condition
    As in: a BEGIN caller;


E20
    an action has no form
    To do: return K;  ECHO;  BEGIN C;  ;  { several of them }  or | alone
    As in: a yylval = 1;

blank-in-pattern (E20)
    the pattern ends at a blank
    To do: quote the blank: "else if"
    As in: else if return ELIF;

quote-splits (E20)
    a quote ends a string, so the pattern ends at the blank after it
    To do: write \" for the byte
    As in: "say "hi there"" return HI;

no-blank (E20)
    there is no blank between pattern and action
    To do: put one there
    As in: "if"return IF;

bar-not-alone (E20)
    | has more words after it
    To do: as an action it is alone; for a choice in the pattern leave the blank out
    As in: a | b return X;

semicolon (E20)
    a ; is missing
    To do: end each statement with it
    As in: a return A

return-alone (E20)
    return names no kind
    To do: write return ID;
    As in: a return;

return-expression (E20)
    return has an expression
    To do: it takes a name, a number or a character: a rule for each byte, "+" return '+';
    As in: [-+] return yytext[0];

return-string (E20)
    return has a string
    To do: write a kind: return ID;
    As in: a return "a";

return-number (E20)
    a number after return is negative, 2,147,483,648 or more, or not decimal
    To do: write a decimal number without leading zeros
    As in: a return 0x10;

constant-form (E20)
    a constant isn't one byte
    To do: write 'a' or '\n'
    As in: a return 'ab';

begin-form (E20)
    BEGIN has something else than one condition
    To do: write BEGIN A; or BEGIN(A);
    As in: a BEGIN;

flex-call (E20)
    REJECT, yymore, yyless, unput, input and yyterminate aren't there
    To do: see "Coming from flex" in docs/LANGUAGE.md
    As in: a yyless(1);

flex-variable (E20)
    yytext, yyleng, yylval and yylineno can't be used, since an action runs no code
    To do: return a kind; what reads the listing has text, length and line
    As in: a { yylval = atoi(yytext); return NUM; }

group-as-action (E20)
    %{ is no action
    To do: put { and } round statements
    As in: a %{ return A; %}

brace-not-open (E20)
    no { is open
    To do: delete the }
    As in: a return A; }

comment-hash (E20)
    # begins no comment, and is a byte here
    To do: write a blank and /* */
    As in: # names

carriage-return (E20)
    the last line ends with CR and no LF
    To do: end it by a newline

code (E20)
    an action is C, and none is run
    To do: return a kind, and do the work in what reads the listing
    As in: a count++;


E21
    the last rule has the action |, and no rule follows whose action that could be
    To do: write its action
    As in: a |


E30
    the patterns have more than 16,384 positions once names are unfolded and repeats written out
    To do: smaller intervals
    As in: ((a{200}){200}) ;


E31
    the automaton would have more than 16,384 sets of positions
    To do: a shorter rest after a repeat; two rules in two conditions
    As in: (a|b)*a((a|b){20}) ;


E40
    the numbers of kinds in C would pass 2,147,483,647; those with names are counted from one above the greatest number that an action returns
    To do: return smaller numbers, or names
    As in: a return 2147483647;


E41
    with --direct a scanner in C is code for each state, and the automaton has more than 1,000 of them; a compiler takes ten seconds and more for those
    To do: leave --direct out


B01
    a text is no table's: each table has one text of each version
    To do: make it again by lx gen; lx up takes both versions

newer-tables (B01)
    the tables are of a version that this lx doesn't read
    To do: make them again by lx gen
    As in: lx-tables 3

specification-given (B01)
    the text is a specification
    To do: lx run, or lx gen first
    As in: %%

carriage-returns (B01)
    the lines end with CR LF
    To do: keep the file as it is: -text in .gitattributes

cut-tables (B01)
    the text is cut short
    To do: copy it whole; its last line is end


warning
    something is suspicious about a specification that is accepted; lx check says so
    To do: write what is meant, or switch the warning off: by -W no-NAME, or by a comment on the line before, indented: /* lx: allow NAME */

condition-word (warning)
    a word after % begins with s or x, so the line declares conditions
    To do: write %s or %x where they are meant; such a word of another tool is none of lex

never-entered (warning)
    no rule that is chosen enters the condition
    To do: write BEGIN with its name in a rule, or delete the condition and its rules

unused-definition (warning)
    no rule reaches the definition
    To do: delete it, or use its name in braces

never-chosen (warning)
    no text has the rule as its choice: each of its matches gives way to a longer one or to a rule before it, or is empty
    To do: put it before the rule that takes its texts, or delete it

interval (warning)
    an interval repeats all that is before it in its branch, but in flex only the last unit
    To do: put what it is to repeat in parentheses: (b{2}) or (ab){2}
    As in: ab{2} return A;

lazy (warning)
    a ? after a repeat is no lazy repeat: the longest text is taken
    To do: leave the ? out, and say by the pattern where the text ends
    As in: a*? return A;

letter-escape (warning)
    a backslash before a letter or digit without an escape of its own means that letter or digit
    To do: write brackets where a class is meant: [0-9], or leave the backslash out
    As in: \d+ return NUM;

long-hex (warning)
    a number after \x has three digits or more, which are all of it
    To do: where two digits are meant, put what follows them in quotes of its own
    As in: \x041 return A;

many-bytes (warning)
    a character of several bytes is in brackets, which take one of the bytes, or before a repeat, which repeats the last one
    To do: write alternatives, as (a|b), and put the character in quotes before a repeat
    As in: é+ return E;

curly-quotes (warning)
    a curly quotation mark is three bytes, and quotes nothing
    To do: write plain quotes
    As in: “a” return A;

class-outside (warning)
    a class lacks the brackets around it, so it is brackets that take one of its bytes
    To do: write [[:alpha:]]
    As in: [:alpha:] return A;

wide-range (warning)
    a range goes from a capital letter to a small one, or from a digit to a letter, and takes what is between them
    To do: write A-Za-z, or 0-9A-Za-z
    As in: [A-z]+ return ID;

dead-statement (warning)
    a statement comes after a return of its action, and is never done
    To do: put it before the return, or delete it
    As in: a { return A; ECHO; }

skipped-rule (warning)
    a line of Rules looks like a rule, and begins with a blank, so it is skipped
    To do: begin it at the margin; where the blank is of the pattern, write " " or [ ]
    As in:  a return A;

skipped-line (warning)
    a line after the second %%, or the text behind the first on its line, looks like a rule, and is skipped
    To do: put it on a line between them

far-ahead (warning)
    a run of one byte is read to its end, and where no match ends with it, again after each of its bytes; off by default; enable with -W far-ahead
    To do: let a shorter text match too, or bound the repeat
    As in: (.|\n)*x return A;

unread-bytes (warning)
    no rule takes some bytes in a condition that is entered, so they are echoed; off by default; enable with -W unread-bytes
    To do: take each other byte by a last rule: .|\n ;
    As in: [a-z]+ return ID;"#;
