//! The constant text of the declarations and of the arrays, with `@` for the prefix.

/// The first line of a scanner.
pub(crate) const FIRST_LINE: &[u8] = br#"/* @: a scanner printed by lx gen --c; form classes. */
"#;

/// The beginning of the declarations.
pub(crate) const GUARD: &[u8] = br#"#ifndef @__H
#define @__H
#include <stddef.h>
"#;

/// The values of a token that are no kind.
pub(crate) const SPECIAL_KINDS: &[u8] =
    br#"/* May be defined before this file: @__API as static inline, which makes a scanner that is included faster; and @__NO_LINES, so that lines aren't counted,
   the line of each token is 1, and its column how many bytes stand before it plus 1. */
#ifndef @__API
#define @__API extern
#endif
#ifdef __cplusplus
extern "C" {
#endif

/* What @_next gives: one of these, a number that an action returns, or a kind. */
enum {
    /* the text is at its end */
    @_END = -1,
    /* a byte that no rule takes, or the text of an ECHO */
    @_ECHO = -2,
    /* a further part of the text is wanted */
    @_MORE = -3"#;

/// The end of the kinds.
pub(crate) const KINDS_END: &[u8] = br#"
};
"#;

/// The number of the first kind comes after it.
pub(crate) const FIRST_KIND: &[u8] = br#"#define @_FIRST "#;

/// The number of start conditions comes after it.
pub(crate) const CONDITIONS: &[u8] = br#"#define @_CONDITIONS "#;

/// Types and functions.
pub(crate) const FUNCTIONS: &[u8] = br#"
typedef struct @_token {
    int kind;
    const char *text;  /* in the caller's buffer; no NUL stands behind it */
    size_t length;
    size_t start;      /* how many bytes of the whole text stand before it */
    size_t line;       /* the line of its first byte, counted from 1 */
    size_t line_start; /* how many bytes of the whole text stand before that line */
} @_token;

/* May be read; is changed by the functions below alone. */
typedef struct @_scanner {
    const unsigned char *text; /* this part of the text */
    size_t size;               /* how many bytes this part has */
    size_t at;                 /* where in this part the next match begins */
    const unsigned char *place; /* the same in memory, where the next call has it sooner */
    size_t from;               /* where in this part the last match began */
    size_t before;             /* how many bytes stand before this part */
    size_t line;               /* line and start of line at `at` */
    size_t line_start;
    size_t from_line;          /* line and start of line at `from` */
    size_t from_line_start;
    const int *pending;        /* what is left of an action that gives several tokens */
    int condition;             /* the start condition, by its number */
    int at_line_begin;
    int is_last;               /* whether this part is the last one */
} @_scanner;

/* Scan a whole text. Its bytes stay the caller's, and stay where they are while tokens of it are used. */
@__API void @_init(@_scanner *s, const void *text, size_t size);

/* Scan a text in parts. Where @_MORE is given, hand over the bytes of this part from s->at on, with further ones behind them. */
@__API void @_init_part(@_scanner *s, const void *text, size_t size);
@__API void @_refill(@_scanner *s, const void *text, size_t size, int is_last);

/* The next token, and its kind. Behind @_END comes @_END. */
@__API int @_next(@_scanner *s, @_token *t);

/* The next tokens, at most so many: how many there are. Only the last one may be @_END or @_MORE, and none comes behind it. */
@__API size_t @_fill(@_scanner *s, @_token *t, size_t most);

/* Enter a start condition by its number: 0 is INITIAL. A number that is none changes nothing. */
@__API void @_begin(@_scanner *s, int condition);

/* Go on behind the first `length` bytes, at least 1, of the token given last. Another token or length changes nothing. */
@__API void @_less(@_scanner *s, const @_token *t, size_t length);

/* The column of a token's first byte: bytes of its line, counted from 1. */
@__API size_t @_column(const @_scanner *s, const @_token *t);

/* The name of a kind; NULL where it has none. */
@__API const char *@_name(int kind);

#ifdef __cplusplus
}
#endif
#endif
"#;

/// The array of the steps of a rule; the rule's number comes after it.
pub(crate) const STEP_ARRAY: &[u8] = br#"static const int @__steps_"#;

/// The name of the array of a rule's steps; its number follows.
pub(crate) const STEPS_OF: &[u8] = br#"@__steps_"#;

/// The array of the places of each rule's steps.
pub(crate) const STEPS: &[u8] = br#"static const int *const @__steps[] = {
0,
"#;

/// The array of what each rule's action gives at once.
pub(crate) const ACTIONS: &[u8] = br#"static const int @__action[] = {
0,
"#;

/// The macro for the number of bytes that are left off a match of a rule.
pub(crate) const LINE_END: &[u8] = br#"#define @__CUT(rule) @__cut[rule]
"#;

/// The same if no rule ends with `$`.
pub(crate) const NO_LINE_END: &[u8] = br#"#define @__CUT(rule) 0
"#;

/// The array that says which rules end with `$`.
pub(crate) const LINE_ENDS: &[u8] = br#"static const unsigned char @__cut[] = {
0,
"#;

/// The macro that says if a further token of an action is left.
pub(crate) const PENDING: &[u8] = br#"#define @__PENDING s->pending
"#;

/// The same if no action goes on after a token.
pub(crate) const NOTHING_PENDING: &[u8] = br#"#define @__PENDING 0
"#;

/// The names of kinds.
pub(crate) const NAMES: &[u8] = br#"static const char *const @__names[] = {
"#;

/// The kinds themselves, if a file declares them.
pub(crate) const KINDS: &[u8] = br#"static const int @__kinds[] = {
"#;

/// The macro that says if a match begins at line begin.
pub(crate) const LINE_BEGIN: &[u8] = br#"#define @__BEGIN(b) (b)
"#;

/// The same if that makes no difference.
pub(crate) const NO_LINE_BEGIN: &[u8] = br#"#define @__BEGIN(b) 1
"#;

/// The macro for the number of classes, which follows.
pub(crate) const WIDTH: &[u8] = br#"#define @__WIDTH "#;

/// The class of each byte.
pub(crate) const CLASSES: &[u8] = br#"static const unsigned char @__class[] = {
"#;

/// The rows, after their type.
pub(crate) const ROWS: &[u8] = br#" @__row[] = {
"#;

/// The starts, after their type.
pub(crate) const STARTS: &[u8] = br#" @__start[] = {
"#;

/// The end of a scanner.
pub(crate) const LAST_LINES: &[u8] = br#"
#undef @__BEGIN
#undef @__CUT
#undef @__LINES
#undef @__PENDING
#undef @__WIDTH
"#;
