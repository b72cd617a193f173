//! The head of a scanner: its interface, macros and variables.

pub(crate) const OPENING: &[u8] = br#"%if in-header
#ifndef @xHEADER_H
#define @xHEADER_H 1
#define @xIN_HEADER 1

/* Declares the scanner that lx flex made, for the programs that call it. */

%else
%if states
/* A scanner in C, made by lx flex. Edit the file for flex, not this one.

   The code from yy__s0 on has a label for each state of an automaton, which names the earliest rule that matches after every text. That is
   proved of the rules as lx read them, and so is that each state's steps are printed here. The C code as a whole is tested, not proved. */
%else
/* A scanner in C, made by lx flex. Edit the file for flex, not this one.

   The arrays yy_class, yy_rows and yy_first hold the rules: after every text the row that is reached names the earliest rule that matches
   that text. This is proved of the rules as lx read them. The C code around the arrays is tested, not proved. */
%end

%end
#define FLEX_SCANNER
#define YY_FLEX_MAJOR_VERSION 2
#define YY_FLEX_MINOR_VERSION 6
#define YY_FLEX_SUBMINOR_VERSION 4

"#;

pub(crate) const NAMES: &[u8] = br#"%if prefix
/* The interface has the prefix "@x" for the linker, so that a program can have several scanners. */
#ifndef yylex
#define yylex @xlex
#endif
#ifndef yyrestart
#define yyrestart @xrestart
#endif
#ifndef yywrap
#define yywrap @xwrap
#endif
#ifndef yyalloc
#define yyalloc @xalloc
#endif
#ifndef yyrealloc
#define yyrealloc @xrealloc
#endif
#ifndef yyfree
#define yyfree @xfree
#endif
#ifndef yy_create_buffer
#define yy_create_buffer @x_create_buffer
#endif
#ifndef yy_delete_buffer
#define yy_delete_buffer @x_delete_buffer
#endif
#ifndef yy_flush_buffer
#define yy_flush_buffer @x_flush_buffer
#endif
#ifndef yy_switch_to_buffer
#define yy_switch_to_buffer @x_switch_to_buffer
#endif
#ifndef yypush_buffer_state
#define yypush_buffer_state @xpush_buffer_state
#endif
#ifndef yypop_buffer_state
#define yypop_buffer_state @xpop_buffer_state
#endif
#ifndef yy_scan_buffer
#define yy_scan_buffer @x_scan_buffer
#endif
#ifndef yy_scan_string
#define yy_scan_string @x_scan_string
#endif
#ifndef yy_scan_bytes
#define yy_scan_bytes @x_scan_bytes
#endif
%if !reentrant
#ifndef yyin
#define yyin @xin
#endif
#ifndef yyout
#define yyout @xout
#endif
#ifndef yytext
#define yytext @xtext
#endif
#ifndef yyleng
#define yyleng @xleng
#endif
#ifndef yylineno
#define yylineno @xlineno
#endif
#ifndef yy_flex_debug
#define yy_flex_debug @x_flex_debug
#endif
%end

%end
"#;

pub(crate) const NAMES_2: &[u8] = br#"%if prefix
#ifndef yylex_destroy
#define yylex_destroy @xlex_destroy
#endif
#ifndef yyget_debug
#define yyget_debug @xget_debug
#endif
#ifndef yyset_debug
#define yyset_debug @xset_debug
#endif
#ifndef yyget_in
#define yyget_in @xget_in
#endif
#ifndef yyset_in
#define yyset_in @xset_in
#endif
#ifndef yyget_out
#define yyget_out @xget_out
#endif
#ifndef yyset_out
#define yyset_out @xset_out
#endif
#ifndef yyget_leng
#define yyget_leng @xget_leng
#endif
#ifndef yyget_text
#define yyget_text @xget_text
#endif
#ifndef yyget_lineno
#define yyget_lineno @xget_lineno
#endif
#ifndef yyset_lineno
#define yyset_lineno @xset_lineno
#endif
%if reentrant
#ifndef yylex_init
#define yylex_init @xlex_init
#endif
#ifndef yylex_init_extra
#define yylex_init_extra @xlex_init_extra
#endif
#ifndef yyget_extra
#define yyget_extra @xget_extra
#endif
#ifndef yyset_extra
#define yyset_extra @xset_extra
#endif
#ifndef yyget_column
#define yyget_column @xget_column
#endif
#ifndef yyset_column
#define yyset_column @xset_column
#endif
%if bison-bridge
#ifndef yyget_lval
#define yyget_lval @xget_lval
#endif
#ifndef yyset_lval
#define yyset_lval @xset_lval
#endif
%end
%if bison-locations
#ifndef yyget_lloc
#define yyget_lloc @xget_lloc
#endif
#ifndef yyset_lloc
#define yyset_lloc @xset_lloc
#endif
%end
%end

%end
"#;

pub(crate) const SYSTEM: &[u8] = br#"#include <errno.h>
#include <limits.h>
#include <stdio.h>
#include <stdlib.h>
#include <string.h>
#if defined __STDC_VERSION__ && __STDC_VERSION__ >= 199901L || defined __cplusplus && __cplusplus >= 201103L
#include <inttypes.h>
#endif
%if !in-header

#ifdef __GNUC__
#define yynoreturn __attribute__((__noreturn__))
#define yy_unused __attribute__((__unused__))
#else
#define yynoreturn
#define yy_unused
#endif
#define yyconst const
%end

"#;

pub(crate) const TYPES: &[u8] = br#"#ifndef YY_TYPEDEF_YY_SIZE_T
#define YY_TYPEDEF_YY_SIZE_T
typedef size_t yy_size_t;
#endif
%if reentrant
#ifndef YY_TYPEDEF_YY_SCANNER_T
#define YY_TYPEDEF_YY_SCANNER_T
typedef void *yyscan_t;
#endif
%end
#ifndef YY_TYPEDEF_YY_BUFFER_STATE
#define YY_TYPEDEF_YY_BUFFER_STATE
typedef struct yy_buffer_state *YY_BUFFER_STATE;
#endif

/* The size of the buffers that the scanner makes by itself. */
#ifndef YY_BUF_SIZE
#define YY_BUF_SIZE 16384
#endif

#ifndef YY_STRUCT_YY_BUFFER_STATE
#define YY_STRUCT_YY_BUFFER_STATE
/* A text that is scanned, or the part of a file that was read last. */
struct yy_buffer_state {
    FILE *yy_input_file;
    char *yy_ch_buf;       /* yy_n_chars bytes of text, then two NULs */
    char *yy_buf_pos;      /* the next byte, while another buffer is scanned */
    int yy_buf_size;       /* the room at yy_ch_buf without the two NULs */
    int yy_n_chars;
    int yy_is_our_buffer;  /* yy_ch_buf came from yyalloc and may grow */
    int yy_is_interactive; /* read line by line, so that a terminal need not wait */
    int yy_at_bol;         /* the next byte begins a line */
    int yy_bs_lineno;
    int yy_bs_column;
    int yy_fill_buffer;    /* more text can be read from yy_input_file */
    int yy_buffer_status;
};
#define YY_BUFFER_NEW 0         /* nothing is read yet; yyin may still change */
#define YY_BUFFER_NORMAL 1
#define YY_BUFFER_EOF_PENDING 2 /* the file has ended, and some of its text is left */
#endif

"#;

pub(crate) const BUFFERS: &[u8] = br#"void @xrestart(FILE *yy_file@P);
YY_BUFFER_STATE @x_create_buffer(FILE *yy_file, int yy_size@P);
void @x_switch_to_buffer(YY_BUFFER_STATE yy_new_buffer@P);
void @x_delete_buffer(YY_BUFFER_STATE yy_buffer@P);
void @x_flush_buffer(YY_BUFFER_STATE yy_buffer@P);
void @xpush_buffer_state(YY_BUFFER_STATE yy_new_buffer@P);
void @xpop_buffer_state(@p);
%if yy_scan_buffer
YY_BUFFER_STATE @x_scan_buffer(char *yy_base, yy_size_t yy_size@P);
%end
%if yy_scan_string
YY_BUFFER_STATE @x_scan_string(const char *yy_text@P);
%end
%if yy_scan_bytes
YY_BUFFER_STATE @x_scan_bytes(const char *yy_bytes, int yy_length@P);
%end
void *@xalloc(yy_size_t yy_size@P);
void *@xrealloc(void *yy_block, yy_size_t yy_size@P);
void @xfree(void *yy_block@P);
%if !reentrant

extern FILE *@xin, *@xout;
extern int @xleng, @xlineno, @x_flex_debug;
%if array
extern char @xtext[];
%else
extern char *@xtext;
%end
%end

"#;

pub(crate) const MACROS: &[u8] = br#"#define YY_NULL 0
#define YY_END_OF_BUFFER_CHAR 0
typedef unsigned char YY_CHAR;
%if debug
#define FLEX_DEBUG
%end
%if lex-compat
#define YY_FLEX_LEX_COMPAT
%end
%if !yywrap
#define YY_SKIP_YYWRAP
%if reentrant
#define @xwrap(scanner) 1
%else
#define @xwrap() 1
%end
%end
%if !unput
#define YY_NO_UNPUT 1
%end
%if !input
#define YY_NO_INPUT 1
%end
%if !unistd
#define YY_NO_UNISTD_H 1
%end

%if reentrant
/* The variables of a scanner are members of its struct yyguts_t, which yyg points to. */
#define yyin yyg->yyin_r
#define yyout yyg->yyout_r
#define yytext yyg->yytext_r
#define yyleng yyg->yyleng_r
#define yyextra yyg->yyextra_r
#define yy_flex_debug yyg->yy_flex_debug_r
#define yylineno (YY_CURRENT_BUFFER_LVALUE->yy_bs_lineno)
#define yycolumn (YY_CURRENT_BUFFER_LVALUE->yy_bs_column)

%end
/* BEGIN takes its condition with or without parentheses, so it can't have a parameter. */
#define BEGIN @gyy_start = 1 + 2 *
#define YY_START ((@gyy_start - 1) / 2)
#define YYSTATE YY_START
#define YY_NEW_FILE yyrestart(yyin@A)
#define YY_FLUSH_BUFFER yy_flush_buffer(YY_CURRENT_BUFFER@A)

/* The second form is for where there is a buffer, and can be assigned to. */
#define YY_CURRENT_BUFFER (@gyy_buffer_stack ? YY_CURRENT_BUFFER_LVALUE : NULL)
#define YY_CURRENT_BUFFER_LVALUE @gyy_buffer_stack[@gyy_buffer_stack_top]

#define YY_AT_BOL() (YY_CURRENT_BUFFER_LVALUE->yy_at_bol)
#define yy_set_bol(at_bol) { yy_need_buffer(@a); YY_CURRENT_BUFFER_LVALUE->yy_at_bol = (at_bol); }
#define yy_set_interactive(is_interactive) { yy_need_buffer(@a); YY_CURRENT_BUFFER_LVALUE->yy_is_interactive = (is_interactive); }
#define yy_new_buffer yy_create_buffer

%if array
#ifndef YYLMAX
#define YYLMAX 8192
#endif
%else
%if reentrant
#define yytext_ptr yytext_r
%else
#define yytext_ptr yytext
%end
%end

"#;

pub(crate) const TEXT_MACROS: &[u8] = br#"%if unput
/* Makes c the next byte of the input. */
#define unput(c) yyunput(c, @gyytext_ptr@A)
%end
%if yymore
%if array
/* Appends the next match to the present string in yytext. */
#define yymore() (@gyy_more_offset = (int)strlen(yytext))
%else
/* Appends the next match to yytext. */
#define yymore() (@gyy_more_flag = 1)
%end
%else
#define yymore() yymore_used_but_not_detected
%end

%if array
%if yymore
/* Shortens yytext to n bytes after those that yymore() kept, and returns the rest to the input. Works in actions and in functions. */
%else
/* Shortens yytext to its first n bytes, and returns the rest to the input. Works in actions and in functions. */
%end
%else
/* Shortens yytext to its first n bytes, and returns the rest to the input. Works in actions and in functions. */
%end
#define yyless(n) \
    do { \
%if array
%if yymore
        int yy_shorter = (n) + @gyy_prev_more_offset; \
%else
        int yy_shorter = (n); \
%end
%else
        int yy_shorter = (n); \
%end
%if yylineno
        int yy_given; \
        for (yy_given = yy_shorter; yy_given < yyleng; ++yy_given) \
            yylineno -= yytext[yy_given] == '\n'; \
%end
        *@gyy_c_buf_p = @gyy_hold_char; \
%if array
%if yymore
        @gyy_c_buf_p = @gyytext_ptr + yy_shorter - @gyy_prev_more_offset; \
%else
        @gyy_c_buf_p = @gyytext_ptr + yy_shorter; \
%end
        yytext[yy_shorter] = '\0'; \
%else
        @gyy_c_buf_p = yytext + yy_shorter; \
%end
        @gyy_hold_char = *@gyy_c_buf_p; \
        *@gyy_c_buf_p = '\0'; \
        yyleng = yy_shorter; \
    } while (0)

"#;

pub(crate) const VARIABLES: &[u8] = br#"%if !reentrant
FILE *yyin = NULL, *yyout = NULL;
int yyleng = 0, yylineno = 1;
%if debug
int yy_flex_debug = 1;
%else
int yy_flex_debug = 0;
%end
%if array
char yytext[YYLMAX];
static char *yytext_ptr = NULL; /* where the text of the match is in the buffer */
%else
char *yytext = NULL;
%end

static int yy_init = 0;
static int yy_start = 1; /* 1 + 2 * the start condition */
static char *yy_c_buf_p = NULL; /* the next byte to be scanned */
static char yy_hold_char = '\0'; /* that byte, while a NUL ends yytext in its place */
static int yy_n_chars = 0; /* yy_n_chars of the current buffer */
static YY_BUFFER_STATE *yy_buffer_stack = NULL;
static size_t yy_buffer_stack_top = 0, yy_buffer_stack_max = 0;
static int yy_did_buffer_switch_on_eof = 0; /* set when the buffer changes, so that yywrap() can change it */
%if yymore
%if array
static int yy_more_offset = 0, yy_prev_more_offset = 0;
%else
static int yy_more_flag = 0, yy_more_len = 0;
%end
%end
%if stack
static int *yy_start_stack = NULL;
static int yy_start_stack_ptr = 0, yy_start_stack_depth = 0;
%end
%if reject
static unsigned int *yy_kept_rows = NULL; /* the row after each byte of a match */
static size_t yy_kept_max = 0;
%end
%end

"#;

pub(crate) const GUTS: &[u8] = br#"#ifndef YY_NO_UNISTD_H
#include <unistd.h>
#endif
#if defined __STRICT_ANSI__ && !defined __cplusplus && !defined fileno
extern int fileno(FILE *yy_stream); /* POSIX has it, and ISO C hides it. */
#endif

#ifndef YY_EXTRA_TYPE
#define YY_EXTRA_TYPE void *
#endif
%if reentrant

/* The state of one scanner. */
struct yyguts_t {
    YY_EXTRA_TYPE yyextra_r;
    FILE *yyin_r, *yyout_r;
    int yyleng_r, yylineno_r, yy_flex_debug_r;
%if array
    char yytext_r[YYLMAX];
    char *yytext_ptr; /* where the text of the match is in the buffer */
%else
    char *yytext_r;
%end
    int yy_init;
    int yy_start; /* 1 + 2 * the start condition */
    char *yy_c_buf_p; /* the next byte to be scanned */
    char yy_hold_char; /* that byte, while a NUL ends yytext in its place */
    int yy_n_chars; /* yy_n_chars of the current buffer */
    YY_BUFFER_STATE *yy_buffer_stack;
    size_t yy_buffer_stack_top, yy_buffer_stack_max;
    int yy_did_buffer_switch_on_eof; /* set when the buffer changes, so that yywrap() can change it */
%if yymore
%if array
    int yy_more_offset, yy_prev_more_offset;
%else
    int yy_more_flag, yy_more_len;
%end
%end
%if stack
    int *yy_start_stack;
    int yy_start_stack_ptr, yy_start_stack_depth;
%end
%if reject
    unsigned int *yy_kept_rows; /* the row after each byte of a match */
    size_t yy_kept_max;
%end
%if bison-bridge
    YYSTYPE *yylval_r;
%end
%if bison-locations
    YYLTYPE *yylloc_r;
%end
};
%if bison-bridge
#define yylval yyg->yylval_r
%end
%if bison-locations
#define yylloc yyg->yylloc_r
%end
%end

"#;

pub(crate) const HEADER_TYPES: &[u8] = br#"#ifndef YY_EXTRA_TYPE
#define YY_EXTRA_TYPE void *
#endif

"#;

pub(crate) const INTERFACE: &[u8] = br#"%if reentrant
int @xlex_init(yyscan_t *yy_scanner);
int @xlex_init_extra(YY_EXTRA_TYPE yy_extra, yyscan_t *yy_scanner);
%end
int @xlex_destroy(@p);
%if yyget_debug
int @xget_debug(@p);
%end
%if yyset_debug
void @xset_debug(int yy_debug_flag@P);
%end
%if yyget_in
FILE *@xget_in(@p);
%end
%if yyset_in
void @xset_in(FILE *yy_in@P);
%end
%if yyget_out
FILE *@xget_out(@p);
%end
%if yyset_out
void @xset_out(FILE *yy_out@P);
%end
%if yyget_leng
int @xget_leng(@p);
%end
%if yyget_text
char *@xget_text(@p);
%end
%if yyget_lineno
int @xget_lineno(@p);
%end
%if yyset_lineno
void @xset_lineno(int yy_line_number@P);
%end
%if reentrant
%if yyget_extra
YY_EXTRA_TYPE @xget_extra(@p);
%end
%if yyset_extra
void @xset_extra(YY_EXTRA_TYPE yy_extra@P);
%end
%if yyget_column
int @xget_column(@p);
%end
%if yyset_column
void @xset_column(int yy_column@P);
%end
%if bison-bridge
%if yyget_lval
YYSTYPE *@xget_lval(@p);
%end
%if yyset_lval
void @xset_lval(YYSTYPE *yy_value@P);
%end
%end
%if bison-locations
%if yyget_lloc
YYLTYPE *@xget_lloc(@p);
%end
%if yyset_lloc
void @xset_lloc(YYLTYPE *yy_location@P);
%end
%end
%end

%if yywrap
#ifndef YY_SKIP_YYWRAP
#ifdef __cplusplus
extern "C" int @xwrap(@p);
#else
extern int @xwrap(@p);
#endif
#endif

%end
#ifndef YY_DECL
%if !in-header
#define YY_DECL int yylex(@d)
%end
extern int @xlex(@d);
#endif

"#;

pub(crate) const CONDITIONS: &[u8] = b"\n#ifdef YY_HEADER_EXPORT_START_CONDITIONS\n";

pub(crate) const CLOSING: &[u8] = br#"#endif
#undef @xIN_HEADER
#endif

"#;

pub(crate) const HELPERS: &[u8] = br#"static void yy_need_buffer(@p);
static void yy_load_position(@p);
static int yy_refill(@p);
static void yynoreturn yy_unused yy_fatal_error(const char *yy_message@P);
%if unput
#ifndef YY_NO_UNPUT
static void yy_unused yyunput(int yy_byte, char *yy_text@P);
#endif
%end
%if input
#ifndef YY_NO_INPUT
#ifdef __cplusplus
static int yy_unused yyinput(@p);
#else
static int yy_unused input(@p);
#endif
#endif
%end
%if stack
%if yy_push_state
static void yy_unused yy_push_state(int yy_new_state@P);
%end
%if yy_pop_state
static void yy_unused yy_pop_state(@p);
%end
%if yy_top_state
static int yy_unused yy_top_state(@p);
%end
%end

/* The file for flex can define the macros from here on. */
#ifndef YY_FATAL_ERROR
#define YY_FATAL_ERROR(message) yy_fatal_error(message@A)
#endif
#ifndef YY_EXIT_FAILURE
#define YY_EXIT_FAILURE 2
#endif
#ifndef YY_READ_BUF_SIZE
#define YY_READ_BUF_SIZE 8192
#endif
#ifndef YY_START_STACK_INCR
#define YY_START_STACK_INCR 25
#endif
#ifndef ECHO
#define ECHO ((void)!fwrite(yytext, 1, (size_t)yyleng, yyout))
#endif
#ifndef yyterminate
#define yyterminate() return YY_NULL
#endif
%if states
#if defined YY_USER_ACTION || defined YY_RULE_SETUP || defined YY_BREAK
#define YY_HAS_HOOKS
#endif
#ifdef YY_INPUT
#define YY_HAS_INPUT
#endif
%end
#ifndef YY_USER_ACTION
#define YY_USER_ACTION
#endif
#ifndef YY_BREAK
#define YY_BREAK break;
#endif
#ifndef YY_RULE_SETUP
#define YY_RULE_SETUP YY_USER_ACTION
#endif
%if reject
/* Goes on with the next rule that matches the text, or a part at its start. Works in actions. */
#define REJECT \
    { \
        *@gyy_c_buf_p = @gyy_hold_char; \
        goto yy_find_rule; \
    }
%else
#define REJECT reject_used_but_not_detected
%end

"#;
