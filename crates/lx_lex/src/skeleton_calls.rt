//! The calls of the interface: buffers, start conditions, access and memory.

pub(crate) const POSITION: &[u8] =
    br#"/* Makes the scanner continue at the place of the current buffer. */
static void yy_load_position(@p)
{
%if reentrant
    struct yyguts_t *yyg = (struct yyguts_t *)yyscanner;
%end
    YY_BUFFER_STATE yy_buffer = YY_CURRENT_BUFFER_LVALUE;

    @gyy_n_chars = yy_buffer->yy_n_chars;
    @gyytext_ptr = @gyy_c_buf_p = yy_buffer->yy_buf_pos;
    @gyy_hold_char = *@gyy_c_buf_p;
    yyin = yy_buffer->yy_input_file;
}

/* Stores the place in the current buffer, if there is one. */
static void yy_save_position(@p)
{
%if reentrant
    struct yyguts_t *yyg = (struct yyguts_t *)yyscanner;
%end

    if (YY_CURRENT_BUFFER) {
        *@gyy_c_buf_p = @gyy_hold_char;
        YY_CURRENT_BUFFER_LVALUE->yy_buf_pos = @gyy_c_buf_p;
        YY_CURRENT_BUFFER_LVALUE->yy_n_chars = @gyy_n_chars;
    }
}

/* Makes room for one more buffer on the stack. */
static void yy_make_stack_room(@p)
{
%if reentrant
    struct yyguts_t *yyg = (struct yyguts_t *)yyscanner;
%end
    size_t yy_size = @gyy_buffer_stack_max + 8;
    YY_BUFFER_STATE *yy_grown;

    if (@gyy_buffer_stack_top + 1 < @gyy_buffer_stack_max)
        return;
    if (@gyy_buffer_stack)
        yy_grown = (YY_BUFFER_STATE *)yyrealloc(@gyy_buffer_stack, yy_size * sizeof *yy_grown@A);
    else
        yy_grown = (YY_BUFFER_STATE *)yyalloc(yy_size * sizeof *yy_grown@A);
    if (!yy_grown)
        YY_FATAL_ERROR("out of dynamic memory in yyensure_buffer_stack()");
    @gyy_buffer_stack = yy_grown;
    while (@gyy_buffer_stack_max < yy_size)
        yy_grown[@gyy_buffer_stack_max++] = NULL;
}

/* Makes a buffer for yyin if there is none. */
static void yy_need_buffer(@p)
{
%if reentrant
    struct yyguts_t *yyg = (struct yyguts_t *)yyscanner;
%end

    if (!YY_CURRENT_BUFFER) {
        yy_make_stack_room(@a);
        YY_CURRENT_BUFFER_LVALUE = yy_create_buffer(yyin, YY_BUF_SIZE@A);
        yy_load_position(@a);
    }
}

"#;

pub(crate) const CREATE: &[u8] = br#"/* Empties a buffer and connects it with a file. */
static void yy_attach_file(YY_BUFFER_STATE yy_buffer, FILE *yy_file@P)
{
%if reentrant
    struct yyguts_t *yyg = (struct yyguts_t *)yyscanner;
%end
    int yy_known_errno = errno;

    yy_buffer->yy_input_file = yy_file;
    yy_buffer->yy_fill_buffer = 1;
    yy_flush_buffer(yy_buffer@A);
    if (yy_buffer != YY_CURRENT_BUFFER) { /* A file that follows another one in its buffer goes on counting. */
        yy_buffer->yy_bs_lineno = 1;
        yy_buffer->yy_bs_column = 0;
    }
%if always-interactive
    yy_buffer->yy_is_interactive = 1;
%else
%if never-interactive
    yy_buffer->yy_is_interactive = 0;
%else
    yy_buffer->yy_is_interactive = yy_file && isatty(fileno(yy_file)) > 0;
%end
%end
    errno = yy_known_errno;
}

/* Returns a new buffer for yy_switch_to_buffer or yypush_buffer_state. */
YY_BUFFER_STATE yy_create_buffer(FILE *yy_file, int yy_size@P)
{
    YY_BUFFER_STATE yy_buffer = (YY_BUFFER_STATE)yyalloc(sizeof *yy_buffer@A);

    if (!yy_buffer)
        YY_FATAL_ERROR("out of dynamic memory in yy_create_buffer()");
    yy_buffer->yy_buf_size = yy_size;
    yy_buffer->yy_is_our_buffer = 1;
    yy_buffer->yy_ch_buf = (char *)yyalloc((yy_size_t)yy_size + 2@A);
    if (!yy_buffer->yy_ch_buf)
        YY_FATAL_ERROR("out of dynamic memory in yy_create_buffer()");
    yy_attach_file(yy_buffer, yy_file@A);
    return yy_buffer;
}

/* Empties the current buffer and connects it with another file. The start condition stays. */
void yyrestart(FILE *yy_file@P)
{
%if reentrant
    struct yyguts_t *yyg = (struct yyguts_t *)yyscanner;
%end

    yy_need_buffer(@a);
    yy_attach_file(YY_CURRENT_BUFFER_LVALUE, yy_file@A);
    yy_load_position(@a);
}

"#;

pub(crate) const SWITCH: &[u8] =
    br#"/* Makes another buffer the current one. The buffer before keeps its place. */
void yy_switch_to_buffer(YY_BUFFER_STATE yy_new_buffer@P)
{
%if reentrant
    struct yyguts_t *yyg = (struct yyguts_t *)yyscanner;
%end

    if (YY_CURRENT_BUFFER == yy_new_buffer)
        return;
    yy_save_position(@a);
    yy_make_stack_room(@a);
    YY_CURRENT_BUFFER_LVALUE = yy_new_buffer;
    if (yy_new_buffer)
        yy_load_position(@a);
    @gyy_did_buffer_switch_on_eof = 1;
}

/* Makes another buffer the current one until it is popped. */
void yypush_buffer_state(YY_BUFFER_STATE yy_new_buffer@P)
{
%if reentrant
    struct yyguts_t *yyg = (struct yyguts_t *)yyscanner;
%end

    if (!yy_new_buffer)
        return;
    yy_save_position(@a);
    yy_make_stack_room(@a);
    if (YY_CURRENT_BUFFER_LVALUE)
        ++@gyy_buffer_stack_top;
    YY_CURRENT_BUFFER_LVALUE = yy_new_buffer;
    yy_load_position(@a);
    @gyy_did_buffer_switch_on_eof = 1;
}

/* Deletes the current buffer and returns to the one below it. */
void yypop_buffer_state(@p)
{
%if reentrant
    struct yyguts_t *yyg = (struct yyguts_t *)yyscanner;
%end

    if (!YY_CURRENT_BUFFER)
        return;
    yy_delete_buffer(YY_CURRENT_BUFFER_LVALUE@A);
    if (@gyy_buffer_stack_top > 0)
        --@gyy_buffer_stack_top;
    if (YY_CURRENT_BUFFER_LVALUE) {
        yy_load_position(@a);
        @gyy_did_buffer_switch_on_eof = 1;
    }
}

"#;

pub(crate) const DELETE: &[u8] = br#"/* Frees a buffer. */
void yy_delete_buffer(YY_BUFFER_STATE yy_buffer@P)
{
%if reentrant
    struct yyguts_t *yyg = (struct yyguts_t *)yyscanner;
%end

    if (!yy_buffer)
        return;
    if (yy_buffer == YY_CURRENT_BUFFER)
        YY_CURRENT_BUFFER_LVALUE = NULL;
    if (yy_buffer->yy_is_our_buffer)
        yyfree(yy_buffer->yy_ch_buf@A);
    yyfree(yy_buffer@A);
}

/* Drops the text of a buffer, so that the next match reads its file. */
void yy_flush_buffer(YY_BUFFER_STATE yy_buffer@P)
{
%if reentrant
    struct yyguts_t *yyg = (struct yyguts_t *)yyscanner;
%end

    if (!yy_buffer)
        return;
    yy_buffer->yy_n_chars = 0;
    yy_buffer->yy_ch_buf[0] = yy_buffer->yy_ch_buf[1] = YY_END_OF_BUFFER_CHAR;
    yy_buffer->yy_buf_pos = yy_buffer->yy_ch_buf;
    yy_buffer->yy_at_bol = 1;
    yy_buffer->yy_buffer_status = YY_BUFFER_NEW;
    if (yy_buffer == YY_CURRENT_BUFFER)
        yy_load_position(@a);
}

"#;

pub(crate) const SCAN: &[u8] = br#"%if scan
%if yy_scan_buffer
/* Makes a buffer of yy_size bytes that stay where they are. Returns NULL if the last two aren't NUL. */
YY_BUFFER_STATE yy_scan_buffer(char *yy_base, yy_size_t yy_size@P)
%else
/* Makes a buffer of yy_size bytes that stay where they are. Returns NULL if the last two aren't NUL. */
static YY_BUFFER_STATE yy_scan_in_place(char *yy_base, yy_size_t yy_size@P)
%end
{
    YY_BUFFER_STATE yy_buffer;

    if (yy_size < 2 || yy_base[yy_size - 2] != YY_END_OF_BUFFER_CHAR || yy_base[yy_size - 1] != YY_END_OF_BUFFER_CHAR)
        return NULL;
    yy_buffer = (YY_BUFFER_STATE)yyalloc(sizeof *yy_buffer@A);
    if (!yy_buffer)
        YY_FATAL_ERROR("out of dynamic memory in yy_scan_buffer()");
    memset(yy_buffer, 0, sizeof *yy_buffer);
    yy_buffer->yy_ch_buf = yy_buffer->yy_buf_pos = yy_base;
    yy_buffer->yy_buf_size = yy_buffer->yy_n_chars = (int)(yy_size - 2);
    yy_buffer->yy_at_bol = 1;
    yy_buffer->yy_bs_lineno = 1;
    yy_buffer->yy_buffer_status = YY_BUFFER_NEW;
    yy_switch_to_buffer(yy_buffer@A);
    return yy_buffer;
}

%end
"#;

pub(crate) const SCAN_BYTES: &[u8] = br#"%if scan-bytes
/* Makes a buffer with a copy of some bytes. */
%if yy_scan_bytes
YY_BUFFER_STATE yy_scan_bytes(const char *yy_bytes, int yy_length@P)
%else
static YY_BUFFER_STATE yy_scan_copy(const char *yy_bytes, int yy_length@P)
%end
{
    char *yy_copy = (char *)yyalloc((yy_size_t)yy_length + 2@A);
    YY_BUFFER_STATE yy_buffer;

    if (!yy_copy)
        YY_FATAL_ERROR("out of dynamic memory in yy_scan_bytes()");
    if (yy_length > 0)
        memcpy(yy_copy, yy_bytes, (size_t)yy_length);
    yy_copy[yy_length] = yy_copy[yy_length + 1] = YY_END_OF_BUFFER_CHAR;
%if yy_scan_buffer
    yy_buffer = yy_scan_buffer(yy_copy, (yy_size_t)yy_length + 2@A);
%else
    yy_buffer = yy_scan_in_place(yy_copy, (yy_size_t)yy_length + 2@A);
%end
    if (!yy_buffer)
        YY_FATAL_ERROR("bad buffer in yy_scan_bytes()");
    yy_buffer->yy_is_our_buffer = 1;
    return yy_buffer;
}

%end
"#;

pub(crate) const SCAN_STRING: &[u8] = br#"%if yy_scan_string
/* Makes a buffer with a copy of a string. */
YY_BUFFER_STATE yy_scan_string(const char *yy_text@P)
{
%if yy_scan_bytes
    return yy_scan_bytes(yy_text, (int)strlen(yy_text)@A);
%else
    return yy_scan_copy(yy_text, (int)strlen(yy_text)@A);
%end
}

%end
"#;

pub(crate) const STATES: &[u8] = br#"%if stack
%if yy_push_state
/* Enters a start condition, from which yy_pop_state leads back. */
static void yy_push_state(int yy_new_state@P)
{
%if reentrant
    struct yyguts_t *yyg = (struct yyguts_t *)yyscanner;
%end

    if (@gyy_start_stack_ptr >= @gyy_start_stack_depth) {
        int yy_depth = @gyy_start_stack_depth + YY_START_STACK_INCR;
        yy_size_t yy_size = (yy_size_t)yy_depth * sizeof(int);
        int *yy_grown = (int *)(@gyy_start_stack ? yyrealloc(@gyy_start_stack, yy_size@A) : yyalloc(yy_size@A));

        if (!yy_grown)
            YY_FATAL_ERROR("out of memory expanding start-condition stack");
        @gyy_start_stack = yy_grown;
        @gyy_start_stack_depth = yy_depth;
    }
    @gyy_start_stack[@gyy_start_stack_ptr++] = YY_START;
    BEGIN(yy_new_state);
}

%end
%if yy_pop_state
/* Goes back to the start condition that was left last by yy_push_state. */
static void yy_pop_state(@p)
{
%if reentrant
    struct yyguts_t *yyg = (struct yyguts_t *)yyscanner;
%end

    if (@gyy_start_stack_ptr <= 0)
        YY_FATAL_ERROR("start-condition stack underflow");
    --@gyy_start_stack_ptr;
    BEGIN(@gyy_start_stack[@gyy_start_stack_ptr]);
}

%end
%if yy_top_state
/* Returns the start condition that yy_pop_state would go back to. */
static int yy_top_state(@p)
{
%if reentrant
    struct yyguts_t *yyg = (struct yyguts_t *)yyscanner;
%end

    return @gyy_start_stack[@gyy_start_stack_ptr - 1];
}

%end
%end
"#;

pub(crate) const FATAL: &[u8] = br#"/* Prints a message and ends the program. */
static void yy_fatal_error(const char *yy_message@P)
{
%if reentrant
    /* What a program makes of exit may name members of yyg. */
    struct yyguts_t *yyg = (struct yyguts_t *)yyscanner;
    (void)yyg;
%end
    fprintf(stderr, "%s\n", yy_message);
    exit(YY_EXIT_FAILURE);
}

"#;

pub(crate) const ACCESS: &[u8] = br#"%if yyget_debug
int yyget_debug(@p)
{
%if reentrant
    struct yyguts_t *yyg = (struct yyguts_t *)yyscanner;
%end
    return yy_flex_debug;
}

%end
%if yyset_debug
void yyset_debug(int yy_debug_flag@P)
{
%if reentrant
    struct yyguts_t *yyg = (struct yyguts_t *)yyscanner;
%end
    yy_flex_debug = yy_debug_flag;
}

%end
%if yyget_in
FILE *yyget_in(@p)
{
%if reentrant
    struct yyguts_t *yyg = (struct yyguts_t *)yyscanner;
%end
    return yyin;
}

%end
%if yyset_in
/* Sets the file to be read next. Text that is in the buffer is scanned first. */
void yyset_in(FILE *yy_in@P)
{
%if reentrant
    struct yyguts_t *yyg = (struct yyguts_t *)yyscanner;
%end
    yyin = yy_in;
}

%end
%if yyget_out
FILE *yyget_out(@p)
{
%if reentrant
    struct yyguts_t *yyg = (struct yyguts_t *)yyscanner;
%end
    return yyout;
}

%end
%if yyset_out
void yyset_out(FILE *yy_out@P)
{
%if reentrant
    struct yyguts_t *yyg = (struct yyguts_t *)yyscanner;
%end
    yyout = yy_out;
}

%end
%if yyget_leng
int yyget_leng(@p)
{
%if reentrant
    struct yyguts_t *yyg = (struct yyguts_t *)yyscanner;
%end
    return yyleng;
}

%end
%if yyget_text
char *yyget_text(@p)
{
%if reentrant
    struct yyguts_t *yyg = (struct yyguts_t *)yyscanner;
%end
    return yytext;
}

%end
"#;

pub(crate) const ACCESS_LINES: &[u8] = br#"%if yyget_lineno
int yyget_lineno(@p)
{
%if reentrant
    struct yyguts_t *yyg = (struct yyguts_t *)yyscanner;
    return YY_CURRENT_BUFFER ? yylineno : 0;
%else
    return yylineno;
%end
}

%end
%if yyset_lineno
void yyset_lineno(int yy_line_number@P)
{
%if reentrant
    struct yyguts_t *yyg = (struct yyguts_t *)yyscanner;
    if (!YY_CURRENT_BUFFER)
        YY_FATAL_ERROR("yyset_lineno called with no buffer");
%end
    yylineno = yy_line_number;
}

%end
%if reentrant
%if yyget_column
int yyget_column(@p)
{
    struct yyguts_t *yyg = (struct yyguts_t *)yyscanner;
    return YY_CURRENT_BUFFER ? yycolumn : 0;
}

%end
%if yyset_column
void yyset_column(int yy_column@P)
{
    struct yyguts_t *yyg = (struct yyguts_t *)yyscanner;
    if (!YY_CURRENT_BUFFER)
        YY_FATAL_ERROR("yyset_column called with no buffer");
    yycolumn = yy_column;
}

%end
%if yyget_extra
YY_EXTRA_TYPE yyget_extra(@p)
{
    struct yyguts_t *yyg = (struct yyguts_t *)yyscanner;
    return yyextra;
}

%end
%if yyset_extra
void yyset_extra(YY_EXTRA_TYPE yy_extra@P)
{
    struct yyguts_t *yyg = (struct yyguts_t *)yyscanner;
    yyextra = yy_extra;
}

%end
%if bison-bridge
%if yyget_lval
YYSTYPE *yyget_lval(@p)
{
    struct yyguts_t *yyg = (struct yyguts_t *)yyscanner;
    return yylval;
}

%end
%if yyset_lval
void yyset_lval(YYSTYPE *yy_value@P)
{
    struct yyguts_t *yyg = (struct yyguts_t *)yyscanner;
    yylval = yy_value;
}

%end
%end
%if bison-locations
%if yyget_lloc
YYLTYPE *yyget_lloc(@p)
{
    struct yyguts_t *yyg = (struct yyguts_t *)yyscanner;
    return yylloc;
}

%end
%if yyset_lloc
void yyset_lloc(YYLTYPE *yy_location@P)
{
    struct yyguts_t *yyg = (struct yyguts_t *)yyscanner;
    yylloc = yy_location;
}

%end
%end
%end
"#;

pub(crate) const DESTROY: &[u8] = br#"%if reentrant
/* Makes a scanner with a value for yyextra, which yyalloc may already ask for. Returns 0, or 1 with errno set. */
int yylex_init_extra(YY_EXTRA_TYPE yy_extra, yyscan_t *yy_scanner)
{
    struct yyguts_t yy_asker, *yyg;

    if (!yy_scanner) {
        errno = EINVAL;
        return 1;
    }
    memset(&yy_asker, 0, sizeof yy_asker);
    yy_asker.yyextra_r = yy_extra;
    yyg = (struct yyguts_t *)yyalloc(sizeof *yyg, &yy_asker);
    *yy_scanner = yyg;
    if (!yyg) {
        errno = ENOMEM;
        return 1;
    }
    memset(yyg, 0, sizeof *yyg);
    yyextra = yy_extra;
    yyg->yy_start = 1;
%if stdinit
    yyin = stdin;
    yyout = stdout;
%end
    return 0;
}

/* Makes a scanner. Returns 0, or 1 with errno set. */
int yylex_init(yyscan_t *yy_scanner)
{
    struct yyguts_t *yyg;

    if (!yy_scanner) {
        errno = EINVAL;
        return 1;
    }
    yyg = (struct yyguts_t *)yyalloc(sizeof *yyg, NULL);
    *yy_scanner = yyg;
    if (!yyg) {
        errno = ENOMEM;
        return 1;
    }
    memset(yyg, 0, sizeof *yyg);
    yyg->yy_start = 1;
%if stdinit
    yyin = stdin;
    yyout = stdout;
%end
    return 0;
}

/* Frees the scanner and its buffers. */
%else
/* Frees all buffers and resets the scanner for a new first call. */
%end
int yylex_destroy(@p)
{
%if reentrant
    struct yyguts_t *yyg = (struct yyguts_t *)yyscanner;
%end

    while (YY_CURRENT_BUFFER)
        yypop_buffer_state(@a);
    if (@gyy_buffer_stack)
        yyfree(@gyy_buffer_stack@A);
%if stack
    if (@gyy_start_stack)
        yyfree(@gyy_start_stack@A);
%end
%if reject
    if (@gyy_kept_rows)
        yyfree(@gyy_kept_rows@A);
%end
%if reentrant
    yyfree(yyg, yyscanner);
%else
    yy_buffer_stack = NULL;
    yy_buffer_stack_top = yy_buffer_stack_max = 0;
%if stack
    yy_start_stack = NULL;
    yy_start_stack_ptr = yy_start_stack_depth = 0;
%end
%if reject
    yy_kept_rows = NULL;
    yy_kept_max = 0;
%end
    yy_c_buf_p = NULL;
    yy_init = 0;
    yy_start = 1;
%if yymore
%if array
    yy_more_offset = yy_prev_more_offset = 0;
%else
    yy_more_flag = 0;
%end
%end
%if yylineno
    yylineno = 1;
%end
%if stdinit
    yyin = stdin;
    yyout = stdout;
%else
    yyin = yyout = NULL;
%end
%end
    return 0;
}

"#;

pub(crate) const MEMORY: &[u8] = br#"%if yyalloc
void *yyalloc(yy_size_t yy_size@P)
{
%if reentrant
    (void)yyscanner;
%end
    return malloc(yy_size);
}

%end
%if yyrealloc
void *yyrealloc(void *yy_block, yy_size_t yy_size@P)
{
%if reentrant
    (void)yyscanner;
%end
    return realloc(yy_block, yy_size);
}

%end
%if yyfree
void yyfree(void *yy_block@P)
{
%if reentrant
    (void)yyscanner;
%end
    free(yy_block);
}

%end
"#;

pub(crate) const MAIN: &[u8] = br#"%if main
int main(void)
{
%if reentrant
    yyscan_t yy_scanner;

    if (yylex_init(&yy_scanner) != 0)
        return 1;
    yylex(yy_scanner);
    yylex_destroy(yy_scanner);
%else
    yylex();
%end
    return 0;
}

%end
"#;

pub(crate) const M4: &[u8] = br#"%if unsafe-no-m4-sect3-escape
/* Names that flex's m4 replaces in the third section. */
%if reentrant
#define M4_YY_DECL_GUTS_VAR() struct yyguts_t *yyg = (struct yyguts_t *)yyscanner
#define M4_YY_CALL_ONLY_ARG yyscanner
#define M4_YY_CALL_LAST_ARG , yyscanner
%else
#define M4_YY_DECL_GUTS_VAR()
#define M4_YY_CALL_ONLY_ARG
#define M4_YY_CALL_LAST_ARG
%end

%end
"#;
