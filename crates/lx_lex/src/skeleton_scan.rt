//! The scanner itself: the match, refilling, and the bytes that actions give back or take.

pub(crate) const READ: &[u8] = br#"#ifndef YY_INPUT
/* Reads at most yy_max_size bytes of yyin. Returns their number, and 0 at the end. */
static int yy_unused yy_default_input(char *yy_text, int yy_max_size@P)
{
%if read
    long yy_count;
%if reentrant
    struct yyguts_t *yyg = (struct yyguts_t *)yyscanner;
%end

    while ((yy_count = (long)read(fileno(yyin), yy_text, (size_t)yy_max_size)) < 0) {
        if (errno != EINTR)
            YY_FATAL_ERROR("input in flex scanner failed");
    }
    return (int)yy_count;
%else
    size_t yy_count = 0;
%if reentrant
    struct yyguts_t *yyg = (struct yyguts_t *)yyscanner;
%end

    if (YY_CURRENT_BUFFER_LVALUE->yy_is_interactive) {
        int yy_byte = EOF;
        while (yy_count < (size_t)yy_max_size && (yy_byte = getc(yyin)) != EOF) {
            yy_text[yy_count++] = (char)yy_byte;
            if (yy_byte == '\n')
                break;
        }
        if (yy_byte == EOF && ferror(yyin))
            YY_FATAL_ERROR("input in flex scanner failed");
        return (int)yy_count;
    }
    for (;;) {
        errno = 0;
        yy_count = fread(yy_text, 1, (size_t)yy_max_size, yyin);
        if (yy_count > 0 || !ferror(yyin))
            return (int)yy_count;
        if (errno != EINTR)
            YY_FATAL_ERROR("input in flex scanner failed");
        clearerr(yyin); /* a signal came in between */
    }
%end
}
#define YY_INPUT(buf, result, max_size) (result = yy_default_input(buf, max_size@A))
#endif

"#;

pub(crate) const STEPS: &[u8] = br#"%if !states
/* Returns 1 if some byte leads on from a row. */
static int yy_has_steps(unsigned int yy_row)
{
    unsigned int yy_i;

    for (yy_i = 0; yy_i < YY_RULE_COLUMN; ++yy_i) {
        if (yy_rows[yy_row + yy_i] != 0)
            return 1;
    }
    return 0;
}

%end
"#;

pub(crate) const CUT: &[u8] = br#"%if varying
/* The class of a byte of a match in the rows below. */
#define YY_CUT_CLASS(c) ((c) != '\0' ? yy_cut_class[(unsigned char)(c)] : YY_CUT_NUL_CLASS)

/* Returns where the token of a rule r/s ends whose lengths vary both: after the longest text of r that a text of s follows up to the end of the match.
   Goes over the match by the rows of r, and then back from its end by the rows of s in reverse. */
static char *yy_cut_match(char *yy_from, char *yy_to, unsigned int yy_token_row, unsigned int yy_context_row,
    int yy_token_may_be_empty, int yy_context_may_be_empty@P)
{
    size_t yy_length = (size_t)(yy_to - yy_from), yy_size = yy_length / CHAR_BIT + 1, yy_i;
    unsigned char yy_few[64], *yy_ends = yy_few; /* a bit for each place where a text of r ends */

    if (yy_size > sizeof yy_few)
        yy_ends = (unsigned char *)yyalloc(yy_size@A);
    if (!yy_ends)
        YY_FATAL_ERROR("out of dynamic memory in yylex()");
    memset(yy_ends, 0, yy_size);
    yy_ends[0] = yy_token_may_be_empty != 0;
    for (yy_i = 0; yy_i < yy_length && (yy_token_row = yy_cut_rows[yy_token_row + YY_CUT_CLASS(yy_from[yy_i])]) != 0; ++yy_i) {
        if (yy_cut_rows[yy_token_row + YY_CUT_RULE_COLUMN] != 0)
            yy_ends[(yy_i + 1) / CHAR_BIT] |= (unsigned char)(1u << (yy_i + 1) % CHAR_BIT);
    }
    yy_i = yy_length;
    if (!yy_context_may_be_empty || !(yy_ends[yy_i / CHAR_BIT] >> yy_i % CHAR_BIT & 1)) {
        while (yy_i > 0 && (yy_context_row = yy_cut_rows[yy_context_row + YY_CUT_CLASS(yy_from[yy_i - 1])]) != 0) {
            --yy_i;
            if (yy_cut_rows[yy_context_row + YY_CUT_RULE_COLUMN] != 0 && (yy_ends[yy_i / CHAR_BIT] >> yy_i % CHAR_BIT & 1))
                break;
        }
    }
    if (yy_ends != yy_few)
        yyfree(yy_ends@A);
    return yy_from + yy_i;
}

%end
"#;

pub(crate) const REJECT: &[u8] = br#"%if reject
/* Walks over a match again, and keeps the row after each of its bytes. */
static void yy_keep_rows(unsigned int yy_row, const char *yy_from, size_t yy_length@P)
{
%if reentrant
    struct yyguts_t *yyg = (struct yyguts_t *)yyscanner;
%end
    size_t yy_i;

    if (yy_length > @gyy_kept_max) {
        if (@gyy_kept_rows)
            yyfree(@gyy_kept_rows@A);
        @gyy_kept_max = 0;
        @gyy_kept_rows = (unsigned int *)yyalloc(2 * yy_length * sizeof *@gyy_kept_rows@A);
        if (!@gyy_kept_rows)
            YY_FATAL_ERROR("out of dynamic memory in yylex()");
        @gyy_kept_max = 2 * yy_length;
    }
    for (yy_i = 0; yy_i < yy_length; ++yy_i) {
        yy_row = yy_reject_rows[yy_row + (yy_from[yy_i] ? yy_reject_class[(unsigned char)yy_from[yy_i]] : YY_REJECT_NUL_CLASS)];
        @gyy_kept_rows[yy_i] = yy_row;
    }
}

/* Returns the rule that comes after the present one: the next that matches the same text, or the first that matches a shorter one. Sets the text's length
   and the rule's place in yy_lists. That place is 0 for the rule of the match, whose condition had this number. */
static int yy_next_rule(int yy_condition, const char *yy_from, size_t *yy_length, unsigned int *yy_place@P)
{
%if reentrant
    struct yyguts_t *yyg = (struct yyguts_t *)yyscanner;
%end
    if (*yy_length == 0)
        YY_FATAL_ERROR("REJECT was used where no rule had matched");
    if (*yy_place == 0) {
        yy_keep_rows(yy_reject_first[yy_condition], yy_from, *yy_length@A);
        *yy_place = yy_list_places[yy_reject_rows[@gyy_kept_rows[*yy_length - 1] + YY_REJECT_LIST_COLUMN]];
    }
    ++*yy_place;
    while (yy_lists[*yy_place] == 0) { /* the end of a list */
        if (--*yy_length == 0) {
            *yy_length = 1;
            return YY_DEFAULT_RULE;
        }
        *yy_place = yy_list_places[yy_reject_rows[@gyy_kept_rows[*yy_length - 1] + YY_REJECT_LIST_COLUMN]];
    }
    return (int)yy_lists[*yy_place];
}

%end
"#;

pub(crate) const YYLEX: &[u8] =
    br#"/* Returns what the action of a match returns, and YY_NULL at the end of the input. Actions that don't return go on with the next match. */
YY_DECL
{
%if states
    unsigned int yy_current_state; /* the state where the walk has come to a NUL */
    unsigned char yy_byte;
    char *yy_cp;
    /* The match that is looked for, from here to before yy_cp; and the last place where a rule matched before the walk went on, with that rule.
       They are volatile, since compilers take long, and print more code, where they keep them in registers through all states. */
    char *volatile yy_bp, *volatile yy_last = NULL;
    volatile int yy_last_rule;
%else
    unsigned int yy_current_state, yy_next_state;
    char *yy_bp, *yy_cp; /* the match that is looked for, from yy_bp to before yy_cp */
%end
    int yy_act;
%if reject
    int yy_match_start = 0; /* where the match began in yy_first */
    size_t yy_match_length = 0; /* bytes that the rule matches, with its trailing context */
    unsigned int yy_list_place = 0; /* place of the rule in yy_lists, or 0 before REJECT */
%end
%if reentrant
    struct yyguts_t *yyg = (struct yyguts_t *)yyscanner;
%end
%if bison-bridge
%if reentrant

    yylval = yylval_param;
%else
    YYSTYPE *yylval = yylval_param;
%end
%end
%if bison-locations
%if reentrant
    yylloc = yylloc_param;
%else
    YYLTYPE *yylloc = yylloc_param;
%end
%end
%if bison-bridge
%if !reentrant
    (void)yylval;
%if bison-locations
    (void)yylloc;
%end
%end
%end

    if (!@gyy_init) {
        @gyy_init = 1;
#ifdef YY_USER_INIT
        YY_USER_INIT;
#endif
        /* A string needs no file, so yyin stays NULL for it. */
        if (!yyin && !(YY_CURRENT_BUFFER && !YY_CURRENT_BUFFER_LVALUE->yy_fill_buffer))
            yyin = stdin;
        if (!yyout)
            yyout = stdout;
        yy_need_buffer(@a);
    }

    {
"#;

pub(crate) const WALK: &[u8] = br#"    for (;;) {
%if yymore
%if !array
        @gyy_more_len = 0;
        if (@gyy_more_flag) {
            @gyy_more_flag = 0;
            if (@gyy_c_buf_p > @gyytext_ptr)
                @gyy_more_len = (int)(@gyy_c_buf_p - @gyytext_ptr);
        }
%end
%end
        *@gyy_c_buf_p = @gyy_hold_char;
        yy_bp = yy_cp = @gyy_c_buf_p;
%if reject
%if bol
        yy_match_start = @gyy_start - 1 + (YY_AT_BOL() != 0);
%else
        yy_match_start = @gyy_start - 1;
%end
        yy_match_length = 0;
        yy_list_place = 0;
        yy_current_state = yy_first[yy_match_start];
%else
%if bol
        yy_current_state = yy_first[@gyy_start - 1 + (YY_AT_BOL() != 0)];
%else
        yy_current_state = yy_first[@gyy_start - 1];
%end
%end

        /* Byte 0 leads nowhere, so the walk stops at the end of the text without counting. */
        for (;;) {
            while ((yy_next_state = yy_rows[yy_current_state + yy_class[(unsigned char)*yy_cp]]) != 0) {
                yy_current_state = yy_next_state;
                ++yy_cp;
            }
            if (*yy_cp != '\0')
                break;
            if (yy_cp < YY_CURRENT_BUFFER_LVALUE->yy_ch_buf + @gyy_n_chars) { /* a NUL of the text */
%if debug
                if (yy_flex_debug)
                    fprintf(stderr, "--(end of buffer or a NUL)\n");
%end
                yy_next_state = yy_rows[yy_current_state + YY_NUL_CLASS];
                if (yy_next_state == 0)
                    break;
                yy_current_state = yy_next_state;
                ++yy_cp;
                continue;
            }
            /* A terminal isn't asked for a byte that can't lengthen the match. */
            if (yy_cp > yy_bp && !yy_has_steps(yy_current_state))
                break;
%if debug
            if (yy_flex_debug)
                fprintf(stderr, "--(end of buffer or a NUL)\n");
%end
%if yymore
%if array
            @gyytext_ptr = yy_bp;
%else
            @gyytext_ptr = yy_bp - @gyy_more_len;
%end
%else
            @gyytext_ptr = yy_bp;
%end
            @gyy_c_buf_p = yy_cp;
            @gyy_hold_char = '\0';
            yy_next_state = (unsigned int)yy_refill(@a);
%if yymore
%if array
            yy_bp = @gyytext_ptr;
%else
            yy_bp = @gyytext_ptr + @gyy_more_len;
%end
%else
            yy_bp = @gyytext_ptr;
%end
            yy_cp = @gyy_c_buf_p;
            if (yy_next_state == 0)
                break;
        }

"#;

pub(crate) const END_OF_FILE: &[u8] =
    br#"        if (yy_cp == yy_bp && yy_cp == YY_CURRENT_BUFFER_LVALUE->yy_ch_buf + @gyy_n_chars) {
            if (YY_CURRENT_BUFFER_LVALUE->yy_fill_buffer)
                yyrestart(yyin@A);
            @gyy_did_buffer_switch_on_eof = 0;
            if (!yywrap(@a)) {
                if (!@gyy_did_buffer_switch_on_eof)
                    YY_NEW_FILE;
                continue;
            }
%if array
%if yymore
            yyleng = @gyy_more_offset;
            @gyy_more_offset = 0;
%else
            yyleng = 0;
%end
            yytext[yyleng] = '\0';
%else
            yyleng = (int)(@gyy_c_buf_p - @gyytext_ptr);
%end
%if debug
            if (yy_flex_debug)
                fprintf(stderr, "--EOF (start condition %d)\n", YY_START);
%end
            yy_act = YY_STATE_EOF(YY_START);
        } else {
"#;

pub(crate) const ACCEPT: &[u8] =
    br#"            yy_act = (int)yy_rows[yy_current_state + YY_RULE_COLUMN];
            if (yy_act == 0) { /* Walks once more, for the last place where a rule matches. */
                char *yy_walk = yy_bp, *yy_stop = yy_cp;
                yy_act = YY_DEFAULT_RULE;
                yy_cp = yy_bp + 1;
%if bol
                yy_current_state = yy_first[@gyy_start - 1 + (YY_AT_BOL() != 0)];
%else
                yy_current_state = yy_first[@gyy_start - 1];
%end
                while (yy_walk < yy_stop) {
                    yy_current_state = yy_rows[yy_current_state + (*yy_walk ? yy_class[(unsigned char)*yy_walk] : YY_NUL_CLASS)];
                    ++yy_walk;
                    if (yy_rows[yy_current_state + YY_RULE_COLUMN] != 0) {
                        yy_act = (int)yy_rows[yy_current_state + YY_RULE_COLUMN];
                        yy_cp = yy_walk;
                    }
                }
            }
%if reject
            if (yy_act != YY_DEFAULT_RULE)
                yy_match_length = (size_t)(yy_cp - yy_bp);
            if (0) {
            yy_find_rule: yy_unused; /* The action of the last rule used REJECT. */
%if array
                yy_bp = @gyytext_ptr;
%if yymore
                @gyy_more_offset = @gyy_prev_more_offset;
%end
%else
%if yymore
                yy_bp = @gyytext_ptr + @gyy_more_len;
%else
                yy_bp = @gyytext_ptr;
%end
%end
%if yylineno
                while (yy_newline[yy_act] && @gyy_c_buf_p > yy_bp)
                    yylineno -= *--@gyy_c_buf_p == '\n';
%end
                yy_act = yy_next_rule(yy_match_start, yy_bp, &yy_match_length, &yy_list_place@A);
                yy_cp = yy_bp + yy_match_length;
            }
%end
"#;

pub(crate) const TAKE: &[u8] = br#"%if array
            yyleng = (int)(yy_cp - yy_bp);
%if yymore
            if (yyleng >= YYLMAX - @gyy_more_offset)
%else
            if (yyleng >= YYLMAX)
%end
                YY_FATAL_ERROR("token too large, exceeds YYLMAX");
            @gyytext_ptr = yy_bp;
%if yymore
            memcpy(yytext + @gyy_more_offset, yy_bp, (size_t)yyleng);
            yyleng += @gyy_more_offset;
            @gyy_prev_more_offset = @gyy_more_offset;
            @gyy_more_offset = 0;
%else
            memcpy(yytext, yy_bp, (size_t)yyleng);
%end
            yytext[yyleng] = '\0';
%else
%if yymore
            @gyytext_ptr = yy_bp - @gyy_more_len;
%else
            @gyytext_ptr = yy_bp;
%end
            yyleng = (int)(yy_cp - @gyytext_ptr);
%end
            @gyy_c_buf_p = yy_cp;
            @gyy_hold_char = *yy_cp;
            *yy_cp = '\0';
%if yylineno
            if (yy_newline[yy_act]) {
                const char *yy_place = yy_bp;
                while ((yy_place = (const char *)memchr(yy_place, '\n', (size_t)(yy_cp - yy_place))) != NULL) {
                    ++yy_place;
                    ++yylineno;
%if reentrant
                    yycolumn = 0;
%end
                }
            }
%end
%if bol
            if (yyleng > 0)
                YY_CURRENT_BUFFER_LVALUE->yy_at_bol = yytext[yyleng - 1] == '\n';
%end
%if debug
            if (yy_flex_debug) {
                if (yy_act == YY_DEFAULT_RULE)
                    fprintf(stderr, "--accepting default rule (\"%s\")\n", yytext);
                else
                    fprintf(stderr, "--accepting rule at line %d (\"%s\")\n", yy_rule_linenum[yy_act], yytext);
            }
%end
        }

        switch (yy_act) {
"#;

pub(crate) const YYLEX_END: &[u8] = br#"%if states
yy_do_default:
%else
        case YY_DEFAULT_RULE:
%end
        YY_RULE_SETUP
%if default
        ECHO;
%else
        YY_FATAL_ERROR("flex scanner jammed");
%end
        YY_BREAK
        default:
            YY_FATAL_ERROR("fatal flex scanner internal error--no action found");
        }
    }
    }
}

"#;

pub(crate) const GROW: &[u8] = br#"/* Doubles the current buffer, or ends with a message. */
static void yy_grow_buffer(const char *yy_message@P)
{
%if reentrant
    struct yyguts_t *yyg = (struct yyguts_t *)yyscanner;
%end
    YY_BUFFER_STATE yy_buffer = YY_CURRENT_BUFFER_LVALUE;
    size_t yy_text = (size_t)(@gyytext_ptr - yy_buffer->yy_ch_buf), yy_place = (size_t)(@gyy_c_buf_p - yy_buffer->yy_ch_buf);
    char *yy_grown = NULL;

    if (yy_buffer->yy_is_our_buffer && yy_buffer->yy_buf_size < INT_MAX / 2 - 2) {
        int yy_size = yy_buffer->yy_buf_size > 0 ? 2 * yy_buffer->yy_buf_size : 2;
        yy_grown = (char *)yyrealloc(yy_buffer->yy_ch_buf, (yy_size_t)yy_size + 2@A);
        if (yy_grown)
            yy_buffer->yy_buf_size = yy_size;
    }
    if (!yy_grown)
        YY_FATAL_ERROR(yy_message);
    yy_buffer->yy_ch_buf = yy_grown;
    @gyytext_ptr = yy_grown + yy_text;
    @gyy_c_buf_p = yy_grown + yy_place;
}

"#;

pub(crate) const REFILL: &[u8] =
    br#"/* Moves the text from yytext_ptr on to the front of the buffer, and reads more after it. Returns 0 at the end of the input. */
static int yy_refill(@p)
{
%if reentrant
    struct yyguts_t *yyg = (struct yyguts_t *)yyscanner;
%end
    YY_BUFFER_STATE yy_buffer = YY_CURRENT_BUFFER_LVALUE;
    int yy_kept, yy_room, yy_count = 0;

    if (yy_buffer->yy_buffer_status == YY_BUFFER_NEW) {
        yy_buffer->yy_input_file = yyin;
        yy_buffer->yy_buffer_status = YY_BUFFER_NORMAL;
    }
    if (!yy_buffer->yy_fill_buffer || yy_buffer->yy_buffer_status == YY_BUFFER_EOF_PENDING)
        return 0;

    yy_kept = (int)(yy_buffer->yy_ch_buf + @gyy_n_chars - @gyytext_ptr);
    if (@gyytext_ptr != yy_buffer->yy_ch_buf) {
        memmove(yy_buffer->yy_ch_buf, @gyytext_ptr, (size_t)yy_kept);
        @gyy_c_buf_p -= @gyytext_ptr - yy_buffer->yy_ch_buf;
        @gyytext_ptr = yy_buffer->yy_ch_buf;
    }
    while ((yy_room = yy_buffer->yy_buf_size - yy_kept - 1) <= 0)
        yy_grow_buffer("fatal error - scanner input buffer overflow"@A);
    if (yy_room > YY_READ_BUF_SIZE)
        yy_room = YY_READ_BUF_SIZE;

    YY_INPUT((yy_buffer->yy_ch_buf + yy_kept), @gyy_n_chars, yy_room); /* A program's YY_INPUT may read the number of bytes before it sets it. */
    if (@gyy_n_chars > 0)
        yy_count = @gyy_n_chars;
    else
        yy_buffer->yy_buffer_status = YY_BUFFER_EOF_PENDING;
    @gyy_n_chars = yy_buffer->yy_n_chars = yy_kept + yy_count;
    while (@gyy_n_chars > yy_buffer->yy_buf_size) /* YY_INPUT gave more than it was asked for. */
        yy_grow_buffer("out of dynamic memory in yy_get_next_buffer()"@A);
    yy_buffer->yy_ch_buf[@gyy_n_chars] = yy_buffer->yy_ch_buf[@gyy_n_chars + 1] = YY_END_OF_BUFFER_CHAR;
    return yy_count > 0;
}

"#;

pub(crate) const UNPUT: &[u8] = br#"%if unput
#ifndef YY_NO_UNPUT
/* Puts a byte before the next one. Nothing reads the second parameter, which programs pass that call yyunput by name. */
static void yyunput(int yy_byte, char *yy_text@P)
{
%if reentrant
    struct yyguts_t *yyg = (struct yyguts_t *)yyscanner;
%end
    YY_BUFFER_STATE yy_buffer = YY_CURRENT_BUFFER_LVALUE;

    (void)yy_text;
    *@gyy_c_buf_p = @gyy_hold_char;
    if (@gyy_c_buf_p == yy_buffer->yy_ch_buf) { /* Moves the text to the buffer's end. */
        size_t yy_shift;
        if (@gyy_n_chars >= yy_buffer->yy_buf_size)
            yy_grow_buffer("flex scanner push-back overflow"@A);
        yy_shift = (size_t)(yy_buffer->yy_buf_size - @gyy_n_chars);
        memmove(yy_buffer->yy_ch_buf + yy_shift, yy_buffer->yy_ch_buf, (size_t)@gyy_n_chars + 2);
        @gyy_n_chars = yy_buffer->yy_n_chars = yy_buffer->yy_buf_size;
        @gyytext_ptr += yy_shift;
        @gyy_c_buf_p += yy_shift;
    }
    *--@gyy_c_buf_p = @gyy_hold_char = (char)yy_byte;
%if yylineno
    if (yy_byte == '\n')
        --yylineno;
%end
}
#endif

%end
"#;

pub(crate) const INPUT: &[u8] = br#"%if input
#ifndef YY_NO_INPUT
/* Takes the next byte of the input and returns it, or 0 at the end. */
#ifdef __cplusplus
static int yyinput(@p)
#else
static int input(@p)
#endif
{
%if reentrant
    struct yyguts_t *yyg = (struct yyguts_t *)yyscanner;
%end
    int yy_byte;

    *@gyy_c_buf_p = @gyy_hold_char;
    while (@gyy_c_buf_p == YY_CURRENT_BUFFER_LVALUE->yy_ch_buf + @gyy_n_chars) {
        if (yy_refill(@a))
            break;
        if (YY_CURRENT_BUFFER_LVALUE->yy_fill_buffer)
            yyrestart(yyin@A);
        @gyy_did_buffer_switch_on_eof = 0;
        if (yywrap(@a))
            return 0;
        if (!@gyy_did_buffer_switch_on_eof)
            YY_NEW_FILE;
    }
    yy_byte = (unsigned char)*@gyy_c_buf_p;
    *@gyy_c_buf_p = '\0'; /* yytext still ends here. */
    @gyy_hold_char = *++@gyy_c_buf_p;
    YY_CURRENT_BUFFER_LVALUE->yy_at_bol = yy_byte == '\n';
%if yylineno
    if (yy_byte == '\n') {
        ++yylineno;
%if reentrant
        yycolumn = 0;
%end
    }
%end
    return yy_byte;
}
#endif

%end
"#;
