//! The scanner as code for each state: the macros of this code, and what goes on where a walk stops.

/// The macros that the code of states and rules uses.
pub(crate) const STATE_MACROS: &[u8] = br#"%if states
/* Nonzero if a state steps to itself on a byte, and on the last byte that was read. */
#define yy__MARKED(state, byte) (yy__mark[(state) / 8 * 256 + (byte)] & 1 << (state) % 8)
#define yy__IN(state) yy__MARKED(state, yy_byte)

/* Reads the next byte. */
#define yy__NEXT yy_byte = (unsigned char)*yy_cp;
#define yy__READ(rule) yy__NEXT

/* The next four bytes of a loop, which ends before the first one for which `stays` doesn't hold. Two NULs follow the text, and no state steps to
   itself on a NUL, so the end needs no test of its own. */
#define yy__FOUR(stays) \
    yy_byte = (unsigned char)yy_cp[0]; if (!(stays)) { break; } \
    yy_byte = (unsigned char)yy_cp[1]; if (!(stays)) { yy_cp += 1; break; } \
    yy_byte = (unsigned char)yy_cp[2]; if (!(stays)) { yy_cp += 2; break; } \
    yy_byte = (unsigned char)yy_cp[3]; if (!(stays)) { yy_cp += 3; break; } \
    yy_cp += 4;

/* Blocks of bytes of which `stays` holds. Without a jump inside they are vectors to these compilers; to others they would be slow. */
#if defined __OPTIMIZE__ && !defined __OPTIMIZE_SIZE__ && (defined __SSE2__ || defined __ARM_NEON) && (defined __clang__ || __GNUC__ >= 12)
#define yy__BLOCKS(stays) { \
        const char *const yy_end = YY_CURRENT_BUFFER_LVALUE->yy_ch_buf + @gyy_n_chars; \
        while (yy_end - yy_cp >= 32) { \
            unsigned char yy_left = 0; \
            int yy_i; \
            for (yy_i = 0; yy_i < 32; yy_i++) { yy_byte = (unsigned char)yy_cp[yy_i]; yy_left |= !(stays); } \
            if (yy_left) break; \
            yy_cp += 32; \
        } \
    }
#else
#define yy__BLOCKS(stays)
#endif

/* All steps of a state to itself, by the marks. */
#define yy__LOOP(state, rule) for (;;) { yy__FOUR(yy__IN(state)) }

/* The same, and by blocks where the address is a multiple of 256, since most tokens are short. */
#define yy__RANGES(state, stays, rule) \
    for (;;) { \
        yy__FOUR(yy__IN(state)) \
        if (((size_t)yy_cp & 252) == 0) { yy__BLOCKS(stays) } \
    }

/* A step. Before it the place is kept where a rule matched, if none matches after it. */
#define yy__KEEP(rule) yy_last = yy_cp; yy_last_rule = rule;
#define yy__GO(state) ++yy_cp; goto yy__s##state;

/* No step is left. At byte 0 the text may end. A state without steps that accepts a rule doesn't look at the next byte. */
#define yy__STOP(state, rule) { if (yy_byte == '\0') { yy_current_state = state; goto yy_at_nul; } goto yy_a##rule; }
#define yy__LAST(state, rule) goto yy_a##rule;

/* Makes yytext the match. */
#define YY_TAKE \
%if array
    yyleng = (int)(yy_cp - yy_bp); \
%if yymore
    if (yyleng >= YYLMAX - @gyy_more_offset) \
%else
    if (yyleng >= YYLMAX) \
%end
        YY_FATAL_ERROR("token too large, exceeds YYLMAX"); \
    @gyytext_ptr = yy_bp; \
%if yymore
    memcpy(yytext + @gyy_more_offset, yy_bp, (size_t)yyleng); \
    yyleng += @gyy_more_offset; \
    @gyy_prev_more_offset = @gyy_more_offset; \
    @gyy_more_offset = 0; \
%else
    memcpy(yytext, yy_bp, (size_t)yyleng); \
%end
    yytext[yyleng] = '\0'; \
%else
%if yymore
    @gyytext_ptr = yy_bp - @gyy_more_len; \
%else
    @gyytext_ptr = yy_bp; \
%end
    yyleng = (int)(yy_cp - @gyytext_ptr); \
%end
    @gyy_c_buf_p = yy_cp; \
    @gyy_hold_char = *yy_cp; \
    *yy_cp = '\0';

%if yylineno
/* Counts the lines of a match. */
#define YY_COUNT_LINES { \
        const char *yy_place = yy_bp; \
        if (yy_cp - yy_bp < 24) { /* Few bytes are compared faster than memchr is called. */ \
            for (; yy_place < yy_cp; ++yy_place) { \
                if (*yy_place == '\n') \
                    YY_COUNT_LINE \
            } \
        } else { \
            while ((yy_place = (const char *)memchr(yy_place, '\n', (size_t)(yy_cp - yy_place))) != NULL) { \
                ++yy_place; \
                YY_COUNT_LINE \
            } \
        } \
    }
%if reentrant
#define YY_COUNT_LINE { ++yylineno; yycolumn = 0; }
%else
#define YY_COUNT_LINE { ++yylineno; }
%end

%end
%if bol
/* Stores if the next match begins a line. In a rule that can't match a newline it doesn't. */
#define YY_END_LINE if (yyleng > 0) YY_CURRENT_BUFFER_LVALUE->yy_at_bol = yytext[yyleng - 1] == '\n';
#define YY_END_SKIPPED_LINE if (yy_cp > yy_bp) YY_CURRENT_BUFFER_LVALUE->yy_at_bol = yy_cp[-1] == '\n';
#define YY_END_NO_LINE YY_CURRENT_BUFFER_LVALUE->yy_at_bol = 0;

%end
%if debug
/* Traces a match. */
#define YY_TRACE \
    if (yy_flex_debug) { \
        if (yy_act == YY_DEFAULT_RULE) \
            fprintf(stderr, "--accepting default rule (\"%s\")\n", yytext); \
        else \
            fprintf(stderr, "--accepting rule at line %d (\"%s\")\n", yy_rule_linenum[yy_act], yytext); \
    }

%end
/* A rule without an action leaves yytext and the condition alone, unless the program has macros that are to see each match. So the state in which the
   next match begins is mostly known, but for programs whose YY_INPUT may change the condition. */
#if defined YY_HAS_HOOKS
#define YY_SKIP(next)
#elif defined YY_HAS_INPUT
#define YY_SKIP(next) { yy_bp = yy_cp; goto yy_next_match; }
#else
#define YY_SKIP(next) { yy_bp = yy_cp; yy_last_rule = 0; next }
#endif

%end
"#;

/// The beginning of a match, up to the starts of the conditions.
pub(crate) const STATE_BEGIN: &[u8] = br#"%if states
    (void)yy__mark; /* in some scanners no state steps to itself */
    for (;;) {
%if yymore
%if !array
        @gyy_more_len = 0;
        if (@gyy_more_flag) {
            @gyy_more_flag = 0;
            if (@gyy_c_buf_p > @gyytext_ptr)
                @gyy_more_len = (int)(@gyy_c_buf_p - @gyytext_ptr);
        }
%end
%end
        *@gyy_c_buf_p = @gyy_hold_char;
        yy_bp = yy_cp = @gyy_c_buf_p;
    yy_next_match: yy_unused;
        yy_last_rule = 0;
%if bol
        switch (@gyy_start - 1 + (YY_AT_BOL() != 0)) {
%else
        switch (@gyy_start - 1) {
%end
        default:
%end
"#;

/// The jump of a case to a state, whose number comes after it.
pub(crate) const GOTO_STATE: &[u8] = b": goto yy__s";

/// The way back into a state, after more text was read.
pub(crate) const RESUME: &[u8] = br#"    yy_resume:
        switch (yy_current_state) {
        default:
"#;

/// The code where the last state accepts no rule, up to the labels of the rules.
pub(crate) const STATE_BACK: &[u8] = br#"
    /* No rule matches all of it: the last place counts where one did. */
    yy_a0: yy_unused;
        yy_cp = yy_last;
        switch (yy_last_rule) {
"#;

/// The code where a walk comes to a NUL of the text, or to the end of what was read.
pub(crate) const STATE_STOP: &[u8] = br#"
    yy_at_nul:
        if (yy_cp < YY_CURRENT_BUFFER_LVALUE->yy_ch_buf + @gyy_n_chars) { /* a NUL of the text */
%if debug
            if (yy_flex_debug)
                fprintf(stderr, "--(end of buffer or a NUL)\n");
%end
            if (yy_nul[yy_current_state] == 0)
                goto yy_stopped;
            if (yy_accept[yy_current_state] != 0) {
                yy_last = yy_cp;
                yy_last_rule = yy_accept[yy_current_state];
            }
            yy_current_state = yy_nul[yy_current_state] - 1u;
            ++yy_cp;
        } else {
            size_t yy_kept = yy_last_rule != 0 ? (size_t)(yy_last - yy_bp) : 0;
%if debug
            if (yy_flex_debug)
                fprintf(stderr, "--(end of buffer or a NUL)\n");
%end
%if yymore
%if array
            @gyytext_ptr = yy_bp;
%else
            @gyytext_ptr = yy_bp - @gyy_more_len;
%end
%else
            @gyytext_ptr = yy_bp;
%end
            @gyy_c_buf_p = yy_cp;
            @gyy_hold_char = '\0';
            yy_act = yy_refill(@a);
%if yymore
%if array
            yy_bp = @gyytext_ptr;
%else
            yy_bp = @gyytext_ptr + @gyy_more_len;
%end
%else
            yy_bp = @gyytext_ptr;
%end
            yy_cp = @gyy_c_buf_p;
            yy_last = yy_bp + yy_kept;
            if (yy_act == 0) {
                if (yy_cp == yy_bp)
                    goto yy_at_end;
                goto yy_stopped;
            }
        }
        goto yy_resume;

    yy_stopped:
        if (yy_accept[yy_current_state] != 0) {
            yy_last = yy_cp;
            yy_last_rule = yy_accept[yy_current_state];
        }
        goto yy_a0;

    yy_at_end:
        if (YY_CURRENT_BUFFER_LVALUE->yy_fill_buffer)
            yyrestart(yyin@A);
        @gyy_did_buffer_switch_on_eof = 0;
        if (!yywrap(@a)) {
            if (!@gyy_did_buffer_switch_on_eof)
                YY_NEW_FILE;
            continue;
        }
%if array
%if yymore
        yyleng = @gyy_more_offset;
        @gyy_more_offset = 0;
%else
        yyleng = 0;
%end
        yytext[yyleng] = '\0';
%else
        yyleng = (int)(@gyy_c_buf_p - @gyytext_ptr);
%end
%if debug
        if (yy_flex_debug)
            fprintf(stderr, "--EOF (start condition %d)\n", YY_START);
%end
        yy_act = YY_STATE_EOF(YY_START);
%if !labels
    yy_do_rule: /* Code between the rules may leave out actions, so no jump names one. */
%end
        switch (yy_act) {
"#;
