//! The constant text of code for each state, with `@` for the prefix.

/// The first line of a scanner in this form.
pub(crate) const DIRECT_FIRST_LINE: &[u8] =
    br#"/* @: a scanner printed by lx gen --c; form direct. */
"#;

/// The macro that says if a match may be empty, which counts as none.
pub(crate) const MAY_BE_EMPTY: &[u8] = br#"#define @__EMPTY 1
"#;

/// The same if no start accepts a rule.
pub(crate) const NONE_IS_EMPTY: &[u8] = br#"#define @__EMPTY 0
"#;

/// The macros that the code of states and rules uses.
pub(crate) const MACROS: &[u8] =
    br#"/* Nonzero if a state steps to itself on a byte, and on the last byte that was read. */
#define @__MARKED(state, byte) (@__mark[(state) / 8 * 256 + (byte)] & 1 << (state) % 8)
#define @__IN(state) @__MARKED(state, @_byte)

/* At the end of a part: what a state does where it has no step, unless more of the text may come. */
#define @__AT_END(rule) { if (s->is_last) goto @__a##rule; goto @__more; }

/* Reads the next byte, where the text has one, and where it may be at its end. */
#define @__NEXT @_byte = *p;
#define @__READ(rule) if (p == end) @__AT_END(rule) @__NEXT

/* The next four bytes of a loop, which ends before the first one for which `stays` doesn't hold. */
#define @__FOUR(stays) \
    @_byte = p[0]; if (!(stays)) break; \
    @_byte = p[1]; if (!(stays)) { p += 1; break; } \
    @_byte = p[2]; if (!(stays)) { p += 2; break; } \
    @_byte = p[3]; if (!(stays)) { p += 3; break; } \
    p += 4;

/* The last bytes, of which there are fewer than four. */
#define @__REST(stays, rule) \
    while (p != end && (@_byte = *p, stays)) p++; \
    if (p == end) @__AT_END(rule) \
    break;

/* Blocks of bytes of which `stays` holds. Without a jump inside they are vectors to these compilers; to others they would be slow. */
#if defined __OPTIMIZE__ && !defined __OPTIMIZE_SIZE__ && (defined __SSE2__ || defined __ARM_NEON) && (defined __clang__ || __GNUC__ >= 12)
#define @__BLOCKS(stays) \
    while (end - p >= 32) { \
        unsigned char left = 0; \
        int i; \
        for (i = 0; i < 32; i++) { @_byte = p[i]; left |= !(stays); } \
        if (left) break; \
        p += 32; \
    }
#else
#define @__BLOCKS(stays)
#endif

/* All steps of a state to itself, by the marks. */
#define @__LOOP(state, rule) \
    @__LINES(newline |= @__MARKED(state, '\n');) \
    for (;;) { \
        if (p >= by_one) { @__REST(@__IN(state), rule) } \
        @__FOUR(@__IN(state)) \
    }

/* The same by comparisons: four bytes, 64 more, and after these blocks. */
#define @__RANGES(state, stays, rule) \
    @__LINES(newline |= @__MARKED(state, '\n');) \
    for (;;) { \
        const unsigned char *stop; \
        if (p < by_one) { @__FOUR(stays) } \
        stop = end - p > 64 ? p + 64 : by_one; \
        for (;;) { \
            if (p >= stop) { \
                if (p >= by_one) { @__REST(stays, rule) } \
                @__BLOCKS(stays) \
                stop = by_one; \
                continue; \
            } \
            @__FOUR(stays) \
        } \
        break; \
    }

/* A step. Before it the place is kept where a rule matched, if none matches after it, and a newline is noted. */
#define @__KEEP(number) last = p; rule = number;
#define @__NEWLINE @__LINES(newline |= @_byte == '\n';)
#define @__GO(state) p++; goto @__s##state;

/* No step is left. The label of a state is used once more, since compilers warn of one without a use. */
#define @__STOP(state, rule) goto @__a##rule; goto @__s##state;
#define @__LAST(state, rule) @__STOP(state, rule)

/* A match of a rule ends here. It has to be longer than what is left away of it. */
#define @__MATCHED(rule) \
    if ((@__EMPTY || @__CUT(rule) || !(rule)) && (size_t)(p - from) <= @__CUT(rule)) goto @__echo; \
    p -= @__CUT(rule); \
    kind = @__action[rule]; \
    if (kind == @_END) goto @__skip; \
    if (kind != -4) goto @__token; \
    kind = @__perform(s, @__steps[rule]); \
    goto @__performed;

"#;

/// The next match, up to the starts.
pub(crate) const BEGIN_MATCH: &[u8] = br#"    (void)@__mark;
    if (kind == @_END) {
        /* From here on there are fewer than four bytes, and loops go on one by one. */
        const unsigned char *const by_one = s->size < 4 ? text : end - 3;
        /* The last place from which a step led away where a rule is accepted, and that rule. */
        const unsigned char *last;
        unsigned rule;
        unsigned char @_byte = 0;
        @__LINES(int newline;)
        (void)by_one;
        (void)@_byte;
        from = last = p;
        rule = 0;
        @__LINES(newline = 0;)
        @__LINES(line = s->line; line_start = s->line_start;)
        if (p == end) {
            if (!s->is_last) goto @__more;
            goto @__done;
        }
        switch (condition) {
        default:
"#;

/// Between the number of a condition and that of the state in which it starts at line begin.
pub(crate) const AT_LINE_BEGIN: &[u8] = br#": if (at_line_begin) goto @__s"#;

/// The same after a match that is skipped.
pub(crate) const BEHIND_LINE_END: &[u8] = br#": if (@__BEGIN(p[-1] == 10)) goto @__s"#;

/// The number of a state comes after it.
pub(crate) const GOTO_STATE: &[u8] = br#" goto @__s"#;

/// Between the starts and the states. It has jumps that are never reached: compilers warn of a label
/// without a use.
pub(crate) const BEGIN_STATES: &[u8] = br#"        }
        goto @__a0;
"#;

/// The code for a last state that accepts no rule.
pub(crate) const BACK: &[u8] = br#"    @__a0:
        p = last;
        switch (rule) {
"#;

/// Between the number of a rule plus 1 and this number again.
pub(crate) const GOTO_RULE_OF: &[u8] = br#": goto @__a"#;

/// The same if no rule was accepted.
pub(crate) const NO_RULE: &[u8] = br#"        default: @__MATCHED(0)
        }
"#;

/// The label of a rule; its number plus 1 comes after it.
pub(crate) const RULE_LABEL: &[u8] = b"    @__a";

/// The code for a match of a rule; its number plus 1 follows.
pub(crate) const MATCHED: &[u8] = b"        @__MATCHED(";

/// The code after a match that is skipped. All that the next match needs is known here, so it begins by a `switch` of its own.
pub(crate) const SKIPPED: &[u8] = br#"    @__skip:
        @__LINES(if (newline) @__count(s, from, p);)
        from = last = p;
        rule = 0;
        @__LINES(newline = 0;)
        @__LINES(line = s->line; line_start = s->line_start;)
        if (p == end) {
            at_line_begin = @__BEGIN(p[-1] == 10);
            if (!s->is_last) goto @__more;
            goto @__done;
        }
        switch (condition) {
        default:
"#;

/// The code at the end of a match.
pub(crate) const END_MATCH: &[u8] = br#"        }
    @__more:
        /* Something may have been skipped. */
        if (from != text + s->at) at_line_begin = @__BEGIN(from[-1] == 10);
        kind = @_MORE;
        p = from;
        goto @__done;
    @__performed:
        condition = s->condition;
        if (kind == @_END) goto @__skip;
        goto @__token;
    @__echo:
        p = from + 1;
        kind = @_ECHO;
        @__LINES(newline = 1;)
    @__token:
        @__LINES(if (newline) @__count(s, from, p);)
        at_line_begin = @__BEGIN(p[-1] == 10);
    @__done:;
    }
"#;

/// The end of a scanner in this form.
pub(crate) const DIRECT_LAST_LINES: &[u8] = br#"
#undef @__AT_END
#undef @__BEGIN
#undef @__BLOCKS
#undef @__CUT
#undef @__EMPTY
#undef @__FOUR
#undef @__GO
#undef @__IN
#undef @__KEEP
#undef @__LAST
#undef @__LINES
#undef @__LOOP
#undef @__MARKED
#undef @__MATCHED
#undef @__NEWLINE
#undef @__NEXT
#undef @__PENDING
#undef @__RANGES
#undef @__READ
#undef @__REST
#undef @__STOP
"#;
