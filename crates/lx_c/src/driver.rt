//! The driver: the calls of a scanner, the same for all tables, with `@` for the prefix. The search for
//! the next match differs by the form.

/// The functions that the calls use.
pub(crate) const HELPERS: &[u8] = br#"
/* What is there for lines alone. */
#ifdef @__NO_LINES
#define @__LINES(statements)
#else
#define @__LINES(statements) statements
#endif

typedef char @__int_has_32_bits[sizeof(int) >= 4 ? 1 : -1];

/* The steps of an action from here on, up to the next token: its kind, or @_END where there is none. */
static int @__perform(@_scanner *s, const int *step)
{
    while (*step <= -4) s->condition = -4 - *step++;
    s->pending = *step == @_ECHO ? step + 1 : 0;
    return *step;
}

"#;

/// The same for the form by classes.
pub(crate) const HAS_STEP: &[u8] =
    br#"/* Whether a state has a step, so that a further byte may change the match. */
static int @__has_step(size_t state)
{
    unsigned i;
    for (i = 0; i < @__WIDTH; i++)
        if (@__row[state + i]) return 1;
    return 0;
}

"#;

/// The calls before the search for the next match.
pub(crate) const CALLS: &[u8] = br#"#ifndef @__NO_LINES
/* Line and start of line behind these bytes. */
static void @__count(@_scanner *s, const unsigned char *from, const unsigned char *to)
{
    for (; from != to; from++)
        if (*from == 10) {
            s->line++;
            s->line_start = s->before + (size_t)(from + 1 - s->text);
        }
}
#endif

static void @__hand_over(@_scanner *s, const void *text, size_t size, int is_last)
{
    s->text = (const unsigned char *)(text ? text : "");
    s->size = size;
    s->at = s->from = 0;
    s->place = s->text;
    s->is_last = is_last;
}

@__API void @_init_part(@_scanner *s, const void *text, size_t size)
{
    @__hand_over(s, text, size, 0);
    s->before = 0;
    s->line = s->from_line = 1;
    s->line_start = s->from_line_start = 0;
    s->pending = 0;
    s->condition = 0;
    s->at_line_begin = 1;
}

@__API void @_init(@_scanner *s, const void *text, size_t size)
{
    @_init_part(s, text, size);
    s->is_last = 1;
}

@__API void @_refill(@_scanner *s, const void *text, size_t size, int is_last)
{
    s->before += s->at;
    @__hand_over(s, text, size, is_last);
}

@__API int @_next(@_scanner *s, @_token *t)
{
    const unsigned char *const text = s->text, *const end = text + s->size;
    const unsigned char *from = text + s->from, *p = s->place;
    @__LINES(size_t line = s->line; size_t line_start = s->line_start;)
    int kind = @_END, at_line_begin = s->at_line_begin, condition = s->condition;
    if (@__PENDING) {
        kind = @__perform(s, s->pending);
        condition = s->condition;
        if (kind != @_END) {
            @__LINES(line = s->from_line; line_start = s->from_line_start;)
        }
    }
"#;

/// The next match in the form by classes.
pub(crate) const WALK: &[u8] = br#"    while (kind == @_END) {
        size_t state, last;
        unsigned rule;
        @__LINES(int newline = 0;)
        from = p;
        @__LINES(line = s->line; line_start = s->line_start;)
        if (p == end) {
            kind = s->is_last ? @_END : @_MORE;
            break;
        }
        state = @__start[2 * condition + at_line_begin];
        do {
            last = state;
            @__LINES(newline |= *p == 10;)
            state = @__row[state + @__class[*p]];
            if (!state) break;
            p++;
        } while (p != end);
        if (state) {
            if (!s->is_last && @__has_step(state)) {
                kind = @_MORE;
                p = from;
                break;
            }
            last = state;
        }
        rule = @__row[last + @__WIDTH];
        if (!rule || (size_t)(p - from) <= @__CUT(rule)) {
            /* Nothing is accepted here: walk once more, and keep the last place where something is. */
            const unsigned char *const stop = p, *i = from;
            rule = 0;
            p = from + 1;
            state = @__start[2 * condition + at_line_begin];
            while (i != stop) {
                unsigned accepted;
                state = @__row[state + @__class[*i]];
                accepted = @__row[state + @__WIDTH];
                i++;
                if (accepted && (size_t)(i - from) > @__CUT(accepted)) {
                    rule = accepted;
                    p = i;
                }
            }
        }
        p -= @__CUT(rule);
        @__LINES(if (newline) @__count(s, from, p);)
        at_line_begin = @__BEGIN(p[-1] == 10);
        if (!rule) {
            kind = @_ECHO;
            break;
        }
        kind = @__action[rule];
        if (kind == -4) {
            kind = @__perform(s, @__steps[rule]);
            condition = s->condition;
        }
    }
"#;

/// The code for a match, and the calls after it.
pub(crate) const FURTHER_CALLS: &[u8] = br#"    s->from = (size_t)(from - text);
    @__LINES(s->from_line = line; s->from_line_start = line_start;)
    s->at = (size_t)(p - text);
    s->place = p;
    s->at_line_begin = at_line_begin;
    t->kind = kind;
    t->text = (const char *)from;
    t->length = (size_t)(p - from);
    t->start = s->before + s->from;
    t->line = 1;
    t->line_start = 0;
    @__LINES(t->line = line; t->line_start = line_start;)
    return kind;
}

@__API size_t @_fill(@_scanner *s, @_token *t, size_t most)
{
    size_t count = 0;
    while (count < most) {
        const int kind = @_next(s, &t[count]);
        count++;
        if (kind == @_END || kind == @_MORE) break;
    }
    return count;
}

@__API void @_begin(@_scanner *s, int condition)
{
    if (condition >= 0 && condition < @_CONDITIONS) s->condition = condition;
}

@__API void @_less(@_scanner *s, const @_token *t, size_t length)
{
    if (length < 1 || length > t->length || t->start != s->before + s->from) return;
    s->at = s->from + length;
    s->place = s->text + s->at;
    s->at_line_begin = @__BEGIN(s->text[s->at - 1] == 10);
    s->line = s->from_line;
    s->line_start = s->from_line_start;
    @__LINES(@__count(s, s->text + s->from, s->text + s->at);)
}

@__API size_t @_column(const @_scanner *s, const @_token *t)
{
    (void)s;
    return t->start - t->line_start + 1;
}
"#;

/// The name of a kind by its number.
pub(crate) const NAME_OF_NUMBER: &[u8] = br#"
@__API const char *@_name(int kind)
{
    if (kind < @_FIRST || (size_t)(kind - @_FIRST) >= sizeof @__names / sizeof @__names[0]) return 0;
    return @__names[kind - @_FIRST];
}
"#;

/// The name of a kind that a file declares.
pub(crate) const NAME_OF_KIND: &[u8] = br#"
@__API const char *@_name(int kind)
{
    size_t i;
    for (i = 0; @__names[i]; i++)
        if (@__kinds[i] == kind) return @__names[i];
    return 0;
}
"#;
