//! The kinds of warnings, and sets of them.

ghost use Rattle.std.specs.Prelude.{◌≡◌, ◌<◌, ◌≢◌, IfSome, None, nat_eq, if◌then◌else◌, true, false};
ghost use Rattle.lx_warnings.specs.Names.{name_text};
ghost use Rattle.lx_warnings.specs.Kinds.{has_kind, is_usual, number};
ghost use Rattle.lx_warnings.specs.declared.kinds.WarningKind.{WarningKind};

/// The kind of a warning. `explain` gives its meaning and what to do.
#[derive(Clone, Copy, Debug)]
pub enum WarningKind {
    ConditionWord,
    NeverEntered,
    UnusedDefinition,
    NeverChosen,
    EofRule,
    Interval,
    Lazy,
    LetterEscape,
    LongHex,
    ManyBytes,
    CurlyQuotes,
    ClassOutside,
    WideRange,
    DeadStatement,
    SkippedRule,
    SkippedLine,
    FarAhead,
    UnreadBytes,
}

/// Number of kinds.
pub const KINDS: usize = 18;

/// All kinds.
pub const ALL: [WarningKind; KINDS] = [
    WarningKind::ConditionWord,
    WarningKind::NeverEntered,
    WarningKind::UnusedDefinition,
    WarningKind::NeverChosen,
    WarningKind::EofRule,
    WarningKind::Interval,
    WarningKind::Lazy,
    WarningKind::LetterEscape,
    WarningKind::LongHex,
    WarningKind::ManyBytes,
    WarningKind::CurlyQuotes,
    WarningKind::ClassOutside,
    WarningKind::WideRange,
    WarningKind::DeadStatement,
    WarningKind::SkippedRule,
    WarningKind::SkippedLine,
    WarningKind::FarAhead,
    WarningKind::UnreadBytes,
];

/// Returns the name of a kind, as `-W` and `explain` use it.
pub fn name_of(kind: WarningKind) -> &'static str
    ensures { result.now ≡ name_text kind }
{
    match kind {
        WarningKind::ConditionWord => "condition-word",
        WarningKind::NeverEntered => "never-entered",
        WarningKind::UnusedDefinition => "unused-definition",
        WarningKind::NeverChosen => "never-chosen",
        WarningKind::EofRule => "eof-rule",
        WarningKind::Interval => "interval",
        WarningKind::Lazy => "lazy",
        WarningKind::LetterEscape => "letter-escape",
        WarningKind::LongHex => "long-hex",
        WarningKind::ManyBytes => "many-bytes",
        WarningKind::CurlyQuotes => "curly-quotes",
        WarningKind::ClassOutside => "class-outside",
        WarningKind::WideRange => "wide-range",
        WarningKind::DeadStatement => "dead-statement",
        WarningKind::SkippedRule => "skipped-rule",
        WarningKind::SkippedLine => "skipped-line",
        WarningKind::FarAhead => "far-ahead",
        WarningKind::UnreadBytes => "unread-bytes",
    }
}

/// Returns the kind with a name, or `None` exactly if there is none.
pub fn kind_named(name: &[u8]) -> Option<WarningKind>
    ensures some { IfSome result (λ kind. name_text kind ≡ name.now) }
    ensures none { result ≡ None → (kind : WarningKind) → name_text kind ≢ name.now }
{
    for kind in &ALL {
        if name_of(*kind).as_bytes() == name {
            return Some(*kind);
        }
    }
    None
}

fn number_of(kind: WarningKind) -> usize
    ensures number { result ≡ number kind }
    ensures below { result < 18 }
{
    kind as usize
}

/// A set of kinds.
#[derive(Clone, Copy, Debug)]
pub struct KindSet {
    flags: [bool; KINDS],
}

impl KindSet {
    /// Returns the empty set.
    pub fn none() -> KindSet
        ensures { (kind : WarningKind) → has_kind result kind ≡ false }
    {
        KindSet {
            flags: [false; KINDS],
        }
    }

    /// Returns the set of all kinds.
    pub fn all() -> KindSet
        ensures { (kind : WarningKind) → has_kind result kind ≡ true }
    {
        KindSet {
            flags: [true; KINDS],
        }
    }

    /// Returns the default kinds: all except those that warn of what may well be intended.
    pub fn usual() -> KindSet
        ensures { (kind : WarningKind) → has_kind result kind ≡ is_usual kind }
    {
        KindSet::all()
            .with(WarningKind::FarAhead, false)
            .with(WarningKind::UnreadBytes, false)
    }

    /// Returns true if a kind is in the set.
    pub fn contains(&self, kind: WarningKind) -> bool
        ensures { result ≡ has_kind self.now kind }
    {
        self.flags[number_of(kind)]
    }

    /// Returns the set with a kind added or removed.
    pub fn with(self, kind: WarningKind, is_in: bool) -> KindSet
        ensures { (other : WarningKind) → has_kind result other
            ≡ (if nat_eq (number other) (number kind) then is_in else has_kind self other) }
    {
        let mut flags = self.flags;
        flags[number_of(kind)] = is_in;
        KindSet { flags }
    }
}
