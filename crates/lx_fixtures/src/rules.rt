//! Specifications with their tables, and files with their listings, worked out by hand.

/// The first and the second text of tables.
pub type Texts = (&'static str, &'static str);

/// Rules for words, numbers and white space.
pub const THREE_RULES: &str = "%%\n[a-z]+ return ID;\n[0-9]+ return NUM;\n[ \\n]+ ;\n";

/// The texts of their tables.
pub const THREE_RULES_TEXTS: Texts = (
    "lx-tables 1\nconditions 1\nstart 0 0\nkinds 2\nkind ID\nkind NUM\nrules 3\nrule 0 k0\nrule 0 k1\nrule 0\nstates 4\nstate - 10-10:1 32-32:1 48-57:2 97-122:3\nstate 2 10-10:1 32-32:1\nstate 1 48-57:2\nstate 0 97-122:3\nend\n",
    "lx-tables 2\nconditions 1\nstart 0 0\nkinds 2\nkind ID\nkind NUM\nrules 3\nrule 0 k0\nrule 0 k1\nrule 0\nclasses 4\nclass 0-9:0 10-10:1 11-31:0 32-32:1 33-47:0 48-57:2 58-96:0 97-122:3 123-255:0\nstates 4\nstate - 1:1 2:2 3:3\nstate 2 1:1\nstate 1 2:2\nstate 0 3:3\nend\n",
);

/// Two words of these rules.
pub const TWO_WORDS: &[u8] = b"ab 12\n";

/// A file with a name, an empty one, and one with two numbers, all read to their ends.
pub const THREE_FILES: [(&[u8], bool); 3] = [(b"a", false), (b"", false), (b"1\n2", false)];

/// The listing of these files by the three rules.
pub const THREE_FILES_LISTING: &[u8] = b"0 T ID 1 0 1 a\n2 T NUM 1 0 1 1\n2 T NUM 2 2 1 2\n";

/// No rules: each byte is an Echo.
pub const NO_RULES: &str = "%%\n";

/// The texts of the tables without rules.
pub const NO_RULES_TEXTS: Texts = (
    "lx-tables 1\nconditions 1\nstart 0 0\nkinds 0\nrules 0\nstates 1\nstate -\nend\n",
    "lx-tables 2\nconditions 1\nstart 0 0\nkinds 0\nrules 0\nclasses 1\nclass 0-255:0\nstates 1\nstate -\nend\n",
);

/// Rules for names, numbers and texts between `<` and `>`, which yield an Echo and a token.
pub const MIXED_RULES: &str =
    "%%\n[a-z]+ return ID;\n[0-9]+ return NUM;\n\" \"+ ;\n\"<\"[^>]*\">\" { ECHO; return 65; }\n";

/// A file whose last byte is skipped, an empty one, one with escaped bytes, and two whose reading failed, at once or later.
pub const MIXED_FILES: [(&[u8], bool); 5] = [
    (b"ab 12 ", false),
    (b"", false),
    (b"\\\n\xFF~\x7F<\\ \n>\nz ", false),
    (b"", true),
    (b"7 ", true),
];

/// Listing of the mixed files.
pub const MIXED_LISTING: &str = "\
0 T ID 1 0 2 ab
0 T NUM 1 3 2 12
2 E - 1 0 1 \\\\
2 E - 1 1 1 \\x0A
2 E - 2 2 1 \\xFF
2 E - 2 3 1 ~
2 E - 2 4 1 \\x7F
2 E - 2 5 5 <\\\\ \\x0A>
2 T 65 2 5 5 <\\\\ \\x0A>
2 E - 3 10 1 \\x0A
2 T ID 4 11 1 z
3 ! cut
4 T NUM 1 0 1 7
4 ! cut
";
