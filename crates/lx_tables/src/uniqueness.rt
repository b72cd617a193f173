//! Laws: each text is that of one table, and of one version.

ghost use Rattle.std.specs.Prelude.{◌≢◌};
ghost use Rattle.lx_tables.specs.Model.{Table};
ghost use Rattle.lx_tables.specs.Texts.{text_1, text_2};
ghost use Rattle.lx_tables.specs.Uniqueness.{IsOneToOne};

/// States a law: tables with the same text of a version are the same.
pub fn texts_are_one_to_one()
    ensures first { IsOneToOne text_1 }
    ensures second { IsOneToOne text_2 }
{}

/// States a law: no text has both versions.
pub fn versions_are_apart()
    ensures { (s t : Table) → text_1 s ≢ text_2 t }
{}
