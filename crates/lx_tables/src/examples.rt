//! Texts of some tables.

ghost use Rattle.lx_tables.specs.Examples.{HaveTheirTexts};

/// States a law: four tables have these texts of versions 1 and 2.
pub fn examples_have_their_texts()
    ensures { HaveTheirTexts }
{}
