//! Values that actions return (XCU `lex`, "Actions in lex": `return`).

ghost use Rattle.std.specs.Prelude.{◌<◌, IsTrue};
ghost use Rattle.lx_rules.specs.Identifiers.{is_identifier};
ghost use Rattle.lx_rules.specs.Limits.{returned_number_limit};

/// A number below 2,147,483,648.
#[derive(Clone, Copy)]
pub struct KindNumber {
    pub value: u32,
    pub ghost below: { value < returned_number_limit },
}

/// An identifier.
#[derive(Clone, Copy)]
pub struct Identifier<'a> {
    pub text: &'a [u8],
    pub ghost named: { IsTrue (is_identifier text.now) },
}

/// A returned value, as it is written.
#[derive(Clone, Copy)]
pub enum Value<'a> {
    Name(Identifier<'a>),
    Number(KindNumber),
}
