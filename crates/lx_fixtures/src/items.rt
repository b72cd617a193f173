//! Items of texts.

use lx_scan::Item;
use lx_spec::Kind;

/// Returns a token on line 1.
pub fn token(name: u32, start: usize, len: usize) -> Item {
    Item::Token {
        kind: Kind::Name(name),
        line: 1,
        start,
        len,
    }
}

/// Returns an Echo of one byte.
pub fn echo(line: u64, start: usize) -> Item {
    Item::Echo {
        line,
        start,
        len: 1,
    }
}
