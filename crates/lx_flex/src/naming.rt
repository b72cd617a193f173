//! Decides which definitions lx has by a name, and which are expanded at each use.

use crate::conditions::without_hyphens;
use crate::cursor::front;
use crate::definitions::{Declared, FlexDefinition};
use crate::report::ReadFault;
use lx_ere::Expr;
use lx_flex_pattern::{NamedPatterns, read_pattern, translate_substitute};
use std::alloc::{AllocError, Global};

/// Greatest number of passes over the definitions, which is the greatest depth of names in lx.
const MAX_PASSES: u32 = 32;

/// A definition in lx.
#[derive(Debug, Drop)]
pub struct ImportedDefinition {
    /// Name of the definition in lx.
    pub name: Vec<u8>,
    /// Tree of its substitute.
    pub tree: Expr,
    /// Text of its substitute in lx.
    pub text: Vec<u8>,
}

/// Returns true if flex inserts the text without parentheses, because it begins with `^` or ends with `$`.
fn is_anchored(text: &[u8]) -> bool {
    let ends = match text.last() {
        Some(last) => *last == b'$',
        None => false,
    };
    ends || front(1, text) == b"^".as_slice()
}

fn has_name(names: &[Vec<u8>], name: &[u8]) -> bool {
    for known in names {
        if known.as_slice() == name {
            return true;
        }
    }
    false
}

/// Returns a name for lx that none of these names equals.
fn new_name(alloc: Global, names: &[Vec<u8>], name: &[u8]) -> Result<Vec<u8>, AllocError> {
    let mut renamed = without_hyphens(alloc, name)?;
    for _ in names {
        if !has_name(names, renamed.as_slice()) {
            break;
        }
        renamed.push(b'_')?;
    }
    Ok(renamed)
}

/// Returns the definitions' names in lx, in order.
fn lx_names(alloc: Global, definitions: &[FlexDefinition]) -> Result<Vec<Vec<u8>>, AllocError> {
    let mut names = Vec::new(alloc);
    for definition in definitions {
        let name = new_name(alloc, names.as_slice(), definition.name.as_slice())?;
        names.push(name)?;
    }
    Ok(names)
}

/// Returns the name in lx of the definition with this number, or `None` if it is expanded.
fn lx_name_at<'a>(lx: &'a [Vec<u8>], inlined: &[usize], place: usize) -> Option<&'a Vec<u8>> {
    if inlined.contains(&place) {
        None
    } else {
        lx.get(place)
    }
}

/// Adds a definition, which is expanded if it has no name in lx.
fn add_definition(
    alloc: Global,
    names: &mut NamedPatterns,
    definition: &FlexDefinition,
    lx: Option<&Vec<u8>>,
) -> Result<(), AllocError> {
    let lx_name = match lx {
        Some(name) => Some(name.clone()?),
        None => None,
    };
    names.add(
        alloc,
        definition.name.as_slice(),
        definition.text.as_slice(),
        lx_name,
    )
}

/// Returns the definitions. Those with the numbers in `inlined` are expanded.
fn names_of(
    alloc: Global,
    definitions: &[FlexDefinition],
    lx: &[Vec<u8>],
    inlined: &[usize],
) -> Result<NamedPatterns, AllocError> {
    let mut names = NamedPatterns::new(alloc);
    let mut place: usize = 0;
    for definition in definitions {
        add_definition(
            alloc,
            &mut names,
            definition,
            lx_name_at(lx, inlined, place),
        )?;
        place = place.saturating_add(1);
    }
    Ok(names)
}

/// Returns the definition as lx has it, or `None` if it can't be a substitute.
fn import_definition(
    alloc: Global,
    declared: &Declared,
    names: &NamedPatterns,
    definition: &FlexDefinition,
) -> Result<Option<(Expr, Vec<u8>)>, ReadFault> {
    let text = definition.text.as_slice();
    let options = declared.options.for_patterns();
    if is_anchored(text) || options.bare_names {
        return Ok(None);
    }
    let reading = match read_pattern(alloc, text, names, options) {
        Ok(reading) => reading,
        Err(lx_flex_pattern::PatternFault::Memory) => return Err(ReadFault::Memory),
        Err(_) => return Ok(None),
    };
    let whole = reading.length == text.len() && reading.trailing.is_none();
    if !whole || reading.pattern.line_begin || reading.pattern.line_end {
        return Ok(None);
    }
    match translate_substitute(alloc, &reading.pattern.expr) {
        Ok(printed) => Ok(Some((reading.pattern.expr, printed))),
        Err(lx_flex_pattern::PatternFault::Memory) => Err(ReadFault::Memory),
        Err(_) => Ok(None),
    }
}

/// The definitions of lx, and the names that patterns may use.
#[derive(Drop)]
pub(crate) struct PatternNames {
    pub(crate) names: NamedPatterns,
    pub(crate) definitions: Vec<ImportedDefinition>,
}

/// Makes one pass over the definitions. Returns true if more of them have to be expanded.
fn pass(
    alloc: Global,
    declared: &Declared,
    lx: &[Vec<u8>],
    names: &NamedPatterns,
    inlined: &mut Vec<usize>,
) -> Result<(Vec<ImportedDefinition>, bool), ReadFault> {
    let mut definitions = Vec::new(alloc);
    let mut more = false;
    let mut place: usize = 0;
    for definition in declared.definitions.as_slice() {
        if !inlined.as_slice().contains(&place) {
            match import_definition(alloc, declared, names, definition)? {
                Some((tree, text)) => {
                    let name = match lx.get(place) {
                        Some(name) => name.clone()?,
                        None => Vec::new(alloc),
                    };
                    definitions.push(ImportedDefinition { name, tree, text })?;
                }
                None => {
                    inlined.push(place)?;
                    more = true;
                }
            }
        }
        place = place.saturating_add(1);
    }
    Ok((definitions, more))
}

/// Finds the definitions that lx can have by a name: those that are substitutes once the others are expanded.
pub(crate) fn naming_of(alloc: Global, declared: &Declared) -> Result<PatternNames, ReadFault> {
    let raw = declared.definitions.as_slice();
    let lx = lx_names(alloc, raw)?;
    let mut inlined = Vec::new(alloc);
    for _ in 0..MAX_PASSES {
        let names = names_of(alloc, raw, lx.as_slice(), inlined.as_slice())?;
        let (definitions, more) = pass(alloc, declared, lx.as_slice(), &names, &mut inlined)?;
        if !more {
            return Ok(PatternNames { names, definitions });
        }
    }
    let mut all = Vec::new(alloc);
    for place in 0..raw.len() {
        all.push(place)?;
    }
    Ok(PatternNames {
        names: names_of(alloc, raw, lx.as_slice(), all.as_slice())?,
        definitions: Vec::new(alloc),
    })
}
