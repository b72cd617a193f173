//! Judges if a scanner in C can be printed of tables.

ghost use Rattle.std.specs.Prelude.{◌≡◌, ◌⊎◌, ℕ, List, Some, None, IfOk, IfErr};
ghost use Rattle.lx_c.specs.Kinds as kinds;
ghost use Rattle.lx_c.specs.declared.fault.KindFault.TheVariants as faults;

use crate::declarations::push_name;
use crate::fault::KindFault;
use crate::first_kind;
use crate::options::Options;
use crate::pushing::push;
use crate::words::WORDS;
use lx_tables::Tables;
use std::alloc::{AllocError, Global};

/// The most states of which code for each is printed; more are E41.
pub const MAX_DIRECT_STATES: u32 = 1000;

fn has_part(text: &[u8], part: &[u8]) -> bool
    ensures { result ≡ kinds.has_part part.now text.now }
{
    let mut rest = text;
    while let Some((_, more)) = rest.split_first() {
        if rest.starts_with(part) {
            return true;
        }
        rest = more;
    }
    false
}

// Returns true if a name, with a blank on both sides, is a word of C or C++.
fn is_spaced_word(spaced: &[u8]) -> bool
    ensures { (name : List ℕ) → spaced.now ≡ kinds.spaced name → result ≡ kinds.is_word name }
{
    has_part(WORDS, spaced)
}

// Returns true if the scanner may need the name of the kind for itself.
fn is_own(options: &Options, kind: &[u8]) -> bool
    ensures { result ≡ kinds.is_own options.now kind.now }
{
    let prefix = options.prefix();
    options.has_include()
        && (kind.starts_with(prefix) && (prefix.len() < kind.len() && kind[prefix.len()] == b'_'))
}

// Returns the name of a kind in C, with a blank on both sides.
fn spaced_name(alloc: Global, options: &Options, kind: &[u8]) -> Result<Vec<u8>, AllocError>
    ensures { IfOk result
        (λ spaced. spaced.items ≡ kinds.spaced (kinds.name_in_c options.now kind.now)) }
{
    let mut spaced = Vec::from_slice(alloc, b" ")?;
    push_name(&mut spaced, options, kind)?;
    push(&mut spaced, b" ")?;
    Ok(spaced)
}

// Returns the fault of the name of a kind, if it has one.
fn name_fault(
    alloc: Global,
    options: &Options,
    number: u32,
    kind: &[u8],
) -> Result<Option<KindFault>, AllocError>
    ensures { IfOk result (λ fault. fault ≡ kinds.name_fault options.now number kind.now) }
{
    let spaced = spaced_name(alloc, options, kind)?;
    if is_spaced_word(&spaced) {
        return Ok(Some(KindFault::Reserved(number)));
    }
    if is_own(options, kind) {
        return Ok(Some(KindFault::Declared(number)));
    }
    Ok(None)
}

// Returns the first fault of the names of kinds.
fn first_name_fault(
    alloc: Global,
    tables: &Tables,
    options: &Options,
) -> Result<Option<KindFault>, AllocError>
    ensures { IfOk result (λ fault. fault ≡ kinds.first_name_fault options.now 0 tables.now.kinds) }
{
    for number in 0..tables.kinds() {
        if let Some(fault) = name_fault(alloc, options, number, tables.kind(number))? {
            return Ok(Some(fault));
        }
    }
    Ok(None)
}

// Returns true if the numbers of the kinds pass the greatest int of 32 bits.
fn pass_the_limit(tables: &Tables, options: &Options) -> bool
    ensures { result ≡ kinds.pass_the_limit options.now tables.now }
{
    if options.has_include() {
        return false;
    }
    first_kind(tables) + u64::from(tables.kinds().saturating_sub(1)) > 2_147_483_647
}

/// Judges if a scanner in C can be printed of the tables under these options. Err: the first fault.
/// It is [`KindFault::States`] (E41) if code is asked for more than 1,000 states,
/// [`KindFault::Numbers`] (E40) if the number of a kind is 2,147,483,648 or more, and else that of
/// the first kind whose name is a word of C or C++, or one that the scanner declares for itself.
/// Memory that was refused is a fault too.
pub fn judge(alloc: Global, tables: &Tables, options: &Options) -> Result<(), KindFault>
    ensures ok { IfOk result (λ done. kinds.kind_fault options.now tables.now ≡ None) }
    ensures err { IfErr result (λ fault.
        (fault ≡ faults.Memory) ⊎ (kinds.kind_fault options.now tables.now ≡ Some fault)) }
{
    let states = tables.states();
    if options.is_direct() && states > MAX_DIRECT_STATES {
        return Err(KindFault::States(states));
    }
    if pass_the_limit(tables, options) {
        return Err(KindFault::Numbers);
    }
    match first_name_fault(alloc, tables, options)? {
        None => Ok(()),
        Some(fault) => Err(fault),
    }
}
