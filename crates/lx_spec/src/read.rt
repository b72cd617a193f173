//! Reads complete specifications.

ghost use Rattle.std.specs.Prelude.{◌≡◌, ◌≢◌, ◌⊎◌, ℕ, List, Option, map, IfOk, IfErr};
ghost use Rattle.lx_ere.specs.PatternEnd.{pattern_end};
ghost use Rattle.lx_ere.specs.PatternGrammar.{IsPatternEnd};
ghost use Rattle.lx_ere.specs.Regex.{Regex};
ghost use Rattle.lx_rules.specs.Plain.{PlainSpec};
ghost use Rattle.lx_rules.specs.views.Specs.{spec_view};
ghost use Rattle.lx_spec.specs.Dictionary.{AreTrees};
ghost use Rattle.lx_spec.specs.views.Dictionaries.{dictionary_view, IsDictionary};
ghost use Rattle.lx_spec.specs.Faults.{out_of_memory};
ghost use Rattle.lx_spec.specs.First.{HoldsOfNone};
ghost use Rattle.lx_spec.specs.Outcome.{AreResolved};
ghost use Rattle.lx_spec.specs.views.ResolvedRules.{resolved_view};
ghost use Rattle.lx_spec.specs.views.Sections.{sections_view};
ghost use Rattle.lx_spec.specs.views.Trees.{trees_view};
ghost use Rattle.lx_spec.specs.Verdict.{Holds, IsFirstFault, cases, symbols_of};
ghost use Rattle.lx_spec.specs.Whole.{IsFault, IsRead};

use crate::build::spec_of;
use crate::definition_faults::definition_faults_of;
use crate::definition_index::{DefinitionIndex, definition_index_of};
use crate::dictionary::{Dictionary, read_dictionary};
use crate::fault::{Code, SpecFault};
use crate::parsed_sections::ParsedSections;
use crate::resolved_rule::{ResolvedRule, resolve_rules};
use crate::section::read_sections;
use crate::symbol_table::SymbolTable;
use lx_ere::extent::{one_pattern_end, some_pattern_end};
use lx_ere::read::{one_reading, one_substitute, some_reading};
use lx_rules::limits::MAX_SPECIFICATION_BYTES;
use lx_rules::spec::Spec;
use std::alloc::Global;

// Reads the definitions and the rules. Err: the first fault of the rules.
fn resolve_sections<'r, 't>(
    alloc: Global,
    sections: &'r ParsedSections<'t>,
    index: &'r DefinitionIndex<'r, 't>,
) -> Result<(Dictionary, Vec<ResolvedRule<'r>>), SpecFault>
    requires { index.now.definitions.now ≡ sections.now.definitions.items }
    ensures fault { IfErr result (λ f.
        f ≢ out_of_memory → (trees : List (Option Regex))
        × AreTrees (sections_view sections.now).definitions trees
        × IsFirstFault (symbols_of (sections_view sections.now) trees)
        (cases (sections_view sections.now).rules) f) }
    ensures dictionary { IfOk result
        (λ r. IsDictionary (sections_view sections.now).definitions (dictionary_view r.0)) }
    ensures clean { IfOk result (λ r.
        HoldsOfNone
        (Holds (symbols_of (sections_view sections.now) (trees_view r.0.trees.items)))
        (cases (sections_view sections.now).rules)) }
    ensures resolves { IfOk result (λ r.
        AreResolved (sections_view sections.now).start_conditions
        (sections_view sections.now).rules (map resolved_view r.1.items)) }
{
    let dictionary = read_dictionary(alloc, index)?;
    let faults = definition_faults_of(alloc, &dictionary)?;
    let symbols = SymbolTable {
        start_conditions: &sections.start_conditions,
        index,
        dictionary: &dictionary,
        faults: &faults,
    };
    let resolved = resolve_rules(alloc, &symbols, &sections.rules)?;
    Ok((dictionary, resolved))
}

/// Reads a `lex` specification (XCU `lex`, "Input Files"): the declarations of its sections, and its rules.
///
/// Err: the first fault of the text. Those of the sections come first, in the order of the text, and then those of the rules, rule by rule.
/// [`Code::Memory`], at line 0, if an allocation failed.
pub fn read_spec(alloc: Global, text: &[u8]) -> Result<Spec, SpecFault>
    ensures fault { IfErr result (λ f. f.code ≢ Code.Memory → IsFault text.now f) }
    ensures memory { IfErr result (λ f. f.code ≡ Code.Memory → f.line ≡ 0) }
    ensures spec { IfOk result (λ s. IsRead text.now (spec_view s)) }
{
    if text.len() > MAX_SPECIFICATION_BYTES {
        return Err(SpecFault {
            code: Code::TooLong,
            line: 0,
        });
    }
    let sections = read_sections(alloc, text)?;
    let index = definition_index_of(alloc, &sections.definitions)?;
    let (dictionary, resolved) = resolve_sections(alloc, &sections, &index)?;
    let spec = spec_of(alloc, &sections, &index, dictionary, resolved)?;
    Ok(spec)
}

/// States a law: `pattern_end` is the only function that ends patterns as the grammar does. The definitions that `read_spec`'s contract cites end
/// patterns by it.
pub fn patterns_end()
    ensures there { (text : List ℕ) → IsPatternEnd text (pattern_end text) }
    ensures one { (ends : List ℕ → ℕ) → ((text : List ℕ) → IsPatternEnd text (ends text))
        → ends ≡ pattern_end }
{
    some_pattern_end();
    one_pattern_end();
}

/// States a law: a text has one verdict. It has at most one first fault, it is at most one specification, and not both.
pub fn one_verdict()
    ensures fault { (text : List ℕ) (e f : SpecFault) → IsFault text e → IsFault text f → e ≡ f }
    ensures spec { (text : List ℕ) (s t : PlainSpec) → IsRead text s → IsRead text t → s ≡ t }
    ensures apart { (text : List ℕ) (s : PlainSpec) (f : SpecFault) → IsRead text s → IsFault text f
        → ⊥ }
{
    one_reading();
    one_substitute();
}

/// States a law: every text has a verdict: a first fault, or the specification that it is.
pub fn some_verdict()
    ensures { (text : List ℕ)
        → ((f : SpecFault) × IsFault text f) ⊎ ((spec : PlainSpec) × IsRead text spec) }
{
    some_reading();
    one_reading();
}
