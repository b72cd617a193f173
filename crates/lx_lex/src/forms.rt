//! The forms in which a scanner is printed.

ghost use Rattle.std.specs.Prelude.{◌≡◌, ◌≤◌};
ghost use Rattle.lx_automaton.specs.Automata.{state_count};
ghost use Rattle.lx_lex.specs.Forms.{chosen_form};

use lx_flex::options::FlexOptions;
use lx_tables::Tables;

/// The way in which a scanner finds its matches.
#[derive(Debug, Clone, Copy, PartialEq, Eq)]
pub enum ScannerForm {
    /// By arrays, with a row for each state.
    Rows,
    /// By code for each state.
    States,
}

/// The greatest number of states that are printed as code unless this is asked for. C compilers take long for more.
const MAX_STATES: u32 = 1000;

/// Returns the form that options of a file or of the command line ask for. Small tables are rows.
pub fn asked_form(options: &FlexOptions) -> Option<ScannerForm> {
    if let Some(name) = options.value_of(b"form") {
        return Some(if name == b"rows".as_slice() {
            ScannerForm::Rows
        } else {
            ScannerForm::States
        });
    }
    let wants_speed = options.is_on(b"full") || options.is_on(b"fast");
    if !wants_speed && (options.is_on(b"ecs") || options.is_on(b"meta-ecs")) {
        return Some(ScannerForm::Rows);
    }
    None
}

/// Returns the form of a scanner: rows if it has lists for `REJECT`; else the form that is asked for; without one, code for up to 1,000 states.
pub fn form_of(has_lists: bool, asked: Option<ScannerForm>, tables: &Tables) -> ScannerForm
    ensures { result ≡ chosen_form has_lists asked (state_count tables.now.machine) }
{
    if has_lists {
        return ScannerForm::Rows;
    }
    match asked {
        Some(form) => form,
        None => if tables.states() <= MAX_STATES {
            ScannerForm::States
        } else {
            ScannerForm::Rows
        },
    }
}
