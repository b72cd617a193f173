//! The program `lx` without its files and streams: the commands, from the command line to the exit status.
#![tactic(auto)]

mod asked;
mod checking;
mod explaining;
mod failure;
mod given;
mod importing;
mod names;
mod noting;
mod output;
mod outputs;
mod planning;
mod printing;
mod program;
mod reading;
mod remarks;
mod scanner_check;
mod scanner_fault;
mod scanner_help;
mod scanner_input;
mod scanner_making;
mod scanners;
mod session;
mod showing;
mod source;
mod streaming;
mod suggesting;
mod tabling;
mod target;

pub use failure::{CommandFault, OutputFault, PrintFault, RequestFault};
pub use given::{list_by_specification, list_by_tables};
pub use lx_cli::VERSION;
pub use lx_listing::{BlockTaker, LineWrites, Listing, list_plan, print_listing};
pub use names::name_bytes;
pub use output::Output;
pub use planning::{
    list_files, list_files_in, listings_are_by_rules, printed_tables_list_by_rules,
};
pub use program::{run, run_with};
pub use reading::{read_in_blocks, read_names, read_to_end};
pub use source::{BlocksFault, ListSources, STANDARD_INPUT, SourceFault, Sources};
pub use streaming::stream_files_in;
pub use tabling::tables_of_text;
pub use target::{NoTargets, TargetFault, Targets};
