//! The calls by their names.

use crate::stop::Stop;
use crate::{
    automata, collecting, expressions, listings, posts, readers, relays, sources, threads,
};
use std::alloc::Global;
use std::io;
use std::sync::Wait;
use std::thread::Threads;

/// A call of a library.
#[derive(Clone, Copy)]
pub(crate) enum Call {
    ReadPattern,
    ReadSubstitute,
    ReadSpec,
    Build,
    BuildLists,
    Merge,
    TablesOf,
    TablesRead,
    Scan,
    NextPiece,
    CollectorNew,
    Offer,
    Relay,
    ClaimsNew,
    PostNew,
    ScanAllByOne,
    ScanAllByTwo,
    ScanAllByEight,
    PrintListing,
    ListingNew,
    ListingTake,
    SourcesRead,
    Has,
    PatternEnd,
    Automaton,
    Tables,
    Print,
    PrintFirst,
    NextMatch,
    Text,
    Plan,
    ListArrivals,
    Deliver,
    Faults,
    Draw,
    Send,
    PostArrivals,
    OpenGate,
    MeetingGate,
}

/// All calls, each with a mark and its name. The mark is `==` if the call allocates, and otherwise `--`. Those that allocate come first.
pub(crate) const ALL: &[(Call, &str, &str)] = &[
    (Call::ReadPattern, "==", "read_pattern"),
    (Call::ReadSubstitute, "==", "read_substitute"),
    (Call::ReadSpec, "==", "read_spec"),
    (Call::Build, "==", "build"),
    (Call::BuildLists, "==", "build_lists"),
    (Call::Merge, "==", "merge"),
    (Call::TablesOf, "==", "Tables::of"),
    (Call::TablesRead, "==", "Tables::read"),
    (Call::Scan, "==", "scan"),
    (Call::NextPiece, "==", "next_piece"),
    (Call::CollectorNew, "==", "Collector::new"),
    (Call::Offer, "==", "offer"),
    (Call::Relay, "==", "relay"),
    (Call::ClaimsNew, "==", "Claims::new"),
    (Call::PostNew, "==", "Post::new"),
    (Call::ScanAllByOne, "==", "scan_all by 1"),
    (Call::ScanAllByTwo, "==", "scan_all by 2"),
    (Call::ScanAllByEight, "==", "scan_all by 8"),
    (Call::PrintListing, "==", "print_listing"),
    (Call::ListingNew, "==", "Listing::new"),
    (Call::ListingTake, "==", "Listing::take"),
    (Call::SourcesRead, "==", "Sources::read"),
    (Call::Has, "--", "has"),
    (Call::PatternEnd, "--", "pattern_end"),
    (Call::Automaton, "--", "automaton"),
    (Call::Tables, "--", "tables"),
    (Call::Print, "--", "print"),
    (Call::PrintFirst, "--", "print_first"),
    (Call::NextMatch, "--", "next_match"),
    (Call::Text, "--", "text"),
    (Call::Plan, "--", "plan"),
    (Call::ListArrivals, "--", "list_arrivals"),
    (Call::Deliver, "--", "deliver"),
    (Call::Faults, "--", "faults"),
    (Call::Draw, "--", "draw"),
    (Call::Send, "--", "send"),
    (Call::PostArrivals, "--", "post_arrivals"),
    (Call::OpenGate, "--", "open_gate"),
    (Call::MeetingGate, "--", "meeting_gate"),
];

impl Call {
    fn make<R: Print + Threads + Wait + Sync>(self, rt: &R, alloc: Global) -> Result<(), Stop> {
        match self {
            Call::ReadPattern => expressions::reads_patterns(rt, alloc),
            Call::ReadSubstitute => expressions::reads_substitutes(rt, alloc),
            Call::ReadSpec => automata::reads_spec(rt, alloc),
            Call::Build => automata::builds(rt, alloc),
            Call::BuildLists => automata::builds_lists(rt, alloc),
            Call::Merge => automata::merges(rt, alloc),
            Call::TablesOf => automata::makes_tables(rt, alloc),
            Call::TablesRead => automata::reads_tables(rt, alloc),
            Call::Scan => automata::scans(rt, alloc),
            Call::NextPiece => collecting::cuts(rt, alloc),
            Call::CollectorNew => collecting::makes_collector(rt, alloc),
            Call::Offer => collecting::offers(rt, alloc),
            Call::Relay => relays::relays(rt, alloc),
            Call::ClaimsNew => posts::makes_claims(rt, alloc),
            Call::PostNew => posts::makes_post(rt, alloc),
            Call::ScanAllByOne => threads::scans_all(rt, alloc, 1),
            Call::ScanAllByTwo => threads::scans_all(rt, alloc, 2),
            Call::ScanAllByEight => threads::scans_all(rt, alloc, 8),
            Call::PrintListing => listings::prints_listing(rt, alloc),
            Call::ListingNew => listings::makes_listing(rt, alloc),
            Call::ListingTake => listings::takes(rt, alloc),
            Call::SourcesRead => sources::reads_source(rt, alloc),
            Call::Has => expressions::has(rt, alloc),
            Call::PatternEnd => expressions::ends_patterns(rt, alloc),
            Call::Automaton => readers::reads_automaton(rt, alloc),
            Call::Tables => readers::reads_tables(rt, alloc),
            Call::Print => readers::prints(rt, alloc),
            Call::PrintFirst => readers::prints_first(rt, alloc),
            Call::NextMatch => readers::matches(rt, alloc),
            Call::Plan => readers::plans(rt, alloc),
            Call::ListArrivals => readers::arrives(rt, alloc),
            Call::Deliver => collecting::delivers(rt, alloc),
            Call::Faults => listings::counts_faults(rt, alloc),
            Call::Draw => posts::draws(rt, alloc),
            Call::Send => posts::sends(rt, alloc),
            Call::PostArrivals => posts::arrives(rt, alloc),
            Call::Text => readers::lends(rt, alloc),
            Call::OpenGate => threads::passes_open(rt, alloc),
            Call::MeetingGate => threads::meets(rt, alloc),
        }
    }
}

/// Makes a call, and prints its result.
fn drive<R: Print + Threads + Wait + Sync>(rt: &R, alloc: Global, call: Call) -> io::Result<()> {
    match call.make(rt, alloc) {
        Ok(()) => Ok(()),
        Err(Stop::NotBegun) => println!(rt; "not begun"),
        Err(Stop::Refused) => println!(rt; "refused"),
        Err(Stop::Output) => Err(io::Error::from(io::ErrorKind::Other)),
    }
}

/// Makes the call with this name.
pub(crate) fn drive_named<R: Print + Threads + Wait + Sync>(
    rt: &R,
    alloc: Global,
    wanted: &str,
) -> io::Result<()> {
    for (call, _, name) in ALL {
        if *name == wanted {
            return drive(rt, alloc, *call);
        }
    }
    Err(io::Error::from(io::ErrorKind::NotFound))
}

/// Makes a call, and prints its name and its result.
fn drive_with_name<R: Print + Threads + Wait + Sync>(
    rt: &R,
    alloc: Global,
    (call, sign, name): (Call, &str, &str),
) -> io::Result<()> {
    println!(rt; "{sign} {name}")?;
    drive(rt, alloc, call)
}

/// Makes each call, and prints its name and its result.
pub(crate) fn drive_all<R: Print + Threads + Wait + Sync>(rt: &R, alloc: Global) -> io::Result<()> {
    for row in ALL {
        drive_with_name(rt, alloc, *row)?;
    }
    Ok(())
}
