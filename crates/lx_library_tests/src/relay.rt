//! Tests complete runs of a relay: foreign pieces, the greatest number of files, and a reader that fails.

ghost use Rattle.std.specs.Prelude.{◌≡◌, IfOk, length, replicate};
ghost use Rattle.lx_piece.specs.Plans.{files_of};
ghost use Rattle.lx_piece.specs.Arrivals.{AreHonest};

use crate::asserts::{holds, same};
use crate::plans::echoes;
use lx_fixtures::{NO_RULES, among_strangers, last_file_first, plan_of};
use lx_piece::{
    Arrivals, ListArrivals, Mark, Piece, Plan, Reader, ReaderFault, RelayFault, Reply, Why, relay,
};
use std::alloc::{AllocError, Global};
use std::process::Abort;

/// A reader that counts the pieces of each file, keeps the last one's mark, and fails once it has taken `room` pieces.
#[derive(Drop)]
pub(crate) struct Tally<'a> {
    plan: &'a Plan,
    pub(crate) counts: Vec<u64>,
    marks: Vec<Mark>,
    room: u64,
    faults: u64,
    ghost each_count: { length counts.items ≡ files_of plan.now },
    ghost each_mark: { length marks.items ≡ files_of plan.now },
}

/// Returns a tally that has counted nothing.
pub(crate) fn fresh_tally(alloc: Global, plan: &Plan, room: u64) -> Result<Tally<'_>, AllocError>
    ensures plan { IfOk result (λ tally. tally.plan.now ≡ plan.now) }
    ensures counts { IfOk result (λ tally. tally.counts.items ≡ replicate (files_of plan.now) 0) }
    ensures faults { IfOk result (λ tally. tally.faults ≡ 0) }
{
    Ok(Tally {
        plan,
        counts: vec![in alloc; 0; plan.files() as usize]?,
        marks: vec![in alloc; Mark::More; plan.files() as usize]?,
        room,
        faults: 0,
    })
}

impl<'a> Reader for Tally<'a> {
    ghost use Rattle.std.specs.Prelude.{ℕ};

    ghost plan = { λ s. s.plan.now };

    ghost counts = { λ s. s.counts.items };

    ghost fault_count = { λ s. s.faults };

    ghost follows = { λ _ _. Unit {0} };

    fn take(&mut self, piece: Piece) -> Result<(), ReaderFault> {
        if self.room == 0 {
            self.faults += 1;
            return Err(ReaderFault::Device);
        }
        self.room -= 1;
        self.counts[piece.file as usize] += 1;
        self.marks[piece.file as usize] = piece.mark;
        Ok(())
    }

    fn faults(&self) -> u64 {
        self.faults
    }

    ghost follows_itself = { λ _. tt };

    ghost follows_on = { λ _ _ _ _ _. tt };
}

/// Relays these pieces in their order. Returns the result.
pub(crate) fn relay_list(
    alloc: Global,
    plan: &Plan,
    pieces: Vec<Piece>,
    tally: &mut Tally<'_>,
) -> Result<Vec<Reply>, RelayFault>
    requires honest { AreHonest plan.now pieces.items }
    requires plan { tally.old.plan.now ≡ plan.now }
    requires counts { tally.old.counts.items ≡ replicate (files_of plan.now) 0 }
    requires faults { tally.old.faults ≡ 0 }
{
    let mut arrivals = ListArrivals::new(plan, pieces);
    relay(alloc, plan, &mut arrivals, tally)
}

/// The replies to the pieces of two files among foreign pieces.
const AMONG_STRANGERS: &[Reply] = &[
    Reply::Accepted,
    Reply::Refused(Why::WrongRun),
    Reply::Refused(Why::UnknownFile),
    Reply::Accepted,
];

/// Returns the replies of a relay that succeeded.
fn replies_of(rt: &impl Abort, found: Result<Vec<Reply>, RelayFault>) -> Vec<Reply> {
    found.expect(rt, "replies")
}

/// Returns a tally that has counted nothing. If an allocation for it fails, the test ends.
fn tally_of<'a, R: Abort + AllocGlobal>(rt: &R, plan: &'a Plan, room: u64) -> Tally<'a>
    ensures plan { result.plan.now ≡ plan.now }
    ensures counts { result.counts.items ≡ replicate (files_of plan.now) 0 }
    ensures faults { result.faults ≡ 0 }
{
    fresh_tally(rt.alloc(), plan, room).expect(rt, "memory")
}

/// Asserts that these are the replies.
fn expect_replies(rt: &impl Abort, found: Result<Vec<Reply>, RelayFault>, wanted: &[Reply]) {
    let replies = replies_of(rt, found);
    same(rt, &replies.as_slice(), &wanted);
}

/// Asserts that one piece of each of two files was taken. The first file is whole, and the second one has this mark.
fn expect_two(rt: &impl Abort, tally: &Tally<'_>, second: Mark) {
    same(rt, &tally.counts.as_slice(), &[1, 1].as_slice());
    same(
        rt,
        &tally.marks.as_slice(),
        &[Mark::Whole, second].as_slice(),
    );
}

/// Relays the pieces of two empty files among foreign pieces. The second file has this mark.
fn relay_among_strangers<R: Abort + AllocGlobal>(rt: &R, plan: &Plan, second: Mark)
    requires run { plan.now.run ≡ 1 }
    requires files { files_of plan.now ≡ 2 }
{
    let mut tally = tally_of(rt, plan, u64::MAX);
    let pieces = among_strangers(rt.alloc(), plan).expect(rt, "memory");
    let found = relay_list(rt.alloc(), plan, pieces, &mut tally);
    expect_replies(rt, found, AMONG_STRANGERS);
    expect_two(rt, &tally, second);
}

/// Relays two empty files among foreign pieces. The second file is cut or not.
fn relay_two<R: Abort + AllocGlobal>(rt: &R, cut: bool, second: Mark) {
    let files: [(&[u8], bool); 2] = [(b"", false), (b"", cut)];
    let plan = plan_of(rt.alloc(), NO_RULES, &files, 256).expect(rt, "memory");
    assert!(rt; plan.files() == 2);
    relay_among_strangers(rt, &plan, second);
}

#[test]
fn relays_whole_and_cut_files_among_strangers(rt: HostRuntime) {
    relay_two(&rt, false, Mark::Whole);
    relay_two(&rt, true, Mark::Cut);
}

/// Returns true if each file was counted once.
fn are_counted_once(counts: &[u64]) -> bool {
    for count in counts {
        if *count != 1 {
            return false;
        }
    }
    true
}

/// Returns true if each file's last mark is Whole.
fn are_whole(marks: &[Mark]) -> bool {
    for mark in marks {
        if *mark != Mark::Whole {
            return false;
        }
    }
    true
}

/// Asserts that this number of files were counted once, and are whole.
fn expect_all(rt: &impl Abort, tally: &Tally<'_>, files: usize) {
    let (counts, marks) = (tally.counts.as_slice(), tally.marks.as_slice());
    holds(rt, counts.len() == files && are_counted_once(counts), 1);
    holds(rt, marks.len() == files && are_whole(marks), 2);
}

/// Makes the plan with the greatest number of files, which are empty.
fn plan_of_most<R: Abort + AllocGlobal>(rt: &R) -> Plan {
    let lens = vec![in rt.alloc(); 0; 65_536].expect(rt, "memory");
    echoes(rt, &lens, 1)
}

/// Asserts the number of a relay's replies.
fn expect_count(rt: &impl Abort, found: Result<Vec<Reply>, RelayFault>, wanted: usize) {
    same(rt, &replies_of(rt, found).len(), &wanted);
}

/// Relays the greatest number of empty files.
fn relay_most<R: Abort + AllocGlobal>(rt: &R, plan: &Plan) {
    let mut tally = tally_of(rt, plan, u64::MAX);
    let pieces = last_file_first(rt.alloc(), plan).expect(rt, "memory");
    let found = relay_list(rt.alloc(), plan, pieces, &mut tally);
    expect_count(rt, found, 65_536);
    expect_all(rt, &tally, 65_536);
}

#[test]
fn relays_as_many_files_as_there_may_be(rt: HostRuntime) {
    let plan = plan_of_most(&rt);
    relay_most(&rt, &plan);
}

/// Returns the number of the piece that arrives next.
fn next_number(arrivals: &mut ListArrivals<'_>) -> Option<u64> {
    match arrivals.next() {
        Some(piece) => Some(piece.number),
        None => None,
    }
}

/// Asserts that a relay whose reader takes one piece fails at the second, before the third arrives.
fn fails_at_second<R: Abort + AllocGlobal>(
    rt: &R,
    plan: &Plan,
    pieces: Vec<Piece>,
    tally: &mut Tally<'_>,
)
    requires honest { AreHonest plan.now pieces.items }
    requires plan { tally.old.plan.now ≡ plan.now }
    requires counts { tally.old.counts.items ≡ replicate (files_of plan.now) 0 }
    requires faults { tally.old.faults ≡ 0 }
{
    let mut arrivals = ListArrivals::new(plan, pieces);
    let ended = relay(rt.alloc(), plan, &mut arrivals, tally).err();
    same(rt, &(ended, tally.faults()), &(Some(RelayFault::Reader), 1));
    same(rt, &tally.counts.as_slice(), &[1].as_slice());
    same(rt, &next_number(&mut arrivals), &Some(2));
}

/// Relays a file of four pieces to a reader that takes one.
fn relay_to_one<R: Abort + AllocGlobal>(rt: &R, plan: &Plan) {
    let mut tally = tally_of(rt, plan, 1);
    let pieces = last_file_first(rt.alloc(), plan).expect(rt, "memory");
    fails_at_second(rt, plan, pieces, &mut tally);
}

#[test]
fn a_reader_that_fails_ends_the_relay_before_the_next_arrival(rt: HostRuntime) {
    let plan = echoes(&rt, &[4], 1);
    relay_to_one(&rt, &plan);
}
