//! Tests a post from one thread: notes arrive in the order in which they were sent, and a post that can't be finished yet comes back completely.

ghost use Rattle.std.specs.Prelude.{◌≡◌, ◌<◌, All};
ghost use Rattle.lx_piece.specs.Pieces.{IsPieceOf};
ghost use Rattle.lx_piece.specs.Plans.{files_of};
ghost use Rattle.lx_post.specs.Posted.{IsSendPassOf, IsTakePassOf, fresh_send, fresh_take};

use crate::asserts::{holds, same};
use crate::plans::echoes;
use lx_fixtures::first_piece;
use lx_piece::{Arrivals, Piece, Plan};
use lx_post::{Note, Post, PostArrivals, SendPass, TakePass, Unfinished, WorkerFault, finish};
use std::process::Abort;
use std::sync::Wait;

/// The contents of a note.
#[derive(Clone, Copy, Debug, PartialEq, Eq)]
enum Saying {
    /// The worker, and the piece's file and number.
    Piece(u8, u32, u64),
    /// The worker, its number of finished files, and the reason why it ended early.
    End(u8, u32, Option<WorkerFault>),
}

fn saying_of(note: &Note) -> Saying {
    match note {
        Note::Piece { worker, piece } => Saying::Piece(*worker, piece.file, piece.number),
        Note::End {
            worker,
            files,
            fault,
        } => Saying::End(*worker, *files, *fault),
    }
}

/// Receives the next note, and returns its contents.
fn receive_next<R: Wait>(rt: &R, post: &Post, take: &mut TakePass) -> Option<Saying>
    requires { IsTakePassOf post.now take.old }
    ensures { IsTakePassOf post.now take.new }
{
    match post.receive(rt, take) {
        Some(note) => Some(saying_of(&note)),
        None => None,
    }
}

/// Asserts the contents of the next note, or that none is received.
fn receives<R: Wait + Abort>(rt: &R, post: &Post, take: &mut TakePass, wanted: Option<Saying>)
    requires { IsTakePassOf post.now take.old }
    ensures { IsTakePassOf post.now take.new }
{
    same(rt, &receive_next(rt, post, take), &wanted);
}

/// Makes a post of two workers with room for `room` notes, the pass of each, and the one to receive with.
fn post_of_two<R: Wait + Abort + AllocGlobal>(
    rt: &R,
    plan: &Plan,
    room: usize,
) -> (Post, SendPass, SendPass, TakePass)
    requires room { 0 < room }
    ensures post { result.0.workers ≡ 2 }
    ensures first { result.1 ≡ fresh_send result.0 plan.now 0 }
    ensures second { result.2 ≡ fresh_send result.0 plan.now 1 }
    ensures take { result.3 ≡ fresh_take result.0 plan.now }
{
    let (post, mut passes, take) = Post::new(rt, rt.alloc(), plan, 2, room).expect(rt, "memory");
    match (passes.pop(), passes.pop()) {
        (Some(second), Some(first)) => (post, first, second, take),
        _ => unreachable!(),
    }
}

/// Returns an end of a worker that met no fault.
fn end(worker: u8, files: u32) -> Note
    ensures { result ≡ Note.End worker files None }
{
    Note::End {
        worker,
        files,
        fault: None,
    }
}

/// Asserts that a post doesn't finish with these passes, and returns all.
fn stays_unfinished<R: Wait + Abort>(
    rt: &R,
    post: Post,
    take: TakePass,
    passes: Vec<SendPass>,
) -> (Post, TakePass, Vec<SendPass>)
    requires take { IsTakePassOf post take }
    requires passes { All (λ pass. IsSendPassOf post pass) passes.items }
    ensures { (result.0 ≡ post) × (result.1 ≡ take) × (result.2 ≡ passes) }
{
    match finish(rt, post, take, passes) {
        Ok(()) => panic!(rt; "finished too early"),
        Err(Unfinished { post, pass, passes }) => (post, pass, passes),
    }
}

/// Asserts that a post doesn't finish with the passes of both its workers, and returns all.
fn both_stay_unfinished<R: Wait + Abort + AllocGlobal>(
    rt: &R,
    post: Post,
    take: TakePass,
    first: SendPass,
    second: SendPass,
) -> (Post, TakePass, SendPass, SendPass)
    requires take { IsTakePassOf post take }
    requires passes { IsSendPassOf post first × IsSendPassOf post second }
    ensures { (result.0 ≡ post) × (result.1 ≡ take) × (result.2 ≡ first) × (result.3 ≡ second) }
{
    let passes = Vec::from_array(rt.alloc(), [first, second]).expect(rt, "memory");
    let (post, take, mut passes) = stays_unfinished(rt, post, take, passes);
    match (passes.pop(), passes.pop()) {
        (Some(second), Some(first)) => (post, take, first, second),
        _ => unreachable!(),
    }
}

/// Sends the piece of the first file and the end by the first worker, and asserts that each arrives at once.
fn send_by_first<R: Wait + Abort>(
    rt: &R,
    post: &Post,
    pass: &mut SendPass,
    take: &mut TakePass,
    piece: Piece,
)
    requires pass { pass.old ≡ fresh_send post.now pass.old.plan 0 }
    requires piece { IsPieceOf pass.old.plan piece }
    requires take { IsTakePassOf post.now take.old }
    ensures pass { IsSendPassOf post.now pass.old → IsSendPassOf post.now pass.new }
    ensures take { IsTakePassOf post.now take.new }
{
    post.send(rt, pass, Note::Piece { worker: 0, piece });
    receives(rt, post, take, Some(Saying::Piece(0, 0, 0)));
    post.send(rt, pass, end(0, 1));
    receives(rt, post, take, Some(Saying::End(0, 1, None)));
}

/// Asserts that a post finishes with these passes.
fn finishes<R: Wait + Abort>(rt: &R, post: Post, take: TakePass, passes: Vec<SendPass>)
    requires take { IsTakePassOf post take }
    requires passes { All (λ pass. IsSendPassOf post pass) passes.items }
{
    holds(rt, finish(rt, post, take, passes).is_ok(), 0);
}

/// Asserts that a post doesn't finish with only the pass of its first worker, and that it does with both.
fn finishes_with_both<R: Wait + Abort + AllocGlobal>(
    rt: &R,
    post: Post,
    take: TakePass,
    first: SendPass,
    second: SendPass,
)
    requires take { IsTakePassOf post take }
    requires passes { IsSendPassOf post first × IsSendPassOf post second }
{
    let mut one = Vec::with_capacity(rt.alloc(), 2).expect(rt, "memory");
    one.push_reserved(first);
    let (post, take, mut passes) = stays_unfinished(rt, post, take, one);
    same(rt, &passes.len(), &1);
    passes.push_reserved(second);
    finishes(rt, post, take, passes);
}

/// Receives the end of the second worker, after which nothing comes, and finishes.
fn receive_last_end<R: Wait + Abort + AllocGlobal>(
    rt: &R,
    post: Post,
    take: TakePass,
    first: SendPass,
    second: SendPass,
)
    requires take { IsTakePassOf post take }
    requires passes { IsSendPassOf post first × IsSendPassOf post second }
{
    let (post, mut take, first, second) = both_stay_unfinished(rt, post, take, first, second);
    receives(rt, &post, &mut take, Some(Saying::End(1, 0, None)));
    receives(rt, &post, &mut take, None);
    receives(rt, &post, &mut take, None);
    finishes_with_both(rt, post, take, first, second);
}

/// Sends all by two workers, and asserts that the post finishes only once both ends came.
fn finishes_once_every_end_came<R: Wait + Abort + AllocGlobal>(rt: &R, plan: &Plan, piece: Piece)
    requires { IsPieceOf plan.now piece }
{
    let (post, mut first, second, mut take) = post_of_two(rt, plan, 1);
    send_by_first(rt, &post, &mut first, &mut take, piece);
    let (post, take, first, mut second) = both_stay_unfinished(rt, post, take, first, second);
    post.send(rt, &mut second, end(1, 0));
    receive_last_end(rt, post, take, first, second);
}

/// Returns the first piece of a file.
fn piece_of<R: Abort + AllocGlobal>(rt: &R, plan: &Plan, file: u32) -> Piece
    requires { file < files_of plan.now }
    ensures { IsPieceOf plan.now result }
{
    first_piece(rt.alloc(), plan, file).expect(rt, "memory")
}

#[test]
fn a_post_with_room_for_one_note_finishes_once_every_end_came(rt: HostRuntime) {
    let plan = echoes(&rt, &[1], 1);
    let piece = piece_of(&rt, &plan, 0);
    finishes_once_every_end_came(&rt, &plan, piece);
}

/// Sends the first piece of a file and the end of its worker.
fn send_piece_and_end<R: Wait>(
    rt: &R,
    post: &Post,
    pass: &mut SendPass,
    worker: u8,
    piece: Piece,
    fault: Option<WorkerFault>,
)
    requires pass { pass.old ≡ fresh_send post.now pass.old.plan worker }
    requires piece { IsPieceOf pass.old.plan piece }
    ensures { IsSendPassOf post.now pass.old → IsSendPassOf post.now pass.new }
{
    post.send(rt, pass, Note::Piece { worker, piece });
    let end = Note::End {
        worker,
        files: 1,
        fault,
    };
    post.send(rt, pass, end);
}

/// Asserts the file and number of the piece that arrives next, or that none arrives.
fn arrives<R: Wait + Abort>(rt: &R, arrivals: &mut PostArrivals<'_, R>, wanted: Option<(u32, u64)>)
    ensures queue { arrivals.new.pass.queue ≡ arrivals.old.pass.queue }
    ensures workers { arrivals.new.pass.workers ≡ arrivals.old.pass.workers }
{
    same(rt, &next_place(arrivals), &wanted);
}

/// Returns the file and the number of the piece that arrives next.
fn next_place<R: Wait>(arrivals: &mut PostArrivals<'_, R>) -> Option<(u32, u64)>
    ensures queue { arrivals.new.pass.queue ≡ arrivals.old.pass.queue }
    ensures workers { arrivals.new.pass.workers ≡ arrivals.old.pass.workers }
{
    match arrivals.next() {
        Some(piece) => Some((piece.file, piece.number)),
        None => None,
    }
}

/// Asserts that the pieces of two files arrive, and that the arrivals name this fault.
fn name_fault<R: Wait + Abort>(
    rt: &R,
    post: &Post,
    take: TakePass,
    fault: Option<WorkerFault>,
) -> TakePass
    requires { IsTakePassOf post.now take }
    ensures { IsTakePassOf post.now result }
{
    let mut arrivals = PostArrivals::new(rt, post, take);
    arrives(rt, &mut arrivals, Some((1, 0)));
    arrives(rt, &mut arrivals, Some((0, 0)));
    arrives(rt, &mut arrivals, None);
    arrives(rt, &mut arrivals, None);
    let (take, named) = arrivals.into_pass();
    same(rt, &named, &fault);
    take
}

/// Asserts that the pieces of two workers arrive, one of which ends with this fault, and that the arrivals name it.
fn arrive_and_name<R: Wait + Abort + AllocGlobal>(
    rt: &R,
    plan: &Plan,
    piece: Piece,
    other: Piece,
    fault: Option<WorkerFault>,
)
    requires { IsPieceOf plan.now piece × IsPieceOf plan.now other }
{
    let (post, mut first, mut second, take) = post_of_two(rt, plan, 4);
    send_piece_and_end(rt, &post, &mut second, 1, other, fault);
    send_piece_and_end(rt, &post, &mut first, 0, piece, None);
    let take = name_fault(rt, &post, take, fault);
    let passes = Vec::from_array(rt.alloc(), [first, second]).expect(rt, "memory");
    finishes(rt, post, take, passes);
}

/// Asserts the same for two files, one of whose workers ends with this fault.
fn names_fault<R: Wait + Abort + AllocGlobal>(rt: &R, plan: &Plan, fault: Option<WorkerFault>)
    requires { files_of plan.now ≡ 2 }
{
    let piece = piece_of(rt, plan, 0);
    let other = piece_of(rt, plan, 1);
    arrive_and_name(rt, plan, piece, other, fault);
}

#[test]
fn arrivals_are_the_pieces_alone_and_name_a_fault(rt: HostRuntime) {
    let plan = echoes(&rt, &[1, 1], 1);
    assert!(rt; plan.files() == 2);
    names_fault(&rt, &plan, None);
    names_fault(&rt, &plan, Some(WorkerFault::Memory));
}
