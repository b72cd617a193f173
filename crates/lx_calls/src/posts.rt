//! Calls on claims and posts.

ghost use Rattle.std.specs.Prelude.{◌≡◌, ◌≤◌, [], All, IfOk, vec_capacity};
ghost use Rattle.lx_piece.specs.Pieces.{IsPieceOf};
ghost use Rattle.lx_post.specs.Claimed.{IsSeatOf};
ghost use Rattle.lx_post.specs.Posted.{IsSendPassOf, IsTakePassOf, fresh_send};

use crate::collecting::print_piece;
use crate::rows::FILE_OF_TWO_WORDS;
use crate::stop::{Stop, end_of_print, refuse_from_here, say, unless_refused};
use lx_fixtures::{THREE_FILES, THREE_RULES, first_piece, plan_of};
use lx_piece::{Arrivals, Piece, Plan};
use lx_post::{ClaimSeat, Claims, Note, Post, PostArrivals, SendPass, TakePass, finish};
use std::alloc::{AllocError, Global};
use std::sync::Wait;

fn make_claims_once(rt: &impl Print, alloc: Global) -> Result<(), Stop> {
    match Claims::new(alloc, 3, 2) {
        Ok((_claims, seats)) => print_count(rt, seats.len(), "seats"),
        Err(AllocError) => Err(Stop::Refused),
    }
}

fn print_count(rt: &impl Print, count: usize, what: &str) -> Result<(), Stop> {
    end_of_print(println!(rt; "{count} {what}"))
}

/// Calls `Claims::new` for three files and two workers.
pub(crate) fn makes_claims(rt: &impl Print, alloc: Global) -> Result<(), Stop> {
    match unless_refused(rt, make_claims_once(rt, alloc)) {
        Some(ended) => ended,
        None => make_claims_once(rt, alloc),
    }
}

fn make_post_once<R: Print + Wait>(rt: &R, alloc: Global, plan: &Plan) -> Result<(), Stop> {
    match Post::new(rt, alloc, plan, 2, 64) {
        Ok((_post, passes, _take)) => print_count(rt, passes.len(), "passes"),
        Err(AllocError) => Err(Stop::Refused),
    }
}

/// Calls `Post::new` for two workers.
pub(crate) fn makes_post<R: Print + Wait>(rt: &R, alloc: Global) -> Result<(), Stop> {
    let plan = plan_of(alloc, THREE_RULES, THREE_FILES.as_slice(), 1)?;
    match unless_refused(rt, make_post_once(rt, alloc, &plan)) {
        Some(ended) => ended,
        None => make_post_once(rt, alloc, &plan),
    }
}

fn print_drawn(rt: &impl Print, claims: &Claims, seat: &mut ClaimSeat) -> Result<(), Stop>
    requires { IsSeatOf claims.now seat.old }
    ensures { IsSeatOf claims.now seat.new }
{
    let drawn = claims.draw(seat);
    end_of_print(println!(rt; "{drawn:?}"))
}

/// Draws once with each of two seats.
fn draw_by_each(
    rt: &impl Print,
    claims: &Claims,
    first: &mut ClaimSeat,
    second: &mut ClaimSeat,
) -> Result<(), Stop>
    requires first { IsSeatOf claims.now first.old }
    requires second { IsSeatOf claims.now second.old }
    ensures first { IsSeatOf claims.now first.new }
    ensures second { IsSeatOf claims.now second.new }
{
    print_drawn(rt, claims, first)?;
    print_drawn(rt, claims, second)
}

/// Draws three times with each of two seats.
fn draw_six_times(
    rt: &impl Print,
    claims: &Claims,
    first: &mut ClaimSeat,
    second: &mut ClaimSeat,
) -> Result<(), Stop>
    requires first { IsSeatOf claims.now first.old }
    requires second { IsSeatOf claims.now second.old }
    ensures first { IsSeatOf claims.now first.new }
    ensures second { IsSeatOf claims.now second.new }
{
    draw_by_each(rt, claims, first, second)?;
    draw_by_each(rt, claims, first, second)?;
    draw_by_each(rt, claims, first, second)
}

/// Settles, and prints the number of files.
fn settle(rt: &impl Print, claims: Claims, seats: Vec<ClaimSeat>) -> Result<(), Stop>
    requires { All (λ seat. IsSeatOf claims seat) seats.items }
{
    match claims.settle(seats) {
        Ok(files) => end_of_print(println!(rt; "{files} files")),
        Err(_) => say(rt, "unsettled"),
    }
}

/// Draws with two seats in turn, until both learnt that no file is left, and settles.
fn draw_in_turn(
    rt: &impl Print,
    claims: Claims,
    mut first: ClaimSeat,
    mut second: ClaimSeat,
    mut seats: Vec<ClaimSeat>,
) -> Result<(), Stop>
    requires first { IsSeatOf claims first }
    requires second { IsSeatOf claims second }
    requires none { seats.items ≡ [] }
    requires room { 2 ≤ vec_capacity seats }
{
    draw_six_times(rt, &claims, &mut first, &mut second)?;
    seats.push_reserved(first);
    seats.push_reserved(second);
    settle(rt, claims, seats)
}

fn draw_by_two(
    rt: &impl Print,
    alloc: Global,
    claims: Claims,
    mut seats: Vec<ClaimSeat>,
) -> Result<(), Stop>
    requires { All (λ seat. IsSeatOf claims seat) seats.items }
{
    let Ok(done) = Vec::with_capacity(alloc, 2) else {
        return Err(Stop::NotBegun);
    };
    let Some(second) = seats.pop() else {
        return Ok(());
    };
    let Some(first) = seats.pop() else {
        return Ok(());
    };
    refuse_from_here(alloc);
    draw_in_turn(rt, claims, first, second, done)
}

/// Calls `draw` and `settle` for three files and two seats.
pub(crate) fn draws(rt: &impl Print, alloc: Global) -> Result<(), Stop> {
    match Claims::new(alloc, 3, 2) {
        Ok((claims, seats)) => draw_by_two(rt, alloc, claims, seats),
        Err(AllocError) => Err(Stop::NotBegun),
    }
}

fn print_sent(rt: &impl Print, worker: u8, piece: &Piece) -> Result<(), Stop> {
    end_of_print(println!(rt; "of worker {worker}"))?;
    print_piece(rt, piece)
}

fn print_note(rt: &impl Print, note: &Note) -> Result<(), Stop> {
    match note {
        Note::Piece { worker, piece } => print_sent(rt, *worker, piece),
        Note::End {
            worker,
            files,
            fault,
        } => {
            end_of_print(println!(rt; "end of worker {worker} behind {files} files, {fault:?}"))
        }
    }
}

/// Sends a file's piece, and then the end.
fn send_two<R: Wait>(rt: &R, plan: &Plan, post: &Post, pass: &mut SendPass, piece: Piece)
    requires piece { IsPieceOf plan.now piece }
    requires pass { pass.old ≡ fresh_send post.now plan.now 0 }
    ensures pass { pass.new.queue ≡ post.now.queue }
    ensures worker { pass.new.worker ≡ 0 }
{
    post.send(rt, pass, Note::Piece { worker: 0, piece });
    let end = Note::End {
        worker: 0,
        files: 1,
        fault: None,
    };
    post.send(rt, pass, end);
}

/// Receives a note, and prints it.
fn print_received<R: Print + Wait>(rt: &R, post: &Post, take: &mut TakePass) -> Result<(), Stop>
    requires { IsTakePassOf post.now take.old }
    ensures { IsTakePassOf post.now take.new }
{
    match post.receive(rt, take) {
        Some(note) => print_note(rt, &note),
        None => say(rt, "no note"),
    }
}

/// Receives three times.
fn receive_three<R: Print + Wait>(rt: &R, post: &Post, take: &mut TakePass) -> Result<(), Stop>
    requires { IsTakePassOf post.now take.old }
    ensures { IsTakePassOf post.now take.new }
{
    print_received(rt, post, take)?;
    print_received(rt, post, take)?;
    print_received(rt, post, take)
}

/// Finishes, and prints the result.
fn finish_and_say<R: Print + Wait>(
    rt: &R,
    post: Post,
    take: TakePass,
    passes: Vec<SendPass>,
) -> Result<(), Stop>
    requires take { IsTakePassOf post take }
    requires passes { All (λ pass. IsSendPassOf post pass) passes.items }
{
    match finish(rt, post, take, passes) {
        Ok(()) => say(rt, "finished"),
        Err(_) => say(rt, "unfinished"),
    }
}

/// Sends a piece and an end, receives them, and finishes.
fn send_and_receive<R: Print + Wait>(
    rt: &R,
    plan: &Plan,
    post: Post,
    mut pass: SendPass,
    mut take: TakePass,
    piece: Piece,
    mut passes: Vec<SendPass>,
) -> Result<(), Stop>
    requires piece { IsPieceOf plan.now piece }
    requires pass { pass ≡ fresh_send post plan.now 0 }
    requires take { IsTakePassOf post take }
    requires workers { post.workers ≡ 1 }
    requires none { passes.items ≡ [] }
    requires room { 1 ≤ vec_capacity passes }
{
    send_two(rt, plan, &post, &mut pass, piece);
    receive_three(rt, &post, &mut take)?;
    passes.push_reserved(pass);
    finish_and_say(rt, post, take, passes)
}

/// Calls `send`, `receive` and `finish` for one worker.
pub(crate) fn sends<R: Print + Wait>(rt: &R, alloc: Global) -> Result<(), Stop> {
    let plan = plan_of(alloc, THREE_RULES, FILE_OF_TWO_WORDS, 256)?;
    let Ok(piece) = first_piece(alloc, &plan, 0) else {
        return Err(Stop::NotBegun);
    };
    let Ok(room) = Vec::with_capacity(alloc, 1) else {
        return Err(Stop::NotBegun);
    };
    let (post, pass, take) = post_of_one(rt, alloc, &plan)?;
    refuse_from_here(alloc);
    send_and_receive(rt, &plan, post, pass, take, piece, room)
}

/// Prints the piece that arrives first, and then if another one arrives.
fn print_arrivals<R: Print + Wait>(
    rt: &R,
    arrivals: &mut PostArrivals<'_, R>,
) -> Result<bool, Stop> {
    if let Some(piece) = arrivals.next() {
        print_piece(rt, &piece)?;
    }
    Ok(arrivals.next().is_none())
}

/// Sends a piece and an end, and prints what arrives.
fn send_and_arrive<R: Print + Wait>(
    rt: &R,
    plan: &Plan,
    post: &Post,
    mut pass: SendPass,
    take: TakePass,
    piece: Piece,
) -> Result<(), Stop>
    requires piece { IsPieceOf plan.now piece }
    requires pass { pass ≡ fresh_send post.now plan.now 0 }
    requires take { IsTakePassOf post.now take }
{
    send_two(rt, plan, post, &mut pass, piece);
    let mut arrivals = PostArrivals::new(rt, post, take);
    let is_last = print_arrivals(rt, &mut arrivals)?;
    let (_take, fault) = arrivals.into_pass();
    end_of_print(println!(rt; "no arrival behind it {is_last}, {fault:?}"))
}

/// Makes a post of one worker, with a send pass and the pass that takes.
fn post_of_one<R: Wait>(
    rt: &R,
    alloc: Global,
    plan: &Plan,
) -> Result<(Post, SendPass, TakePass), Stop>
    ensures post { IfOk result (λ made. made.0.workers ≡ 1) }
    ensures pass { IfOk result (λ made. made.1 ≡ fresh_send made.0 plan.now 0) }
    ensures take { IfOk result (λ made. IsTakePassOf made.0 made.2) }
{
    let Ok((post, mut passes, take)) = Post::new(rt, alloc, plan, 1, 4) else {
        return Err(Stop::NotBegun);
    };
    match passes.pop() {
        Some(pass) => Ok((post, pass, take)),
        None => Err(Stop::NotBegun),
    }
}

/// Calls `PostArrivals::new`, `next` and `into_pass` for one worker.
pub(crate) fn arrives<R: Print + Wait>(rt: &R, alloc: Global) -> Result<(), Stop> {
    let plan = plan_of(alloc, THREE_RULES, FILE_OF_TWO_WORDS, 256)?;
    let Ok(piece) = first_piece(alloc, &plan, 0) else {
        return Err(Stop::NotBegun);
    };
    let (post, pass, take) = post_of_one(rt, alloc, &plan)?;
    refuse_from_here(alloc);
    send_and_arrive(rt, &plan, &post, pass, take, piece)
}
