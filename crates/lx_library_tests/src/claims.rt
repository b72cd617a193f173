//! Tests claims of files: seats draw each file once, and claims that can't be settled yet come back completely.

ghost use Rattle.std.specs.Prelude.{◌≡◌, ◌∷◌, [], All};
ghost use Rattle.lx_post.specs.Claimed.{IsSeatOf};

use crate::asserts::same;
use lx_post::{ClaimSeat, Claims, Unsettled};
use std::process::Abort;

/// Asserts what a seat draws next.
fn draws(rt: &impl Abort, claims: &Claims, seat: &mut ClaimSeat, wanted: Option<u32>)
    requires { IsSeatOf claims.now seat.old }
    ensures { IsSeatOf claims.now seat.new }
{
    same(rt, &claims.draw(seat), &wanted);
}

/// Asserts that claims don't settle with these seats. Returns both.
fn stays_unsettled(
    rt: &impl Abort,
    claims: Claims,
    seats: Vec<ClaimSeat>,
) -> (Claims, Vec<ClaimSeat>)
    requires { All (λ seat. IsSeatOf claims seat) seats.items }
    ensures { (result.0 ≡ claims) × (result.1 ≡ seats) }
{
    match claims.settle(seats) {
        Ok(_files) => panic!(rt; "settled too early"),
        Err(Unsettled { claims, seats }) => (claims, seats),
    }
}

/// Asserts that these two seats don't settle, and come back with their claims.
fn both_stay_unsettled<R: Abort + AllocGlobal>(
    rt: &R,
    claims: Claims,
    first: ClaimSeat,
    second: ClaimSeat,
) -> (Claims, ClaimSeat, ClaimSeat)
    requires these { IsSeatOf claims first × IsSeatOf claims second }
    ensures { (result.0 ≡ claims) × (result.1 ≡ first) × (result.2 ≡ second) }
{
    let seats = Vec::from_array(rt.alloc(), [first, second]).expect(rt, "memory");
    let (claims, mut seats) = stays_unsettled(rt, claims, seats);
    match (seats.pop(), seats.pop()) {
        (Some(second), Some(first)) => (claims, first, second),
        _ => panic!(rt; "a seat is missing"),
    }
}

/// Asserts that claims don't settle with only the first seat, and that they do with both.
fn settles_with_both<R: Abort + AllocGlobal>(
    rt: &R,
    claims: Claims,
    first: ClaimSeat,
    second: ClaimSeat,
)
    requires these { IsSeatOf claims first × IsSeatOf claims second }
{
    let mut one = Vec::with_capacity(rt.alloc(), 2).expect(rt, "memory");
    one.push_reserved(first);
    let (claims, mut seats) = stays_unsettled(rt, claims, one);
    same(rt, &seats.len(), &1);
    seats.push_reserved(second);
    same(rt, &claims.settle(seats).ok(), &Some(3));
}

/// Draws three files with two seats, which don't settle before both learnt that no file is left.
fn draw_three<R: Abort + AllocGlobal>(
    rt: &R,
    claims: Claims,
    mut first: ClaimSeat,
    second: ClaimSeat,
)
    requires these { IsSeatOf claims first × IsSeatOf claims second }
{
    draws(rt, &claims, &mut first, Some(0));
    let (claims, mut first, mut second) = both_stay_unsettled(rt, claims, first, second);
    draws(rt, &claims, &mut second, Some(1));
    draws(rt, &claims, &mut first, Some(2));
    draws(rt, &claims, &mut second, None);
    draw_last(rt, claims, first, second);
}

/// Draws nothing more with two seats, of which the second learnt that no file is left.
fn draw_last<R: Abort + AllocGlobal>(rt: &R, claims: Claims, first: ClaimSeat, second: ClaimSeat)
    requires these { IsSeatOf claims first × IsSeatOf claims second }
{
    let (claims, mut first, mut second) = both_stay_unsettled(rt, claims, first, second);
    draws(rt, &claims, &mut first, None);
    draws(rt, &claims, &mut second, None);
    settles_with_both(rt, claims, first, second);
}

#[test]
fn two_seats_draw_three_files_once_and_settle(rt: HostRuntime) {
    let (claims, mut seats) = Claims::new(rt.alloc(), 3, 2).expect(&rt, "memory");
    match (seats.pop(), seats.pop()) {
        (Some(second), Some(first)) => draw_three(&rt, claims, first, second),
        _ => unreachable!(),
    }
}
