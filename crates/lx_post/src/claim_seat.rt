//! A worker's right to draw files.

ghost use Rattle.std.specs.Prelude.{◌≡◌, [], if◌then◌else◌};
ghost use Rattle.lx_post.specs.Draws.{seat_view};

use crate::draw_rule::SeatView;
use atomic_table::Seat;
use std::marker::Model;

/// The right of one worker to draw files. Contracts see what it drew, and whether it learnt that no file is left.
#[derive(Drop)]
pub struct ClaimSeat {
    pub(crate) seat: Seat<(), SeatView>,
    // True once a draw found that no file is left.
    pub(crate) done: bool,
}

impl Model for ClaimSeat {
    ghost use Rattle.std.specs.Prelude.{◌≡◌, [], if◌then◌else◌};
    ghost use Rattle.lx_post.specs.Claimed.{Drawn};

    ghost Value = { Drawn };

    ghost view = { λ s.
        record
        { word = s.seat.table_id; files = s.seat.me.0.files; done = s.done; drawn = s.seat.me.0.drawn } };

    ghost invariant = { λ s.
        (s.seat.me.1 ≡ []) × (s.seat.me.0.parts ≡ 1)
        × (s.seat.me.0.past ≡ (if s.done then 1 else 0)) };
}

impl ClaimSeat {
    pub(crate) fn into_seat(self) -> Seat<(), SeatView>
        ensures { (result.table_id ≡ self.word)
            × (result.me ≡ (seat_view self.files 1 (if self.done then 1 else 0) self.drawn, [])) }
    {
        let ClaimSeat { seat, done: _ } = self;
        seat
    }
}
