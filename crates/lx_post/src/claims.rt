//! The word from which workers draw files.
ghost use Rattle.std.specs.Prelude.{◌≡◌, ℕ, ◌<◌, ◌≤◌, ◌+◌, ◌-◌, ◌^◌, ◌++◌, ◌∷◌, [], All, IfSome, IfNone, IfOk, IfErr, ◌⊎◌, true, false, replicate, vec_len};
ghost use Rattle.lx_post.specs.Draws.{seat_view, IsFresh};
ghost use Rattle.lx_piece.specs.Plans.{max_files, max_workers};
ghost use Rattle.lx_post.specs.Claimed.{IsSeatOf, fresh_seat, once_below, times, times_drawn};

use crate::claim_seat::ClaimSeat;
use crate::draw_rule::{Draw, DrawBounds, DrawCount, DrawRule, OnePart, SeatView, Together};
use atomic_table::{Seat, Table};
use std::alloc::{AllocError, Global};
use std::marker::Model;

/// The files of a run. Workers draw them, each once.
#[derive(Drop)]
pub struct Claims {
    table: Table<(), SeatView, DrawBounds, DrawRule, Global>,
    files: u32,
    workers: u8,
}

impl Model for Claims {
    ghost use Rattle.std.specs.Prelude.{◌≡◌, ◌<◌};
    ghost use Rattle.lx_post.specs.Claimed.{Claimed};

    ghost Value = { Claimed };

    ghost view = { λ c.
        record { word = c.table.shared.table_id; files = c.files; workers = c.workers } };

    ghost invariant = { λ c.
        (c.table.shared.table_id.words ≡ 1) × (c.table.shared.table_id.slots ≡ 0)
        × (c.table.shared.key.files ≡ c.files) × (c.table.shared.key.workers ≡ c.workers)
        × (0 < c.workers) };
}

/// The value that `settle` returns if a seat is missing, or hasn't yet learnt that no file is left.
#[derive(Drop)]
pub struct Unsettled {
    pub claims: Claims,
    pub seats: Vec<ClaimSeat>,
}

impl Claims {
    /// Returns the claims of 1 to 65,536 files, and a seat for each of 1 to 8 workers.
    pub fn new(
        alloc: Global,
        files: u32,
        workers: u8,
    ) -> Result<(Claims, Vec<ClaimSeat>), AllocError>
        requires some_files { 0 < files }
        requires few_files { files ≤ max_files }
        requires some_workers { 0 < workers }
        requires few_workers { workers ≤ max_workers }
        ensures claims { IfOk result (λ r. (r.0.files ≡ files) × (r.0.workers ≡ workers)) }
        ensures seats { IfOk result (λ r. r.1.items ≡ replicate workers (fresh_seat r.0)) }
    {
        let mut seats = Vec::with_capacity(alloc, usize::from(workers))?;
        let (claims, mut seat) = Claims::open(alloc, files, workers)?;
        for made in 1..workers {
            let other = claims.split(&mut seat);
            seats.push_reserved(other);
        }
        seats.push_reserved(ClaimSeat { seat, done: false });
        Ok((claims, seats))
    }

    // Makes the word, and one seat with all parts.
    fn open(
        alloc: Global,
        files: u32,
        workers: u8,
    ) -> Result<(Claims, Seat<(), SeatView>), AllocError>
        requires fits { files + workers < 2 ^ 32 }
        requires workers { 0 < workers }
        ensures claims { IfOk result (λ r. (r.0.files ≡ files) × (r.0.workers ≡ workers)) }
        ensures seat { IfOk result (λ r. IsFresh r.0 workers r.1) }
    {
        let (table, seat) = Table::of_words(alloc, &[0], &DrawBounds { files, workers })?;
        let claims = Claims {
            table,
            files,
            workers,
        };
        Ok((claims, seat))
    }

    // Splits off a seat with one part of another seat's.
    fn split(&self, seat: &mut Seat<(), SeatView>) -> ClaimSeat
        requires parts { 1 < seat.old.me.0.parts }
        requires fresh { IsFresh self.now seat.old.me.0.parts seat.old }
        ensures fresh { IsFresh self.now (seat.old.me.0.parts - 1) seat.new }
        ensures seat { result ≡ fresh_seat self.now }
    {
        let other = self.table.shared.split_seat::<OnePart>(seat);
        ClaimSeat {
            seat: other,
            done: false,
        }
    }

    /// Draws the next file that no seat has drawn. Returns `None` when none is left, and from then on. Allocates nothing.
    pub fn draw(&self, seat: &mut ClaimSeat) -> Option<u32>
        requires { IsSeatOf self.now seat.old }
        ensures some { IfSome result (λ file. (file < self.now.files) × All (λ earlier. earlier < file) seat.old.drawn
            × (seat.old.done ≡ false) × (seat.new ≡ record seat.old { drawn = seat.old.drawn ++ file ∷ [] })) }
        ensures none { IfNone result (seat.new ≡ record seat.old { done = true }) }
    {
        if seat.done {
            return None;
        }
        let found = self.table.shared.fetch_add::<Draw>(&mut seat.seat, 0, 1);
        if found < u64::from(self.files) {
            Some(found as u32)
        } else {
            seat.done = true;
            None
        }
    }

    /// Returns the number of files, if every seat learnt that none is left: each file was drawn by one seat, once.
    pub fn settle(self, seats: Vec<ClaimSeat>) -> Result<u32, Unsettled>
        requires { All (λ s. IsSeatOf self s) seats.items }
        ensures files { IfOk result (λ n. n ≡ self.files) }
        ensures once { IfOk result (λ n. (x : ℕ) → times_drawn x seats.items ≡ once_below x n) }
        ensures unchanged { IfErr result (λ u. (u.claims ≡ self) × (u.seats ≡ seats)) }
        ensures unsettled { IfErr result
            (λ u. (vec_len seats < self.workers) ⊎ (¬ (All (λ s. s.done ≡ true) seats.items))) }
    {
        if seats.len() < usize::from(self.workers) || !seats.iter().all(|s| s.done) {
            return Err(Unsettled {
                claims: self,
                seats,
            });
        }
        let files = self.files;
        self.count(seats);
        Ok(files)
    }

    // Joins all seats, and reads the word.
    fn count(&self, mut seats: Vec<ClaimSeat>)
        requires these { All (λ s. IsSeatOf self.now s) seats.items }
        requires some { 0 < vec_len seats }
        requires all { self.now.workers ≤ vec_len seats }
        requires done { All (λ s. s.done ≡ true) seats.items }
        ensures { (x : ℕ) → times_drawn x seats.items ≡ once_below x self.now.files }
    {
        let Some(first) = seats.pop() else {
            unreachable!()
        };
        let mut one = first.into_seat();
        while let Some(other) = seats.pop() {
            self.join(&mut one, other);
        }
        self.learn_drawn_once(&mut one);
    }

    // Adds what another seat drew to what this one drew.
    fn join(&self, seat: &mut Seat<(), SeatView>, other: ClaimSeat)
        requires these { (seat.old.table_id ≡ self.now.word) × (other.word ≡ self.now.word) }
        requires done { other.done ≡ true }
        ensures same { seat.new.table_id ≡ seat.old.table_id }
        ensures joined { seat.new.me.0
            ≡ seat_view seat.old.me.0.files (seat.old.me.0.parts + 1) (seat.old.me.0.past + 1)
            (seat.old.me.0.drawn ++ other.drawn) }
    {
        self.table.shared.join_seat::<Together>(seat, other.seat);
    }

    // Learns from the word that every file was drawn once: the seat has all parts, and drew past the files.
    fn learn_drawn_once(&self, one: &mut Seat<(), SeatView>)
        requires this { (one.old.table_id ≡ self.now.word) × (one.old.me.0.files ≡ self.now.files) }
        requires all { self.now.workers ≤ one.old.me.0.parts }
        requires past { 0 < one.old.me.0.past }
        ensures { (x : ℕ) → times x one.old.me.0.drawn ≡ once_below x self.now.files }
    {
        self.table.shared.load::<DrawCount>(one, 0);
    }
}
