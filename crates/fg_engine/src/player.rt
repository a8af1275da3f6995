//! Where the plays of a flow go: to the lanes as they come, or on a shelf, where they wait.
ghost use Rattle.std.specs.Prelude.{◌≡◌, ◌<◌, ℕ, Option, [], ◌∷◌, length, OnOk, OnErr};
ghost use Rattle.fg_io.specs.Faults.{Counts};
ghost use Rattle.fg_io.specs.Outlet.{Lanes};
ghost use Rattle.fg_playout.specs.Room.{farthest_limit};
ghost use Rattle.fg_results.specs.Flow.{lane_of};
ghost use Rattle.fg_engine.specs.Steps.{CountsWithin, Grows, GrowsPart, with_plays, played_as};

use crate::play::fill;
use crate::shelved::Shelved;
use crate::window::WindowState;
use fg_desk::Played;
use fg_io::{Fault, Outlet, put};
use fg_report::FlowSum;
use fg_words::PAYLOAD_LIMIT;
use std::alloc::{AllocError, Global};
use std::marker::Model;

/// Takes what the plays of a flow show to where the flow's lane is kept, which is an `L`. It keeps nothing of a play.
pub trait Player<L> {
    /// The lanes, where they are told.
    ghost lanes: { L → Option Lanes };

    /// How many faults of the outside there have been.
    ghost faults: { L → ℕ };

    /// It may be given the plays of the flow on this port.
    ghost takes: { L → ℕ → Type 0 };

    /// Counts the play that the window just made, and puts its words' payloads to the lane of the flow, whose counts these
    /// are.
    ///
    /// # Errors
    ///
    /// There was no memory, or the outside has counted a fault. The lane has gained a front of the payloads then.
    fn put_play<D: WindowState>(
        &mut self,
        to: &mut L,
        sum: &mut FlowSum,
        window: &D,
        played: Played,
    ) -> Result<(), Fault>
        requires player { takes to.old sum.old.port }
        requires within { CountsWithin sum.old played.first }
        requires limit { played.first < farthest_limit }
        requires count { played.count ≡ length (D.shows window.now played) }
        ensures counts { OnOk result (sum.new
            ≡ with_plays sum.old played.first (played_as played (D.shows window.now played) ∷ [])) }
        ensures puts { OnOk result (Grows (lanes to.old) sum.old.port
            (lane_of (played_as played (D.shows window.now played) ∷ [])) (lanes to.new)) }
        ensures part { OnErr result (GrowsPart (lanes to.old) sum.old.port
            (lane_of (played_as played (D.shows window.now played) ∷ [])) (lanes to.new)) }
        ensures port { sum.new.port ≡ sum.old.port }
        ensures still { takes to.new sum.old.port }
        ensures player { self.new ≡ self.old }
        ensures faults { Counts result [] ((faults to.old, faults to.new) ∷ []) };
}

/// Writes each play to the lanes when it was made, in one put.
#[derive(Drop)]
pub struct LaneWriter {
    /// The bytes that a play adds to a lane. It is filled again and again.
    piece: Vec<u8>,
}

/// The piece is scratch: nothing of it is seen.
impl Model for LaneWriter {
    ghost Value = { Unit {0} };

    ghost view = { λ _. tt };
}

impl LaneWriter {
    /// A writer that has the memory for plays of so many positions.
    ///
    /// # Errors
    ///
    /// There was no memory.
    pub fn new(alloc: Global, window: u32) -> Result<LaneWriter, AllocError> {
        let piece = Vec::with_capacity(alloc, window as usize * PAYLOAD_LIMIT)?;
        Ok(LaneWriter { piece })
    }
}

impl<O: Outlet> Player<O> for LaneWriter {
    ghost use Rattle.std.specs.Prelude.{⊤};

    ghost lanes = { O.lanes };

    ghost faults = { O.faults };

    ghost takes = { λ _ _. ⊤ };

    fn put_play<D: WindowState>(
        &mut self,
        to: &mut O,
        sum: &mut FlowSum,
        window: &D,
        played: Played,
    ) -> Result<(), Fault> {
        self.piece.clear();
        fill(&mut self.piece, sum, window, played)?;
        put(to, sum.port, &self.piece)
    }
}

/// Puts each payload of a play on the shelf of its flow, where it waits. It is copied there from where the window keeps it.
#[derive(Drop)]
pub struct ShelfFiller;

impl Player<Shelved> for ShelfFiller {
    ghost use Rattle.std.specs.Prelude.{Some};
    ghost use Rattle.fg_engine.specs.Shelved.{lanes_waiting};

    ghost lanes = { λ shelved. Some (lanes_waiting shelved) };

    ghost faults = { λ _. 0 };

    ghost takes = { λ shelved port. shelved.port ≡ port };

    fn put_play<D: WindowState>(
        &mut self,
        to: &mut Shelved,
        sum: &mut FlowSum,
        window: &D,
        played: Played,
    ) -> Result<(), Fault> {
        fill(&mut to.shelf, sum, window, played)?;
        Ok(())
    }
}
