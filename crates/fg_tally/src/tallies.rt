//! The tallies of a board, one for each place of an equation, each behind a lock.

ghost use Rattle.std.specs.Prelude.{◌≡◌, ◌<◌, ◌≤◌, ◌+◌, IfOk, IfErr};
ghost use Rattle.std.specs.Sync.Mutex.{mutex_guard_value};
ghost use Rattle.std.specs.Vec.{vec_len, vec_capacity};
ghost use Rattle.fg_playout.specs.Admission.{live_limit};
ghost use Rattle.fg_tally.specs.Tally.{IsTally, with_passes};

use crate::tally::Tally;
use fg_board::{Admitter, Board};
use std::alloc::{AllocError, Global};
use std::sync::{Mutex, MutexGuard, Wait};

/// How many equations can be live at once.
const PLACES: usize = 512;

/// The tallies of a board's equations, by their places.
///
/// Where a thread takes more than one lock, a tally's comes before the board's turn.
#[derive(Drop)]
pub struct Tallies<'b> {
    tallies: Vec<Mutex<Tally<'b>>>,
    ghost all: { vec_len tallies ≡ live_limit },
}

// Adds a tally that holds no key, with a pass of its own, where there is room for it.
fn add<'b>(tallies: &mut Vec<Mutex<Tally<'b>>>, board: &'b Board, admitter: &mut Admitter)
    requires board { admitter.old.seat.turn ≡ board.now.name }
    requires pass { admitter.old.seat.made + 1 < board.now.seats }
    requires room { vec_len tallies.old < vec_capacity tallies.old }
    ensures len { vec_len tallies.new ≡ vec_len tallies.old + 1 }
    ensures capacity { vec_capacity tallies.old ≤ vec_capacity tallies.new }
    ensures admitter { admitter.new ≡ with_passes admitter.old 1 }
{
    let pass = board.pass(admitter);
    let _ = tallies.push(Mutex::new(Tally::new(board, pass)));
}

impl<'b> Tallies<'b> {
    /// A tally for each place, of which none holds a key, each with a pass of the board. Answers want of memory alone,
    /// and makes no pass then.
    pub fn new(
        alloc: Global,
        board: &'b Board,
        admitter: &mut Admitter,
    ) -> Result<Tallies<'b>, AllocError>
        requires board { admitter.old.seat.turn ≡ board.now.name }
        requires room { admitter.old.seat.made + live_limit < board.now.seats }
        ensures passes { IfOk result (λ _. admitter.new ≡ with_passes admitter.old live_limit) }
        ensures none { IfErr result (λ _. admitter.new ≡ admitter.old) }
    {
        let mut tallies = Vec::with_capacity(alloc, PLACES)?;
        while tallies.len() < PLACES {
            add(&mut tallies, board, admitter);
        }
        Ok(Tallies { tallies })
    }

    /// The tally of a place, once nobody else has it.
    pub fn lock<'a>(&'a self, wait: &impl Wait, place: u32) -> MutexGuard<'a, Tally<'b>>
        requires { place < live_limit }
        ensures { IsTally (mutex_guard_value result) }
    {
        let tally = self.tallies[place as usize].lock(wait);
        tally.is_kept();
        tally
    }
}
