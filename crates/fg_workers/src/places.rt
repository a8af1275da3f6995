//! The tallies of all flows, by flow and place, as the workers use them.
ghost use Rattle.std.specs.Prelude.{◌<◌};
ghost use Rattle.fg_playout.specs.Admission.{live_limit};

use crate::folding::{Ready, fold_slots, holds, ready_to_settle, unfolded};
use crate::held_places::HeldEquation;
use crate::signal::Signal;
use fg_board::{Fate, Key};
use fg_tally::{Tallies, Tally};
use std::alloc::{AllocError, Global};
use std::sync::Wait;

/// A place of a flow.
#[derive(Clone, Copy)]
pub struct Spot {
    /// The flow's number, which a hint names.
    pub flow: u32,
    /// The place of an equation on the flow's board.
    pub place: u32,
}

/// What holds the equations of all flows, each at its place. Nothing is done for a flow that isn't there.
///
/// It is a trait so that who shares it among threads needn't know of what the tallies borrow.
pub trait Places {
    /// Folds what arrived of the equation at a place, where exactly one slot is without a word. Answers what is to be settled, if
    /// something is. A place where nothing is left to be done is marked no more.
    fn fold<W: Wait>(&self, wait: &W, signal: &Signal, spot: Spot) -> Option<Ready>
        requires { spot.place < live_limit };

    /// Settles what a place holds, if it still holds this key. A place that is settled is marked no more.
    fn settle<W: Wait>(
        &self,
        wait: &W,
        alloc: Global,
        signal: &Signal,
        spot: Spot,
        key: Key,
    ) -> Result<Option<Fate>, AllocError>
        requires { spot.place < live_limit };
}

/// The tallies of each flow, in their order.
#[derive(Drop)]
pub struct FlowTallies<'b> {
    pub flows: Vec<Tallies<'b>>,
}

impl<'b> Places for FlowTallies<'b> {
    fn fold<W: Wait>(&self, wait: &W, signal: &Signal, spot: Spot) -> Option<Ready> {
        match self.flows.get(spot.flow as usize) {
            Some(tallies) => fold_at(wait, signal, tallies, spot.place),
            None => None,
        }
    }

    fn settle<W: Wait>(
        &self,
        wait: &W,
        alloc: Global,
        signal: &Signal,
        spot: Spot,
        key: Key,
    ) -> Result<Option<Fate>, AllocError> {
        match self.flows.get(spot.flow as usize) {
            Some(tallies) => settle_at(wait, alloc, signal, tallies, spot.place, key),
            None => Ok(None),
        }
    }
}

/// Folds what arrived of the equation at a place, where exactly one slot is without a word. Where the tally holds another
/// equation, it is started first. A place is marked no more where all slots have a word, since the play sums them anyway, and
/// where the equation is gone.
fn fold_at(wait: &impl Wait, signal: &Signal, tallies: &Tallies<'_>, place: u32) -> Option<Ready>
    requires { place < live_limit }
{
    let waiting = signal.held.at(place)?;
    let arrived = arrived(signal, &waiting);
    match u32::from(waiting.shape.na).saturating_sub(arrived.count_ones()) {
        0 => {
            signal.held.unmark(waiting.key);
            None
        }
        1 => fold_arrived(wait, signal, tallies, waiting.key, arrived),
        _ => None,
    }
}

/// Folds the slots of these numbers into the tally of the key's place, but for those that are folded.
fn fold_arrived(
    wait: &impl Wait,
    signal: &Signal,
    tallies: &Tallies<'_>,
    key: Key,
    numbers: u32,
) -> Option<Ready>
    requires { key.place < live_limit }
{
    let mut tally = tallies.lock(wait, key.place);
    let is_there = match begin(wait, &mut tally, key) {
        Some(unfolded) => fold_slots(wait, &mut tally, numbers & unfolded),
        None => false,
    };
    if !is_there {
        signal.held.unmark(key);
        return None;
    }
    ready_to_settle(&tally)
}

/// Has a tally hold the equation of this key. Answers the numbers of the slots that aren't folded, or none where the equation is
/// gone.
fn begin(wait: &impl Wait, tally: &mut Tally<'_>, key: Key) -> Option<u32> {
    if !holds(tally, key) {
        let _ = tally.start(wait, key);
    }
    Some(unfolded(&tally.held()?))
}

/// The numbers of the slots that arrived.
fn arrived(signal: &Signal, waiting: &HeldEquation) -> u32 {
    let mut numbers = 0;
    for number in 0..waiting.shape.na {
        if signal.arrivals.has(waiting.position(number)) {
            numbers |= 1u32.wrapping_shl(u32::from(number));
        }
    }
    numbers
}

/// Settles what the tally of a place holds, if it still holds this key. A place that is settled is marked no more.
fn settle_at(
    wait: &impl Wait,
    alloc: Global,
    signal: &Signal,
    tallies: &Tallies<'_>,
    place: u32,
    key: Key,
) -> Result<Option<Fate>, AllocError>
    requires { place < live_limit }
{
    let mut tally = tallies.lock(wait, place);
    let settled = tally.settle(wait, alloc, key)?;
    if settled.is_some() {
        signal.held.unmark(key);
    }
    Ok(settled)
}
