//! What the caller and the workers have of the flows.

use crate::signal::Signal;
use fg_board::{Admitter, Board};
use fg_desk::Tray;

/// What the caller and the workers share of a flow, beside its tallies.
#[derive(Drop)]
pub struct Post {
    pub board: Board,
    pub signal: Signal,
}

/// What the caller has of a flow for itself.
#[derive(Drop)]
pub struct Host {
    pub admitter: Admitter,
    /// What the last play shows.
    pub tray: Tray,
}

/// What a worker remembers of a flow.
#[derive(Drop)]
pub struct Remembered {
    /// How many changes were told before the last walk over its places, where that found nothing to settle.
    pub idle_at: Option<u64>,
}

/// What all have of the flows, in their order, but the tallies, which stand over the posts.
#[derive(Drop)]
pub struct Crew {
    pub posts: Vec<Post>,
    pub hosts: Vec<Host>,
    /// What each worker remembers of each flow.
    pub owns: Vec<Vec<Remembered>>,
}
