//! What waits for the lane of one port.
use fg_report::Shelf;

/// What a flow has shown and that isn't written yet: it waits for the lane of the flow's port.
#[derive(Drop)]
pub struct Shelved {
    /// The port of the flow, whose lane this is.
    pub port: u16,
    /// What waits.
    pub shelf: Shelf,
}
