//! What there is to say of one flow.

use crate::gaps::Gaps;
use crate::marks::Marks;

/// What the playouts of one flow came to.
#[derive(Drop)]
pub struct FlowSum {
    /// The UDP port of its media datagrams.
    pub port: u16,
    /// Played positions that show a word.
    pub shown: u64,
    /// Those of them that held no media word when their window was played.
    pub repaired: u64,
    /// Played positions that show none.
    pub missing: u64,
    /// Playouts, those at the end of the trace included.
    pub windows: u64,
    /// Playouts at which the equations did not agree.
    pub inconsistent: u64,
    /// The replies to its media datagrams.
    pub media: Marks,
    /// The replies to its column parity datagrams.
    pub column: Marks,
    /// The replies to its row parity datagrams.
    pub row: Marks,
    /// How many runs of a sender were begun.
    pub runs: u64,
    /// The runs of played positions that show none.
    pub gaps: Gaps,
}
