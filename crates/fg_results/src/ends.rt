//! The three ends of a repair.

/// The three ends of a repair: where the trace comes from, where the report goes, and where the lanes are put.
///
/// Of what a call leaves that takes them, a clause names the input `exit.0`, the report's sink `exit.1.0`, and the lanes `exit.1.1.0`.
#[derive(Drop)]
pub struct Ends<'a, S, K, O> {
    /// Where the trace comes from.
    pub input: &'a mut S,
    /// Where the report goes.
    pub out: &'a mut K,
    /// Where the lanes are put.
    pub lanes: &'a mut O,
}
