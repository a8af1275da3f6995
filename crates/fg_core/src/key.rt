//! Keys, by which equations of a board are named.

/// Names a live equation, as long as it is live and no solved word was withdrawn.
#[derive(Clone, Copy, PartialEq, Eq)]
pub struct Key {
    /// Its place among the live equations.
    pub place: u32,
    /// How many equations were admitted before it.
    pub serial: u64,
    /// How often solved words had been withdrawn.
    pub epoch: u64,
}
