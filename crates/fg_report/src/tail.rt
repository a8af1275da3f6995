//! How a trace ended.

/// How the trace ended. Places are counted in bytes from 0.
#[derive(Clone, Copy)]
pub enum Tail {
    /// Behind a whole record.
    Ended,
    /// Inside the record that begins at this byte.
    Cut(u64),
    /// The input is longer than the limit: the first record that isn't whole within it begins at this byte.
    TooLong(u64),
}
