//! How a capture ends.

/// How a capture ends. The places count bytes from the capture's first.
#[derive(Clone, Copy, Debug, PartialEq, Eq)]
pub enum CaptureEnding {
    /// With its last record.
    Ended,
    /// No file header stands at the front, and the place is that of its first field that is wrong, or the input's length
    /// where that is below 24 bytes. Or at this place stands the header of a record that keeps more bytes than it may.
    NotCapture(u64),
    /// The input ends inside a record, of which this is the place of the first byte.
    Cut(u64),
    /// The input has more bytes than it may, and the record at this place isn't whole within the limit.
    TooLong(u64),
}
