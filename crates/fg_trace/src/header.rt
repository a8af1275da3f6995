//! The header of a record, and the magic.
ghost use Rattle.std.specs.Prelude.{◌≡◌, ◌<◌, ◌^◌, ◌++◌, ℕ, List, IfSome, IfNone, length};
ghost use Rattle.std.specs.Int.{to_be_bytes, w16, w64};
ghost use Rattle.fg_trace.specs.Trace.{DiffersAt, magic};
ghost use Rattle.fg_trace.specs.Header.{IsHeader, BeginsMagic};

/// The eight bytes that begin a trace.
pub const MAGIC: [u8; 8] = *b"FECTRAC1";

/// How many bytes a record has before its datagram.
pub(crate) const HEADER: usize = 12;

/// How many bytes the largest record has.
pub(crate) const LARGEST: usize = HEADER + 65_535;

/// The numbers before a record's datagram.
#[derive(Clone, Copy)]
pub(crate) struct Header {
    /// The time in microseconds.
    pub(crate) time: u64,
    /// The UDP port.
    pub(crate) port: u16,
    /// How many bytes the datagram has.
    pub(crate) size: u16,
}

/// The header at the front of the bytes; `None` exactly where they are fewer than a header has.
pub(crate) fn read_header(bytes: &[u8]) -> Option<Header>
    ensures found { IfSome result (λ header.
        IsHeader bytes.now header.time header.port header.size) }
    ensures none { IfNone result (length bytes.now < HEADER) }
{
    let (time, rest) = split_u64(bytes)?;
    let (port, rest) = split_u16(rest)?;
    let (size, _) = split_u16(rest)?;
    Some(Header { time, port, size })
}

/// The number that the first eight bytes spell, the highest first, and the bytes after them.
fn split_u64(bytes: &[u8]) -> Option<(u64, &[u8])>
    ensures found { IfSome result (λ found. bytes.now ≡ to_be_bytes w64 found.0 ++ found.1.now) }
    ensures fits { IfSome result (λ found. found.0 < 2 ^ 64) }
    ensures none { IfNone result (length bytes.now < 8) }
{
    let (first, rest) = bytes.split_first_chunk::<8>()?;
    Some((u64::from_be_bytes(*first), rest))
}

/// The number that the first two bytes spell, the highest first, and the bytes after them.
fn split_u16(bytes: &[u8]) -> Option<(u16, &[u8])>
    ensures found { IfSome result (λ found. bytes.now ≡ to_be_bytes w16 found.0 ++ found.1.now) }
    ensures fits { IfSome result (λ found. found.0 < 2 ^ 16) }
    ensures none { IfNone result (length bytes.now < 2) }
{
    let (first, rest) = bytes.split_first_chunk::<2>()?;
    Some((u16::from_be_bytes(*first), rest))
}

/// The first place at which the bytes and the magic differ, or the number of bytes where they end before; `None` exactly
/// where they begin with it.
pub(crate) fn differs_from_magic(bytes: &[u8]) -> Option<usize>
    ensures differs { IfSome result (DiffersAt bytes.now) }
    ensures magic { IfNone result (BeginsMagic bytes.now) }
{
    for (place, expected) in MAGIC.iter().enumerate() {
        if bytes.get(place) != Some(expected) {
            return Some(place);
        }
    }
    None
}
