//! The checksum of an IPv4 header (RFC 791, RFC 1071).
ghost use Rattle.std.specs.Prelude.{◌≡◌};
ghost use Rattle.fg_pcap.specs.Spelling.{ipv4_checksum};

/// What the words of a header sum up to without its total length, which alone differs between headers.
const SUM_OF_THE_OTHERS: u32 = 0xd914;

/// The checksum of the header with this total length.
pub(crate) fn ipv4_checksum_of(total: u16) -> u16
    ensures { result ≡ ipv4_checksum total }
{
    let sum = SUM_OF_THE_OTHERS + u32::from(total);
    // What is carried out of the highest bit is added at the lowest.
    let carried = sum % (1 << 16) + sum / (1 << 16);
    u16::MAX - carried as u16
}
