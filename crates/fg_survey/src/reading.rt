//! Reading a record's datagram, on whatever port.
ghost use Rattle.std.specs.Prelude.{◌≡◌};
ghost use Rattle.fg_survey.specs.Heard.{reads_media, reads_parity};
ghost use Rattle.fg_survey.specs.Reading.{IsReading, NoMedia};

use fg_fechead::parity_header;
use fg_rtp::media_header;

/// What a datagram is.
#[derive(Clone, Copy)]
pub enum Reading {
    /// A media datagram.
    Media {
        /// The sequence number.
        seq: u16,
        /// The timestamp.
        ts: u32,
        /// The synchronization source.
        ssrc: u32,
    },
    /// A parity datagram.
    Parity {
        /// The first protected sequence number.
        base: u16,
        /// How far apart the protected datagrams are.
        offset: u8,
        /// How many they are.
        number: u8,
    },
    /// Neither.
    Other,
}

impl Reading {
    /// Whether it is a media datagram.
    pub(crate) fn is_media(self) -> bool
        ensures { result ≡ reads_media self }
    {
        matches!(self, Reading::Media { .. })
    }

    /// Whether it is a parity datagram.
    pub(crate) fn is_parity(self) -> bool
        ensures { result ≡ reads_parity self }
    {
        matches!(self, Reading::Parity { .. })
    }
}

/// Reads a datagram.
pub(crate) fn read(datagram: &[u8]) -> Reading
    ensures { IsReading datagram.now result }
{
    match media_header(datagram) {
        Ok(header) => Reading::Media {
            seq: header.seq,
            ts: header.ts,
            ssrc: header.ssrc,
        },
        Err(_) => read_parity(datagram),
    }
}

/// Reads a datagram that is no media datagram.
fn read_parity(datagram: &[u8]) -> Reading
    requires { NoMedia datagram.now }
    ensures { IsReading datagram.now result }
{
    match parity_header(datagram) {
        Ok(header) => Reading::Parity {
            base: header.base,
            offset: header.shape.offset,
            number: header.shape.na,
        },
        Err(_) => Reading::Other,
    }
}
