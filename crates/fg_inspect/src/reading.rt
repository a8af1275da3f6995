//! Reading a record's datagram as what its port carries.
ghost use Rattle.fg_inspect.specs.Reading.{IsReadAsMedia, IsReadAsParity, IsReading};

use fg_fechead::{FecFault, parity_header};
use fg_flows::{Kind, Table};
use fg_rtp::{MediaFault, media_header, payload};

/// What a record's datagram is read as.
#[derive(Clone, Copy)]
pub enum Reading {
    /// A media datagram.
    Media {
        /// The sequence number.
        seq: u16,
        /// How many bytes its payload has.
        len: u16,
    },
    /// None, on a media port.
    NoMedia(MediaFault),
    /// A parity datagram.
    Parity {
        /// What the port carries.
        kind: Kind,
        /// The first protected sequence number.
        base: u16,
        /// How far apart the protected datagrams are.
        offset: u8,
        /// How many datagrams are protected.
        na: u8,
    },
    /// None, on a parity port of this kind.
    NoParity(Kind, FecFault),
    /// It is on a port of no flow.
    Other,
}

/// Reads a datagram on this port.
pub(crate) fn read_record(table: &Table, port: u16, datagram: &[u8]) -> Reading
    ensures { IsReading table.now port datagram.now result }
{
    match table.find(port) {
        Some((_, Kind::Media)) => read_media(datagram),
        Some((_, kind)) => read_parity(kind, datagram),
        None => Reading::Other,
    }
}

/// Reads a datagram on a media port.
fn read_media(datagram: &[u8]) -> Reading
    ensures { IsReadAsMedia datagram.now result }
{
    match media_header(datagram) {
        Ok(header) => Reading::Media {
            seq: header.seq,
            len: payload(datagram).len() as u16,
        },
        Err(fault) => Reading::NoMedia(fault),
    }
}

/// Reads a datagram on a parity port of this kind.
fn read_parity(kind: Kind, datagram: &[u8]) -> Reading
    ensures { IsReadAsParity kind datagram.now result }
{
    match parity_header(datagram) {
        Ok(header) => Reading::Parity {
            kind,
            base: header.base,
            offset: header.shape.offset,
            na: header.shape.na,
        },
        Err(fault) => Reading::NoParity(kind, fault),
    }
}
