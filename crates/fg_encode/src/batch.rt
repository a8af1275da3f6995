//! The datagrams that are sent for one payload.
ghost use Rattle.std.specs.Prelude.{◌≡◌, ◌+◌, ◌<◌, ◌≤◌, [], ◌∷◌, ◌++◌, IfOk, Some, length, slice_get};
ghost use Rattle.fg_words.specs.Word.{transport_word, payload_limit};
ghost use Rattle.fg_rtp.specs.MediaDatagram.{media_bytes};
ghost use Rattle.fg_fechead.specs.ParityDatagram.{parity_bytes, CanBeWritten};
ghost use Rattle.fg_trace.specs.Trace.{Record};

use fg_fechead::{PARITY_LIMIT, Parity, write};
use fg_rtp::{MEDIA_LIMIT, write_payload};
use std::alloc::{AllocError, Global};
use std::marker::Model;

/// Where a media datagram is made.
#[derive(Drop)]
struct MediaBuffer {
    time: u64,
    port: u16,
    size: usize,
    bytes: [u8; MEDIA_LIMIT],
}

/// Where a parity datagram is made.
#[derive(Clone, Copy)]
struct ParityBuffer {
    time: u64,
    port: u16,
    size: usize,
    bytes: [u8; PARITY_LIMIT],
}

/// The timed datagrams that are sent for one payload: none before the first, and then the media datagram, the parity
/// datagram of the column that ends with it, if one does, and that of the row.
///
/// Contracts see it as the list of its records.
#[derive(Drop)]
pub struct Batch {
    count: usize,
    media: MediaBuffer,
    parities: Vec<ParityBuffer>,
}

impl Model for Batch {
    ghost use Rattle.std.specs.Prelude.{List};
    ghost use Rattle.fg_trace.specs.Trace.{Record};

    ghost Value = { List Record };

    ghost use Rattle.fg_encode.specs.Batch.{records_of, AreBuffers};

    ghost view = { λ a. records_of a.count a.media a.parities.items };

    ghost invariant = { λ a. AreBuffers a.count a.media a.parities.items };
}

impl Batch {
    /// An empty batch. All its memory is taken here.
    pub fn new(alloc: Global) -> Result<Batch, AllocError>
        ensures { IfOk result (λ batch. batch ≡ []) }
    {
        let parity = ParityBuffer {
            time: 0,
            port: 0,
            size: 0,
            bytes: [0; PARITY_LIMIT],
        };
        let media = MediaBuffer {
            time: 0,
            port: 0,
            size: 0,
            bytes: [0; MEDIA_LIMIT],
        };
        Ok(Batch {
            count: 0,
            media,
            parities: vec![in alloc; parity; 2]?,
        })
    }

    /// How many records there are, at most three.
    pub fn count(&self) -> usize
        ensures count { result ≡ length self.now }
        ensures limit { result ≤ 3 }
    {
        self.count
    }

    /// The time in microseconds, the port and the datagram of record `i`, counted from 0.
    pub fn item(&self, i: usize) -> (u64, u16, &[u8])
        requires { i < length self.now }
        ensures item { slice_get self.now i
            ≡ Some (record { time = result.0; port = result.1; datagram = result.2.now }) }
        ensures size { length result.2.now ≤ PARITY_LIMIT }
    {
        if i == 0 {
            return (
                self.media.time,
                self.media.port,
                &self.media.bytes[..self.media.size],
            );
        }
        let buffer = &self.parities[i - 1];
        (buffer.time, buffer.port, &buffer.bytes[..buffer.size])
    }

    /// Empties the batch, and puts a media datagram in.
    pub(crate) fn put_media(
        &mut self,
        time: u64,
        port: u16,
        seq: u16,
        ts: u32,
        ssrc: u32,
        payload: &[u8],
    )
        requires { length payload.now ≤ payload_limit }
        ensures { self.new ≡ (record {
          time = time;
          port = port;
          datagram = media_bytes seq ssrc (transport_word ts payload.now);
        }) ∷ [] }
    {
        self.media.size = write_payload(seq, ts, ssrc, payload, &mut self.media.bytes);
        self.media.time = time;
        self.media.port = port;
        self.count = 1;
    }

    /// Puts a parity datagram behind the others.
    pub(crate) fn put_parity(
        &mut self,
        time: u64,
        port: u16,
        seq: u16,
        ts: u32,
        parity: &Parity,
        size: u16,
    )
        requires some { 1 ≤ length self.old }
        requires room { length self.old < 3 }
        requires can { CanBeWritten parity.now size }
        ensures { self.new
            ≡ self.old ++ (record { time = time; port = port; datagram = parity_bytes seq ts parity.now size }) ∷ [] }
    {
        let buffer = &mut self.parities[self.count - 1];
        buffer.size = write(seq, ts, parity, size, &mut buffer.bytes);
        buffer.time = time;
        buffer.port = port;
        self.count += 1;
    }
}
