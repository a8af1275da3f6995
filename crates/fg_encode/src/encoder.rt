//! The encoder.
ghost use Rattle.std.specs.Prelude.{◌≡◌, ◌+◌, ◌*◌, ◌<◌, ◌≤◌, ◌^◌, ◌%◌, ℕ, List, [], ◌∷◌, ◌++◌, IfOk, IfSome, length, map, get_or};
ghost use Rattle.std.specs.Option.{option_to_list};
ghost use Rattle.fg_ts.specs.Packets.{ArePackets, packet_length};
ghost use Rattle.fg_shape.specs.Kind.{port_of};
ghost use Rattle.fg_shape.specs.Layout.{ColumnEnds, RowEnds};
ghost use Rattle.fg_fechead.specs.declared.Parity.{Parity};
ghost use Rattle.fg_fechead.specs.ParityDatagram.{parity_bytes, CanBeWritten};
ghost use Rattle.fg_trace.specs.Trace.{Record};
ghost use Rattle.fg_encode.specs.Ends.{columns_ending, rows_ending};
ghost use Rattle.fg_encode.specs.Encoding.{records_at, time_of, timestamp_of};
ghost use Rattle.fg_encode.specs.Encoder.{StandsAfter};
ghost use Rattle.fg_shape.specs.Settings.{CanEncode};

use crate::Batch;
use crate::clock::{sequence_at, time_after, timestamp_after};
use crate::laws::ends_are_the_layouts;
use crate::lines::add_to_lines;
use fg_fechead::Parity;
use fg_shape::{Ends, Kind, LAST_PORT, Layout, Settings, Shape};
use fg_ts::PACKET_LENGTH;
use fg_words::Word;
use std::alloc::{AllocError, Global};
use std::marker::Model;

/// Makes media and parity datagrams of payloads, one after another.
///
/// It keeps running sums, one for each column and one for the row, and no payload.
#[derive(Drop)]
pub struct Encoder {
    settings: Settings,
    taken: u64,
    columns: Vec<Parity>,
    row: Parity,
    columns_sent: u16,
    rows_sent: u16,
}

impl Model for Encoder {
    ghost use Rattle.fg_encode.specs.Encoder.{EncoderState};

    ghost Value = { EncoderState };

    ghost view = { λ a. record {
      settings = a.settings;
      taken = a.taken;
      columns = a.columns.items;
      row = a.row;
      columns_sent = a.columns_sent;
      rows_sent = a.rows_sent;
    } };
}

impl Encoder {
    /// An encoder that has taken no payload. All its memory is taken here.
    pub fn new(alloc: Global, settings: Settings) -> Result<Encoder, AllocError>
        requires { CanEncode settings }
        ensures stands { IfOk result (λ encoder. StandsAfter encoder []) }
        ensures settings { IfOk result (λ encoder. encoder.settings ≡ settings) }
        ensures taken { IfOk result (λ encoder. encoder.taken ≡ 0) }
    {
        let empty = Parity {
            base: 0,
            shape: Shape { offset: 0, na: 0 },
            row: false,
            word: Word::zero(),
        };
        Ok(Encoder {
            settings,
            taken: 0,
            columns: vec![in alloc; empty; usize::from(settings.layout.l)]?,
            row: empty,
            columns_sent: 0,
            rows_sent: 0,
        })
    }

    /// Takes the next payload of the stream, and fills the batch with what is sent for it.
    ///
    /// It has as many packets as the settings say, or fewer where it is the last. All payloads together have at most 2^40
    /// bytes.
    pub fn push(&mut self, payload: &[u8], into: &mut Batch)
        requires stands { (payloads : List (List ℕ)) × StandsAfter self.old payloads }
        requires packets { (k : ℕ) × (1 ≤ k) × (k ≤ self.old.settings.packets) × ArePackets payload.now k }
        requires limit { packet_length * self.old.settings.packets * self.old.taken + length payload.now ≤ 2 ^ 40 }
        ensures batch { (payloads : List (List ℕ)) → StandsAfter self.old payloads
            → into.new ≡ records_at self.old.settings (payloads ++ payload.now ∷ []) (length payloads) }
        ensures stands { (payloads : List (List ℕ)) → StandsAfter self.old payloads
            → length payload.now ≡ packet_length * self.old.settings.packets
            → StandsAfter self.new (payloads ++ payload.now ∷ []) }
        ensures settings { self.new.settings ≡ self.old.settings }
        ensures taken { self.new.taken ≡ self.old.taken + 1 }
    {
        let settings = self.settings;
        let at = next_moment(&settings, self.taken);
        let seq = sequence_at(&settings, at.slot);
        into.put_media(at.time, settings.port, seq, at.ts, settings.ssrc, payload);
        add_to_lines(
            &mut self.columns,
            &mut self.row,
            &settings,
            at.slot,
            at.ts,
            payload,
        );
        let Ends { column, row } = ends_at(&settings.layout, at.slot);
        self.columns_sent = send_column(
            &self.columns,
            &settings,
            at,
            column,
            self.columns_sent,
            into,
        );
        self.rows_sent = send_row(&self.row, &settings, at, row, self.rows_sent, into);
        self.taken += 1;
    }
}

/// The slot of a payload, and when its datagrams are sent.
#[derive(Clone, Copy)]
struct Moment {
    slot: u64,
    time: u64,
    ts: u32,
}

/// When the datagrams of the next payload are sent, after so many whole ones.
fn next_moment(settings: &Settings, taken: u64) -> Moment
    requires packets { (1 ≤ settings.now.packets) × (settings.now.packets ≤ 7) }
    requires rate { 1 ≤ settings.now.rate }
    requires limit { packet_length * settings.now.packets * taken ≤ 2 ^ 40 }
    ensures slot { result.slot ≡ taken }
    ensures time { result.time ≡ time_of settings.now (8 * (packet_length * settings.now.packets * taken)) }
    ensures timestamp { result.ts ≡ timestamp_of settings.now (8 * (packet_length * settings.now.packets * taken)) }
    ensures limit { taken ≤ 2 ^ 40 }
{
    let bits = 8 * (PACKET_LENGTH as u64 * u64::from(settings.packets) * taken);
    Moment {
        slot: taken,
        time: time_after(settings, bits),
        ts: timestamp_after(settings, bits),
    }
}

/// The first slots of the column and of the row that end at the slot, of those that do.
fn ends_at(layout: &Layout, slot: u64) -> Ends
    requires { slot ≤ 2 ^ 60 }
    ensures columns { columns_ending layout.now slot ≡ option_to_list result.column }
    ensures rows { rows_ending layout.now slot ≡ option_to_list result.row }
    ensures column { IfSome result.column (ColumnEnds layout.now slot) }
    ensures row { IfSome result.row (RowEnds layout.now slot) }
{
    ends_are_the_layouts();
    layout.ending_at(slot)
}

/// Sends a parity of this kind, with the next number of its stream. Answers the number after it.
fn send(
    parity: &Parity,
    settings: &Settings,
    kind: Kind,
    at: Moment,
    sent: u16,
    into: &mut Batch,
) -> u16
    requires port { settings.now.port ≤ LAST_PORT }
    requires packets { settings.now.packets ≤ 7 }
    requires can { CanBeWritten parity.now (packet_length * settings.now.packets) }
    requires some { 1 ≤ length into.old }
    requires room { length into.old < 3 }
    ensures batch { into.new ≡ into.old ++ (record {
      time = at.time;
      port = port_of settings.now.port kind;
      datagram = parity_bytes sent at.ts parity.now (packet_length * settings.now.packets);
    }) ∷ [] }
    ensures sent { result ≡ (sent + 1) % 2 ^ 16 }
{
    let size = PACKET_LENGTH as u16 * u16::from(settings.packets);
    let Moment { time, ts, .. } = at;
    into.put_parity(time, kind.port(settings.port), sent, ts, parity, size);
    sent.wrapping_add(1)
}

/// Sends the parity of the column that ends at the slot, if one does. Answers the next number of its stream.
fn send_column(
    columns: &[Parity],
    settings: &Settings,
    at: Moment,
    ending: Option<u64>,
    sent: u16,
    into: &mut Batch,
) -> u16
    requires width { length columns.now ≡ settings.now.layout.l }
    requires list { columns_ending settings.now.layout at.slot ≡ option_to_list ending }
    requires ends { IfSome ending (ColumnEnds settings.now.layout at.slot) }
    requires port { settings.now.port ≤ LAST_PORT }
    requires packets { settings.now.packets ≤ 7 }
    requires can { (base : ℕ) (d : Parity) → ColumnEnds settings.now.layout at.slot base
        → CanBeWritten (get_or columns.now (at.slot % settings.now.layout.l) d) (packet_length * settings.now.packets) }
    requires some { 1 ≤ length into.old }
    requires room { length into.old < 3 }
    ensures batch { (d : Parity) → into.new ≡ into.old ++ map (λ base. record {
      time = at.time;
      port = port_of settings.now.port Kind.Column;
      datagram = parity_bytes sent at.ts (get_or columns.now (at.slot % settings.now.layout.l) d) (packet_length * settings.now.packets);
    }) (columns_ending settings.now.layout at.slot) }
    ensures sent { result ≡ (sent + length (columns_ending settings.now.layout at.slot)) % 2 ^ 16 }
    ensures one { length into.new ≤ length into.old + 1 }
    ensures more { length into.old ≤ length into.new }
{
    if ending.is_none() {
        return sent;
    }
    let column = (at.slot % u64::from(settings.layout.l)) as usize;
    send(&columns[column], settings, Kind::Column, at, sent, into)
}

/// Sends the parity of the row that ends at the slot, if one does. Answers the next number of its stream.
fn send_row(
    row: &Parity,
    settings: &Settings,
    at: Moment,
    ending: Option<u64>,
    sent: u16,
    into: &mut Batch,
) -> u16
    requires list { rows_ending settings.now.layout at.slot ≡ option_to_list ending }
    requires ends { IfSome ending (RowEnds settings.now.layout at.slot) }
    requires port { settings.now.port ≤ LAST_PORT }
    requires packets { settings.now.packets ≤ 7 }
    requires can { (base : ℕ) → RowEnds settings.now.layout at.slot base
        → CanBeWritten row.now (packet_length * settings.now.packets) }
    requires some { 1 ≤ length into.old }
    requires room { length into.old < 3 }
    ensures batch { into.new ≡ into.old ++ map (λ base. record {
      time = at.time;
      port = port_of settings.now.port Kind.Row;
      datagram = parity_bytes sent at.ts row.now (packet_length * settings.now.packets);
    }) (rows_ending settings.now.layout at.slot) }
    ensures sent { result ≡ (sent + length (rows_ending settings.now.layout at.slot)) % 2 ^ 16 }
{
    if ending.is_none() {
        return sent;
    }
    send(row, settings, Kind::Row, at, sent, into)
}
