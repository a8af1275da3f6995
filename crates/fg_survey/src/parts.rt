//! The parts of a survey's text that have a line or more for each port or stream.
ghost use Rattle.std.specs.Prelude.{◌≡◌, ◌+◌, ◌<◌, ◌^◌, ◌++◌, ◌==◌, if◌then◌else◌, List, OnOk, length, map};
ghost use Rattle.std.specs.List.{flat_map, range_with_len};
ghost use Rattle.fg_streams.specs.Steps.{told};
ghost use Rattle.fg_survey.specs.Heard.{Heard};
ghost use Rattle.fg_survey.specs.Lanes.{AreLanes};
ghost use Rattle.fg_survey.specs.Matrix.{Protection};
ghost use Rattle.fg_survey.specs.Rows.{ports};
ghost use Rattle.fg_survey.specs.Senders.{senders_of};
ghost use Rattle.fg_survey.specs.Steps.{HaveEnded};
ghost use Rattle.fg_survey.specs.Tallies.{IsTally};
ghost use Rattle.fg_survey.specs.Text.{deepest_in, depth_of, matrix_text, port_matrix, rows_text, streams_text, window_of};

use crate::lanes::{Lane, find_lane};
use crate::lines::{Words, push_matrix_line, push_row_line, push_stream_lines, push_words_line};
use crate::ports::PORTS;
use crate::rows::Row;
use crate::senders::Sender;
use crate::streams::Streams;
use crate::tally::Matrix;
use fg_streams::Stream;
use std::alloc::AllocError;

/// Pushes the lines of all ports.
pub(crate) fn push_rows(
    text: &mut Vec<u8>,
    json: bool,
    start: u64,
    rows: &[Row],
) -> Result<(), AllocError>
    requires { length rows.now ≡ 65536 }
    ensures { OnOk result (text.new.items ≡ text.old.items ++ rows_text json start 0 rows.now) }
{
    for i in 0..PORTS {
        push_row_line(text, json, start, i as u16, rows[i])?;
    }
    Ok(())
}

/// Pushes the lines of all streams, which have ended.
pub(crate) fn push_streams(
    text: &mut Vec<u8>,
    json: bool,
    start: u64,
    senders: &[Sender],
    streams: &[Stream],
) -> Result<(), AllocError>
    requires { length streams.now ≡ length senders.now }
    ensures { OnOk result (text.new.items ≡ text.old.items
        ++ streams_text json start senders.now (map told streams.now)) }
{
    for i in 0..senders.len() {
        push_stream_lines(text, json, start, senders[i], &streams[i])?;
    }
    Ok(())
}

/// How far behind the top the deepest of a stream comes, if it is on this port.
fn deepest_on(sender: Sender, stream: &Stream, port: u16) -> u64
    ensures { result ≡ (if sender.port == port then (told stream.now).counts.deepest else 0) }
{
    if sender.port == port {
        stream.counts().deepest
    } else {
        0
    }
}

/// How far behind the top the deepest of a port's streams comes.
fn deepest(streams: &Streams, port: u16) -> u64
    requires { length streams.now.streams.items ≡ length streams.now.senders.items }
    ensures { (heard : List Heard) → HaveEnded streams.now heard → result ≡ deepest_in port heard (senders_of heard) }
{
    let mut deepest = 0;
    for i in 0..streams.senders.len() {
        deepest = deepest_on(streams.senders[i], &streams.streams[i], port).max(deepest);
    }
    deepest
}

/// How many positions a play closes, for a repair of this matrix.
fn window(matrix: Matrix) -> u64
    ensures { result ≡ window_of matrix }
{
    if matrix.rows == 0 {
        matrix.columns.min(100)
    } else {
        matrix.columns.saturating_mul(matrix.rows).min(100)
    }
}

/// How far past the first position that isn't played a play becomes due.
fn depth(matrix: Matrix, deepest: u64) -> u64
    ensures { result ≡ depth_of matrix deepest }
{
    window(matrix)
        .saturating_add(matrix.lag)
        .saturating_add(deepest)
        .saturating_add(1)
        .min(1000)
}

/// Pushes the lines of a port's matrix, where it has parity.
fn push_matrix(text: &mut Vec<u8>, json: bool, lane: &Lane, deepest: u64) -> Result<(), AllocError>
    requires { (columns rows : List Protection) × IsTally lane.now.tally columns rows
        × (length columns + length rows < 2 ^ 42) }
    ensures { OnOk result ((columns rows : List Protection) → IsTally lane.now.tally columns rows
        → text.new.items ≡ text.old.items ++ matrix_text json lane.now.port deepest columns rows) }
{
    if lane.tally.is_empty() {
        return Ok(());
    }
    let matrix = lane.tally.matrix();
    push_matrix_line(text, json, lane.port, matrix)?;
    let words = Words {
        port: lane.port,
        window: window(matrix),
        depth: depth(matrix, deepest),
    };
    push_words_line(text, json, words)?;
    Ok(())
}

/// Pushes the lines of the matrix on a port, where it has a stream and parity.
fn push_port_matrix(
    text: &mut Vec<u8>,
    json: bool,
    lanes: &[Lane],
    streams: &Streams,
    port: u16,
) -> Result<(), AllocError>
    requires { (heard : List Heard) × AreLanes lanes.now heard × HaveEnded streams.now heard × (length heard < 2 ^ 40) }
    ensures { OnOk result ((heard : List Heard) → AreLanes lanes.now heard → HaveEnded streams.now heard
        → text.new.items ≡ text.old.items ++ port_matrix json heard port) }
{
    match find_lane(lanes, port) {
        None => Ok(()),
        Some(place) => push_matrix(text, json, &lanes[place], deepest(streams, port)),
    }
}

/// Pushes the lines of all matrices.
pub(crate) fn push_matrices(
    text: &mut Vec<u8>,
    json: bool,
    lanes: &[Lane],
    streams: &Streams,
) -> Result<(), AllocError>
    requires { (heard : List Heard) × AreLanes lanes.now heard × HaveEnded streams.now heard × (length heard < 2 ^ 40) }
    ensures { OnOk result ((heard : List Heard) → AreLanes lanes.now heard → HaveEnded streams.now heard
        → text.new.items ≡ text.old.items ++ flat_map (port_matrix json heard) (range_with_len 0 ports)) }
{
    for i in 0..PORTS {
        push_port_matrix(text, json, lanes, streams, i as u16)?;
    }
    Ok(())
}
