//! The lines of a survey, each pushed to a text.
ghost use Rattle.std.specs.Prelude.{◌≡◌, ◌++◌, OnOk, false, map, true};
ghost use Rattle.std.specs.Fmt.{decimal};
ghost use Rattle.std.specs.List.{flat_map};
ghost use Rattle.fg_survey.specs.Text.{all_named, burst_counts, burst_line, closing, early_line, ended_line, lengths_counts, line, matrix_counts, matrix_line, more_line, named, opening, pace_counts, port_line, row_counts, row_line, stream_counts, stream_lines, subject, tail_line, trace_line, words_line};
ghost use Rattle.fg_streams.specs.Steps.{told};

use crate::rows::Row;
use crate::senders::Sender;
use crate::tally::Matrix;
use crate::totals::Totals;
use fg_report::Tail;
use fg_streams::{Burst, Lengths, Pace, Stream, microseconds};
use itoa::Buffer;
use std::alloc::AllocError;

/// Pushes a number in decimal.
fn push_number(text: &mut Vec<u8>, number: u64) -> Result<(), AllocError>
    ensures { OnOk result (text.new.items ≡ text.old.items ++ decimal number) }
{
    let mut digits = Buffer::new();
    text.extend_from_slice(digits.format(number).as_bytes())
}

/// Pushes what a line is about.
fn push_opening(text: &mut Vec<u8>, json: bool, kind: &str) -> Result<(), AllocError>
    ensures { OnOk result (text.new.items ≡ text.old.items ++ opening json kind.now) }
{
    if !json {
        return text.extend_from_slice(kind.as_bytes());
    }
    text.extend_from_slice(b"{\"kind\":\"")?;
    text.extend_from_slice(kind.as_bytes())?;
    text.extend_from_slice(b"\"")
}

/// Pushes a port, which has no name in a line.
fn push_subject(text: &mut Vec<u8>, json: bool, port: u16) -> Result<(), AllocError>
    ensures { OnOk result (text.new.items ≡ text.old.items ++ subject json port) }
{
    if json {
        text.extend_from_slice(b",\"port\":")?;
    } else {
        text.extend_from_slice(b" ")?;
    }
    push_number(text, u64::from(port))
}

/// Pushes a name and its number.
fn push_named(text: &mut Vec<u8>, json: bool, name: &str, number: u64) -> Result<(), AllocError>
    ensures { OnOk result (text.new.items ≡ text.old.items ++ named json name.now number) }
{
    if json {
        text.extend_from_slice(b",\"")?;
        text.extend_from_slice(name.as_bytes())?;
        text.extend_from_slice(b"\":")?;
    } else {
        text.extend_from_slice(b" ")?;
        text.extend_from_slice(name.as_bytes())?;
        text.extend_from_slice(b" ")?;
    }
    push_number(text, number)
}

/// Pushes names, each with its number.
fn push_all_named(text: &mut Vec<u8>, json: bool, counts: &[(&str, u64)]) -> Result<(), AllocError>
    ensures { OnOk result (text.new.items ≡ text.old.items
        ++ all_named json (map (λ count. (count.0.now, count.1)) counts.now)) }
{
    for (name, number) in counts {
        push_named(text, json, name, *number)?;
    }
    Ok(())
}

/// Pushes a line's end.
fn push_closing(text: &mut Vec<u8>, json: bool) -> Result<(), AllocError>
    ensures { OnOk result (text.new.items ≡ text.old.items ++ closing json) }
{
    if json {
        text.extend_from_slice(b"}\n")
    } else {
        text.extend_from_slice(b"\n")
    }
}

/// Pushes a line of counts.
fn push_line(
    text: &mut Vec<u8>,
    json: bool,
    kind: &str,
    counts: &[(&str, u64)],
) -> Result<(), AllocError>
    ensures { OnOk result (text.new.items ≡ text.old.items
        ++ line json kind.now (map (λ count. (count.0.now, count.1)) counts.now)) }
{
    push_opening(text, json, kind)?;
    push_all_named(text, json, counts)?;
    push_closing(text, json)
}

/// Pushes a line of counts on a port.
#[tactic(auto, unfolding(crate::specs::Text::port_line))]
fn push_port_line(
    text: &mut Vec<u8>,
    json: bool,
    kind: &str,
    port: u16,
    counts: &[(&str, u64)],
) -> Result<(), AllocError>
    ensures { OnOk result (text.new.items ≡ text.old.items
        ++ port_line json kind.now port (map (λ count. (count.0.now, count.1)) counts.now)) }
{
    push_opening(text, json, kind)?;
    push_subject(text, json, port)?;
    push_all_named(text, json, counts)?;
    push_closing(text, json)
}

/// Pushes the line of the trace.
#[tactic(auto, unfolding(crate::specs::Text::trace_line))]
pub(crate) fn push_trace_line(
    text: &mut Vec<u8>,
    json: bool,
    totals: Totals,
) -> Result<(), AllocError>
    ensures { OnOk result (text.new.items ≡ text.old.items ++ trace_line json totals) }
{
    push_line(
        text,
        json,
        "trace",
        &[
            ("records", totals.records),
            ("bytes", totals.bytes),
            ("span", totals.greatest.saturating_sub(totals.least)),
            ("backward", totals.backward),
        ],
    )
}

/// What is told of a port.
#[tactic(auto, unfolding(crate::specs::Text::row_counts))]
fn row_counts(start: u64, row: Row) -> [(&'static str, u64); 7]
    ensures { map (λ count. (count.0.now, count.1)) result ≡ row_counts start row }
{
    let other = row
        .records
        .saturating_sub(row.media)
        .saturating_sub(row.parity);
    [
        ("records", row.records),
        ("bytes", row.bytes),
        ("first", row.first.saturating_sub(start)),
        ("last", row.last.saturating_sub(start)),
        ("media", row.media),
        ("parity", row.parity),
        ("other", other),
    ]
}

/// Pushes the line of a port, where it has a record.
#[tactic(auto, unfolding(crate::specs::Text::row_line))]
pub(crate) fn push_row_line(
    text: &mut Vec<u8>,
    json: bool,
    start: u64,
    port: u16,
    row: Row,
) -> Result<(), AllocError>
    ensures { OnOk result (text.new.items ≡ text.old.items ++ row_line json start port row) }
{
    if row.records == 0 {
        return Ok(());
    }
    push_port_line(text, json, "port", port, &row_counts(start, row))
}

/// What is told of a burst.
#[tactic(auto, unfolding(crate::specs::Text::burst_counts))]
fn burst_counts(start: u64, sender: Sender, burst: Burst) -> [(&'static str, u64); 4]
    ensures { map (λ count. (count.0.now, count.1)) result ≡ burst_counts start sender burst }
{
    [
        ("ssrc", u64::from(sender.ssrc)),
        ("slot", burst.slot),
        ("length", burst.length),
        ("at", burst.at.saturating_sub(start)),
    ]
}

/// What is told of a stream's bursts by their lengths.
#[tactic(auto, unfolding(crate::specs::Text::lengths_counts))]
fn lengths_counts(sender: Sender, lengths: Lengths) -> [(&'static str, u64); 9]
    ensures { map (λ count. (count.0.now, count.1)) result ≡ lengths_counts sender lengths }
{
    let Lengths {
        runs,
        one,
        two,
        four,
        eight,
        sixteen,
        thirty_two,
        more,
    } = lengths;
    [
        ("ssrc", u64::from(sender.ssrc)),
        ("runs", runs),
        ("1", one),
        ("2", two),
        ("4", four),
        ("8", eight),
        ("16", sixteen),
        ("32", thirty_two),
        ("more", more),
    ]
}

/// What is told of a stream's pace.
#[tactic(auto, unfolding(crate::specs::Text::pace_counts))]
fn pace_counts(start: u64, sender: Sender, pace: Pace) -> [(&'static str, u64); 5]
    ensures { map (λ count. (count.0.now, count.1)) result ≡ pace_counts start sender pace }
{
    [
        ("ssrc", u64::from(sender.ssrc)),
        ("last", microseconds(pace.jitter)),
        ("most", microseconds(pace.most)),
        ("silence", pace.silence.length),
        ("at", pace.silence.since.saturating_sub(start)),
    ]
}

/// Pushes how many media datagrams are of streams that aren't told, if there are any.
#[tactic(auto, unfolding(crate::specs::Text::more_line))]
pub(crate) fn push_more_line(text: &mut Vec<u8>, json: bool, count: u64) -> Result<(), AllocError>
    ensures { OnOk result (text.new.items ≡ text.old.items ++ more_line json count) }
{
    if count == 0 {
        return Ok(());
    }
    push_line(text, json, "more", &[("streams", count)])
}

/// What is told of a stream.
#[tactic(auto, unfolding(crate::specs::Text::stream_counts))]
fn stream_counts(sender: Sender, stream: &Stream) -> [(&'static str, u64); 11]
    ensures { map (λ count. (count.0.now, count.1)) result ≡ stream_counts sender (told stream.now) }
{
    let counts = stream.counts();
    let expected = stream.expected();
    [
        ("ssrc", u64::from(sender.ssrc)),
        ("first", stream.first()),
        ("expected", expected),
        ("received", counts.received),
        ("lost", expected.saturating_sub(counts.received)),
        ("duplicate", counts.duplicate),
        ("late", counts.late),
        ("reordered", counts.reordered),
        ("deepest", counts.deepest),
        ("jumps", counts.jumps),
        ("pids", stream.pids()),
    ]
}

/// Pushes the lines of bursts.
fn push_burst_lines(
    text: &mut Vec<u8>,
    json: bool,
    start: u64,
    sender: Sender,
    bursts: &[Burst],
) -> Result<(), AllocError>
    ensures { OnOk result (text.new.items ≡ text.old.items
        ++ flat_map (burst_line json start sender) bursts.now) }
{
    for burst in bursts {
        let counts = burst_counts(start, sender, *burst);
        push_port_line(text, json, "burst", sender.port, &counts)?;
    }
    Ok(())
}

/// Pushes all lines of a stream that has ended.
pub(crate) fn push_stream_lines(
    text: &mut Vec<u8>,
    json: bool,
    start: u64,
    sender: Sender,
    stream: &Stream,
) -> Result<(), AllocError>
    ensures { OnOk result (text.new.items ≡ text.old.items
        ++ stream_lines json start sender (told stream.now)) }
{
    let counts = stream_counts(sender, stream);
    push_port_line(text, json, "stream", sender.port, &counts)?;
    let lengths = lengths_counts(sender, stream.lengths());
    push_port_line(text, json, "bursts", sender.port, &lengths)?;
    push_burst_lines(text, json, start, sender, stream.longest())?;
    let pace = pace_counts(start, sender, stream.pace());
    push_port_line(text, json, "jitter", sender.port, &pace)
}

/// Pushes how the trace ended, if it is one.
pub(crate) fn push_tail_line(text: &mut Vec<u8>, json: bool, tail: Tail) -> Result<(), AllocError>
    ensures { OnOk result (text.new.items ≡ text.old.items ++ tail_line json tail) }
{
    match tail {
        Tail::Ended => push_ended(text, json),
        Tail::Cut(place) => push_place(text, json, "cut", place),
        Tail::TooLong(place) => push_place(text, json, "too long", place),
    }
}

/// Pushes the line of a trace that ended behind a whole record.
fn push_ended(text: &mut Vec<u8>, json: bool) -> Result<(), AllocError>
    ensures { OnOk result (text.new.items ≡ text.old.items ++ ended_line json) }
{
    if json {
        text.extend_from_slice(b"{\"kind\":\"tail\",\"end\":\"ended\"}\n")
    } else {
        text.extend_from_slice(b"tail ended\n")
    }
}

/// Pushes the line of a trace that ended early, at this byte.
fn push_place(text: &mut Vec<u8>, json: bool, end: &str, place: u64) -> Result<(), AllocError>
    ensures { OnOk result (text.new.items ≡ text.old.items ++ early_line json end.now place) }
{
    if json {
        push_early_object(text, end, place)
    } else {
        push_early_line(text, end, place)
    }
}

/// The same as a line.
fn push_early_line(text: &mut Vec<u8>, end: &str, place: u64) -> Result<(), AllocError>
    ensures { OnOk result (text.new.items ≡ text.old.items ++ early_line false end.now place) }
{
    text.extend_from_slice(b"tail ")?;
    text.extend_from_slice(end.as_bytes())?;
    text.extend_from_slice(b" at byte ")?;
    push_number(text, place)?;
    text.extend_from_slice(b"\n")
}

/// The same as an object.
fn push_early_object(text: &mut Vec<u8>, end: &str, place: u64) -> Result<(), AllocError>
    ensures { OnOk result (text.new.items ≡ text.old.items ++ early_line true end.now place) }
{
    text.extend_from_slice(b"{\"kind\":\"tail\",\"end\":\"")?;
    text.extend_from_slice(end.as_bytes())?;
    text.extend_from_slice(b"\",\"byte\":")?;
    push_number(text, place)?;
    text.extend_from_slice(b"}\n")?;
    Ok(())
}

/// What is told of a matrix.
#[tactic(auto, unfolding(crate::specs::Text::matrix_counts))]
fn matrix_counts(matrix: Matrix) -> [(&'static str, u64); 5]
    ensures { map (λ count. (count.0.now, count.1)) result ≡ matrix_counts matrix }
{
    [
        ("columns", matrix.columns),
        ("rows", matrix.rows),
        ("same", matrix.same),
        ("other", matrix.other),
        ("lag", matrix.lag),
    ]
}

/// Pushes the line of a matrix.
#[tactic(auto, unfolding(crate::specs::Text::matrix_line))]
pub(crate) fn push_matrix_line(
    text: &mut Vec<u8>,
    json: bool,
    port: u16,
    matrix: Matrix,
) -> Result<(), AllocError>
    ensures { OnOk result (text.new.items ≡ text.old.items ++ matrix_line json port matrix) }
{
    push_port_line(text, json, "matrix", port, &matrix_counts(matrix))
}

/// What the words for a repair say: the port of its flow, the window and the depth.
#[derive(Clone, Copy)]
pub(crate) struct Words {
    pub(crate) port: u16,
    pub(crate) window: u64,
    pub(crate) depth: u64,
}

/// Pushes the words for a repair.
pub(crate) fn push_words_line(
    text: &mut Vec<u8>,
    json: bool,
    words: Words,
) -> Result<(), AllocError>
    ensures { OnOk result (text.new.items ≡ text.old.items
        ++ words_line json words.port words.window words.depth) }
{
    if json {
        push_words_object(text, words)
    } else {
        push_words(text, words)
    }
}

/// The same as an object.
#[tactic(auto, unfolding(crate::specs::Text::words_line))]
fn push_words_object(text: &mut Vec<u8>, words: Words) -> Result<(), AllocError>
    ensures { OnOk result (text.new.items ≡ text.old.items
        ++ words_line true words.port words.window words.depth) }
{
    push_line(
        text,
        true,
        "words",
        &[
            ("flow", u64::from(words.port)),
            ("window", words.window),
            ("depth", words.depth),
        ],
    )
}

/// Pushes some words and a number.
fn push_setting(text: &mut Vec<u8>, words: &str, number: u64) -> Result<(), AllocError>
    ensures { OnOk result (text.new.items ≡ text.old.items ++ (words.now ++ decimal number)) }
{
    text.extend_from_slice(words.as_bytes())?;
    push_number(text, number)
}

/// The same as a line.
#[tactic(auto, unfolding(crate::specs::Text::words_line))]
fn push_words(text: &mut Vec<u8>, words: Words) -> Result<(), AllocError>
    ensures { OnOk result (text.new.items ≡ text.old.items
        ++ words_line false words.port words.window words.depth) }
{
    push_setting(text, "words flow=", u64::from(words.port))?;
    push_setting(text, " window=", words.window)?;
    push_setting(text, " depth=", words.depth)?;
    text.extend_from_slice(b"\n")?;
    Ok(())
}
