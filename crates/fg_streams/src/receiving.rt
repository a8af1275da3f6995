//! Receiving the datagrams of a stream at their positions.
ghost use Rattle.std.specs.Prelude.{◌≡◌, ◌+◌, ◌-◌, ◌<◌, ◌≤◌, ◌^◌, ℕ, List, Option, None, Some, IfOk, IfSome, OnOk, length};
ghost use Rattle.fg_streams.specs.Arrival.{Arrival, span_of};
ghost use Rattle.fg_streams.specs.Bursts.{times_of};
ghost use Rattle.fg_streams.specs.Steps.{HasReceived, Keeps, fate_by, times_after};

use crate::fates::Fate;
use crate::span::Span;
use crate::times::Times;
use std::alloc::AllocError;

/// Receives a datagram with this number that came at that time, unless it is late or its position has one, and answers its
/// fate.
pub(crate) fn receive(
    span: &mut Option<Span>,
    times: &mut Times,
    seq: u16,
    time: u64,
) -> Result<Fate, AllocError>
    requires low { IfSome span.old (λ s. s.top < 2 ^ 57) }
    requires known { (before : List Arrival) × (span.old ≡ span_of before) × Keeps times.old (times_of before) }
    ensures received { IfOk result (λ fate. (before : List Arrival) (ts : ℕ) (payload : List ℕ)
        → span.old ≡ span_of before → Keeps times.old (times_of before)
        → HasReceived before (record { time = time; seq = seq; ts = ts; payload = payload }) span.new times.new fate) }
    ensures first { span.old ≡ None → IfSome span.new (λ s. s.top < 65536) }
    ensures near { IfSome span.old (λ old. IfSome span.new (λ new. new.top < old.top + 65536)) }
{
    match *span {
        None => {
            let first = u64::from(seq);
            *span = Some(Span { first, top: first });
            times.push(Some(time))?;
            Ok(Fate::Ahead(0))
        }
        Some(known) => receive_later(known, span, times, seq, time),
    }
}

/// The same of one that isn't the first.
fn receive_later(
    known: Span,
    span: &mut Option<Span>,
    times: &mut Times,
    seq: u16,
    time: u64,
) -> Result<Fate, AllocError>
    requires is { span.old ≡ Some known }
    requires low { known.top < 2 ^ 57 }
    requires known { (before : List Arrival) × (Some known ≡ span_of before) × Keeps times.old (times_of before) }
    ensures received { IfOk result (λ fate. (before : List Arrival) (ts : ℕ) (payload : List ℕ)
        → Some known ≡ span_of before → Keeps times.old (times_of before)
        → HasReceived before (record { time = time; seq = seq; ts = ts; payload = payload }) span.new times.new fate) }
    ensures near { IfSome span.new (λ new. new.top < known.top + 65536) }
{
    match known.place(seq) {
        None => Ok(Fate::Late),
        Some(place) => {
            let fate = receive_at(known, place, times, time)?;
            *span = Some(known.raise(place));
            Ok(fate)
        }
    }
}

/// Receives a datagram of this position, unless it has one, and answers its fate.
fn receive_at(span: Span, place: u64, times: &mut Times, time: u64) -> Result<Fate, AllocError>
    requires low { span.top < 2 ^ 57 }
    requires near { place < span.top + 65536 }
    requires within { span.first ≤ place }
    requires in_time { span.top < place + 1024 }
    requires rises { span.first ≤ span.top }
    requires known { (all : List (Option ℕ)) × Keeps times.old all × (length all ≡ span.top - span.first + 1) }
    ensures fate { IfOk result (λ fate. (all : List (Option ℕ)) → Keeps times.old all
        → length all ≡ span.top - span.first + 1 → fate ≡ fate_by span place all) }
    ensures times { OnOk result ((all : List (Option ℕ)) → Keeps times.old all
        → length all ≡ span.top - span.first + 1 → Keeps times.new (times_after span place time all)) }
{
    if place <= span.top {
        return Ok(receive_behind(span, place, times, time));
    }
    times.skip(place - span.top - 1)?;
    times.push(Some(time))?;
    Ok(Fate::Ahead(place - span.top))
}

/// The same of a position that isn't past the top.
fn receive_behind(span: Span, place: u64, times: &mut Times, time: u64) -> Fate
    requires behind { place ≤ span.top }
    requires within { span.first ≤ place }
    requires in_time { span.top < place + 1024 }
    requires known { (all : List (Option ℕ)) × Keeps times.old all × (length all ≡ span.top - span.first + 1) }
    ensures fate { (all : List (Option ℕ)) → Keeps times.old all
        → length all ≡ span.top - span.first + 1 → result ≡ fate_by span place all }
    ensures times { (all : List (Option ℕ)) → Keeps times.old all
        → length all ≡ span.top - span.first + 1 → Keeps times.new (times_after span place time all) }
{
    let behind = span.top - place;
    match times.get(behind) {
        Some(_) => Fate::Duplicate,
        None => {
            times.set(behind, time);
            if place < span.top {
                Fate::Behind(behind)
            } else {
                Fate::Ahead(0)
            }
        }
    }
}
