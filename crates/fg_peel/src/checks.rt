//! The verdict on finished words.

ghost use Rattle.std.specs.Prelude.{◌<◌, ◌≤◌, ◌↔◌, ◌≡◌, false, length, slice_index_or, IsTrue, IfSome, IfNone, IsSomeAnd};
ghost use Rattle.fg_peel.specs.declared.Slot.{Slot};
ghost use Rattle.fg_peel.specs.Equation.{IsComplete, ComesOut, AllComeOut, AreMedia};
ghost use Rattle.fg_peel.specs.Slots.{equation_of, equations_of};
ghost use Rattle.fg_peel.specs.Span.{words_in, recovered_words_in, IsWithinLimit, HasSlots, HasAllSlots};
ghost use Rattle.fg_peel.specs.Verdict.{IsLeast, IsNoMedia, BreaksAt, IsVerdict};
ghost use Rattle.fg_peel.specs.Recovery.{RecoversMedia};

use crate::span::{Missing, Span};
use crate::{EntryRow, Line, Verdict};
use slab::Slab;

/// Whether an entry's word, if it was recovered, is a media word.
fn recovers_media<E: EntryRow>(entries: &E, index: usize) -> bool
    requires { index < length (E.slots entries.now) }
    ensures { IsTrue result ↔ RecoversMedia (slice_index_or (E.slots entries.now) index Slot.Empty) }
{
    match entries.recovered(index) {
        Some(word) => word.is_media(),
        None => true,
    }
}

/// The least position whose recovered word is no media word. `all_media` tells that there is none.
fn first_not_media<E: EntryRow>(span: &Span<'_, E>, all_media: bool) -> Option<u64>
    requires limit { IsWithinLimit E.slots span.now }
    requires media { IsTrue all_media → AreMedia (recovered_words_in E.slots span.now) }
    ensures least { IfSome result (IsLeast (IsNoMedia (recovered_words_in E.slots span.now))) }
    ensures none { IfNone result (AreMedia (recovered_words_in E.slots span.now)) }
{
    if all_media {
        return None;
    }
    for i in 0..span.entries.count() {
        if !recovers_media(span.entries, i) {
            return Some(span.start + i as u64);
        }
    }
    None
}

/// Whether all slots of a line have words that don't sum to its parity word.
fn is_broken<E: EntryRow>(span: &Span<'_, E>, line: &Line) -> bool
    requires { HasSlots E.slots span.now line.now }
    ensures complete { IsTrue result → IsComplete (words_in E.slots span.now) (equation_of line.now) }
    ensures broken { IsTrue result → ¬ ComesOut (words_in E.slots span.now) (equation_of line.now) }
    ensures whole { result ≡ false → IsComplete (words_in E.slots span.now) (equation_of line.now)
        → ComesOut (words_in E.slots span.now) (equation_of line.now) }
{
    match span.missing(line) {
        Missing::Nothing => !span.comes_out(line),
        Missing::One(_) | Missing::Several => false,
    }
}

/// The least place of a line that is broken.
fn first_broken<E: EntryRow>(span: &Span<'_, E>, lines: &Slab<Line>) -> Option<u32>
    requires { HasAllSlots E.slots span.now lines.now }
    ensures least { IfSome result (IsLeast (BreaksAt (words_in E.slots span.now) lines.now)) }
    ensures none { IfNone result (AllComeOut (words_in E.slots span.now) (equations_of lines.now)) }
{
    let mut least: Option<u32> = None;
    for (_, line) in lines.iter() {
        if is_new_least(line.place, least) && is_broken(span, line) {
            least = Some(line.place);
        }
    }
    least
}

/// Whether a place is less than the least one so far.
fn is_new_least(place: u32, least: Option<u32>) -> bool
    ensures less { IsTrue result → IfSome least (λ other. place < other) }
    ensures not_less { result ≡ false → IsSomeAnd least (λ other. other ≤ place) }
{
    match least {
        Some(other) => place < other,
        None => true,
    }
}

/// The verdict on the words of a span. `all_media` tells that the recovered ones are media words.
pub(crate) fn verdict_on<E: EntryRow>(
    span: &Span<'_, E>,
    lines: &Slab<Line>,
    all_media: bool,
) -> Verdict
    requires lines { HasAllSlots E.slots span.now lines.now }
    requires media { IsTrue all_media → AreMedia (recovered_words_in E.slots span.now) }
    ensures { IsVerdict (recovered_words_in E.slots span.now)
        (words_in E.slots span.now) lines.now result }
{
    if let Some(slot) = first_not_media(span, all_media) {
        return Verdict::NotMedia { slot };
    }
    match first_broken(span, lines) {
        Some(place) => Verdict::Unsound { place },
        None => Verdict::Sound,
    }
}
