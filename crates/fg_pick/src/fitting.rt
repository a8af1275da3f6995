//! Which records fit.
ghost use Rattle.std.specs.Prelude.{◌≡◌, ◌≤◌, ◌<◌, ◌↔◌, ℕ, IsTrue, IfSome};
ghost use Rattle.std.specs.List.{Contains};
ghost use Rattle.fg_words.specs.declared.Word.{Word};
ghost use Rattle.fg_rtp.specs.MediaDatagram.{IsMediaDatagram};
ghost use Rattle.fg_pick.specs.Picked.{Fits, PicksSource};
ghost use Rattle.fg_pick.specs.Ports.{IsPortTable};

use crate::ports::PortTable;
use fg_flows::Selection;
use fg_rtp::laws::media_datagrams_read_one_way;
use fg_rtp::media_header;

/// Whether the record fits. The time is in microseconds.
pub(crate) fn fits(
    selection: &Selection,
    table: &PortTable,
    time: u64,
    port: u16,
    datagram: &[u8],
) -> bool
    requires { IsPortTable selection.now table.now.entries.items }
    ensures { IsTrue result
        ↔ Fits selection.now (record { time = time; port = port; datagram = datagram.now }) }
{
    if !table.has(port) {
        return false;
    }
    if !is_in_time(selection, time) {
        return false;
    }
    is_left(selection, datagram)
}

/// Whether the time is asked for.
fn is_in_time(selection: &Selection, time: u64) -> bool
    ensures { IsTrue result
        ↔ ((selection.now.from ≤ time) × IfSome selection.now.until (λ end. time < end)) }
{
    if time < selection.from {
        return false;
    }
    match selection.until {
        Some(end) => time < end,
        None => true,
    }
}

/// Whether the datagram is left by its source, or has none.
fn is_left(selection: &Selection, datagram: &[u8]) -> bool
    ensures { IsTrue result ↔ ((seq ssrc : ℕ) (word : Word) → IsMediaDatagram datagram.now seq ssrc word
        → PicksSource selection.now ssrc) }
{
    if selection.sources.as_slice().is_empty() && selection.without.as_slice().is_empty() {
        return true;
    }
    media_datagrams_read_one_way();
    match media_header(datagram) {
        Ok(header) => picks_source(selection, header.ssrc),
        Err(_) => true,
    }
}

/// Whether the source is left.
fn picks_source(selection: &Selection, ssrc: u32) -> bool
    ensures { IsTrue result ↔ PicksSource selection.now ssrc }
{
    let sources = selection.sources.as_slice();
    if !sources.is_empty() && !sources.contains(&ssrc) {
        return false;
    }
    !selection.without.as_slice().contains(&ssrc)
}
