//! What windows that show nothing do: the mark moves past them at once.

ghost use Rattle.std.specs.Prelude.{◌≡◌, ◌≢◌, ◌+◌, ◌*◌, ◌<◌, ◌≤◌, ℕ, [], None};
ghost use Rattle.fg_playout.specs.Room.{farthest_limit};
ghost use Rattle.fg_buffer.specs.PlayoutBuffer.{buffer_words};
ghost use Rattle.fg_desk.specs.Skipping.{PassesWindows};
ghost use Rattle.fg_desk.specs.Storage.{equations_in};

use crate::holding::move_on;
use fg_buffer::{LiveEquations, PlayoutBuffer};
use fg_hold::Waiting;
use fg_playout::FARTHEST_LIMIT;

/// Moves the mark past the next whole windows that have no word, up to a position and so many at most, where no equation is
/// live. Answers how many, and for 0 nothing changes.
pub(crate) fn skip_windows(
    buffer: &mut PlayoutBuffer,
    lines: &LiveEquations,
    waiting: &mut Waiting,
    window: u32,
    until: u64,
    most: u64,
) -> u64
    requires window { 1 ≤ window }
    requires reach { buffer.old.reach ≤ 1100 }
    ensures none { result ≡ 0 → (buffer.new ≡ buffer.old) × (waiting.new ≡ waiting.old) }
    ensures some { result ≢ 0 → PassesWindows window until most result lines.now buffer.old waiting.old
        buffer.new waiting.new }
{
    let first = buffer.mark();
    let count = empty_windows(buffer, lines, window, until).min(most);
    if count > 0 {
        let passed = count * u64::from(window);
        buffer.skip(passed);
        move_on(waiting, first + passed);
    }
    count
}

/// How many whole windows from the mark on have no word, up to a position, where no equation is live. Where one is, it is 0.
fn empty_windows(buffer: &PlayoutBuffer, lines: &LiveEquations, window: u32, until: u64) -> u64
    requires window { 1 ≤ window }
    ensures equations { result ≢ 0 → equations_in lines.now ≡ [] }
    ensures empty { (position : ℕ) → buffer.now.mark ≤ position → position < buffer.now.mark + result * window
        → buffer_words buffer.now position ≡ None }
    ensures near { result ≢ 0 → buffer.now.mark + result * window ≤ until }
    ensures limit { result ≢ 0 → buffer.now.mark + result * window ≤ farthest_limit }
{
    if lines.count() > 0 {
        return 0;
    }
    let ahead = until.min(FARTHEST_LIMIT).saturating_sub(buffer.mark());
    buffer.empty_ahead(ahead) / u64::from(window)
}
