//! What is counted of a flow.
ghost use Rattle.std.specs.Prelude.{◌≡◌, ◌+◌, ◌*◌, ◌<◌, ◌≤◌, ◌++◌, ℕ, [], ◌∷◌, OnOk, OnErr};
ghost use Rattle.std.specs.List.{count_by};
ghost use Rattle.std.specs.Option.{option_copied};
ghost use Rattle.fg_shape.specs.Shape.{position_limit};
ghost use Rattle.fg_playout.specs.Play.{Play};
ghost use Rattle.fg_playout.specs.Empty.{empty_plays};
ghost use Rattle.fg_results.specs.Flow.{is_inconsistent, shown_payload};
ghost use Rattle.fg_engine.specs.Steps.{MarksHaveRoom, RepliesHaveRoom, CountsWithin, SkipsWithin, with_reply, with_answer, with_shown, with_plays};

use crate::play::{TakesPayloads, payload};
use crate::window::Skipped;
use fg_desk::{Outcome, Played, Reply};
use fg_flows::Kind;
use fg_report::{FlowSum, Marks};
use fg_words::Word;
use std::alloc::AllocError;

/// Counts the reply to a datagram. With none its reader refused it.
pub(crate) fn count_reply(marks: &mut Marks, reply: Option<Reply>)
    requires { MarksHaveRoom marks.old }
    ensures { marks.new ≡ with_reply marks.old reply }
{
    match reply {
        Some(Reply::Admitted) => marks.admitted += 1,
        Some(Reply::Duplicate) => marks.duplicate += 1,
        Some(Reply::Conflict) => marks.conflict += 1,
        Some(Reply::Late) => marks.late += 1,
        Some(Reply::NotStarted) => marks.not_started += 1,
        Some(Reply::BeforeStart) => marks.before_start += 1,
        Some(Reply::Ahead) => marks.ahead += 1,
        Some(Reply::Crowded) => marks.crowded += 1,
        Some(Reply::Foreign) => marks.foreign += 1,
        None => marks.bad += 1,
    }
}

/// Counts the reply to a datagram of this kind.
pub(crate) fn count_answer(sum: &mut FlowSum, kind: Kind, reply: Option<Reply>)
    requires { RepliesHaveRoom sum.old }
    ensures { sum.new ≡ with_answer kind sum.old reply }
{
    match kind {
        Kind::Media => count_reply(&mut sum.media, reply),
        Kind::Column => count_reply(&mut sum.column, reply),
        Kind::Row => count_reply(&mut sum.row, reply),
    }
}

/// Counts a play with this outcome.
pub(crate) fn count_play(sum: &mut FlowSum, outcome: Outcome)
    requires windows { sum.old.windows < position_limit }
    requires inconsistent { sum.old.inconsistent < position_limit }
    ensures { (play : Play) → play.outcome ≡ outcome → sum.new ≡ record sum.old {
      windows = sum.old.windows + 1;
      inconsistent = sum.old.inconsistent + count_by is_inconsistent (play ∷ []);
    } }
{
    sum.windows += 1;
    match outcome {
        Outcome::Repaired => {}
        Outcome::Inconsistent => sum.inconsistent += 1,
    }
}

/// Counts windows that were skipped after this play.
pub(crate) fn count_skipped(
    sum: &mut FlowSum,
    played: Played,
    skipped: Skipped,
) -> Result<(), AllocError>
    requires { SkipsWithin sum.old (played.first + played.count) skipped }
    ensures counts { OnOk result ((window : ℕ) → skipped.positions ≡ skipped.windows * window
        → sum.new ≡ with_plays sum.old (played.first + played.count)
        (empty_plays skipped.windows window (played.first + played.count))) }
    ensures port { sum.new.port ≡ sum.old.port }
{
    if skipped.positions == 0 {
        return Ok(());
    }
    sum.windows += skipped.windows;
    sum.missing += skipped.positions;
    sum.gaps
        .add(played.first + u64::from(played.count), skipped.positions)
}

/// Counts a position that was played, and adds its word's payload to the flow's bytes.
pub(crate) fn show<B: TakesPayloads>(
    sum: &mut FlowSum,
    lane: &mut B,
    position: u64,
    word: Option<&Word>,
    repaired: bool,
) -> Result<(), AllocError>
    requires within { CountsWithin sum.old position }
    requires limit { position < position_limit }
    ensures counts { OnOk result (sum.new ≡ with_shown sum.old position
        (record { word = option_copied word.entry; repaired = repaired } ∷ [])) }
    ensures lane { OnOk result (B.bytes lane.new ≡ B.bytes lane.old
        ++ shown_payload (record { word = option_copied word.entry; repaired = repaired })) }
    ensures unchanged { OnErr result (B.bytes lane.new ≡ B.bytes lane.old) }
    ensures port { sum.new.port ≡ sum.old.port }
{
    if repaired {
        sum.repaired += 1;
    }
    match word {
        Some(word) => {
            sum.shown += 1;
            lane.take_payload(payload(word))
        }
        None => {
            sum.missing += 1;
            sum.gaps.add(position, 1)
        }
    }
}
