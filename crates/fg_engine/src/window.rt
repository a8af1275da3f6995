//! A flow's window state as the engine sees it.
ghost use Rattle.std.specs.Prelude.{◌≡◌, ◌≢◌, ◌*◌, ◌<◌, ◌↔◌, List, length, Option, IsTrue, IsSome, IfSome, option_map};
ghost use Rattle.std.specs.List.{slice_index_or};
ghost use Rattle.std.specs.Option.{option_copied};
ghost use Rattle.fg_words.specs.Word.{IsMedia};
ghost use Rattle.fg_shape.specs.Shape.{IsShape};
ghost use Rattle.fg_desk.specs.declared.desk.Played.{Played};
ghost use Rattle.fg_playout.specs.State.{State};
ghost use Rattle.fg_playout.specs.Admission.{IsDue, IsFresh, AdmitsMedia, AdmitsParity};
ghost use Rattle.fg_playout.specs.Play.{IsPlay, Flushes, HasMore, Shown, nothing_shown};
ghost use Rattle.fg_playout.specs.Held.{IsHeldStep};
ghost use Rattle.fg_playout.specs.Laws.{HavePlayed, AreFlushSteps, AreHeldSteps};
ghost use Rattle.fg_playout.specs.Empty.{empty_plays};
ghost use Rattle.fg_playout.specs.Room.{HasRoom, farthest_limit};
ghost use Rattle.fg_engine.specs.Steps.{played_as};

use fg_desk::{Played, Reply};
use fg_shape::Shape;
use fg_words::{Shared, Word};

/// Windows that were played at once, one after another. They show nothing.
#[derive(Clone, Copy)]
pub struct Skipped {
    /// How many they are.
    pub windows: u64,
    /// How many positions they have.
    pub positions: u64,
}

/// What holds a flow's windows: it admits the flow's datagrams and plays its windows.
///
/// The engine sees the state of its desk as the engine's own calls have made it, whoever else works on it.
pub trait WindowState: Drop {
    /// The state of its desk.
    ghost state: { Self → State };

    /// What it shows of a play: of the one that it made last.
    ghost shows: { Self → Played → List Shown };

    /// How long a received word may wait, in microseconds by the times of the flow's datagrams. 0 where it may wait for ever.
    fn hold(&self) -> u64
        ensures { result ≡ (state self.now).playout.hold };

    /// Whether this SSRC is fresh: neither the current run's nor that of the run before. Before the first datagram none is.
    fn fresh(&self, ssrc: u32) -> bool
        ensures { IsTrue result ↔ IsFresh (state self.now) ssrc };

    /// Whether a play is due before a media datagram of this sequence number and SSRC is admitted.
    fn due(&self, seq: u16, ssrc: u32) -> bool
        ensures { IsTrue result ↔ IsDue (state self.now) seq ssrc };

    /// How many runs of a sender were begun.
    fn runs(&self) -> u64
        ensures { result ≡ (state self.now).runs };

    /// A share that was let go, where there is one, for the payload of the next datagram. Somebody else may have a share of
    /// the same word.
    fn spare(&mut self) -> Option<Shared>
        ensures { state self.new ≡ state self.old };

    /// Admits a media datagram, or says why not. A fresh SSRC begins a run. The share is let go with every reply but
    /// `Admitted`.
    fn admit_media(&mut self, seq: u16, ssrc: u32, share: Shared) -> Reply
        requires room { HasRoom (state self.old) }
        requires not_due { ¬ IsDue (state self.old) seq ssrc }
        requires flushed { IsFresh (state self.old) ssrc → ¬ HasMore (state self.old) }
        requires media { IsMedia share }
        ensures { AdmitsMedia (state self.old) seq ssrc share result (state self.new) };

    /// Admits a parity datagram's equation, or says why not. `base` is the sequence number of its base. The share is let go
    /// with every reply but `Admitted`.
    fn admit_parity(&mut self, base: u16, shape: Shape, share: Shared) -> Reply
        requires room { HasRoom (state self.old) }
        requires shape { IsShape shape.offset shape.na }
        ensures { AdmitsParity (state self.old)
            (record { base = base; offset = shape.offset; count = shape.na; word = share }) result (state self.new) };

    /// Plays a window. `word` and `repaired` then tell what it shows.
    fn play(&mut self) -> Played
        requires room { HasRoom (state self.old) }
        requires started { IsSome (state self.old).top }
        ensures play { IsPlay (state self.old).playout.window (state self.old)
            (played_as result (shows self.new result)) (state self.new) }
        ensures count { result.count ≡ length (shows self.new result) };

    /// Plays up to the highest position that has a word or follows, and at most a window. None where none is left to be
    /// played.
    fn flush_step(&mut self) -> Option<Played>
        requires { HasRoom (state self.old) }
        ensures flushes { Flushes (state self.old)
            (option_map (λ played. played_as played (shows self.new played)) result) (state self.new) }
        ensures count { IfSome result (λ played. played.count ≡ length (shows self.new played)) };

    /// Is told the time of a datagram, in microseconds, and plays up to the greatest position whose word has waited for as
    /// long as one may, and at most a window. None where no word has.
    fn held_step(&mut self, time: u64) -> Option<Played>
        requires room { HasRoom (state self.old) }
        requires limited { (state self.old).playout.hold ≢ 0 }
        ensures held { IsHeldStep (state self.old) time
            (option_map (λ played. played_as played (shows self.new played)) result) (state self.new) }
        ensures count { IfSome result (λ played. played.count ≡ length (shows self.new played)) };

    /// Plays at once so many of the next windows as show nothing and are due before a media datagram of this sequence number and
    /// SSRC. It may leave some of them, or all, to be played one by one.
    fn skip_due(&mut self, seq: u16, ssrc: u32) -> Skipped
        ensures plays { HavePlayed (state self.old) seq ssrc
            (empty_plays result.windows (state self.old).playout.window (state self.old).mark) (state self.new) }
        ensures positions { result.positions ≡ result.windows * (state self.old).playout.window };

    /// The same for steps of a flush.
    fn skip_rest(&mut self) -> Skipped
        ensures flushes { AreFlushSteps (state self.old)
            (empty_plays result.windows (state self.old).playout.window (state self.old).mark) (state self.new) }
        ensures positions { result.positions ≡ result.windows * (state self.old).playout.window };

    /// The same for held plays at a time, in microseconds, which it is told where there are any.
    fn skip_held(&mut self, time: u64) -> Skipped
        requires limited { (state self.old).playout.hold ≢ 0 }
        ensures held { AreHeldSteps (state self.old) time
            (empty_plays result.windows (state self.old).playout.window (state self.old).mark) (state self.new) }
        ensures positions { result.positions ≡ result.windows * (state self.old).playout.window };

    /// The word that the last play shows at its position `i`, counted from 0.
    fn word(&self, played: Played, i: u32) -> Option<&Word>
        requires limit { played.first < farthest_limit }
        requires within { i < length (shows self.now played) }
        ensures { option_copied result ≡ (slice_index_or (shows self.now played) i nothing_shown).word };

    /// Whether that word was not received, but recovered.
    fn repaired(&self, played: Played, i: u32) -> bool
        requires limit { played.first < farthest_limit }
        requires within { i < length (shows self.now played) }
        ensures { result ≡ (slice_index_or (shows self.now played) i nothing_shown).repaired };
}
