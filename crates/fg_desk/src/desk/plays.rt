//! A desk's plays: of windows that are due, of what is left, and of words that have waited long enough.

ghost use Rattle.std.specs.Prelude.{◌≡◌, ◌≢◌, ◌+◌, ◌-◌, ◌<◌, ◌≤◌, length, Option, Some, None, IsSome, IfSome, IfNone, option_map};
ghost use Rattle.fg_playout.specs.Room.{HasRoom, call_limit};
ghost use Rattle.fg_desk.specs.Contents.{ChangesInPlay, kept_from};
ghost use Rattle.fg_playout.specs.Admission.{counted};
ghost use Rattle.fg_playout.specs.Play.{IsPlay, Flushes};
ghost use Rattle.fg_playout.specs.Held.{IsHeldStep};

use crate::closing::{close_first, count_to, find};
use crate::desk::{Desk, Played};
use crate::tray::Tray;
use fg_unwrap::position;

impl Desk {
    /// Plays a window. The tray then has the words, and which of them were repaired.
    pub fn play(&mut self, tray: &mut Tray) -> Played
        requires room { HasRoom self.old.state }
        requires started { IsSome self.old.state.top }
        requires tray { self.old.state.playout.window ≤ tray.old.window }
        ensures play { IsPlay self.old.state.playout.window self.old.state
            (record { first = result.first; shown = tray.new.shown; outcome = result.verdict })
            self.new.state }
        ensures count { result.count ≡ length tray.new.shown }
        ensures tray { tray.new.window ≡ tray.old.window }
        ensures changes { ChangesInPlay result.verdict self.old self.new }
    {
        let played = self.play_in_place();
        tray.show_kept(&self.buffer, played.first, played.count);
        played
    }

    /// Plays a window and copies nothing: the desk keeps the words, so `word` tells what each position
    /// showed, and `repaired` whether the word was repaired. 100 positions are kept, and a play has no
    /// more.
    pub fn play_in_place(&mut self) -> Played
        requires room { HasRoom self.old.state }
        requires started { IsSome self.old.state.top }
        ensures play { IsPlay self.old.state.playout.window self.old.state (record {
          first = result.first;
          shown = kept_from self.new result.first result.count;
          outcome = result.verdict;
        }) self.new.state }
        ensures count { result.count ≡ self.old.state.playout.window }
        ensures changes { ChangesInPlay result.verdict self.old self.new }
    {
        self.play_first(self.window)
    }

    /// Plays up to the highest position that has a word or follows, and at most a window. None
    /// where none is left to be played: then the tray is as it was.
    pub fn flush_step(&mut self, tray: &mut Tray) -> Option<Played>
        requires room { HasRoom self.old.state }
        requires tray { self.old.state.playout.window ≤ tray.old.window }
        ensures flushes { Flushes self.old.state (option_map (λ played. record {
          first = played.first;
          shown = tray.new.shown;
          outcome = played.verdict;
        }) result) self.new.state }
        ensures some { IfSome result (λ played. (played.count ≡ length tray.new.shown)
            × ChangesInPlay played.verdict self.old self.new) }
        ensures none { IfNone result ((self.new ≡ record self.old { state = self.new.state })
            × (tray.new ≡ tray.old)) }
        ensures tray { tray.new.window ≡ tray.old.window }
    {
        let Some(step) = self.flush_step_in_place() else {
            return None;
        };
        tray.show_kept(&self.buffer, step.first, step.count);
        Some(step)
    }

    /// A flush step that copies nothing: the desk keeps the words, as after `play_in_place`. None where
    /// none is left to be played.
    pub fn flush_step_in_place(&mut self) -> Option<Played>
        requires room { HasRoom self.old.state }
        ensures flushes { Flushes self.old.state (option_map (λ played. record {
          first = played.first;
          shown = kept_from self.new played.first played.count;
          outcome = played.verdict;
        }) result) self.new.state }
        ensures some { IfSome result (λ played. (1 ≤ played.count)
            × (played.count ≤ self.old.state.playout.window)
            × ChangesInPlay played.verdict self.old self.new) }
        ensures none { IfNone result (self.new ≡ record self.old { state = self.new.state }) }
    {
        let found = find(&mut self.buffer, &mut self.lines, &mut self.watches);
        let first = self.buffer.mark();
        self.calls += 1;
        let Some(highest) = self.buffer.highest() else {
            return None;
        };
        let count = count_to(self.window, first, highest);
        Some(close_first(
            &mut self.buffer,
            &mut self.lines,
            &mut self.watches,
            &mut self.waiting,
            &mut self.epoch,
            found,
            count,
        ))
    }

    /// Tells the desk the time of a datagram, in microseconds, and then plays up to the greatest position
    /// whose word has waited for as long as one may, or longer, and at most a window. None where no word
    /// has: then the tray is as it was, but the desk has been told the time.
    pub fn held_step(&mut self, time: u64, tray: &mut Tray) -> Option<Played>
        requires room { HasRoom self.old.state }
        requires limited { self.old.state.playout.hold ≢ 0 }
        requires tray { self.old.state.playout.window ≤ tray.old.window }
        ensures held { IsHeldStep self.old.state time (option_map (λ played. record {
          first = played.first;
          shown = tray.new.shown;
          outcome = played.verdict;
        }) result) self.new.state }
        ensures some { IfSome result (λ played. (played.count ≡ length tray.new.shown)
            × ChangesInPlay played.verdict self.old self.new) }
        ensures none { IfNone result ((self.new ≡ record self.old { state = self.new.state })
            × (tray.new ≡ tray.old)) }
        ensures tray { tray.new.window ≡ tray.old.window }
    {
        let Some(step) = self.held_step_in_place(time) else {
            return None;
        };
        tray.show_kept(&self.buffer, step.first, step.count);
        Some(step)
    }

    /// A held step that copies nothing: the desk keeps the words, as after `play_in_place`. None where no
    /// word has waited long enough.
    #[inline]
    pub fn held_step_in_place(&mut self, time: u64) -> Option<Played>
        requires room { HasRoom self.old.state }
        requires limited { self.old.state.playout.hold ≢ 0 }
        ensures held { IsHeldStep self.old.state time (option_map (λ played. record {
          first = played.first;
          shown = kept_from self.new played.first played.count;
          outcome = played.verdict;
        }) result) self.new.state }
        ensures some { IfSome result (λ played. (1 ≤ played.count)
            × (played.count ≤ self.old.state.playout.window)
            × ChangesInPlay played.verdict self.old self.new) }
        ensures none { IfNone result (self.new ≡ record self.old { state = self.new.state }) }
    {
        let Some(greatest) = self.tell(time) else {
            self.count_call();
            return None;
        };
        let count = count_to(self.window, self.buffer.mark(), greatest);
        Some(self.play_first(count))
    }

    /// Counts a call that changes nothing else.
    #[inline]
    fn count_call(&mut self)
        requires { self.old.state.calls < call_limit }
        ensures { self.new ≡ record self.old { state = counted self.old.state } }
    {
        self.calls += 1;
    }

    /// Plays the first `count` positions, of which 100 are kept at most.
    #[inline(never)]
    fn play_first(&mut self, count: u32) -> Played
        requires room { HasRoom self.old.state }
        requires started { IsSome self.old.state.top }
        requires some { 1 ≤ count }
        requires most { count ≤ 100 }
        ensures play { IsPlay count self.old.state (record {
          first = result.first;
          shown = kept_from self.new result.first result.count;
          outcome = result.verdict;
        }) self.new.state }
        ensures count { result.count ≡ count }
        ensures changes { ChangesInPlay result.verdict self.old self.new }
    {
        let found = find(&mut self.buffer, &mut self.lines, &mut self.watches);
        self.calls += 1;
        close_first(
            &mut self.buffer,
            &mut self.lines,
            &mut self.watches,
            &mut self.waiting,
            &mut self.epoch,
            found,
            count,
        )
    }
}
