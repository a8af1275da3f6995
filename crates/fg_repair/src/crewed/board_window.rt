//! A flow's windows on its board, for the thread that admits and plays.
ghost use Rattle.std.specs.Prelude.{◌≡◌, ◌≤◌};

use fg_board::{Admitter, Board};
use fg_crew::Hints;
use fg_desk::{Played, Reply, Tray};
use fg_engine::{Skipped, WindowState};
use fg_shape::Shape;
use fg_words::{Shared, Word};
use fg_workers::{CALLER, Hears, HeldEquation, PLAYING, Progress, Signal};
use std::sync::Wait;

const NONE_SKIPPED: Skipped = Skipped {
    windows: 0,
    positions: 0,
};

/// A flow's windows on its board. Its workers are told and hinted of what is admitted: before what plays, and in between after so
/// many datagrams.
#[derive(Drop)]
pub(crate) struct BoardWindow<'a, W: Wait, G: Hears> {
    pub(crate) wait: &'a W,
    pub(crate) gate: &'a G,
    pub(crate) hints: &'a Hints,
    pub(crate) signal: &'a Signal,
    pub(crate) board: &'a Board,
    /// Its number among the flows, which a hint names.
    pub(crate) flow: u32,
    pub(crate) progress: Progress,
    pub(crate) admitter: Admitter,
    /// What the last play shows.
    pub(crate) tray: Tray,
    ghost of_board: { admitter.seat.turn ≡ board.now.name },
    ghost holds_a_window: { admitter.playout.window ≤ tray.window },
}

impl<'a, W: Wait, G: Hears> WindowState for BoardWindow<'a, W, G> {
    ghost use Rattle.fg_board.specs.Actors.{desk_of};

    ghost state = { λ window. desk_of window.admitter };

    ghost shows = { λ window _. window.tray.shown };

    fn hold(&self) -> u64 {
        self.admitter.hold()
    }

    fn fresh(&self, ssrc: u32) -> bool {
        self.admitter.fresh(ssrc)
    }

    fn due(&self, seq: u16, ssrc: u32) -> bool {
        self.admitter.due(seq, ssrc)
    }

    fn runs(&self) -> u64 {
        self.admitter.runs()
    }

    fn spare(&mut self) -> Option<Shared> {
        self.admitter.spare()
    }

    fn admit_media(&mut self, seq: u16, ssrc: u32, share: Shared) -> Reply {
        let runs = self.admitter.runs();
        let reply = self
            .admitter
            .admit_media(self.wait, self.board, seq, ssrc, share);
        if let Reply::Admitted = reply {
            if self.admitter.runs() != runs {
                self.progress.begin(seq);
            }
            self.progress.add_media(&self.signal.arrivals, seq);
            self.signal
                .tell_much(&mut self.progress, self.wait, self.hints, self.flow);
        }
        reply
    }

    fn admit_parity(&mut self, base: u16, shape: Shape, share: Shared) -> Reply {
        let (reply, key) = self
            .admitter
            .admit_parity(self.wait, self.board, base, shape, share);
        if let Some(key) = key {
            self.signal.held.tell(HeldEquation {
                key,
                base: self.progress.position(base),
                shape,
            });
            self.progress.add();
            self.signal
                .tell_much(&mut self.progress, self.wait, self.hints, self.flow);
        }
        reply
    }

    fn play(&mut self) -> Played {
        prove!(self.admitter.room());
        self.signal
            .tell_progress(&mut self.progress, self.wait, self.hints, self.flow);
        self.gate.hear(CALLER, PLAYING);
        let played = self.admitter.play(self.wait, self.board, &mut self.tray);
        self.progress.play(played);
        played
    }

    fn flush_step(&mut self) -> Option<Played> {
        self.signal
            .tell_progress(&mut self.progress, self.wait, self.hints, self.flow);
        self.gate.hear(CALLER, PLAYING);
        let step = self
            .admitter
            .flush_step(self.wait, self.board, &mut self.tray);
        if let Some(played) = step {
            self.progress.play(played);
        }
        step
    }

    fn held_step(&mut self, time: u64) -> Option<Played> {
        self.gate.hear(CALLER, PLAYING);
        let step = self
            .admitter
            .held_step(self.wait, self.board, time, &mut self.tray);
        if let Some(played) = step {
            self.progress.play(played);
        }
        step
    }

    fn skip_due(&mut self, seq: u16, ssrc: u32) -> Skipped {
        let mark = self.admitter.mark();
        let windows = self.admitter.skip_due(self.wait, self.board, seq, ssrc);
        let positions = self.admitter.mark() - mark;
        self.progress.skip(positions);
        Skipped { windows, positions }
    }

    fn skip_rest(&mut self) -> Skipped {
        let mark = self.admitter.mark();
        let windows = self.admitter.skip_rest(self.wait, self.board);
        let positions = self.admitter.mark() - mark;
        self.progress.skip(positions);
        Skipped { windows, positions }
    }

    // Held windows are played one by one: a word is held near the mark, within the depth, and to ask would take a turn after each
    // held play.

    fn skip_held(&mut self, _time: u64) -> Skipped {
        NONE_SKIPPED
    }

    fn word(&self, _played: Played, i: u32) -> Option<&Word> {
        self.tray.word(i)
    }

    fn repaired(&self, _played: Played, i: u32) -> bool {
        self.tray.repaired(i)
    }
}
