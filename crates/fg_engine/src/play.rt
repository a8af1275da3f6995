//! The bytes that a play adds to a lane.
ghost use Rattle.std.specs.Prelude.{◌≡◌, ◌<◌, ◌++◌, ℕ, List, [], ◌∷◌, length, OnOk, OnErr};
ghost use Rattle.fg_io.specs.Prefix.{IsPrefix};
ghost use Rattle.fg_playout.specs.Room.{farthest_limit};
ghost use Rattle.fg_rtp.specs.MediaDatagram.{payload_of};
ghost use Rattle.fg_results.specs.Flow.{lane_of};
ghost use Rattle.fg_engine.specs.Steps.{CountsWithin, with_plays, played_as};

use crate::counts::{count_play, show};
use crate::window::WindowState;
use fg_desk::Played;
use fg_report::{FlowSum, Shelf};
use fg_words::Word;
use std::alloc::AllocError;

/// Takes payloads, one behind another.
pub(crate) trait TakesPayloads {
    /// What it has taken.
    ghost bytes: { Self → List ℕ };

    /// Takes one more. Without memory it has what it had.
    fn take_payload(&mut self, payload: &[u8]) -> Result<(), AllocError>
        ensures takes { OnOk result (bytes self.new ≡ bytes self.old ++ payload.now) }
        ensures unchanged { OnErr result (bytes self.new ≡ bytes self.old) };
}

impl TakesPayloads for Vec<u8> {
    ghost bytes = { λ a. a.items };

    #[inline]
    fn take_payload(&mut self, payload: &[u8]) -> Result<(), AllocError> {
        self.extend_from_slice(payload)
    }
}

impl TakesPayloads for Shelf {
    ghost bytes = { λ a. a };

    #[inline]
    fn take_payload(&mut self, payload: &[u8]) -> Result<(), AllocError> {
        self.put(payload)
    }
}

/// Counts the play that was just made, and adds the payloads of its words to `piece`. They are copied from where the window
/// keeps them.
pub(crate) fn fill<B: TakesPayloads, D: WindowState>(
    piece: &mut B,
    sum: &mut FlowSum,
    window: &D,
    played: Played,
) -> Result<(), AllocError>
    requires within { CountsWithin sum.old played.first }
    requires limit { played.first < farthest_limit }
    requires count { played.count ≡ length (D.shows window.now played) }
    ensures counts { OnOk result (sum.new
        ≡ with_plays sum.old played.first (played_as played (D.shows window.now played) ∷ [])) }
    ensures lane { OnOk result (B.bytes piece.new
        ≡ B.bytes piece.old ++ lane_of (played_as played (D.shows window.now played) ∷ [])) }
    ensures part { OnErr result ((part : List ℕ)
        × IsPrefix part (lane_of (played_as played (D.shows window.now played) ∷ []))
        × (B.bytes piece.new ≡ B.bytes piece.old ++ part)) }
    ensures port { sum.new.port ≡ sum.old.port }
{
    for i in 0..played.count {
        let position = played.first + u64::from(i);
        let word = window.word(played, i);
        show(sum, piece, position, word, window.repaired(played, i))?;
    }
    count_play(sum, played.verdict);
    Ok(())
}

/// The payload of a word.
pub(crate) fn payload(word: &Word) -> &[u8]
    ensures { result.now ≡ payload_of word.now }
{
    word.bytes
        .get(..usize::from(word.len))
        .unwrap_or(&word.bytes)
}
