//! Words with several owners.

ghost use Rattle.std.specs.Prelude.{◌≡◌, ◌≤◌, IfOk, length};
ghost use Rattle.fg_words.specs.declared.Word.{Word};
ghost use Rattle.fg_words.specs.Word.{HasRoom, padded_word};
ghost use Rattle.std.specs.Arc.{arc_value};

use crate::{PAYLOAD_LIMIT, Word};
use std::alloc::{AllocError, Global};
use std::marker::Model;
use std::sync::Arc;

/// A share of a word, which contracts see as the word.
#[derive(Drop)]
pub struct Shared {
    word: Arc<Word>,
}

impl Model for Shared {
    ghost Value = { Word };

    ghost view = { λ s. arc_value s.word };

    ghost invariant = { λ s. HasRoom (arc_value s.word) };
}

impl Shared {
    /// The first share of a word. Answers want of memory alone.
    pub(crate) fn new(alloc: Global, word: Word) -> Result<Shared, AllocError>
        ensures { IfOk result (λ shared. shared ≡ word) }
    {
        match Arc::new(alloc, word) {
            Ok(word) => Ok(Shared { word }),
            Err(_) => Err(AllocError),
        }
    }

    /// The first share of a word with these fields and this payload, which is copied once, to where
    /// the share keeps it. Answers want of memory alone.
    pub fn of_payload(
        alloc: Global,
        pt: u8,
        ts: u32,
        len: u16,
        payload: &[u8],
    ) -> Result<Shared, AllocError>
        requires { length payload.now ≤ PAYLOAD_LIMIT }
        ensures { IfOk result (λ shared. shared ≡ padded_word pt ts len payload.now) }
    {
        let Ok(mut word) = Arc::new(alloc, Word::zero()) else {
            return Err(AllocError);
        };
        Arc::make_mut(&mut word)?.fill(pt, ts, len, payload);
        Ok(Shared { word })
    }

    /// The share that `of_payload` gives, but where the word of a spare share stood, if nobody else has a share of that. What
    /// somebody else has a share of stays as it is.
    pub fn refill(
        alloc: Global,
        spare: Option<Shared>,
        pt: u8,
        ts: u32,
        len: u16,
        payload: &[u8],
    ) -> Result<Shared, AllocError>
        requires { length payload.now ≤ PAYLOAD_LIMIT }
        ensures { IfOk result (λ shared. shared ≡ padded_word pt ts len payload.now) }
    {
        let Some(Shared { mut word }) = spare else {
            return Shared::of_payload(alloc, pt, ts, len, payload);
        };
        match Arc::get_mut(&mut word) {
            Some(own) => own.fill(pt, ts, len, payload),
            None => return Shared::of_payload(alloc, pt, ts, len, payload),
        }
        Ok(Shared { word })
    }

    /// Another share of the same word. The word isn't copied. Answers want of memory alone.
    pub fn lend(&self) -> Result<Shared, AllocError>
        ensures { IfOk result (λ shared. shared ≡ self.now) }
    {
        Ok(Shared {
            word: Arc::try_clone(&self.word)?,
        })
    }

    /// The word.
    pub fn word(&self) -> &Word
        ensures word { result.now ≡ self.now }
        ensures room { HasRoom result.now }
    {
        &self.word
    }
}
