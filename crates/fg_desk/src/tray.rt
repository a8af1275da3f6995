//! Trays: what a play shows.

ghost use Rattle.std.specs.Prelude.{◌≡◌, ◌+◌, ◌<◌, ◌≤◌, ◌^◌, ◌++◌, ◌∷◌, [], length, slice_index_or, Some, IfOk, IfSome, IsSome, IsTrue};
ghost use Rattle.std.specs.Option.{option_copied};
ghost use Rattle.fg_shape.specs.Shape.{position_limit};
ghost use Rattle.fg_playout.specs.Shown.{nothing_shown};
ghost use Rattle.fg_desk.specs.TrayPlaces.{shown_of, buffer_kept_from};

use fg_buffer::PlayoutBuffer;
use fg_words::{Shared, Word};
use std::alloc::{AllocError, Global};
use std::marker::Model;

/// What a play shows at one position: a share of the word that the desk keeps, or a copy of a word
/// of which there is none.
#[derive(Drop)]
struct Place {
    share: Option<Shared>,
    /// Whether `word` is shown, where there is no share.
    copied: bool,
    repaired: bool,
    word: Word,
}

impl Place {
    /// The word, where one is shown.
    fn word(&self) -> Option<&Word>
        ensures { option_copied result ≡ (shown_of self.now).word }
    {
        match &self.share {
            Some(share) => Some(share.word()),
            None if self.copied => Some(&self.word),
            None => None,
        }
    }

    /// Shows nothing, or a word, of which there may be a share.
    fn show(&mut self, word: Option<&Word>, share: Option<&Shared>, repaired: bool)
        requires { IfSome share (λ shared. option_copied word ≡ Some shared.now) }
        ensures { shown_of self.new
            ≡ record { word = option_copied word.entry; repaired = repaired } }
    {
        self.repaired = repaired;
        self.share = lent(share);
        self.copied = self.share.is_none() && word.is_some();
        if let Some(word) = word {
            if self.copied {
                self.word = *word;
            }
        }
    }
}

/// Another share of the word, where there is one. None can be had where there are as many as can be
/// counted.
fn lent(share: Option<&Shared>) -> Option<Shared>
    ensures { IfSome result (λ lent. option_copied share.entry ≡ Some lent) }
{
    let Some(share) = share else {
        return None;
    };
    match share.lend() {
        Ok(lent) => Some(lent),
        Err(AllocError) => None,
    }
}

/// Room for what one play shows, 1.3 kB for each position. It is filled again and again, and takes
/// memory only where it is made. Of words that have a share it holds a further one up to the next play.
#[derive(Drop)]
pub struct Tray {
    places: Vec<Place>,
    count: usize,
}

impl Model for Tray {
    ghost use Rattle.std.specs.Prelude.{◌≤◌, map, take, length};
    ghost use Rattle.fg_playout.specs.Shown.{Holding, OnlyWordsAreRepaired};
    ghost use Rattle.fg_desk.specs.TrayPlaces.{shown_of, holding_code};

    ghost Value = { Holding };

    ghost coded = { holding_code };

    ghost view = { λ a. record {
      window = length a.places.items;
      shown = map shown_of (take a.count a.places.items);
    } };

    ghost invariant = { λ a. (a.count ≤ length a.places.items)
        × OnlyWordsAreRepaired (map shown_of (take a.count a.places.items)) };
}

impl Tray {
    /// A tray with room for this many positions, 1 to 100. Nothing is shown yet.
    pub fn new(alloc: Global, window: u32) -> Result<Tray, AllocError>
        requires some { 1 ≤ window }
        requires limit { window ≤ 100 }
        ensures { IfOk result (λ tray. tray ≡ record { window = window; shown = [] }) }
    {
        let mut places = Vec::with_capacity(alloc, window as usize)?;
        for _ in 0..window {
            places.push(Place {
                share: None,
                copied: false,
                repaired: false,
                word: Word::zero(),
            })?;
        }
        Ok(Tray { places, count: 0 })
    }

    /// The word that the last play showed at its position `i`, counted from 0. There is none where
    /// it showed none, nor past its positions.
    pub fn word(&self, i: u32) -> Option<&Word>
        ensures { option_copied result ≡ (slice_index_or self.now.shown i nothing_shown).word }
    {
        let i = i as usize;
        if i < self.count {
            self.places[i].word()
        } else {
            None
        }
    }

    /// Whether that word was not received, but recovered. Where there is no word, it was not.
    pub fn repaired(&self, i: u32) -> bool
        ensures value { result ≡ (slice_index_or self.now.shown i nothing_shown).repaired }
        ensures word { IsTrue result → IsSome (slice_index_or self.now.shown i nothing_shown).word }
    {
        let i = i as usize;
        i < self.count && self.places[i].repaired
    }

    /// Shows what a buffer keeps at `count` positions from a first one on, and no more of the last play.
    pub(crate) fn show_kept(&mut self, buffer: &PlayoutBuffer, first: u64, count: u32)
        requires room { count ≤ self.old.window }
        requires limit { first + count ≤ position_limit }
        ensures { self.new
            ≡ record { window = self.old.window; shown = buffer_kept_from buffer.now first count } }
    {
        self.clear();
        for i in 0..count {
            let position = first + u64::from(i);
            let kept = buffer.told(position);
            self.show(kept.word, kept.share, kept.repaired);
        }
    }

    /// Takes off what the last play showed.
    fn clear(&mut self)
        ensures { self.new ≡ record self.old { shown = [] } }
    {
        self.count = 0;
    }

    /// Shows nothing, or a word, of which there may be a share, at the next position.
    fn show(&mut self, word: Option<&Word>, share: Option<&Shared>, repaired: bool)
        requires room { length self.old.shown < self.old.window }
        requires share { IfSome share (λ shared. option_copied word ≡ Some shared.now) }
        requires word { IsTrue repaired → IsSome (option_copied word) }
        ensures { self.new ≡ record self.old {
          shown = self.old.shown
              ++ record { word = option_copied word.entry; repaired = repaired } ∷ [];
        } }
    {
        self.places[self.count].show(word, share, repaired);
        self.count += 1;
    }
}
