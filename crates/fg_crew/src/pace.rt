//! How long a worker rests between two looks for hints.
ghost use Rattle.std.specs.Prelude.{◌≡◌, ◌≢◌, ◌≤◌, ◌*◌, ◌/◌, min};

use std::time::Duration;

/// The shortest rest, in microseconds.
const SHORTEST: u64 = 2_000;

/// The longest rest, in microseconds.
const LONGEST: u64 = 8_000;

/// The rests of one worker: each is twice as long as the one before, up to the longest, until a word is found.
#[derive(Drop)]
pub(crate) struct Pace {
    /// How long the last one was.
    micros: u64,
    /// How many words were found before it.
    found: u64,
    ghost bounded: { micros ≤ 8000 },
}

impl Pace {
    /// That of a worker that begins: its first rest is the shortest.
    pub(crate) fn new() -> Pace
        ensures { result.micros ≡ SHORTEST / 2 }
    {
        Pace {
            micros: SHORTEST / 2,
            found: 0,
        }
    }

    /// How long a worker rests that is not needed now.
    pub(crate) fn longest() -> Duration {
        Duration::from_micros(LONGEST)
    }

    /// How long to rest now, where so many words are found.
    pub(crate) fn next(&mut self, found: u64) -> Duration
        ensures found { self.new.found ≡ found }
        ensures longer { found ≡ self.old.found → self.new.micros ≡ min (2 * self.old.micros) LONGEST }
        ensures short { found ≢ self.old.found → self.new.micros ≡ SHORTEST }
    {
        if found == self.found {
            self.micros = (2 * self.micros).min(LONGEST);
        } else {
            self.micros = SHORTEST;
        }
        self.found = found;
        Duration::from_micros(self.micros)
    }
}
