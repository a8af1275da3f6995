//! Bursts of losses.
ghost use Rattle.std.specs.Prelude.{◌≡◌, ◌≤◌, ◌++◌, ◌∷◌, [], List, OnOk, drop, length, take};
ghost use Rattle.fg_streams.specs.Bursts.{goes_before, lengths_of, placed};
ghost use Rattle.fg_streams.specs.Steps.{LengthsHaveRoom};

use std::alloc::AllocError;

/// How many of the longest bursts are told.
pub(crate) const LONGEST: usize = 10;

/// Positions in a row at which no datagram was received, behind one at which one was.
#[derive(Clone, Copy)]
pub struct Burst {
    /// The first of them, counted from the stream's first position.
    pub slot: u64,
    /// How many they are.
    pub length: u64,
    /// When the datagram before them was received, in microseconds.
    pub at: u64,
}

/// How many bursts there are, and how many of each length.
#[derive(Clone, Copy, Default)]
pub struct Lengths {
    /// All.
    pub runs: u64,
    /// Of one position.
    pub one: u64,
    /// Of two.
    pub two: u64,
    /// Of 3 or 4.
    pub four: u64,
    /// Of 5 to 8.
    pub eight: u64,
    /// Of 9 to 16.
    pub sixteen: u64,
    /// Of 17 to 32.
    pub thirty_two: u64,
    /// Of more.
    pub more: u64,
}

impl Lengths {
    /// No burst.
    pub(crate) fn new() -> Lengths
        ensures { result ≡ lengths_of [] }
    {
        Lengths::default()
    }

    /// Counts a burst.
    pub(crate) fn add(&mut self, burst: Burst)
        requires room { LengthsHaveRoom self.old }
        requires some { 1 ≤ burst.length }
        ensures { (bursts : List Burst) → self.old ≡ lengths_of bursts
            → self.new ≡ lengths_of (bursts ++ burst ∷ []) }
    {
        self.runs += 1;
        match burst.length {
            1 => self.one += 1,
            2 => self.two += 1,
            3..=4 => self.four += 1,
            5..=8 => self.eight += 1,
            9..=16 => self.sixteen += 1,
            17..=32 => self.thirty_two += 1,
            _ => self.more += 1,
        }
    }
}

impl Burst {
    /// Whether it goes before the other: it is longer, or as long and earlier.
    fn goes_before(&self, other: &Burst) -> bool
        ensures { result ≡ goes_before self.now other.now }
    {
        self.length > other.length || self.length == other.length && self.slot < other.slot
    }
}

/// The place of a burst among these.
fn place_among(burst: Burst, longest: &[Burst]) -> usize
    ensures within { result ≤ length longest.now }
    ensures placed { placed burst longest.now ≡ take result longest.now ++ burst ∷ drop result longest.now }
{
    for i in 0..longest.len() {
        if burst.goes_before(&longest[i]) {
            return i;
        }
    }
    longest.len()
}

/// Puts a burst to its place among the longest.
pub(crate) fn put(burst: Burst, longest: &mut Vec<Burst>) -> Result<(), AllocError>
    ensures { OnOk result (longest.new.items ≡ take LONGEST (placed burst longest.old.items)) }
{
    let place = place_among(burst, longest);
    longest.insert(place, burst)?;
    longest.truncate(LONGEST);
    Ok(())
}
