//! The shapes of a port's parity.
ghost use Rattle.std.specs.Prelude.{◌≡◌, ◌≢◌, ◌+◌, ◌<◌, ◌≤◌, ◌^◌, ◌∷◌, ◌==◌, [], ℕ, IfOk, List, get_or, if◌then◌else◌, length, nat_lt, set};
ghost use Rattle.fg_survey.specs.Matrix.{Protection, commonest, matrix_of};
ghost use Rattle.fg_survey.specs.Tallies.{IsTally};

use std::alloc::{AllocError, Global};

/// How many offsets there are, and how many numbers.
const SIDE: usize = 20;

/// The matrix that parity shows.
#[derive(Clone, Copy)]
pub struct Matrix {
    /// The columns: the commonest offset, or without a column's parity the commonest number.
    pub columns: u64,
    /// The rows: the commonest number, or 0 without a column's parity.
    pub rows: u64,
    /// The parity datagrams that fit them.
    pub same: u64,
    /// The others.
    pub other: u64,
    /// How far a stream's top was ahead of a base at most.
    pub lag: u64,
}

/// Counts of parity datagrams by their shapes.
#[derive(Drop)]
pub(crate) struct Tally {
    // A column's: for each offset, and then for each number.
    pub(crate) shapes: Vec<u64>,
    // A row's of offset 1, for each number, and of any.
    pub(crate) straight: Vec<u64>,
    pub(crate) numbers: Vec<u64>,
    // All of a column's and of a row's.
    pub(crate) columns: u64,
    pub(crate) rows: u64,
    pub(crate) ahead: u64,
}

/// 1 where it holds, else 0.
fn one_if(holds: bool) -> u64
    ensures { result ≡ (if holds then 1 else 0) }
{
    if holds { 1 } else { 0 }
}

/// Counts so many more at a place.
fn raise(counts: &mut Vec<u64>, place: usize, by: u64)
    requires within { place < length counts.old.items }
    requires room { get_or counts.old.items place 0 + by < 2 ^ 60 }
    ensures { counts.new.items ≡ set counts.old.items place (get_or counts.old.items place 0 + by) }
{
    counts[place] += by;
}

/// Of two places that of the greater count, and the first where they are as great.
fn better(counts: &[u64], best: usize, place: usize) -> usize
    requires best { best < length counts.now }
    requires place { place < length counts.now }
    ensures { result ≡ (if nat_lt (get_or counts.now best 0) (get_or counts.now place 0) then place else best) }
{
    if counts[best] < counts[place] {
        place
    } else {
        best
    }
}

/// The place of the greatest count, and of several the first.
fn greatest(counts: &[u64]) -> usize
    requires { 0 < length counts.now }
    ensures value { result ≡ commonest (λ place. get_or counts.now place 0) (length counts.now) }
    ensures within { result < length counts.now }
{
    let mut best = 0;
    for place in 0..counts.len() {
        best = better(counts, best, place);
    }
    best
}

impl Tally {
    /// No parity. All memory is taken here.
    pub(crate) fn new(alloc: Global) -> Result<Tally, AllocError>
        ensures { IfOk result (λ tally. IsTally tally [] []) }
    {
        Ok(Tally {
            shapes: vec![in alloc; 0; SIDE * SIDE]?,
            straight: vec![in alloc; 0; SIDE]?,
            numbers: vec![in alloc; 0; SIDE]?,
            columns: 0,
            rows: 0,
            ahead: 0,
        })
    }

    /// Counts a column's parity of this shape.
    pub(crate) fn take_column(&mut self, offset: u8, number: u8, ahead: u64)
        requires offset { (1 ≤ offset) × (offset ≤ 20) }
        requires number { (1 ≤ number) × (number ≤ 20) }
        requires few { (columns rows : List Protection) × IsTally self.old columns rows
            × (length columns < 2 ^ 40) }
        ensures { (columns rows : List Protection) → IsTally self.old columns rows
            → IsTally self.new ((record { offset = offset; number = number; ahead = ahead }) ∷ columns) rows }
    {
        let place = (usize::from(offset) - 1) * SIDE + (usize::from(number) - 1);
        raise(&mut self.shapes, place, 1);
        self.columns += 1;
        self.ahead = ahead.max(self.ahead);
    }

    /// Counts a row's parity of this shape.
    pub(crate) fn take_row(&mut self, offset: u8, number: u8, ahead: u64)
        requires offset { (1 ≤ offset) × (offset ≤ 20) }
        requires number { (1 ≤ number) × (number ≤ 20) }
        requires few { (columns rows : List Protection) × IsTally self.old columns rows
            × (length rows < 2 ^ 40) }
        ensures { (columns rows : List Protection) → IsTally self.old columns rows
            → IsTally self.new columns ((record { offset = offset; number = number; ahead = ahead }) ∷ rows) }
    {
        let place = usize::from(number) - 1;
        raise(&mut self.numbers, place, 1);
        raise(&mut self.straight, place, one_if(offset == 1));
        self.rows += 1;
        self.ahead = ahead.max(self.ahead);
    }
}

impl Tally {
    /// The matrix that the parity shows.
    pub(crate) fn matrix(&self) -> Matrix
        requires { (columns rows : List Protection) × IsTally self.now columns rows
            × (length columns + length rows < 2 ^ 42) }
        ensures { (columns rows : List Protection) → IsTally self.now columns rows
            → result ≡ matrix_of columns rows }
    {
        if self.columns == 0 {
            self.matrix_of_rows()
        } else {
            self.matrix_of_columns()
        }
    }

    /// The same without a column's parity.
    fn matrix_of_rows(&self) -> Matrix
        requires none { self.now.columns ≡ 0 }
        requires few { (columns rows : List Protection) × IsTally self.now columns rows
            × (length columns + length rows < 2 ^ 42) }
        ensures { (columns rows : List Protection) → IsTally self.now columns rows
            → result ≡ matrix_of columns rows }
    {
        let place = greatest(&self.numbers);
        let same = self.straight[place];
        Matrix {
            columns: place as u64 + 1,
            rows: 0,
            same,
            other: (self.columns + self.rows).saturating_sub(same),
            lag: self.ahead,
        }
    }

    /// The same with some.
    fn matrix_of_columns(&self) -> Matrix
        requires some { self.now.columns ≢ 0 }
        requires few { (columns rows : List Protection) × IsTally self.now columns rows
            × (length columns + length rows < 2 ^ 42) }
        ensures { (columns rows : List Protection) → IsTally self.now columns rows
            → result ≡ matrix_of columns rows }
    {
        let place = greatest(&self.shapes);
        let same = self.shapes[place] + self.straight[place / SIDE];
        Matrix {
            columns: (place / SIDE) as u64 + 1,
            rows: (place % SIDE) as u64 + 1,
            same,
            other: (self.columns + self.rows).saturating_sub(same),
            lag: self.ahead,
        }
    }
}

impl Tally {
    /// Whether no parity was counted.
    pub(crate) fn is_empty(&self) -> bool
        requires { (columns rows : List Protection) × IsTally self.now columns rows
            × (length columns + length rows < 2 ^ 42) }
        ensures { (columns rows : List Protection) → IsTally self.now columns rows
            → result ≡ ((length columns + length rows) == 0) }
    {
        self.columns + self.rows == 0
    }
}
