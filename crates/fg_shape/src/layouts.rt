//! Layouts of parity: which equations a stream is sent with.
ghost use Rattle.std.specs.Prelude.{◌≡◌, ◌≤◌, ◌↔◌, ℕ, IfErr, IfOk, IsTrue, MatchOption};
ghost use Rattle.fg_shape.specs.Limits.{FirstLayoutFault, IsLayout};
ghost use Rattle.fg_shape.specs.Shape.{position_limit};

use thiserror::Error;

/// Why a layout isn't one that is written: the first of the four rules that it breaks.
#[derive(Clone, Copy, Debug, PartialEq, Eq, Error)]
pub enum LayoutFault {
    /// The columns aren't 1 to 20.
    #[error("there must be 1 to 20 columns")]
    Columns,
    /// The rows aren't 4 to 20.
    #[error("there must be 4 to 20 rows")]
    Rows,
    /// Columns times rows is more than 100.
    #[error("a matrix has at most 100 datagrams")]
    Product,
    /// The rows' parity is sent, and there are fewer than 4 columns.
    #[error("parity of rows needs 4 columns")]
    RowsNeedFour,
}

/// How media datagrams are arranged in rows and columns for parity (SMPTE ST 2022-1). The two
/// arrangements and their limits are this project's own.
#[derive(Clone, Copy, PartialEq, Eq)]
pub struct Layout {
    /// The columns, 1 to 20.
    pub l: u8,
    /// The rows, 4 to 20. With the columns they make at most 100.
    pub d: u8,
    /// Whether parity of the rows is sent too. Then there are at least 4 columns.
    pub rows: bool,
    /// Whether each column begins one row below the one before it.
    pub staggered: bool,
    pub ghost accepted: { IsLayout l d rows },
}

/// The equations that end at a slot, each by the position of its first slot.
#[derive(Clone, Copy, Debug, PartialEq, Eq)]
pub struct Ends {
    pub column: Option<u64>,
    pub row: Option<u64>,
}

impl Layout {
    ghost use Rattle.std.specs.Prelude.{◌<◌};
    ghost use Rattle.fg_shape.specs.Layout.{column_base, first_row, ColumnEnds, RowEnds};

    /// A layout of `l` columns and `d` rows.
    ///
    /// # Errors
    ///
    /// The first fault that applies, in the order of its variants.
    pub fn new(l: u8, d: u8, rows: bool, staggered: bool) -> Result<Layout, LayoutFault>
        ensures size { IfOk result (λ layout. (layout.l ≡ l) × (layout.d ≡ d)) }
        ensures rows { IfOk result (λ layout. layout.rows ≡ rows) }
        ensures staggered { IfOk result (λ layout. layout.staggered ≡ staggered) }
        ensures faults { IfErr result (FirstLayoutFault l d rows) }
    {
        if l < 1 || l > 20 {
            return Err(LayoutFault::Columns);
        }
        if d < 4 || d > 20 {
            return Err(LayoutFault::Rows);
        }
        if u16::from(l) * u16::from(d) > 100 {
            return Err(LayoutFault::Product);
        }
        if rows && l < 4 {
            return Err(LayoutFault::RowsNeedFour);
        }
        Ok(Layout {
            l,
            d,
            rows,
            staggered,
        })
    }

    /// The column and the row whose last slot is this one, of the stream's slots counted from 0.
    pub fn ending_at(&self, slot: u64) -> Ends
        requires { slot ≤ position_limit }
        ensures column { MatchOption result.column
            ((base : ℕ) → ColumnEnds self.now slot base → ⊥) (ColumnEnds self.now slot) }
        ensures row { MatchOption result.row
            ((base : ℕ) → RowEnds self.now slot base → ⊥) (RowEnds self.now slot) }
    {
        Ends {
            column: self.column_ending_at(slot),
            row: self.row_ending_at(slot),
        }
    }

    /// The first slot of the column that ends at the slot.
    fn column_ending_at(&self, slot: u64) -> Option<u64>
        ensures { MatchOption result
            ((base : ℕ) → ColumnEnds self.now slot base → ⊥) (ColumnEnds self.now slot) }
    {
        let length = u64::from(self.d - 1) * u64::from(self.l);
        if slot < length || !self.begins_column(slot - length) {
            return None;
        }
        Some(slot - length)
    }

    /// Whether a column of some matrix begins at the slot, of the stream's slots counted from 0.
    pub fn begins_column(&self, slot: u64) -> bool
        ensures { IsTrue result
            ↔ ((m c : ℕ) × (c < self.now.l) × (slot ≡ column_base self.now m c)) }
    {
        let columns = u64::from(self.l);
        let rows = u64::from(self.d);
        let place = slot % (columns * rows);
        place / columns == self.first_row(place % columns)
    }

    /// The row of its matrix in which a column begins.
    fn first_row(&self, column: u64) -> u64
        ensures { result ≡ first_row self.now column }
    {
        if self.staggered {
            column % u64::from(self.d)
        } else {
            0
        }
    }

    /// The first slot of the row that ends at the slot, where rows are sent.
    fn row_ending_at(&self, slot: u64) -> Option<u64>
        ensures { MatchOption result
            ((base : ℕ) → RowEnds self.now slot base → ⊥) (RowEnds self.now slot) }
    {
        let columns = u64::from(self.l);
        let length = columns - 1;
        if !self.rows || slot < length || (slot - length) % columns != 0 {
            return None;
        }
        Some(slot - length)
    }
}
