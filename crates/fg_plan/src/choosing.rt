//! The choice of a matrix.
ghost use Rattle.std.specs.Prelude.{◌+◌, ◌*◌, ◌≤◌, ◌↔◌, IsTrue, IfNone, IfSome};
ghost use Rattle.fg_plan.specs.Choice.{Fits, IsChoice, IsLeastBefore, IsLess, parity_count};

/// The most columns and rows of a matrix.
const GREATEST: u8 = 20;

/// The fewest rows of a matrix.
const FEWEST_ROWS: u8 = 4;

/// The most datagrams of a matrix.
const MOST_DATAGRAMS: u16 = 100;

/// Chooses the least matrix, columns first, by which a burst of up to `burst` datagrams can come back, with parity of at most
/// `most` percent: that of the columns, and where `rows` is true of the rows too. None exactly where no matrix fits.
///
/// Of matrices with as many datagrams, the one with the fewest columns is less. It takes no memory.
pub fn choose(burst: u8, most: u8, rows: bool) -> Option<(u8, u8)>
    requires burst { (1 ≤ burst) × (burst ≤ 20) }
    requires most { (1 ≤ most) × (most ≤ 100) }
    ensures { IsChoice burst most rows result }
{
    let mut least = None;
    for columns in 1..GREATEST + 1 {
        least = least_with(burst, most, rows, columns, least);
    }
    least
}

/// The least of the matrices that fit, up to those with so many columns, where this is the least of those with fewer.
fn least_with(
    burst: u8,
    most: u8,
    rows: bool,
    columns: u8,
    before: Option<(u8, u8)>,
) -> Option<(u8, u8)>
    requires columns { columns ≤ 20 }
    requires most { most ≤ 100 }
    requires before { IsLeastBefore burst most rows columns 0 before }
    ensures { IsLeastBefore burst most rows (columns + 1) 0 result }
{
    let mut least = before;
    for height in 0..GREATEST + 1 {
        least = lesser(burst, most, rows, columns, height, least);
    }
    least
}

/// The least of the matrices up to this one, where this is the least of those before it.
fn lesser(
    burst: u8,
    most: u8,
    rows: bool,
    columns: u8,
    height: u8,
    before: Option<(u8, u8)>,
) -> Option<(u8, u8)>
    requires matrix { (columns ≤ 20) × (height ≤ 20) }
    requires most { most ≤ 100 }
    requires before { IsLeastBefore burst most rows columns height before }
    ensures { IsLeastBefore burst most rows columns (height + 1) result }
{
    if !fits(burst, most, rows, columns, height) {
        return before;
    }
    if !is_less(columns, height, before) {
        return before;
    }
    Some((columns, height))
}

/// Whether a matrix fits.
fn fits(burst: u8, most: u8, rows: bool, columns: u8, height: u8) -> bool
    requires matrix { (columns ≤ 20) × (height ≤ 20) }
    requires most { most ≤ 100 }
    ensures { IsTrue result ↔ Fits burst most rows columns height }
{
    let datagrams = u16::from(columns) * u16::from(height);
    let written = columns >= 1 && height >= FEWEST_ROWS && datagrams <= MOST_DATAGRAMS;
    let allowed = !rows || columns >= 4;
    written && allowed && columns >= burst && is_light(most, rows, columns, height)
}

/// Whether a matrix has parity of at most so many percent.
fn is_light(most: u8, rows: bool, columns: u8, height: u8) -> bool
    requires matrix { (columns ≤ 20) × (height ≤ 20) }
    requires most { most ≤ 100 }
    ensures { IsTrue result ↔ (parity_count rows columns height * 100 ≤ most * (columns * height)) }
{
    let of_rows = if rows { u16::from(height) } else { 0 };
    let parities = u32::from(u16::from(columns) + of_rows);
    parities * 100 <= u32::from(most) * (u32::from(columns) * u32::from(height))
}

/// Whether a matrix is less than this one, where there is one.
fn is_less(columns: u8, height: u8, least: Option<(u8, u8)>) -> bool
    ensures none { IfNone least (IsTrue result) }
    ensures some { IfSome least (λ matrix. IsTrue result ↔ IsLess columns height matrix.0 matrix.1) }
{
    let Some((other_columns, other_height)) = least else {
        return true;
    };
    let datagrams = u16::from(columns) * u16::from(height);
    let others = u16::from(other_columns) * u16::from(other_height);
    datagrams < others || datagrams == others && columns < other_columns
}
