//! The table of the names that may stand before an equals sign.
use super::Absent::{self, Default, Needed, Nothing};
use super::Values::{self, Either, Number};
use crate::Name;
use fg_shape::LAST_PORT;

/// The greatest port of a flow.
const PORT: u64 = LAST_PORT as u64;

/// The most bytes that an input may have.
const BYTES: u64 = 1_099_511_627_776;

/// Of each key, in their order: its name, its values, what holds where it isn't there, and how often it may stand.
//
// A static, since a constant would be made again at each look.
pub(super) static ROWS: [(&'static str, Values, Absent, Option<usize>); 30] = [
    ("flow", Number(1, PORT), Needed(Name::Flow), None),
    ("window", Number(1, 100), Default(100), Some(1)),
    ("depth", Number(1, 1_000), Default(400), Some(1)),
    ("hold", Number(1, 3_600_000_000), Nothing, Some(1)),
    ("workers", Number(0, 16), Default(4), Some(1)),
    ("max", Number(8, BYTES), Default(BYTES), Some(1)),
    ("columns", Number(0, 255), Needed(Name::Columns), Some(1)),
    ("rows", Number(0, 255), Needed(Name::Rows), Some(1)),
    ("fec", Either("column", "both"), Default(1), Some(1)),
    ("layout", Either("block", "staggered"), Default(0), Some(1)),
    ("packets", Number(1, 7), Default(7), Some(1)),
    (
        "rate",
        Number(1, 10_000_000_000),
        Default(10_000_000),
        Some(1),
    ),
    ("port", Number(1, PORT), Default(5000), Some(1)),
    ("seq", Number(0, 65_535), Default(0), Some(1)),
    ("ssrc", Number(0, 4_294_967_295), Default(0), Some(1)),
    ("stamp", Number(0, 4_294_967_295), Default(0), Some(1)),
    ("drop", Number(1, 9_999_999_999_999), Nothing, Some(1_000)),
    ("every", Number(2, 9_999_999_999_999), Nothing, Some(1)),
    (
        "seed",
        Number(0, 9_999_999_999_999),
        Needed(Name::Seed),
        Some(1),
    ),
    ("datagrams", Number(1, 20_000), Default(1_000), Some(1)),
    ("loss", Number(0, 20), Default(3), Some(1)),
    ("burst", Number(1, 20), Needed(Name::Burst), Some(1)),
    ("most", Number(1, 100), Needed(Name::Most), Some(1)),
    ("flow", Number(1, PORT), Nothing, Some(64)),
    ("port", Number(0, 65_535), Nothing, Some(64)),
    ("ssrc", Number(0, 4_294_967_295), Nothing, Some(16)),
    ("without", Number(0, 4_294_967_295), Nothing, Some(16)),
    ("from", Number(0, u64::MAX), Default(0), Some(1)),
    ("until", Number(0, u64::MAX), Nothing, Some(1)),
    ("format", Either("lines", "json"), Default(0), Some(1)),
];
