//! The parities under way: one for each column, and one for the row.
ghost use Rattle.std.specs.Prelude.{◌≡◌, ◌+◌, ◌*◌, ◌<◌, ◌≤◌, ◌↔◌, ◌^◌, ◌%◌, ◌≢◌, ℕ, true, false, IsTrue, length, get_or};
ghost use Rattle.fg_words.specs.declared.Word.{Word};
ghost use Rattle.fg_words.specs.Word.{transport_word, word_xor, HasRoom, payload_limit};
ghost use Rattle.fg_shape.specs.Layout.{column_base};
ghost use Rattle.fg_encode.specs.Encoder.{ColumnsAreUnderWay, RowIsUnderWay};
ghost use Rattle.fg_encode.specs.Lines.{added};

use crate::clock::sequence_at;
use fg_fechead::Parity;
use fg_shape::{Layout, Settings, Shape};
use fg_words::laws::{sum_ignores_order, xor_is_a_group};
use fg_words::{TRANSPORT_TYPE, Word};

/// Makes the word of a payload with this timestamp.
fn fill(word: &mut Word, ts: u32, payload: &[u8])
    requires { length payload.now ≤ payload_limit }
    ensures { word.new ≡ transport_word ts payload.now }
{
    word.pt = TRANSPORT_TYPE;
    word.ts = ts;
    word.len = payload.len() as u16;
    word.bytes[..payload.len()].copy_from_slice(payload);
    word.bytes[payload.len()..].fill(0);
}

/// Adds a payload with this timestamp to a parity under way. Where one begins with it, what was there belongs to one that
/// has ended, or to none.
fn add(
    parity: &mut Parity,
    begins: bool,
    base: u16,
    shape: Shape,
    row: bool,
    ts: u32,
    payload: &[u8],
)
    requires { length payload.now ≤ payload_limit }
    ensures { parity.new ≡ added parity.old begins
        (record { base = base; shape = shape; row = row; word = transport_word ts payload.now }) }
{
    if begins {
        parity.base = base;
        parity.shape = shape;
        parity.row = row;
        fill(&mut parity.word, ts, payload);
    } else {
        parity.word.xor_transport(ts, payload);
    }
}

/// Adds the payload of a slot, with this timestamp, to the parity under way of its column, and to that of the row where rows
/// are sent. Where neither begins, one pass over the payload is enough.
pub fn add_to_lines(
    columns: &mut [Parity],
    row: &mut Parity,
    settings: &Settings,
    slot: u64,
    ts: u32,
    payload: &[u8],
)
    requires payload { length payload.now ≤ payload_limit }
    requires width { length columns.old ≡ settings.now.layout.l }
    requires limit { slot ≤ 2 ^ 60 }
    ensures columns { (words : ℕ → Word) → words slot ≡ transport_word ts payload.now → ((s : ℕ) → HasRoom (words s))
        → ColumnsAreUnderWay settings.now words slot columns.old
        → ColumnsAreUnderWay settings.now words (slot + 1) columns.new }
    ensures row { IsTrue settings.now.layout.rows → (words : ℕ → Word) → words slot ≡ transport_word ts payload.now
        → ((s : ℕ) → HasRoom (words s)) → RowIsUnderWay settings.now words slot row.old
        → RowIsUnderWay settings.now words (slot + 1) row.new }
{
    let begins = settings.layout.begins_column(slot);
    if both_go_on(&settings.layout, begins, slot) {
        let column = (slot % u64::from(settings.layout.l)) as usize;
        xor_is_a_group();
        sum_ignores_order();
        add_to_both(&mut columns[column], row, ts, payload);
    } else {
        add_to_column(columns, settings, slot, begins, ts, payload);
        add_to_row(row, settings, slot, ts, payload);
    }
}

/// Whether rows are sent and neither the column, as told, nor the row begins at the slot.
fn both_go_on(layout: &Layout, column_begins: bool, slot: u64) -> bool
    requires { 1 ≤ layout.now.l }
    ensures { IsTrue result
        ↔ (IsTrue layout.now.rows × (column_begins ≡ false) × (slot % layout.now.l ≢ 0)) }
{
    layout.rows && !column_begins && slot % u64::from(layout.l) != 0
}

/// Adds a payload with this timestamp to two parities under way, neither of which begins with it.
fn add_to_both(column: &mut Parity, row: &mut Parity, ts: u32, payload: &[u8])
    requires { length payload.now ≤ payload_limit }
    ensures column { column.new
        ≡ (record column.old { word = word_xor column.old.word (transport_word ts payload.now) }) }
    ensures row { row.new ≡ (record row.old { word = word_xor row.old.word (transport_word ts payload.now) }) }
{
    Word::xor_transport_into_two(&mut column.word, &mut row.word, ts, payload);
}

/// Adds the payload of a slot, with this timestamp, to the parity under way of its column, which may begin with it.
fn add_to_column(
    columns: &mut [Parity],
    settings: &Settings,
    slot: u64,
    begins: bool,
    ts: u32,
    payload: &[u8],
)
    requires payload { length payload.now ≤ payload_limit }
    requires width { length columns.old ≡ settings.now.layout.l }
    requires limit { slot ≤ 2 ^ 60 }
    requires begins { IsTrue begins
        ↔ ((m c : ℕ) × (c < settings.now.layout.l) × (slot ≡ column_base settings.now.layout m c)) }
    ensures { (words : ℕ → Word) → words slot ≡ transport_word ts payload.now → ((s : ℕ) → HasRoom (words s))
        → ColumnsAreUnderWay settings.now words slot columns.old
        → ColumnsAreUnderWay settings.now words (slot + 1) columns.new }
{
    let Layout { l, d, .. } = settings.layout;
    let column = (slot % u64::from(l)) as usize;
    let base = sequence_at(settings, slot);
    let shape = Shape { offset: l, na: d };
    xor_is_a_group();
    sum_ignores_order();
    add(
        &mut columns[column],
        begins,
        base,
        shape,
        false,
        ts,
        payload,
    );
}

/// Adds the payload of a slot, with this timestamp, to the parity under way of the row, where rows are sent.
fn add_to_row(row: &mut Parity, settings: &Settings, slot: u64, ts: u32, payload: &[u8])
    requires payload { length payload.now ≤ payload_limit }
    requires limit { slot ≤ 2 ^ 60 }
    ensures { IsTrue settings.now.layout.rows → (words : ℕ → Word) → words slot ≡ transport_word ts payload.now
        → ((s : ℕ) → HasRoom (words s)) → RowIsUnderWay settings.now words slot row.old
        → RowIsUnderWay settings.now words (slot + 1) row.new }
{
    if !settings.layout.rows {
        return;
    }
    let na = settings.layout.l;
    let begins = slot % u64::from(na) == 0;
    let shape = Shape { offset: 1, na };
    xor_is_a_group();
    sum_ignores_order();
    add(
        row,
        begins,
        sequence_at(settings, slot),
        shape,
        true,
        ts,
        payload,
    );
}
