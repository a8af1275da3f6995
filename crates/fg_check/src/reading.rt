//! Reading a line of the text of a case.
ghost use Rattle.std.specs.Prelude.{◌≡◌, ◌≢◌, ◌<◌, ◌++◌, ℕ, List, ◌∷◌, [], IsTrue, ◌↔◌, MatchOption};
ghost use Rattle.std.specs.List.{Contains};
ghost use Rattle.fg_proof.specs.Text.{Known, Open, Rule, Head, End, Line};
ghost use Rattle.fg_check.specs.Line.{AreNumbers, BeginsPlain, IsFirstPlace, IsLine, line_of};

use fg_shape::Shape;

/// The most digits of a number.
const DIGITS: usize = 19;

/// A line of the text of a case, as it was read.
#[derive(Clone, Copy)]
pub(crate) enum TextLine {
    /// The case begins: the flow's port, the mark, and how many positions the window has.
    Head(u16, u64, u32),
    /// So many positions from a first one on are known.
    Known(u64, u64),
    /// The slots of an equation: its base and its shape.
    Rule(u64, Shape),
    /// So many positions from a first one on are holes.
    Open(u64, u64),
    /// The case ends.
    End,
}

/// The line that is spelled so, without its line feed.
pub(crate) fn read_line(text: &[u8]) -> Option<TextLine>
    ensures { MatchOption result ((line : Line) → ¬ IsLine text.now line)
        (λ line. IsLine text.now (line_of line)) }
{
    let first = *text.first()?;
    if first == b'k' {
        return read_known(text);
    }
    if first == b'l' {
        return read_rule(text);
    }
    if first == b'o' {
        return read_open(text);
    }
    if first == b'c' {
        return read_head(text);
    }
    read_end(text)
}

/// The first line of a case.
fn read_head(text: &[u8]) -> Option<TextLine>
    ensures { MatchOption result ((port mark count : ℕ) → ¬ IsLine text.now (Head port mark count))
        (λ line. IsLine text.now (line_of line)) }
{
    let (port, mark, count) = three_numbers(behind(b"case ", text)?)?;
    if port > u64::from(u16::MAX) || count > u64::from(u32::MAX) {
        return None;
    }
    Some(TextLine::Head(port as u16, mark, count as u32))
}

/// A run of known positions.
fn read_known(text: &[u8]) -> Option<TextLine>
    ensures { MatchOption result ((run : ℕ × ℕ) → ¬ IsLine text.now (Known run))
        (λ line. IsLine text.now (line_of line)) }
{
    let (first, count) = two_numbers(behind(b"known ", text)?)?;
    Some(TextLine::Known(first, count))
}

/// The slots of an equation.
fn read_rule(text: &[u8]) -> Option<TextLine>
    ensures { MatchOption result ((rule : ℕ × Shape) → ¬ IsLine text.now (Rule rule))
        (λ line. IsLine text.now (line_of line)) }
{
    let (base, offset, na) = three_numbers(behind(b"line ", text)?)?;
    if offset > u64::from(u8::MAX) || na > u64::from(u8::MAX) {
        return None;
    }
    let shape = Shape {
        offset: offset as u8,
        na: na as u8,
    };
    Some(TextLine::Rule(base, shape))
}

/// A run of holes.
fn read_open(text: &[u8]) -> Option<TextLine>
    ensures { MatchOption result ((run : ℕ × ℕ) → ¬ IsLine text.now (Open run))
        (λ line. IsLine text.now (line_of line)) }
{
    let (first, count) = two_numbers(behind(b"open ", text)?)?;
    Some(TextLine::Open(first, count))
}

/// The last line of a case.
fn read_end(text: &[u8]) -> Option<TextLine>
    ensures { MatchOption result (¬ IsLine text.now End)
        (λ line. IsLine text.now (line_of line)) }
{
    if text == b"end".as_slice() {
        Some(TextLine::End)
    } else {
        None
    }
}

/// What stands behind this word, where the text begins with it.
#[inline]
fn behind<'a>(word: &[u8], text: &'a [u8]) -> Option<&'a [u8]>
    ensures { MatchOption result ((rest : List ℕ) → text.now ≢ word.now ++ rest)
        (λ rest. text.now ≡ word.now ++ rest.now) }
{
    text.strip_prefix(word)
}

/// Three numbers, with a blank between each and the next.
fn three_numbers(text: &[u8]) -> Option<(u64, u64, u64)>
    ensures { MatchOption result
        ((first second third : ℕ) → ¬ AreNumbers text.now (first ∷ second ∷ third ∷ []))
        (λ numbers. AreNumbers text.now (numbers.0 ∷ numbers.1 ∷ numbers.2 ∷ [])) }
{
    let blank = first_place(b' ', text)?;
    let first = read_number(&text[..blank])?;
    let (second, third) = two_numbers(&text[blank + 1..])?;
    Some((first, second, third))
}

/// Two numbers, with a blank between them.
fn two_numbers(text: &[u8]) -> Option<(u64, u64)>
    ensures { MatchOption result ((first second : ℕ) → ¬ AreNumbers text.now (first ∷ second ∷ []))
        (λ numbers. AreNumbers text.now (numbers.0 ∷ numbers.1 ∷ [])) }
{
    let blank = first_place(b' ', text)?;
    let first = read_number(&text[..blank])?;
    let second = read_number(&text[blank + 1..])?;
    Some((first, second))
}

/// The place of the first byte with this value, where there is one.
pub(crate) fn first_place(byte: u8, text: &[u8]) -> Option<usize>
    ensures { MatchOption result (¬ Contains text.now byte)
        (λ place. IsFirstPlace byte text.now place) }
{
    for (place, other) in text.iter().enumerate() {
        if *other == byte {
            return Some(place);
        }
    }
    None
}

/// A number of 1 to 19 decimal digits, without a leading zero.
fn read_number(text: &[u8]) -> Option<u64>
    ensures { MatchOption result ((number : ℕ) → ¬ AreNumbers text.now (number ∷ []))
        (λ number. AreNumbers text.now (number ∷ [])) }
{
    if text.len() > DIGITS || !is_plain(text) {
        return None;
    }
    let mut number = 0;
    for byte in text {
        if !byte.is_ascii_digit() {
            return None;
        }
        number = number * 10 + u64::from(*byte - b'0');
    }
    Some(number)
}

/// Whether a text is there and begins with 0 only where it is 0.
fn is_plain(text: &[u8]) -> bool
    ensures { IsTrue result ↔ BeginsPlain text.now }
{
    match text {
        [] => false,
        [b'0', _, ..] => false,
        _ => true,
    }
}
