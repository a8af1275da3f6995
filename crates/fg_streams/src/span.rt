//! The positions of a stream.
ghost use Rattle.std.specs.Prelude.{◌≡◌, ◌+◌, ◌≤◌, ◌<◌, ◌^◌, ◌%◌, IfSome, Some};
ghost use Rattle.fg_unwrap.specs.Position.{position_of};
ghost use Rattle.fg_streams.specs.Arrival.{in_time, raised};

use fg_unwrap::position;

/// A datagram comes late that comes so far behind the top.
pub(crate) const LATE_BY: u64 = 1024;

/// The positions from the first to the greatest so far.
#[derive(Clone, Copy)]
pub struct Span {
    /// The first position, which is the number of the first datagram.
    pub first: u64,
    /// The greatest position so far.
    pub top: u64,
}

impl Span {
    /// The position of a datagram with this number, which isn't the first.
    pub(crate) fn place(self, seq: u16) -> Option<u64>
        requires { self.top < 2 ^ 60 }
        ensures value { result ≡ in_time self (position_of self.top (self.top % 65536) seq) }
        ensures near { IfSome result (λ place. place < self.top + 65536) }
        ensures within { IfSome result (λ place. self.first ≤ place) }
        ensures in_time { IfSome result (λ place. self.top < place + 1024) }
    {
        let number = (self.top % 0x1_0000) as u16;
        let place = position(self.top, number, seq)?;
        if self.first <= place && self.top < place + LATE_BY {
            Some(place)
        } else {
            None
        }
    }

    /// The positions once a datagram of this position has come.
    pub(crate) fn raise(self, place: u64) -> Span
        ensures { result ≡ raised (Some self) 0 (Some place) }
    {
        Span {
            first: self.first,
            top: self.top.max(place),
        }
    }
}
