//! The names of the files that hold the lanes.
ghost use Rattle.std.specs.Prelude.{◌≡◌, ◌+◌, ◌<◌, ◌≤◌, ◌++◌, ◌∷◌, [], length};
ghost use Rattle.std.specs.Fmt.{decimal};
ghost use Rattle.fg_io.specs.LaneName.{lane_name};

use std::marker::Model;

/// A file name of at most eight ASCII bytes.
#[derive(Drop)]
pub(crate) struct LaneName {
    bytes: [u8; 8],
    len: usize,
}

impl Model for LaneName {
    ghost use Rattle.std.specs.Prelude.{ℕ, ◌≤◌, List, take};
    ghost use Rattle.std.specs.Str.{IsAscii};

    ghost Value = { List ℕ };

    ghost view = { λ a. take a.len a.bytes };

    ghost invariant = { λ a. (a.len ≤ 8) × IsAscii (take a.len a.bytes) };
}

impl LaneName {
    /// The name of the port's file, as `5000.ts`.
    pub(crate) fn new(port: u16) -> LaneName
        ensures { result ≡ lane_name port }
    {
        let mut name = LaneName {
            bytes: [0; 8],
            len: 0,
        };
        name.push_decimal(port);
        name.push(b'.');
        name.push(b't');
        name.push(b's');
        name
    }

    /// The name as text.
    pub(crate) fn as_str(&self) -> &str
        ensures { result.now ≡ self.now }
    {
        str::from_utf8(&self.bytes[..self.len]).unwrap()
    }

    fn push_decimal(&mut self, number: u16)
        requires { length self.old + length (decimal number) ≤ 8 }
        ensures { self.new ≡ self.old ++ decimal number }
    {
        if number >= 10 {
            self.push_decimal(number / 10);
        }
        self.push(b'0' + (number % 10) as u8);
    }

    fn push(&mut self, byte: u8)
        requires room { length self.old < 8 }
        requires ascii { byte < 128 }
        ensures { self.new ≡ self.old ++ byte ∷ [] }
    {
        self.bytes[self.len] = byte;
        self.len += 1;
    }
}
