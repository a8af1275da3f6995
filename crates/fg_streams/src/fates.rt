//! What becomes of the datagrams of a stream.
ghost use Rattle.std.specs.Prelude.{◌≡◌, ◌∷◌, [], List};
ghost use Rattle.fg_streams.specs.Fates.{counts_of};
ghost use Rattle.fg_streams.specs.Steps.{CountsHaveRoom};

/// What became of a datagram.
#[derive(Clone, Copy, PartialEq, Eq)]
pub enum Fate {
    /// It came below the first position, or 1,024 or more behind the top.
    Late,
    /// Its position had a datagram.
    Duplicate,
    /// It was received so far behind the top.
    Behind(u64),
    /// It was received so far ahead of the top.
    Ahead(u64),
}

/// How many datagrams had each fate.
#[derive(Clone, Copy, Default)]
pub struct Counts {
    /// Received.
    pub received: u64,
    /// At a position that had a datagram.
    pub duplicate: u64,
    /// Late.
    pub late: u64,
    /// Received behind the top (RFC 4737).
    pub reordered: u64,
    /// How far behind the top the deepest of those was.
    pub deepest: u64,
    /// By how many the top rose by more than 1,024.
    pub jumps: u64,
}

/// The top's rise is a jump from one more than this on.
const JUMP: u64 = 1024;

impl Counts {
    /// No datagram.
    pub(crate) fn new() -> Counts
        ensures { result ≡ counts_of [] }
    {
        Counts::default()
    }

    /// Counts a datagram.
    pub(crate) fn add(&mut self, fate: Fate)
        requires { CountsHaveRoom self.old }
        ensures { (fates : List Fate) → self.old ≡ counts_of fates → self.new ≡ counts_of (fate ∷ fates) }
    {
        match fate {
            Fate::Late => self.late += 1,
            Fate::Duplicate => self.duplicate += 1,
            Fate::Behind(by) => {
                self.received += 1;
                self.reordered += 1;
                self.deepest = self.deepest.max(by);
            }
            Fate::Ahead(by) => {
                self.received += 1;
                if by > JUMP {
                    self.jumps += 1;
                }
            }
        }
    }
}
