//! The pace of a stream.
ghost use Rattle.std.specs.Prelude.{◌≡◌, ◌≤◌, ◌<◌, ◌^◌, ◌∷◌, [], ℕ, List, IfSome, Option};
ghost use Rattle.fg_streams.specs.Arrival.{Arrival};
ghost use Rattle.fg_streams.specs.Pace.{difference, longer, microseconds, pace_of, smoothed, transit_of};
ghost use Rattle.fg_streams.specs.Steps.{PaceHasRoom};

/// What is kept of a datagram.
#[derive(Clone, Copy)]
pub struct Sent {
    /// Its time, in microseconds.
    pub time: u64,
    /// Its transit, in units of 1/90,000 of a second, modulo 2^32.
    pub transit: u64,
}

/// A rise from one datagram's time to the next one's.
#[derive(Clone, Copy)]
pub struct Silence {
    /// How far, in microseconds.
    pub length: u64,
    /// From which time on.
    pub since: u64,
}

/// The pace of a stream.
#[derive(Clone, Copy)]
pub struct Pace {
    /// The last datagram.
    pub last: Option<Sent>,
    /// Sixteen times the jitter (RFC 3550, A.8), in units of 1/90,000 of a second.
    pub jitter: u64,
    /// The greatest that it was.
    pub most: u64,
    /// The longest silence.
    pub silence: Silence,
}

/// How many timestamps there are.
const TIMESTAMPS: u64 = 0x1_0000_0000;

/// A jitter in microseconds, each step rounded down.
pub fn microseconds(jitter: u64) -> u64
    ensures { result ≡ microseconds jitter }
{
    (u128::from(jitter / 16) * 100 / 9) as u64
}

/// The transit of a datagram with this time and timestamp.
fn transit(time: u64, ts: u32) -> u64
    ensures value { result ≡ transit_of time ts }
    ensures bounded { result < 2 ^ 32 }
{
    let clock = time / 100 * 9 + time % 100 * 9 / 100;
    (clock % TIMESTAMPS + TIMESTAMPS - u64::from(ts)) % TIMESTAMPS
}

/// How far apart two transits are.
fn apart(transit: u64, before: u64) -> u64
    requires transit { transit < 2 ^ 32 }
    requires before { before < 2 ^ 32 }
    ensures value { result ≡ difference transit before }
    ensures bounded { result ≤ 2 ^ 31 }
{
    let by = (transit + TIMESTAMPS - before) % TIMESTAMPS;
    by.min(TIMESTAMPS - by)
}

/// The jitter after a difference.
fn smooth(jitter: u64, by: u64) -> u64
    requires jitter { jitter ≤ 2 ^ 36 }
    requires by { by ≤ 2 ^ 31 }
    ensures value { result ≡ smoothed jitter by }
    ensures bounded { result ≤ 2 ^ 36 }
{
    jitter + by - (jitter + 8) / 16
}

impl Silence {
    /// The longer of the two, and this one where they are as long.
    fn longer(self, other: Silence) -> Silence
        ensures { result ≡ longer self other }
    {
        if self.length < other.length {
            other
        } else {
            self
        }
    }
}

impl Pace {
    /// No datagram.
    pub(crate) fn new() -> Pace
        ensures pace { result ≡ pace_of [] }
        ensures room { PaceHasRoom result }
    {
        Pace {
            last: None,
            jitter: 0,
            most: 0,
            silence: Silence {
                length: 0,
                since: 0,
            },
        }
    }

    /// Takes the next datagram.
    pub(crate) fn take(&mut self, time: u64, ts: u32)
        requires { PaceHasRoom self.old }
        ensures pace { (before : List Arrival) (a : Arrival) → self.old ≡ pace_of before → a.time ≡ time → a.ts ≡ ts
            → self.new ≡ pace_of (a ∷ before) }
        ensures room { PaceHasRoom self.new }
    {
        let transit = transit(time, ts);
        if let Some(last) = self.last {
            self.jitter = smooth(self.jitter, apart(transit, last.transit));
            self.most = self.most.max(self.jitter);
            let silence = Silence {
                length: time.saturating_sub(last.time),
                since: last.time,
            };
            self.silence = self.silence.longer(silence);
        }
        self.last = Some(Sent { time, transit });
    }
}
