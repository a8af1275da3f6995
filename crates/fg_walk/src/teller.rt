//! What is told of the records of a trace.
ghost use Rattle.std.specs.Prelude.{◌≡◌, ◌<◌, ◌^◌, ◌++◌, ℕ, Option, List, [], ◌∷◌, length, OnOk, OnErr};
ghost use Rattle.fg_io.specs.Faults.{Counts};
ghost use Rattle.fg_trace.specs.Trace.{Record, Ending, NotTrace as NoMagic};
ghost use Rattle.fg_trace.specs.Finish.{finish_of};
ghost use Rattle.fg_walk.specs.Walk.{IsBegun};

use fg_io::{Fault, Sink};
use fg_trace::Finish;

/// What a record of a trace holds.
#[derive(Clone, Copy)]
pub struct Datagram<'a> {
    /// When the datagram came, in microseconds.
    pub time: u64,
    /// The port that it came on.
    pub port: u16,
    /// Its bytes, fewer than 2^16.
    pub bytes: &'a [u8],
}

/// Tells the records of a trace, one after another, to a sink.
pub trait Telling {
    // What no call changes.
    ghost Given: { Type 0 };

    ghost given: { Self → Given };

    // How many bytes a trace may have at most.
    ghost most: { ℕ };

    // Nothing is told yet.
    ghost is_new: { Self → Type 0 };

    // These records are told: of what is told of them the sink has gained a front, and the rest is held. The sink had the first
    // written when nothing was told, and has the second.
    ghost has_told: { Self → List Record → Option (List ℕ) → Option (List ℕ) → Type 0 };

    // The sink has gained all that is told of these records, where their trace ends so. It may say too what is kept of them.
    ghost whole: { Self → List Record → Ending → Option (List ℕ) → Option (List ℕ) → Type 0 };

    // It has gained a prefix of that.
    ghost part: { Given → List Record → Option (List ℕ) → Option (List ℕ) → Type 0 };

    /// Begins, once the magic is read.
    fn begin<K: Sink>(&mut self, out: &mut K) -> Result<(), Fault>
        requires { is_new self.old }
        ensures told { OnOk result (has_told self.new [] (K.written out.old) (K.written out.new)) }
        ensures part { OnErr result ((records : List Record)
            → part (given self.old) records (K.written out.old) (K.written out.new)) }
        ensures given { given self.new ≡ given self.old }
        ensures faults { Counts result [] ((K.faults out.old, K.faults out.new) ∷ []) };

    /// Tells the next record.
    fn tell<K: Sink>(&mut self, datagram: Datagram<'_>, out: &mut K) -> Result<(), Fault>
        requires size { length datagram.bytes.now < 2 ^ 16 }
        requires told { (records : List Record) × (before : Option (List ℕ))
            × (length records < most) × has_told self.old records before (K.written out.old) }
        ensures told { OnOk result ((records : List Record) (before : Option (List ℕ))
            → has_told self.old records before (K.written out.old)
            → has_told self.new (records ++ (record {
              time = datagram.entry.time;
              port = datagram.entry.port;
              datagram = datagram.entry.bytes.now;
            }) ∷ []) before (K.written out.new)) }
        ensures part { OnErr result ((records later : List Record) (before : Option (List ℕ))
            → has_told self.old records before (K.written out.old)
            → part (given self.old) ((records ++ (record {
              time = datagram.entry.time;
              port = datagram.entry.port;
              datagram = datagram.entry.bytes.now;
            }) ∷ []) ++ later) before (K.written out.new)) }
        ensures given { given self.new ≡ given self.old }
        ensures faults { Counts result [] ((K.faults out.old, K.faults out.new) ∷ []) };

    /// Ends, once all records are told: what is held is written.
    fn end<K: Sink>(&mut self, finish: Finish, out: &mut K) -> Result<(), Fault>
        requires begun { IsBegun finish }
        requires told { (records : List Record) × (before : Option (List ℕ))
            × (length records < most) × has_told self.old records before (K.written out.old) }
        ensures whole { OnOk result ((records : List Record) (end : Ending) (before : Option (List ℕ))
            → finish ≡ finish_of end → has_told self.old records before (K.written out.old)
            → whole self.new records end before (K.written out.new)) }
        ensures part { OnErr result ((records : List Record) (before : Option (List ℕ))
            → has_told self.old records before (K.written out.old)
            → part (given self.old) records before (K.written out.new)) }
        ensures given { given self.new ≡ given self.old }
        ensures faults { Counts result [] ((K.faults out.old, K.faults out.new) ∷ []) };

    /// What stands where the walk ends early. It does nothing.
    fn stops(&self)
        ensures nothing { is_new self.now → (place : ℕ) (written : Option (List ℕ))
            → whole self.now [] (NoMagic place) written written }
        ensures none { is_new self.now → (records : List Record) (written : Option (List ℕ))
            → part (given self.now) records written written }
        ensures told { (records later : List Record) (before after : Option (List ℕ))
            → has_told self.now records before after → part (given self.now) (records ++ later) before after };
}
