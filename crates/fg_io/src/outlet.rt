//! Where the lanes go, one lane of bytes for each port.
ghost use Rattle.std.specs.Prelude.{◌≡◌, ℕ, ◌≤◌, Option, [], ◌∷◌, IfErr, OnOk, OnErr};
ghost use Rattle.fg_io.specs.Faults.{Counts, CountsFault};
ghost use Rattle.fg_io.specs.Outlet.{Lanes, Puts, PutsPart};

use crate::Failed;
use crate::fault::Fault;

/// Keeps one lane of bytes for each port.
///
/// A run calls [`Outlet::prepare`] once, before its first put, and [`Outlet::close`] once, after its last. Both do nothing
/// where an outlet has nothing to do then.
pub trait Outlet {
    // The lanes, where the outlet tells them.
    ghost lanes: { Self → Option Lanes };

    // How many faults there have been.
    ghost faults: { Self → ℕ };

    /// Appends the piece to the lane of the port. An empty piece makes an empty lane where there is none.
    ///
    /// After [`Failed`] that lane has gained a prefix of the piece. One that wasn't there may be there or not. A call
    /// that is `Ok` counts no fault.
    fn put(&mut self, port: u16, piece: &[u8]) -> Result<(), Failed>
        ensures puts { OnOk result (Puts (lanes self.old) port piece.now (lanes self.new)) }
        ensures failed { OnErr result (PutsPart (lanes self.old) port piece.now (lanes self.new)) }
        ensures no_fault { OnOk result (faults self.new ≡ faults self.old) }
        ensures counted { OnErr result (CountsFault (faults self.old) (faults self.new)) }
        ensures never_falls { faults self.old ≤ faults self.new };

    /// Looks at the lanes of all ports to which a run will put, before one of them is made or changed. It changes none, and
    /// after [`Failed`] the run is to put nothing.
    fn prepare(&mut self, _ports: &[u16]) -> Result<(), Failed>
        ensures unchanged { lanes self.new ≡ lanes self.old }
        ensures no_fault { OnOk result (faults self.new ≡ faults self.old) }
        ensures counted { OnErr result (CountsFault (faults self.old) (faults self.new)) }
        ensures never_falls { faults self.old ≤ faults self.new }
    {
        Ok(())
    }

    /// Ends the lanes that were put to: what fails from then on is no fault of theirs. It changes none, and a later put goes
    /// on after what is there.
    ///
    /// After [`Failed`] something that was put may not be kept, where the outlet tells nothing of its lanes.
    fn close(&mut self) -> Result<(), Failed>
        ensures unchanged { lanes self.new ≡ lanes self.old }
        ensures no_fault { OnOk result (faults self.new ≡ faults self.old) }
        ensures counted { OnErr result (CountsFault (faults self.old) (faults self.new)) }
        ensures never_falls { faults self.old ≤ faults self.new }
    {
        Ok(())
    }
}

/// Appends the piece to the lane of the port, as [`Outlet::put`] does.
///
/// After a fault, which is `Write`, that lane has gained a prefix of the piece.
pub fn put<O: Outlet>(lanes: &mut O, port: u16, piece: &[u8]) -> Result<(), Fault>
    ensures puts { OnOk result (Puts (O.lanes lanes.old) port piece.now (O.lanes lanes.new)) }
    ensures failed { OnErr result (PutsPart (O.lanes lanes.old) port piece.now (O.lanes lanes.new)) }
    ensures fault { IfErr result (λ fault. fault ≡ Fault.Write) }
    ensures faults { Counts result [] ((O.faults lanes.old, O.faults lanes.new) ∷ []) }
{
    match lanes.put(port, piece) {
        Ok(()) => Ok(()),
        Err(Failed) => Err(Fault::Write),
    }
}

/// Looks at the lanes of all ports to which a run will put, as [`Outlet::prepare`] does.
///
/// It changes none. The fault is `Write`.
pub fn prepare<O: Outlet>(lanes: &mut O, ports: &[u16]) -> Result<(), Fault>
    ensures unchanged { O.lanes lanes.new ≡ O.lanes lanes.old }
    ensures fault { IfErr result (λ fault. fault ≡ Fault.Write) }
    ensures faults { Counts result [] ((O.faults lanes.old, O.faults lanes.new) ∷ []) }
{
    match lanes.prepare(ports) {
        Ok(()) => Ok(()),
        Err(Failed) => Err(Fault::Write),
    }
}

/// Ends the lanes that were put to, as [`Outlet::close`] does.
///
/// It changes none. The fault is `Write`.
pub fn close<O: Outlet>(lanes: &mut O) -> Result<(), Fault>
    ensures unchanged { O.lanes lanes.new ≡ O.lanes lanes.old }
    ensures fault { IfErr result (λ fault. fault ≡ Fault.Write) }
    ensures faults { Counts result [] ((O.faults lanes.old, O.faults lanes.new) ∷ []) }
{
    match lanes.close() {
        Ok(()) => Ok(()),
        Err(Failed) => Err(Fault::Write),
    }
}
