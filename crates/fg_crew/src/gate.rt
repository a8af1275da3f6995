//! Points at which a test can hold a thread.

/// Hears of the points that the threads pass. It tells nothing to the program.
pub trait Gate: Sync {
    /// The worker passes the point. The caller is worker 0.
    fn at(&self, worker: u32, point: u32);
}

/// The gate of the program, which does nothing.
#[derive(Clone, Copy)]
pub struct NoGate;

impl Gate for NoGate {
    fn at(&self, _worker: u32, _point: u32) {}
}
