//! Why a report is not whole.

/// Why a report is not whole.
#[derive(Clone, Copy, Debug, PartialEq, Eq)]
pub enum ReportFault {
    /// Writing failed: the sink has counted a fault.
    WriteFault,
    /// There was no memory.
    Memory,
}
