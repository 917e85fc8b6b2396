// The answers of the outside other than Ok.
use thiserror::Error;

/// A source failed: its count of faults rose.
#[derive(Clone, Copy, Debug, PartialEq, Eq, Error)]
#[error("the source failed")]
pub struct Failed;

/// Why a sink didn't take bytes, or a folder didn't keep a file.
#[derive(Clone, Copy, Debug, PartialEq, Eq, Error)]
pub enum OutsideFault {
    /// It failed: its count of faults rose.
    #[error("it failed")]
    Failed,
    /// Memory is wanting.
    #[error("memory is wanting")]
    Memory,
}

/// Why a file wasn't taken.
#[derive(Clone, Copy, Debug, PartialEq, Eq, Error)]
pub enum TakeFault {
    /// No file has the name.
    #[error("no file has the name")]
    Absent,
    /// The file has more than 268,435,456 bytes.
    #[error("the file is too long")]
    Long,
    /// The folder failed: its count of faults rose.
    #[error("the folder failed")]
    Failed,
    /// Memory is wanting.
    #[error("memory is wanting")]
    Memory,
}
