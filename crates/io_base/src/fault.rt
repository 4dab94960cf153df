//! Why a source or a sink failed.

use thiserror::Error;

/// Why a source or a sink failed. The cause is not kept: it is counted where it was met.
#[derive(Clone, Copy, Debug, PartialEq, Eq, Error)]
pub enum IoFault {
    /// It failed, and counted a fault.
    #[error("a read or a write failed")]
    Failed,
}
