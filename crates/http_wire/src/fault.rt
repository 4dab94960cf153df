//! Why a wire refuses.

use thiserror::Error;

/// Why a wire refuses. It gives the same refusal from then on.
#[derive(Clone, Copy, Debug, PartialEq, Eq, Error)]
pub enum WireFault {
    /// No head begins with the bytes that came, or its `Content-Length` is none.
    #[error("the bytes are no head")]
    BadHead,
    /// 65,536 bytes hold no whole head, or a header line begins behind the 64th.
    #[error("the head is too long")]
    HeadTooLong,
    /// The body comes in chunks.
    #[error("the body comes in chunks")]
    ChunkedBody,
    /// The source ended inside a body, of which so many of the stated bytes were read; or inside a head, of which so
    /// many bytes had come, and the stated number is 0.
    #[error("the input ended too early")]
    BodyCut { read: u64, stated: u64 },
    /// The source failed, and counted it.
    #[error("a read failed")]
    ReadFault,
    /// There was not enough memory.
    #[error("out of memory")]
    NoMemory,
}
