//! Why no frame was read.

use con_units::FrameFault;

/// Why no frame was read.
#[derive(Clone, Copy, PartialEq, Eq, Drop)]
pub enum LinkFault {
    /// The link's source failed.
    Failed,
    /// More than 16,777,216 bytes were taken from the link.
    TooLong,
    /// The bytes from `place` on, the offset of the first of them in the link, are no frame.
    Bad { place: u64, kind: FrameFault },
    /// There was no memory for the frame's bytes.
    OutOfMemory,
}
