//! Why a session ended.

use con_units::FrameFault;

/// Why a session ended.
#[derive(Clone, Copy, PartialEq, Eq, Drop)]
pub enum End {
    /// Nobody had anything left to do.
    Done,
    /// The terminal took no more bytes.
    Term,
    /// The link could not be read.
    Link,
    /// The link has more than 16,777,216 bytes.
    TooLong,
    /// The link's bytes from `place` on are no frame.
    Bad { place: u64, kind: FrameFault },
    /// There was no memory.
    Memory,
}
