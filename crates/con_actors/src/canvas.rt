//! The painter's canvas, and where its frames end.
ghost use Rattle.std.specs.Prelude.{◌≡◌, ◌+◌, length, IfOk};

use con_paint::Painter;
use con_units::OutOfMemory;

/// The painter, its frame's bytes, and where each frame ends in the stream.
#[derive(Drop)]
pub struct Canvas {
    pub painter: Painter,
    pub out: Vec<u8>,
    pub ends: Vec<u64>,
    /// How many bytes the frames have.
    pub end: u64,
    /// The terminal has failed.
    pub failed: bool,
}

/// How many bytes a frame has.
pub fn frame_length(out: &Vec<u8>) -> usize
    ensures { result ≡ length out.now.items }
{
    out.as_slice().len()
}

/// Where a frame of so many bytes ends in the stream, if the one before it ends here.
pub fn end_after(end: u64, more: usize) -> Result<u64, OutOfMemory>
    ensures { IfOk result (λ n. n ≡ end + more) }
{
    match end.checked_add(more as u64) {
        Some(n) => Ok(n),
        None => Err(OutOfMemory),
    }
}
