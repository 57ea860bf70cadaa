//! What a terminal shows of a stream.
use con_outside::{SureSink, SureSource};
use con_text::host_play;
use con_units::{Bytes, Size};
use std::alloc::{AllocError, Global};

/// The dump of a terminal of a size that is played some bytes.
pub fn dump(alloc: Global, size: Size, bytes: &[u8]) -> Result<Bytes, AllocError> {
    let mut link = SureSource {
        bytes: Bytes(bytes.to_vec(alloc)?),
        at: 0,
    };
    let mut report = SureSink {
        written: Bytes(Vec::new(alloc)),
    };
    if 1 <= size.w && size.w <= 512 && 1 <= size.h && size.h <= 256 {
        host_play(alloc, size, &mut link, &mut report);
    }
    Ok(report.written)
}
