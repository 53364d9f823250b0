//! Where the frames of a capture start.
ghost use Rattle.std.specs.Prelude.{◌≡◌, ◌≤◌, ◌<◌, ◌+◌, length, drop, None, IfSome, IfOk, slice_index_or, []};
ghost use Rattle.wire_model.specs.Framing.{frame, whole_frames, IsPartial};
ghost use Rattle.delivery_model.specs.Delivering.{most_delivered};
ghost use Rattle.deliver_job.specs.Bounds.{frame_bounds, BeginsWithFrame};

use std::alloc::{AllocError, Global};

/// The number of bytes of the frame that these bytes begin with; none where it isn't whole.
fn frame_len(bytes: &[u8]) -> Option<usize>
    ensures whole { IfSome result (λ len. BeginsWithFrame bytes.now len) }
    ensures cut { result ≡ None → IsPartial bytes.now }
{
    if bytes.len() < 2 {
        return None;
    }
    let len = 2 + usize::from(bytes[0]) * 256 + usize::from(bytes[1]);
    if len <= bytes.len() { Some(len) } else { None }
}

/// The offsets of a capture at which its whole frames start, in order, and then the offset after
/// the last one.
pub fn bounds_of(alloc: Global, capture: &[u8]) -> Result<Vec<u32>, AllocError>
    requires { length capture.now ≤ most_delivered }
    ensures { IfOk result (λ starts. starts.items ≡ frame_bounds (whole_frames capture.now)) }
{
    let mut starts = Vec::new(alloc);
    let mut at = 0;
    while let Some(len) = frame_len(&capture[at..]) {
        starts.push(at as u32)?;
        at += len;
    }
    starts.push(at as u32)?;
    Ok(starts)
}

/// The frame at this position, with its length before it.
pub fn frame_at<'a>(capture: &'a [u8], bounds: &[u32], position: usize) -> &'a [u8]
    requires bounds { bounds.now ≡ frame_bounds (whole_frames capture.now) }
    requires there { position + 1 < length bounds.now }
    ensures { result.now ≡ frame (slice_index_or (whole_frames capture.now) position []) }
{
    let from = bounds[position] as usize;
    let to = bounds[position + 1] as usize;
    &capture[from..to]
}
