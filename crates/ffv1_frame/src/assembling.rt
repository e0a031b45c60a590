// Slices put together as a frame.

ghost use Rattle.std.specs.Prelude.{◌≡◌, ◌<◌, ◌^◌, ◌∷◌, [], ◌++◌, All, IfOk, OnOk, length};
ghost use Rattle.std.specs.Int.{bytes_high_first};
ghost use Rattle.ffv1_frame.specs.Footers.{footed, frame_of_slices};

use cook_bits::{Bytes, NoMemory, crc32_high};
use std::alloc::Global;

/// The bytes that `append_slice` adds behind a slice.
pub const FOOTER_LEN: usize = 8;

/// The frame of coded slices: each with its size, no error, and the parity of its bytes. Each is shorter than 2^24 bytes.
pub fn assemble(alloc: Global, slices: &[Bytes]) -> Result<Bytes, NoMemory>
    requires { All (λ slice. length slice < 2 ^ 24) slices.now }
    ensures { IfOk result (λ frame. frame ≡ frame_of_slices slices.now) }
{
    let mut frame = Vec::with_capacity(alloc, room_for(slices))?;
    for slice in slices {
        append_slice(&mut frame, slice.as_slice())?;
    }
    Ok(Bytes::from_vec(frame))
}

// The bytes of the frame, or the greatest number there is.
fn room_for(slices: &[Bytes]) -> usize {
    let mut room = 0usize;
    for slice in slices {
        room = room.saturating_add(slice.as_slice().len().saturating_add(FOOTER_LEN));
    }
    room
}

/// Adds a coded slice to a frame: its bytes, their count, no error, and the parity of all these. After a refusal the frame has
/// a part of it.
#[tactic(auto, unfolding(crate::specs::Footers::footed, crate::specs::Footers::sized))]
pub fn append_slice(frame: &mut Vec<u8>, slice: &[u8]) -> Result<(), NoMemory>
    requires { length slice.now < 2 ^ 24 }
    ensures { OnOk result (frame.new.items ≡ frame.old.items ++ footed slice.now) }
{
    let at = frame.len();
    frame.extend_from_slice(slice)?;
    frame.extend_from_slice(&size_field(slice.len()))?;
    let parity = crc32_high(&frame.as_slice()[at..]);
    frame.extend_from_slice(&parity.to_be_bytes())?;
    Ok(())
}

// The size in three bytes, and no error.
fn size_field(size: usize) -> [u8; 4]
    requires { size < 2 ^ 24 }
    ensures { result ≡ bytes_high_first 3 size ++ 0 ∷ [] }
{
    let [_, high, middle, low] = (size as u32).to_be_bytes();
    [high, middle, low, 0]
}
