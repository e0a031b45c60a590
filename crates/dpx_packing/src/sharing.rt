// The types that workers share or are handed: stated here, in the crate that declares them.
use crate::{PadBad, Tile};

fn is_shared<T: Send + Sync>() {}

/// States that `Tile` and `PadBad` may be sent to and shared between threads.
pub fn shared_types() {
    is_shared::<Tile>();
    is_shared::<PadBad>();
}
