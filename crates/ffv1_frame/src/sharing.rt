// The types that workers share or are handed: stated here, in the crate that declares them.
use crate::{FrameWhy, Grid, GridBad, Part, Parts, PictureWhy};

fn is_shared<T: Send + Sync>() {}

/// States that `Grid`, `GridBad`, `Part`, `Parts`, `FrameWhy` and `PictureWhy` may be sent to and shared between threads.
pub fn shared_types() {
    is_shared::<Grid>();
    is_shared::<GridBad>();
    is_shared::<Part>();
    is_shared::<Parts>();
    is_shared::<FrameWhy>();
    is_shared::<PictureWhy>();
}
