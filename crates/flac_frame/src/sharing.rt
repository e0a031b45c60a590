// The types that workers share or are handed: stated here, in the crate that declares them.
use crate::{Block, FlacWhy, InfoBad, StreamInfo};

fn is_shared<T: Send + Sync>() {}

/// States that `Block`, `FlacWhy`, `InfoBad` and `StreamInfo` may be sent to and shared between threads.
pub fn shared_types() {
    is_shared::<Block>();
    is_shared::<FlacWhy>();
    is_shared::<InfoBad>();
    is_shared::<StreamInfo>();
}
