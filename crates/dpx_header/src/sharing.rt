// The types that workers share or are handed: stated here, in the crate that declares them.
use crate::{DpxWhy, Layout};

fn is_shared<T: Send + Sync>() {}

/// States that `Layout` and `DpxWhy` may be sent to and shared between threads.
pub fn shared_types() {
    is_shared::<Layout>();
    is_shared::<DpxWhy>();
}
