// The types that workers are handed: stated here, in the crate that declares them.
use crate::{CalmShelf, MemShelf};

fn is_shared<T: Send + Sync>() {}

/// States that `MemShelf` and `CalmShelf` may be sent to and shared between threads.
pub fn shared_types() {
    is_shared::<MemShelf>();
    is_shared::<CalmShelf>();
}
