// The types that workers share or are handed: stated here, in the crate that declares them.
use crate::{Scratch, SliceHead, SliceWhy};

fn is_shared<T: Send + Sync>() {}

/// States that the types of this crate may be sent to and shared between threads.
pub fn shared_types() {
    is_shared::<SliceHead>();
    is_shared::<SliceWhy>();
    is_shared::<Scratch>();
}
