// The types that workers share or are handed: stated here, in the crate that declares them.
use crate::{Choice, LinearSet};

fn is_shared<T: Send + Sync>() {}

/// States that `Choice` and `LinearSet` may be sent to and shared between threads.
pub fn shared_types() {
    is_shared::<Choice>();
    is_shared::<LinearSet>();
}
