// The types that threads may share or be handed: stated here, in the crate that declares them.
use crate::{NameError, NameTree, Walk};

fn is_shared<T: Send + Sync>() {}

/// States that the types of this crate may be sent to and shared between threads.
pub fn shared_types() {
    is_shared::<NameTree>();
    is_shared::<Walk<'_>>();
    is_shared::<NameError>();
}
