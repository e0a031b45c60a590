// The shelf may be handed to another thread: stated here, in the crate that declares it.
use crate::real_shelf::RealShelf;

fn is_sent<T: Send>() {}

/// States that a `RealShelf` may be sent to another thread.
pub fn sent_types() {
    is_sent::<RealShelf>();
}
