// The types that workers share or are handed: stated here, in the crate that declares them.
use crate::{BadSymbol, Decoder, Encoder, States, Table};

fn is_shared<T: Send + Sync>() {}

/// States that the types of this crate may be sent to and shared between threads.
pub fn shared_types() {
    is_shared::<Table>();
    is_shared::<States>();
    is_shared::<Encoder>();
    is_shared::<Decoder<'static>>();
    is_shared::<BadSymbol>();
}
