// The types that workers share or are handed: stated here, in the crate that declares them.
use crate::{BitReader, BitWriter, Bytes, Crc32Ebml, Name, NoMemory};

fn is_shared<T: Send + Sync>() {}

/// States that the types of this crate may be sent to and shared between threads.
pub fn shared_types() {
    is_shared::<BitReader<'_>>();
    is_shared::<BitWriter>();
    is_shared::<Bytes>();
    is_shared::<Crc32Ebml>();
    is_shared::<Name>();
    is_shared::<NoMemory>();
}
