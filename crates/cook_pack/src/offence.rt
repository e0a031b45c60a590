// The rules that an entry of a listing may break: those that the listing decides, and those that its file does.
ghost use Rattle.std.specs.Prelude.{◌≡◌, ◌<◌, ◌≤◌, ◌^◌, length, take};
ghost use Rattle.std.specs.Str.{str_eq_ignore_ascii_case};
ghost use Rattle.cook_pack.specs.Entries.{AreInOrder, entry_at, entry_names, fault_by_listing, fault_by_file};
ghost use Rattle.cook_pack.specs.Offence.{ends_with_name};
ghost use Rattle.cook_pack.specs.Film.{is_film_or_sound};

use crate::RefuseWhy;
use cook_bits::{holds_folder_of, is_relative_name};
use shelf_core::Entry;

/// The most files of a directory.
const MOST_FILES: usize = 1_000_000;

/// The most bytes of a directory's files.
const MOST_BYTES: u64 = 1 << 50;

fn is_same_ignoring_case(ending: &[u8], other: &[u8]) -> bool
    ensures { result ≡ str_eq_ignore_ascii_case ending.now other.now }
{
    ending.eq_ignore_ascii_case(other)
}

/// Whether the name is that of a frame or a wave: it ends in `.dpx` or `.wav`, in any ASCII case.
#[tactic(auto, unfolding(crate::specs::Film::is_film_or_sound))]
pub fn is_film_or_sound(name: &str) -> bool
    ensures { result ≡ is_film_or_sound name.now }
{
    let bytes = name.as_bytes();
    let ending = &bytes[bytes.len().saturating_sub(4)..];
    is_same_ignoring_case(ending, b".dpx") || is_same_ignoring_case(ending, b".wav")
}

// Whether the entry at a place has the name of the one before it.
fn is_twice(entries: &[Entry], index: usize) -> bool
    requires { index < length entries.now }
    ensures { result ≡ ends_with_name (take index (entry_names entries.now)) (entry_at entries.now index).name }
{
    index > 0 && entries[index - 1].name == entries[index].name
}

/// The first rule that the entry at a place breaks by the listing, whose entries stand in byte order of names.
pub fn fault_by_listing(entries: &[Entry], index: usize) -> Option<RefuseWhy>
    requires order { AreInOrder entries.now }
    requires inside { index < length entries.now }
    ensures { result ≡ fault_by_listing entries.now index }
{
    let entry = &entries[index];
    let name = entry.name.as_str();
    if !entry.plain {
        Some(RefuseWhy::NotPlain)
    } else if !is_relative_name(name) {
        Some(RefuseWhy::BadName)
    } else if is_twice(entries, index) {
        Some(RefuseWhy::Twice)
    } else if holds_folder_of(entries, name) {
        Some(RefuseWhy::UnderFile)
    } else if index >= MOST_FILES {
        Some(RefuseWhy::TooManyFiles)
    } else {
        None
    }
}

/// The first rule that a file breaks by its length of `len` bytes or its name, where files of `total` bytes stand before it.
pub fn fault_by_file(total: u64, name: &str, len: u64) -> Option<RefuseWhy>
    requires { total ≤ 2 ^ 50 }
    ensures { result ≡ fault_by_file total name.now len }
{
    if len > MOST_BYTES - total {
        Some(RefuseWhy::TooLarge)
    } else if is_film_or_sound(name) {
        Some(RefuseWhy::Unbuilt)
    } else {
        None
    }
}
