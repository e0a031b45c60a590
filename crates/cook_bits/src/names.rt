// The rules of names: which are relative names, and which stand under a name that is held.
ghost use Rattle.std.specs.Prelude.{◌≡◌, map, IfOk};
ghost use Rattle.std.specs.List.{list_any};
ghost use Rattle.std.specs.List.Sorted.{IsSortedByKey};
ghost use Rattle.std.specs.Ordering.{nat_cmp};
ghost use Rattle.std.specs.Cmp.Lexicographic.{slice_cmp};
ghost use Rattle.cook_bits.specs.Names.{full_name, is_same_name, is_relative_name, holds_folder_of};
ghost use Rattle.cook_bits.specs.Segments.{is_named, seen_more, are_plain};

use crate::{Name, NoMemory};
use std::alloc::Global;
use std::cmp::Ordering;

/// The most bytes of a relative name.
pub const MOST_NAME_BYTES: usize = 1024;

/// A thing with a name, as a file that is held.
pub trait Named {
    ghost use Rattle.std.specs.Prelude.{List, ℕ};

    ghost name_of: { Self → List ℕ };

    /// The name.
    fn name(&self) -> &str
        ensures { result.now ≡ name_of self.now };
}

impl Named for Name {
    ghost name_of = { λ name. name };

    fn name(&self) -> &str {
        self.as_str()
    }
}

/// What stands of a segment so far, as far as it decides whether the segment names something.
#[derive(Clone, Copy, Debug, PartialEq, Eq)]
enum Seen {
    Nothing,
    OneDot,
    TwoDots,
    Named,
}

fn is_plain(seen: Seen) -> bool
    ensures { result ≡ is_named seen }
{
    match seen {
        Seen::Named => true,
        Seen::Nothing | Seen::OneDot | Seen::TwoDots => false,
    }
}

fn with_byte(seen: Seen, byte: u8) -> Seen
    ensures { result ≡ seen_more seen byte }
{
    if byte != b'.' {
        return Seen::Named;
    }
    match seen {
        Seen::Nothing => Seen::OneDot,
        Seen::OneDot => Seen::TwoDots,
        Seen::TwoDots | Seen::Named => Seen::Named,
    }
}

// Whether the bytes have no zero and all segments are plain.
fn are_plain_segments(bytes: &[u8]) -> bool
    ensures { result ≡ are_plain Seen.Nothing bytes.now }
{
    let mut seen = Seen::Nothing;
    for byte in bytes {
        if *byte == 0 {
            return false;
        }
        if *byte != b'/' {
            seen = with_byte(seen, *byte);
        } else if is_plain(seen) {
            seen = Seen::Nothing;
        } else {
            return false;
        }
    }
    is_plain(seen)
}

/// Whether the text is a relative name: segments joined by `/`, none of them empty, `.` or `..`,
/// 1 to 1,024 bytes in all, and no byte zero. It takes no memory.
pub fn is_relative_name(name: &str) -> bool
    ensures { result ≡ is_relative_name name.now }
{
    let bytes = name.as_bytes();
    bytes.len() <= MOST_NAME_BYTES && are_plain_segments(bytes)
}

/// The full name of a file under a root: the root, a slash and its relative name.
pub fn full_name(alloc: Global, root: &str, name: &str) -> Result<Name, NoMemory>
    ensures { IfOk result (λ full. full ≡ full_name root.now name.now) }
{
    let mut text = String::with_capacity(
        alloc,
        root.len().saturating_add(name.len()).saturating_add(1),
    )?;
    text.push_str(root)?;
    text.push('/')?;
    text.push_str(name)?;
    Ok(Name::from_string(text))
}

// Compares the name of what is held with the folder, byte by byte.
fn compared<N: Named>(held: &N, folder: &[u8]) -> Ordering
    ensures { result ≡ slice_cmp nat_cmp (N.name_of held.now) folder.now }
{
    held.name().as_bytes().cmp(folder)
}

fn holds<N: Named>(sorted: &[N], folder: &[u8]) -> bool
    requires { IsSortedByKey N.name_of (slice_cmp nat_cmp) sorted.now }
    ensures { result ≡ list_any (is_same_name folder.now) (map N.name_of sorted.now) }
{
    sorted
        .binary_search_by(|held| compared(held, folder))
        .is_ok()
}

/// Whether a proper folder of the name is itself a name that is held: one binary search for each
/// `/` of the name, among names in byte order. It takes no memory.
pub fn holds_folder_of<N: Named>(sorted: &[N], name: &str) -> bool
    requires { IsSortedByKey N.name_of (slice_cmp nat_cmp) sorted.now }
    ensures { result ≡ holds_folder_of (map N.name_of sorted.now) name.now }
{
    let bytes = name.as_bytes();
    for (i, byte) in bytes.iter().enumerate() {
        if *byte == b'/' && holds(sorted, &bytes[..i]) {
            return true;
        }
    }
    false
}
