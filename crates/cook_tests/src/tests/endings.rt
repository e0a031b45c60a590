// How orders end on a shelf in memory, and that a refusal leaves it as it was.
use super::orders::{File, ends, has_file, is, shelf_of};
use shelf_core::MemShelf;
use std::test::Fail;

const FILES: [File<'static>; 6] = [
    ("d/b.wav", b"RIFF"),
    ("d/a.dpx", b"SDPX"),
    ("e/notes.txt", b""),
    ("p", b"old"),
    ("t/b", b"2"),
    ("t/a", b"1"),
];

// The first offence is named, and the first name in the way, in byte order.
const REFUSED: [(&str, u8, &str); 6] = [
    (
        "pack a",
        1,
        "cook: usage: pack [-w N] [-r N] DIR PKG, restore [-w N] PKG DIR, check [-w N] PKG, list PKG, trial N\n",
    ),
    ("pack d q", 2, "cook: a.dpx: not built yet\n"),
    ("restore p u", 3, "cook: package: bad structure at byte 0\n"),
    ("pack e p", 4, "cook: p: in the way\n"),
    ("restore p t", 4, "cook: a: in the way\n"),
    ("restore q u", 9, "cook: q: not there\n"),
];

// Whether the shelf has these files, and no others.
fn is_as_it_was(shelf: &MemShelf) -> bool {
    shelf.files().len() == FILES.len()
        && shelf.unsealed().len() == 0
        && FILES
            .iter()
            .all(|(name, bytes)| has_file(shelf, name, bytes))
}

#[test]
fn a_refused_order_leaves_the_shelf_as_it_was(rt: HostRuntime) -> Result<(), Fail> {
    let mut shelf = shelf_of(rt.alloc(), &FILES, Vec::new(rt.alloc()))?;
    for (line, number, text) in REFUSED {
        ends(&rt, rt.alloc(), &mut shelf, line, number, text)?;
        assert!(rt; is_as_it_was(&shelf), "after {line:?}");
    }
    Ok(())
}

#[test]
fn a_directory_is_packed_and_comes_back(rt: HostRuntime) -> Result<(), Fail> {
    let mut shelf = shelf_of(rt.alloc(), &FILES, Vec::new(rt.alloc()))?;
    let report = "packed 1 files, 0 tracks, 0 blocks, 231 bytes\n";
    ends(&rt, rt.alloc(), &mut shelf, "pack e/ q", 0, report)?;
    let report = "restored 1 files, 0 bytes\n";
    ends(&rt, rt.alloc(), &mut shelf, "restore q u/", 0, report)?;
    assert!(rt; has_file(&shelf, "u/notes.txt", b""));
    is(&rt, shelf.files().len(), 8);
    is(&rt, shelf.unsealed().len(), 0);
    Ok(())
}
