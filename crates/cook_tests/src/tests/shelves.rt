// The shelves and the sink in memory by themselves.
ghost use Rattle.std.specs.Prelude.{OnOk};
ghost use Rattle.shelf_core.specs.Reads.{Has};

use super::orders::is;
use cook_bits::{Bytes, Name};
use shelf_core::{CalmShelf, CreateError, MemShelf, MemSink, Shelf, ShelfError, Sink, SinkFailed};
use std::process::Abort;
use std::test::Fail;

// Makes a file of five bytes in two pieces, and seals it.
#[tactic(auto, using(shelf_core::specs::FileLaws::file_laws))]
fn write_five<S: Shelf>(shelf: &mut S, name: &str) -> Result<(), Fail>
    ensures { OnOk result (Has S.Shelf shelf.new name.now) }
{
    shelf.make_folder("d")?;
    shelf.create(name)?;
    shelf.append(name, b"abc")?;
    shelf.append(name, b"de")?;
    shelf.seal(name)?;
    Ok(())
}

// Reads these five bytes back in two pieces.
fn read_five<S: Shelf>(rt: &impl Abort, shelf: &mut S, name: &str) -> Result<(), Fail>
    requires { Has S.Shelf shelf.old name.now }
{
    let mut piece = [0u8; 4];
    is(rt, shelf.read_at(name, 0, &mut piece)?, 4);
    is(rt, piece, *b"abcd");
    is(rt, shelf.read_at(name, 3, &mut piece)?, 2);
    is(rt, piece, *b"decd");
    Ok(())
}

// A file is made once, is read back, and is listed under its folder alone.
fn keeps_a_file<S: Shelf>(rt: &impl Abort, shelf: &mut S) -> Result<(), Fail> {
    write_five(shelf, "d/f")?;
    read_five(rt, shelf, "d/f")?;
    is(rt, shelf.create("d/f"), Err(CreateError::Exists));
    is(rt, shelf.len("d/f")?, Some(5));
    is(rt, shelf.len("d")?, None);
    for (root, count) in [("d", 1), ("d/f", 0), ("", 0)] {
        assert_eq!(rt; shelf.list(root)?.len(), count, "under {root:?}");
    }
    Ok(())
}

// Makes a file, and answers what the first append to it answers.
#[tactic(auto, using(shelf_core::specs::FileLaws::file_laws))]
fn first_append<S: Shelf>(
    shelf: &mut S,
    name: &str,
    bytes: &[u8],
) -> Result<Result<(), ShelfError>, CreateError> {
    shelf.create(name)?;
    Ok(shelf.append(name, bytes))
}

fn write_all<O: Sink>(rt: &impl Abort, sink: &mut O) {
    for (bytes, answer) in [
        ("ab", Ok(())),
        ("c", Err(SinkFailed)),
        ("cd", Ok(())),
        ("e", Err(SinkFailed)),
        ("", Ok(())),
    ] {
        assert_eq!(rt; sink.write(bytes.as_bytes()), answer, "at {bytes:?}");
    }
}

#[test]
fn a_mem_shelf_keeps_a_file(rt: HostRuntime) -> Result<(), Fail> {
    let files = vec![in rt.alloc(); (Name::copy(rt.alloc(), "a")?, Bytes::new(rt.alloc()))]?;
    let mut shelf = MemShelf::new(rt.alloc(), files, Vec::new(rt.alloc()));
    keeps_a_file(&rt, &mut shelf)?;
    is(&rt, shelf.files().len(), 2);
    is(&rt, shelf.unsealed().len(), 0);
    Ok(())
}

#[test]
fn a_calm_shelf_keeps_a_file(rt: HostRuntime) -> Result<(), Fail> {
    let files = vec![in rt.alloc(); (Name::copy(rt.alloc(), "a")?, Bytes::new(rt.alloc()))]?;
    let mut shelf = CalmShelf::new(rt.alloc(), files);
    keeps_a_file(&rt, &mut shelf)?;
    is(&rt, shelf.files().len(), 2);
    is(&rt, shelf.unsealed().len(), 0);
    Ok(())
}

// `!` is byte 33, `/` 47 and `0` 48.
#[test]
fn files_stand_in_byte_order_and_unsealed_names_in_order_of_creation(
    rt: HostRuntime,
) -> Result<(), Fail> {
    let mut shelf = CalmShelf::new(rt.alloc(), Vec::new(rt.alloc()));
    for name in ["a0", "a/b", "a!"] {
        shelf.create(name)?;
    }
    for (file, name) in shelf.files().iter().zip(["a!", "a/b", "a0"]) {
        is(&rt, file.0.as_str(), name);
    }
    for (unsealed, name) in shelf.unsealed().iter().zip(["a0", "a/b", "a!"]) {
        is(&rt, unsealed.as_str(), name);
    }
    let entries = shelf.list("a")?;
    assert_eq!(rt; entries.len(), 1);
    is(&rt, entries[0].name.as_str(), "b");
    Ok(())
}

#[test]
fn a_listed_call_fails_and_half_of_its_bytes_stand(rt: HostRuntime) -> Result<(), Fail> {
    let mut shelf = MemShelf::new(rt.alloc(), Vec::new(rt.alloc()), vec![in rt.alloc(); 1, 3]?);
    is(
        &rt,
        first_append(&mut shelf, "a", b"abcde"),
        Err(CreateError::Failed),
    );
    is(&rt, shelf.files().len(), 0);
    is(
        &rt,
        first_append(&mut shelf, "a", b"abcde")?,
        Err(ShelfError::Failed),
    );
    is(&rt, shelf.unsealed().len(), 1);
    let files = shelf.files();
    assert_eq!(rt; files.len(), 1);
    is(&rt, files[0].1.as_slice(), b"ab".as_slice());
    Ok(())
}

#[test]
fn a_mem_sink_fails_at_listed_writes_and_past_its_capacity(rt: HostRuntime) -> Result<(), Fail> {
    let mut sink = MemSink::new(rt.alloc(), 4, vec![in rt.alloc(); 2]?)?;
    write_all(&rt, &mut sink);
    is(&rt, sink.bytes(), b"abcd".as_slice());
    Ok(())
}
