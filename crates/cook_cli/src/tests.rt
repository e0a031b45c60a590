use crate::real_shelf::RealShelf;
use crate::sealing_of;
use crate::unsealed::Sealing;
use cook_top::{Status, cook};
use shelf_core::{CreateError, Entry, MemShelf, MemSink, Shelf, ShelfError};
use std::alloc::{AllocError, Global};
use std::fmt::Debug;
use std::fs;
use std::io::ErrorKind;
use std::os::unix::fs::symlink;
use std::process::Abort;
use std::test::Fail;

// What is given is what is wanted. An assertion where it stands is proved three times as long as this call.
pub fn is<T: PartialEq + Debug + Drop>(rt: &impl Abort, given: T, wanted: T) {
    assert_eq!(rt; given, wanted);
}

fn is_listed(entries: &[Entry], name: &str, plain: bool) -> bool {
    entries.iter().any(|entry| entry.name.as_str() == name && entry.plain == plain)
}

#[tactic(auto, unfolding(shelf_core::specs::Told::IsUnsealedIn, shelf_core::specs::Told::HasFile))]
#[test]
fn a_file_is_created_once_grows_and_is_read_in_pieces(rt: HostRuntime) -> Result<(), Fail> {
    let _ = fs::remove_dir_all(&rt, "written");
    let mut shelf = RealShelf::new(rt, Sealing::OnDisk);
    is(&rt, shelf.make_folder("written/reel/ä"), Ok(()));
    is(&rt, shelf.make_folder("written/reel/ä"), Ok(()));
    let song = "written/reel/ä/ö.txt";
    is(&rt, shelf.create(song), Ok(()));
    is(&rt, shelf.append(song, b"hello "), Ok(()));
    is(&rt, shelf.append(song, b"world"), Ok(()));
    is(&rt, shelf.seal(song), Ok(()));
    is(&rt, shelf.create(song), Err(CreateError::Exists));
    is(&rt, shelf.append(song, b"!"), Err(ShelfError::Failed));
    is(&rt, shelf.seal(song), Err(ShelfError::Failed));
    let mut buf = [0; 4];
    is(&rt, shelf.read_at(song, 0, &mut buf), Ok(4));
    is(&rt, buf, *b"hell");
    is(&rt, shelf.read_at(song, 8, &mut buf), Ok(3));
    is(&rt, buf, *b"rldl");
    is(&rt, shelf.read_at(song, 11, &mut buf), Ok(0));
    is(
        &rt,
        shelf.read_at("written/none", 0, &mut buf),
        Err(ShelfError::Failed),
    );
    is(
        &rt,
        shelf.append("written/none", b"a"),
        Err(ShelfError::Failed),
    );
    is(
        &rt,
        shelf.create("written/none/a"),
        Err(CreateError::Failed),
    );
    let fault = shelf.last_fault.as_ref().ok_or("a fault")?;
    is(&rt, fault.name.as_deref(), Some("written/none/a"));
    is(&rt, fault.error.kind(), ErrorKind::NotFound);
    is(&rt, shelf.make_folder(song), Err(ShelfError::Failed));
    fs::remove_dir_all(&rt, "written")?;
    Ok(())
}

// A file that another program writes in between is a fault where the shelf leaves it, and where a file is sealed.
#[tactic(auto, unfolding(shelf_core::specs::Told::IsUnsealedIn, shelf_core::specs::Told::HasFile))]
#[test]
fn a_file_that_changed_since_it_was_measured_is_a_fault(rt: HostRuntime) -> Result<(), Fail> {
    let _ = fs::remove_dir_all(&rt, "changing");
    fs::create_dir_all(&rt, "changing")?;
    fs::write(&rt, "changing/a", b"one".as_slice())?;
    let mut shelf = RealShelf::new(rt, Sealing::OnDisk);
    is(&rt, shelf.create("changing/p"), Ok(()));
    is(&rt, shelf.len("changing/a"), Ok(Some(3)));
    is(&rt, shelf.read_at("changing/a", 0, &mut [0; 4]), Ok(3));
    fs::write(&rt, "changing/a", b"other".as_slice())?;
    is(&rt, shelf.seal("changing/p"), Err(ShelfError::Failed));
    let left = shelf.read_at("changing/p", 0, &mut [0; 4]);
    is(&rt, left, Err(ShelfError::Failed));
    let fault = shelf.last_fault.as_ref().ok_or("a fault")?;
    is(&rt, fault.name.as_deref(), Some("changing/a"));
    is(&rt, shelf.len("changing/a"), Ok(Some(5)));
    is(&rt, shelf.read_at("changing/a", 0, &mut [0; 4]), Ok(4));
    is(&rt, shelf.seal("changing/p"), Ok(()));
    fs::remove_dir_all(&rt, "changing")?;
    Ok(())
}

#[test]
fn a_listing_shows_each_thing_once_and_follows_no_link(rt: HostRuntime) -> Result<(), Fail> {
    let _ = fs::remove_dir_all(&rt, "listed");
    fs::create_dir_all(&rt, "listed/reel/ä")?;
    fs::create_dir_all(&rt, "listed/hollow")?;
    fs::write(&rt, "listed/reel/ä/ö.txt", b"hello world".as_slice())?;
    fs::write(&rt, "listed/empty", b"".as_slice())?;
    symlink(&rt, "empty", "listed/link")?;
    symlink(&rt, "reel", "listed/ring")?;
    symlink(&rt, "nowhere", "listed/astray")?;
    let mut shelf = RealShelf::new(rt, Sealing::OnDisk);
    let entries = shelf.list("listed")?;
    is(&rt, entries.len(), 5);
    assert!(rt; is_listed(entries.as_slice(), "reel/ä/ö.txt", true));
    assert!(rt; is_listed(entries.as_slice(), "empty", true));
    for link in ["link", "ring", "astray"] {
        assert!(rt; is_listed(entries.as_slice(), link, false), "{link}");
    }
    assert!(rt; matches!(shelf.list("listed/none"), Err(ShelfError::Failed)));
    is(&rt, shelf.create("listed/astray"), Err(CreateError::Exists));
    is(&rt, shelf.len("listed/reel/ä/ö.txt"), Ok(Some(11)));
    is(&rt, shelf.len("listed/empty"), Ok(Some(0)));
    is(&rt, shelf.len("listed/none"), Ok(None));
    is(&rt, shelf.len("listed/empty/none"), Ok(None));
    is(&rt, shelf.len("listed/reel"), Err(ShelfError::Failed));
    fs::remove_dir_all(&rt, "listed")?;
    Ok(())
}

// A package alone is to be on the disk before its report.
#[test]
fn packages_alone_are_sealed_on_the_disk(rt: HostRuntime) -> Result<(), Fail> {
    let table = [
        ("pack d p", Sealing::OnDisk),
        ("restore p d", Sealing::LargeOnDisk),
        ("pack d", Sealing::LargeOnDisk),
    ];
    for (line, wanted) in table {
        let words = words_in(rt.alloc(), line)?;
        assert_eq!(rt; sealing_of(words.as_slice()), wanted, "of {line:?}");
    }
    Ok(())
}

// Bytes of a file that takes more than one piece of 1 MiB. No two pieces are alike.
fn long_bytes(alloc: Global) -> Result<Vec<u8>, AllocError> {
    let mut bytes = Vec::new(alloc);
    for place in 0..1_572_865_u32 {
        bytes.push((place % 251) as u8)?;
    }
    Ok(bytes)
}

// Makes a whole file.
#[tactic(auto, using(shelf_core::specs::FileLaws::file_laws))]
fn put<S: Shelf>(shelf: &mut S, name: &str, bytes: &[u8]) -> Result<(), Fail> {
    shelf.create(name)?;
    shelf.append(name, bytes)?;
    shelf.seal(name)?;
    Ok(())
}

// The words of a line, which are parted by one space each.
fn words_in(alloc: Global, line: &str) -> Result<Vec<String>, AllocError> {
    let mut words = Vec::new(alloc);
    for word in line.split(' ') {
        words.push(String::from_str(alloc, word)?)?;
    }
    Ok(words)
}

// Does what a line says: how it ended, and what was reported.
fn run<S: Shelf>(alloc: Global, shelf: &mut S, line: &str) -> Result<(Status, MemSink), Fail> {
    let words = words_in(alloc, line)?;
    let mut out = MemSink::new(alloc, 200, Vec::new(alloc))?;
    let status = cook(alloc, words.as_slice(), shelf, &mut out);
    Ok((status, out))
}

// Makes the folder `packed` anew, and the same files in memory.
fn lay(rt: &HostRuntime, memory: &mut MemShelf) -> Result<(), Fail> {
    let long = long_bytes(rt.alloc())?;
    let files: [(&str, &[u8]); 4] = [
        ("packed/empty", b""),
        ("packed/reel.txt", b"hello world"),
        ("packed/reel/long", long.as_slice()),
        ("packed/reel/ä/ö.txt", b"hello"),
    ];
    let _ = fs::remove_dir_all(rt, "packed");
    let _ = fs::remove_file(rt, "p.mkv");
    fs::create_dir_all(rt, "packed/reel/ä")?;
    fs::create_dir_all(rt, "packed/hollow")?;
    for (name, bytes) in files {
        fs::write(rt, name, bytes)?;
        put(memory, name, bytes)?;
    }
    Ok(())
}

// Packs the folder, and answers the report.
fn pack_folder<S: Shelf>(rt: &impl Abort, alloc: Global, shelf: &mut S) -> Result<MemSink, Fail> {
    let (status, out) = run(alloc, shelf, "pack packed p.mkv")?;
    is(rt, status.number(), 0);
    Ok(out)
}

// The report of a package of four files and so many bytes.
fn report_of(alloc: Global, count: usize) -> Result<String, AllocError> {
    format!(in alloc; "packed 4 files, 0 tracks, 0 blocks, {count} bytes\n")
}

// Whether the restored folder has the bytes of the packed one at a name.
fn came_back(rt: &HostRuntime, name: &str) -> Result<bool, Fail> {
    let packed = fs::read(rt, format!(in rt.alloc(); "packed/{name}")?.as_str())?;
    let back = fs::read(rt, format!(in rt.alloc(); "packed/back/{name}")?.as_str())?;
    Ok(packed.as_slice() == back.as_slice())
}

#[test]
fn a_real_folder_is_packed_as_in_memory_and_comes_back(rt: HostRuntime) -> Result<(), Fail> {
    let mut memory = MemShelf::new(rt.alloc(), Vec::new(rt.alloc()), Vec::new(rt.alloc()));
    lay(&rt, &mut memory)?;
    let in_memory = pack_folder(&rt, rt.alloc(), &mut memory)?;
    let on_disk = pack_folder(&rt, rt.alloc(), &mut RealShelf::new(rt, Sealing::OnDisk))?;
    let package = fs::read(&rt, "p.mkv")?;
    let report = report_of(rt.alloc(), package.len())?;
    is(&rt, on_disk.bytes(), report.as_bytes());
    is(&rt, in_memory.bytes(), report.as_bytes());
    let stored = memory.files();
    assert_eq!(rt; stored.len(), 5);
    is(&rt, stored[0].0.as_str(), "p.mkv");
    assert!(rt; stored[0].1.as_slice() == package.as_slice());
    let mut shelf = RealShelf::new(rt, Sealing::LargeOnDisk);
    let (status, out) = run(rt.alloc(), &mut shelf, "restore p.mkv packed/back")?;
    is(&rt, status.number(), 0);
    let report = b"restored 4 files, 1572881 bytes\n";
    is(&rt, out.bytes(), report.as_slice());
    is(&rt, shelf.list("packed/back")?.len(), 4);
    for name in ["empty", "reel.txt", "reel/long", "reel/ä/ö.txt"] {
        assert!(rt; came_back(&rt, name)?, "{name}");
    }
    fs::remove_dir_all(&rt, "packed")?;
    fs::remove_file(&rt, "p.mkv")?;
    Ok(())
}

#[test]
fn a_package_in_the_way_is_left_as_it_is(rt: HostRuntime) -> Result<(), Fail> {
    let _ = fs::remove_dir_all(&rt, "taken");
    fs::create_dir_all(&rt, "taken/reel")?;
    fs::write(&rt, "taken/p.mkv", b"hello".as_slice())?;
    let (status, out) = run(
        rt.alloc(),
        &mut RealShelf::new(rt, Sealing::OnDisk),
        "pack taken/reel taken/p.mkv",
    )?;
    is(&rt, status.number(), 4);
    is(
        &rt,
        out.bytes(),
        b"cook: taken/p.mkv: in the way\n".as_slice(),
    );
    let kept = fs::read(&rt, "taken/p.mkv")?;
    is(&rt, kept.as_slice(), b"hello".as_slice());
    fs::remove_dir_all(&rt, "taken")?;
    Ok(())
}

#[test]
fn a_folder_with_a_link_is_refused(rt: HostRuntime) -> Result<(), Fail> {
    let _ = fs::remove_dir_all(&rt, "linked");
    fs::create_dir_all(&rt, "linked/reel")?;
    fs::write(&rt, "linked/note", b"hello".as_slice())?;
    symlink(&rt, "../note", "linked/reel/link")?;
    let mut shelf = RealShelf::new(rt, Sealing::OnDisk);
    let (status, out) = run(rt.alloc(), &mut shelf, "pack linked linked.mkv")?;
    is(&rt, status.number(), 2);
    is(
        &rt,
        out.bytes(),
        b"cook: reel/link: not a plain file\n".as_slice(),
    );
    is(&rt, shelf.len("linked.mkv"), Ok(None));
    fs::remove_dir_all(&rt, "linked")?;
    Ok(())
}
