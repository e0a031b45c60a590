// A package that is opened by itself, with a target and without one.
use super::orders::{is, package_of, shelf_of};
use cook_restore::{FileSum, Restorer, open_package};
use shelf_core::MemShelf;
use std::alloc::Global;
use std::process::Abort;
use std::test::Fail;

const SUM: FileSum = FileSum {
    number: 0,
    length: 5,
};

// The one file of a package is given.
fn gives_the_file(
    rt: &impl Abort,
    alloc: Global,
    shelf: &mut MemShelf,
    target: Option<&str>,
) -> Result<Restorer, Fail> {
    let mut restorer = open_package(alloc, shelf, "p", target, 4)?;
    assert_eq!(rt; restorer.entries().len(), 1);
    is(rt, restorer.entries()[0].name.as_str(), "notes.txt");
    is(rt, restorer.next_file(alloc, shelf), Ok(Some(SUM)));
    is(rt, restorer.next_file(alloc, shelf), Ok(None));
    Ok(restorer)
}

#[test]
fn files_are_given_and_without_a_target_they_are_checked_alone(
    rt: HostRuntime,
) -> Result<(), Fail> {
    let alloc = rt.alloc();
    let package = package_of(&rt, alloc, &[("d/notes.txt", b"hello")])?;
    let mut shelf = shelf_of(alloc, &[("p", package.as_slice())], Vec::new(alloc))?;
    let _ = gives_the_file(&rt, alloc, &mut shelf, None)?;
    is(&rt, shelf.files().len(), 1);
    let restorer = gives_the_file(&rt, alloc, &mut shelf, Some("t"))?;
    assert_eq!(rt; restorer.entries().len(), 1);
    is(&rt, restorer.into_name(0).as_str(), "notes.txt");
    is(&rt, shelf.unsealed().len(), 0);
    let files = shelf.files();
    assert_eq!(rt; files.len(), 2);
    is(&rt, files[1].0.as_str(), "t/notes.txt");
    is(&rt, files[1].1.as_slice(), b"hello".as_slice());
    Ok(())
}
