// Calls of a shelf and writes of a report that fail.
use super::orders::{
    File, add_file, cook_line, ends, file_of, has_file, is, package_of, shelf_of, sink,
};
use cook_top::Status;
use shelf_core::MemShelf;
use std::test::Fail;

const THREE: [File<'static>; 3] = [("d/a", b"first"), ("d/b", b"second"), ("d/c", b"third")];

// How many of the three files stand whole in the target, if the others do not stand, but for a front of the next.
fn whole_files(shelf: &MemShelf) -> Option<usize> {
    let contents: [(&str, &[u8]); 3] = [("t/a", b"first"), ("t/b", b"second"), ("t/c", b"third")];
    let mut whole: usize = 0;
    let mut all = true;
    for (name, content) in contents {
        if let Some(bytes) = file_of(shelf, name) {
            if !all || !content.starts_with(bytes) {
                return None;
            }
            all = bytes.len() == content.len();
            if all {
                whole = whole.saturating_add(1);
            }
        } else {
            all = false;
        }
    }
    Some(whole)
}

// Each call of the shelf fails once. The package is made by three calls.
#[test]
fn a_shelf_fault_leaves_the_first_files(rt: HostRuntime) -> Result<(), Fail> {
    let package = package_of(&rt, rt.alloc(), &THREE)?;
    let mut before = 0;
    for call in 4..200 {
        let failing = vec![in rt.alloc(); call]?;
        let mut shelf = MemShelf::new(rt.alloc(), Vec::new(rt.alloc()), failing);
        add_file(&mut shelf, "p", package.as_slice())?;
        let mut out = sink(rt.alloc(), 99)?;
        let status = cook_line(rt.alloc(), "restore p t", &mut shelf, &mut out)?;
        let whole = whole_files(&shelf).ok_or("the first files")?;
        if matches!(status, Status::Done) {
            is(&rt, whole, 3);
            return Ok(());
        }
        assert!(rt;
            matches!(status, Status::ShelfFault),
            "at call {call}: {status:?}"
        );
        is(&rt, out.bytes(), b"cook: shelf fault\n".as_slice());
        assert!(rt; before <= whole, "at call {call}");
        before = whole;
    }
    Err(Fail::new("done at last"))
}

#[test]
fn a_shelf_fault_at_the_listing_leaves_no_package(rt: HostRuntime) -> Result<(), Fail> {
    let mut shelf = shelf_of(rt.alloc(), &[], vec![in rt.alloc(); 1]?)?;
    let line = "cook: shelf fault\n";
    ends(&rt, rt.alloc(), &mut shelf, "pack d p", 5, line)?;
    is(&rt, shelf.files().len(), 0);
    Ok(())
}

// The first write of the report fails.
#[test]
fn a_report_fault_leaves_the_package_whole(rt: HostRuntime) -> Result<(), Fail> {
    let mut shelf = shelf_of(rt.alloc(), &[], Vec::new(rt.alloc()))?;
    let mut out = sink(rt.alloc(), 1)?;
    let status = cook_line(rt.alloc(), "pack d p", &mut shelf, &mut out)?;
    assert!(rt; matches!(status, Status::ReportFault), "{status:?}");
    is(&rt, status.number(), 7);
    is(&rt, out.bytes().len(), 0);
    let package = package_of(&rt, rt.alloc(), &[])?;
    assert!(rt; has_file(&shelf, "p", package.as_slice()));
    is(&rt, shelf.unsealed().len(), 0);
    Ok(())
}

#[test]
fn a_refusal_stays_where_its_line_is_not_written(rt: HostRuntime) -> Result<(), Fail> {
    let mut shelf = shelf_of(rt.alloc(), &[], Vec::new(rt.alloc()))?;
    let mut out = sink(rt.alloc(), 1)?;
    let status = cook_line(rt.alloc(), "pack a", &mut shelf, &mut out)?;
    assert!(rt; matches!(status, Status::Usage), "{status:?}");
    is(&rt, out.bytes().len(), 0);
    Ok(())
}
