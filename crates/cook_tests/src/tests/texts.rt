// What is written of statuses, reports and errors that no case of data shows.
use super::orders::{is, sink};
use cook_bits::Name;
use cook_restore::{FileError, FileWhy, PackageWhy};
use cook_top::{Status, write_line, write_packed, write_restored};
use shelf_core::SinkFailed;
use std::alloc::Global;
use std::process::Abort;
use std::test::Fail;

// A status writes its line, and ends the program with its number.
fn shows(
    rt: &impl Abort,
    alloc: Global,
    status: Status,
    number: u8,
    line: &str,
) -> Result<(), Fail> {
    let mut out = sink(alloc, 9)?;
    is(rt, write_line(&mut out, &status), Ok(()));
    assert_eq!(rt; out.bytes(), line.as_bytes(), "for {line:?}");
    assert_eq!(rt; status.number(), number, "for {line:?}");
    Ok(())
}

#[test]
fn a_status_has_its_number_and_its_line(rt: HostRuntime) -> Result<(), Fail> {
    let name = Name::copy(rt.alloc(), "a/b")?;
    let table = [
        (Status::Done, 0, ""),
        (Status::NoMemory, 6, "cook: no memory\n"),
        (Status::ReportFault, 7, ""),
        (
            Status::Changed {
                name,
                was: u64::MAX,
                now: 0,
            },
            8,
            "cook: a/b: changed from 18446744073709551615 to 0 bytes\n",
        ),
    ];
    for (status, number, line) in table {
        shows(&rt, rt.alloc(), status, number, line)?;
    }
    Ok(())
}

#[test]
fn reports_have_their_numbers(rt: HostRuntime) -> Result<(), Fail> {
    let mut out = sink(rt.alloc(), 99)?;
    let most = 79228162495817593515539431425;
    is(
        &rt,
        write_packed(&mut out, 1000000, 126, 10, u64::MAX),
        Ok(()),
    );
    is(&rt, write_restored(&mut out, 4294967295, most), Ok(()));
    let lines = "packed 1000000 files, 126 tracks, 10 blocks, 18446744073709551615 bytes\n\
        restored 4294967295 files, 79228162495817593515539431425 bytes\n";
    is(&rt, out.bytes(), lines.as_bytes());
    Ok(())
}

#[test]
fn a_failed_write_ends_the_line(rt: HostRuntime) -> Result<(), Fail> {
    let mut out = sink(rt.alloc(), 3)?;
    is(&rt, write_packed(&mut out, 7, 0, 0, 145), Err(SinkFailed));
    is(&rt, out.bytes(), b"packed 7".as_slice());
    let name = Name::copy(rt.alloc(), "a/b")?;
    let mut out = sink(rt.alloc(), 2)?;
    is(
        &rt,
        write_line(&mut out, &Status::Missing { name }),
        Err(SinkFailed),
    );
    is(&rt, out.bytes(), b"cook: ".as_slice());
    Ok(())
}

// The texts of errors, which the top call doesn't print.
#[test]
fn errors_have_their_texts(rt: HostRuntime) -> Result<(), Fail> {
    let table = [
        (PackageWhy::Shape { place: 7 }, "bad structure at byte 7"),
        (PackageWhy::NoSide, "no side data"),
        (
            PackageWhy::SideBad { place: 12 },
            "bad side data at byte 12",
        ),
    ];
    for (why, text) in table {
        is(&rt, format!(in rt.alloc(); "{why}")?.as_str(), text);
    }
    let table = [
        (FileWhy::Missing, "bad file 3: not there"),
        (FileWhy::Length, "bad file 3: another length"),
        (FileWhy::Sum, "bad file 3: another sum"),
    ];
    for (why, text) in table {
        let error = FileError::File { number: 3, why };
        is(&rt, format!(in rt.alloc(); "{error}")?.as_str(), text);
    }
    Ok(())
}
