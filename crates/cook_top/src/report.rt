ghost use Rattle.std.specs.Prelude.{◌≡◌, OnOk, OnErr, map, codes};
ghost use Rattle.std.specs.List.{flat_map};
ghost use Rattle.cook_top.specs.Printing.{FaultsRose, FaultsStay, Printed, PrintedInPart};
ghost use Rattle.cook_top.specs.Texts.{reason_of, file_reason_of, package_line, named_line, changed_line, line_of, pack_line, restore_line};
ghost use Rattle.cook_top.specs.Shown.{piece_bytes};

use crate::Status;
use cook_pack::RefuseWhy;
use cook_restore::{FileWhy, PackageWhy};
use itoa::Buffer;
use shelf_core::{Sink, SinkFailed};

const USAGE: &[u8] =
    b"cook: usage: pack [-w N] [-r N] DIR PKG, restore [-w N] PKG DIR, check [-w N] PKG, list PKG, trial N\n";

// A piece of a report: a text, or a number in decimal digits.
#[derive(Clone, Copy, Debug)]
enum Piece<'a> {
    Text(&'a str),
    Number(u128),
}

use Piece::{Number, Text};

// Writes one piece. The digits of a number stand on the stack.
fn write_piece<O: Sink>(out: &mut O, piece: Piece<'_>) -> Result<(), SinkFailed>
    ensures ok { OnOk result (Printed O.Sink out.old out.new (piece_bytes piece.entry)) }
    ensures err { OnErr result (PrintedInPart O.Sink out.old out.new (piece_bytes piece.entry)) }
    ensures kept { FaultsStay O.Sink out.old out.new }
    ensures cause { OnErr result (FaultsRose O.Sink out.old out.new) }
{
    match piece {
        Text(text) => out.write(text.as_bytes()),
        Number(number) => {
            let mut digits = Buffer::new();
            out.write(digits.format(number).as_bytes())
        }
    }
}

// Writes pieces one after another, up to the first that fails.
#[tactic(auto, using(shelf_core::specs::ReportLaws::written_laws))]
fn write_pieces<O: Sink>(out: &mut O, pieces: &[Piece<'_>]) -> Result<(), SinkFailed>
    ensures ok { OnOk result (Printed O.Sink out.old out.new (flat_map piece_bytes pieces.now)) }
    ensures err { OnErr result (PrintedInPart O.Sink out.old out.new (flat_map piece_bytes pieces.now)) }
    ensures kept { FaultsStay O.Sink out.old out.new }
    ensures cause { OnErr result (FaultsRose O.Sink out.old out.new) }
{
    for piece in pieces {
        write_piece(out, *piece)?;
    }
    Ok(())
}

// What a line says of the reason.
#[tactic(auto, unfolding(crate::specs::Texts::reason_of))]
fn reason(why: RefuseWhy) -> &'static str
    ensures { result.now ≡ reason_of why }
{
    match why {
        RefuseWhy::NotPlain => "not a plain file",
        RefuseWhy::BadName => "bad name",
        RefuseWhy::Twice => "listed twice",
        RefuseWhy::UnderFile => "under a file",
        RefuseWhy::TooManyFiles => "too many files",
        RefuseWhy::TooLarge => "too large",
        RefuseWhy::Unbuilt => "not built yet",
    }
}

// What a line says of a file of a package.
#[tactic(auto, unfolding(crate::specs::Texts::file_reason_of))]
fn file_reason(why: FileWhy) -> &'static str
    ensures { result.now ≡ file_reason_of why }
{
    match why {
        FileWhy::Missing => "Missing",
        FileWhy::Length => "Length",
        FileWhy::Sum => "Sum",
    }
}

// Writes the line on the first fault of a package.
#[tactic(auto, unfolding(crate::specs::Texts::package_line))]
fn write_fault<O: Sink>(out: &mut O, why: &PackageWhy) -> Result<(), SinkFailed>
    ensures ok { OnOk result (Printed O.Sink out.old out.new (package_line why.now)) }
    ensures err { OnErr result (PrintedInPart O.Sink out.old out.new (package_line why.now)) }
    ensures kept { FaultsStay O.Sink out.old out.new }
    ensures cause { OnErr result (FaultsRose O.Sink out.old out.new) }
{
    match why {
        PackageWhy::Shape { place } => write_pieces(
            out,
            &[
                Text("cook: package: bad structure at byte "),
                Number(*place as u128),
                Text("\n"),
            ],
        ),
        PackageWhy::Encoded { track } => write_pieces(
            out,
            &[
                Text("cook: package: encoded track "),
                Number(*track as u128),
                Text("\n"),
            ],
        ),
        PackageWhy::TrackUnknown { track } => write_pieces(
            out,
            &[
                Text("cook: package: unknown track "),
                Number(*track as u128),
                Text("\n"),
            ],
        ),
        PackageWhy::NoSide => out.write(b"cook: package: no side data\n"),
        PackageWhy::SideBad { place } => write_pieces(
            out,
            &[
                Text("cook: package: bad side data at byte "),
                Number(*place as u128),
                Text("\n"),
            ],
        ),
        PackageWhy::SideNames { name } => write_pieces(
            out,
            &[
                Text("cook: package: bad side name "),
                Text(name.as_str()),
                Text("\n"),
            ],
        ),
        PackageWhy::File { name, why } => write_pieces(
            out,
            &[
                Text("cook: package: file "),
                Text(name.as_str()),
                Text(": "),
                Text(file_reason(*why)),
                Text("\n"),
            ],
        ),
    }
}

// Writes a line on a name.
#[tactic(auto, unfolding(crate::specs::Texts::named_line))]
fn write_named<'t, O: Sink>(out: &mut O, name: &'t str, said: &'t str) -> Result<(), SinkFailed>
    ensures ok { OnOk result (Printed O.Sink out.old out.new (named_line name.now said.now)) }
    ensures err { OnErr result (PrintedInPart O.Sink out.old out.new (named_line name.now said.now)) }
    ensures kept { FaultsStay O.Sink out.old out.new }
    ensures cause { OnErr result (FaultsRose O.Sink out.old out.new) }
{
    write_pieces(
        out,
        &[
            Text("cook: "),
            Text(name),
            Text(": "),
            Text(said),
            Text("\n"),
        ],
    )
}

// Writes the line on a file that had `was` bytes and gave only `now`.
#[tactic(auto, unfolding(crate::specs::Texts::changed_line))]
fn write_changed<O: Sink>(out: &mut O, name: &str, was: u64, now: u64) -> Result<(), SinkFailed>
    ensures ok { OnOk result (Printed O.Sink out.old out.new (changed_line name.now was now)) }
    ensures err { OnErr result (PrintedInPart O.Sink out.old out.new (changed_line name.now was now)) }
    ensures kept { FaultsStay O.Sink out.old out.new }
    ensures cause { OnErr result (FaultsRose O.Sink out.old out.new) }
{
    write_pieces(
        out,
        &[
            Text("cook: "),
            Text(name),
            Text(": changed from "),
            Number(was as u128),
            Text(" to "),
            Number(now as u128),
            Text(" bytes\n"),
        ],
    )
}

/// Writes the line that says why a command ended otherwise than by its work, and nothing where its work was done.
/// It takes no memory.
#[tactic(auto, using(shelf_core::specs::ReportLaws::written_laws), unfolding(crate::specs::Texts::line_of))]
pub fn write_line<O: Sink>(out: &mut O, status: &Status) -> Result<(), SinkFailed>
    ensures ok { OnOk result (Printed O.Sink out.old out.new (line_of status.now)) }
    ensures err { OnErr result (PrintedInPart O.Sink out.old out.new (line_of status.now)) }
    ensures kept { FaultsStay O.Sink out.old out.new }
    ensures cause { OnErr result (FaultsRose O.Sink out.old out.new) }
{
    match status {
        Status::Done | Status::ReportFault => Ok(()),
        Status::Usage => out.write(USAGE),
        Status::Refused { name, why } => write_named(out, name.as_str(), reason(*why)),
        Status::PackageRefused { why } => write_fault(out, why),
        Status::InTheWay { name } => write_named(out, name.as_str(), "in the way"),
        Status::ShelfFault => out.write(b"cook: shelf fault\n"),
        Status::NoMemory => out.write(b"cook: no memory\n"),
        Status::Changed { name, was, now } => write_changed(out, name.as_str(), *was, *now),
        Status::Missing { name } => write_named(out, name.as_str(), "not there"),
    }
}

/// Writes the report of pack: how many files, tracks and blocks the package has, and of how many bytes it is.
/// It takes no memory.
#[tactic(auto, unfolding(crate::specs::Texts::pack_line))]
pub fn write_packed<O: Sink>(
    out: &mut O,
    files: u32,
    tracks: u32,
    blocks: u64,
    bytes: u64,
) -> Result<(), SinkFailed>
    ensures ok { OnOk result (Printed O.Sink out.old out.new (pack_line files tracks blocks bytes)) }
    ensures err { OnErr result (PrintedInPart O.Sink out.old out.new (pack_line files tracks blocks bytes)) }
    ensures kept { FaultsStay O.Sink out.old out.new }
    ensures cause { OnErr result (FaultsRose O.Sink out.old out.new) }
{
    write_pieces(
        out,
        &[
            Text("packed "),
            Number(files as u128),
            Text(" files, "),
            Number(tracks as u128),
            Text(" tracks, "),
            Number(blocks as u128),
            Text(" blocks, "),
            Number(bytes as u128),
            Text(" bytes\n"),
        ],
    )
}

/// Writes the report of restore: how many files were given, and how many bytes they have. It takes no memory.
#[tactic(auto, unfolding(crate::specs::Texts::restore_line))]
pub fn write_restored<O: Sink>(out: &mut O, files: u64, bytes: u128) -> Result<(), SinkFailed>
    ensures ok { OnOk result (Printed O.Sink out.old out.new (restore_line files bytes)) }
    ensures err { OnErr result (PrintedInPart O.Sink out.old out.new (restore_line files bytes)) }
    ensures kept { FaultsStay O.Sink out.old out.new }
    ensures cause { OnErr result (FaultsRose O.Sink out.old out.new) }
{
    write_pieces(
        out,
        &[
            Text("restored "),
            Number(files as u128),
            Text(" files, "),
            Number(bytes),
            Text(" bytes\n"),
        ],
    )
}
