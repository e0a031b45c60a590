ghost use Rattle.std.specs.Prelude.{◌≡◌, ◌≤◌, ◌↔◌, map, string_bytes, None, Some, List, ℕ, IfOk, IfErr};
ghost use Rattle.shelf_core.specs.Reads.{CountsStay, Tells};
ghost use Rattle.cook_pack.specs.Planned.{directory_of};
ghost use Rattle.cook_pack.specs.Sum.{IsSumOf};
ghost use Rattle.cook_top.specs.Laws.{PackLaw, ObeysOrder, KeepsSealed, Shows, NeverRefused, IsComplete, ReportsOrder, IsDoneOr, Writes};
ghost use Rattle.cook_top.specs.Orders.{order_of};
ghost use Rattle.cook_top.specs.Orders.Order.{Pack as OrderPack, Restore as OrderRestore};
ghost use Rattle.cook_top.specs.Printing.{FaultsRose, FaultsStay, Printed, PrintedInPart};
ghost use Rattle.cook_top.specs.Restoring.{SealsAll, StopsRestoring};
ghost use Rattle.cook_top.specs.Packing.{ShowsPackError};
ghost use Rattle.cook_top.specs.Statuses.{status_of_pack_error};
ghost use Rattle.cook_top.specs.Texts.{line_of, pack_line, restore_line};

use crate::laws::h3;
use crate::restore::{RestoreSum, restore_package};
use crate::{Order, Status, read_words, write_line, write_packed, write_restored};
use cook_pack::{Options, PackError, PackSum, pack, plan};
use shelf_core::{Shelf, Sink, SinkFailed};
use std::alloc::Global;

// Plans the files under a root and packs them.
#[tactic(auto, using(crate::proofs::PackedLaws::planned_means))]
fn pack_directory<S: Shelf>(
    alloc: Global,
    shelf: &mut S,
    options: Options,
    dir: &str,
    pkg: &str,
) -> Result<PackSum, PackError>
    requires workers { (1 ≤ options.workers) × (options.workers ≤ 64) }
    requires rate { (1 ≤ options.rate) × (options.rate ≤ 240) }
    ensures done { IfOk result (λ _. PackLaw S.Shelf shelf.old shelf.new options.rate dir.now pkg.now Status.Done) }
    ensures stopped { IfErr result (λ error. PackLaw S.Shelf shelf.old shelf.new options.rate dir.now pkg.now (status_of_pack_error error)) }
    ensures sum { IfOk result (λ sum. Tells S.Shelf shelf.old → IsSumOf (directory_of S.Shelf shelf.old dir.now) options.rate sum) }
    ensures sealed { IfOk result (λ _. SealsAll S.Shelf shelf.old shelf.new) }
    ensures unsealed { IfErr result (λ error. KeepsSealed S.Shelf shelf.old shelf.new (status_of_pack_error error)) }
    ensures cause { IfErr result (λ error. ShowsPackError S.Shelf options.workers options.rate dir.now pkg.now shelf.old shelf.new error) }
    ensures counts { CountsStay S.Shelf shelf.old shelf.new }
{
    h3();
    let plan = plan(alloc, shelf, dir)?;
    pack(alloc, shelf, &plan, pkg, options)
}

// Writes the line of a refusal. A failure of that write changes nothing in the status.
fn refuse<O: Sink>(out: &mut O, status: Status) -> Status
    ensures status { result ≡ status }
    ensures front { PrintedInPart O.Sink out.old out.new (line_of status) }
    ensures whole { NeverRefused O.Sink out.old out.new → Printed O.Sink out.old out.new (line_of status) }
    ensures kept { FaultsStay O.Sink out.old out.new }
{
    let _ = write_line(out, &status);
    status
}

// Writes the report of pack.
fn report<O: Sink>(out: &mut O, sum: PackSum) -> Status
    ensures done { IsDoneOr (FaultsRose O.Sink out.old out.new) result }
    ensures written { Writes O.Sink out.old out.new result (pack_line sum.files sum.tracks sum.blocks sum.bytes) }
    ensures kept { FaultsStay O.Sink out.old out.new }
{
    match write_packed(out, sum.files, sum.tracks, sum.blocks, sum.bytes) {
        Ok(()) => Status::Done,
        Err(SinkFailed) => Status::ReportFault,
    }
}

// Does the order to pack DIR into PKG, and writes its report or its refusal.
fn pack_order<S: Shelf, O: Sink>(
    alloc: Global,
    shelf: &mut S,
    out: &mut O,
    options: Options,
    dir: &str,
    pkg: &str,
) -> Status
    requires workers { (1 ≤ options.workers) × (options.workers ≤ 64) }
    requires rate { (1 ≤ options.rate) × (options.rate ≤ 240) }
    ensures law { PackLaw S.Shelf shelf.old shelf.new options.rate dir.now pkg.now result }
    ensures sealed { KeepsSealed S.Shelf shelf.old shelf.new result }
    ensures shown { Shows S.Shelf O.Sink (Some (OrderPack options.workers options.rate dir.now pkg.now)) shelf.old shelf.new out.old out.new result }
    ensures report { ReportsOrder S.Shelf O.Sink (Some (OrderPack options.workers options.rate dir.now pkg.now)) shelf.old out.old out.new result }
    ensures counts { CountsStay S.Shelf shelf.old shelf.new }
    ensures sink_kept { FaultsStay O.Sink out.old out.new }
{
    match pack_directory(alloc, shelf, options, dir, pkg) {
        Ok(sum) => report(out, sum),
        Err(error) => refuse(out, Status::from(error)),
    }
}

// Writes the report of restore.
fn report_restored<O: Sink>(out: &mut O, sum: RestoreSum) -> Status
    ensures done { IsDoneOr (FaultsRose O.Sink out.old out.new) result }
    ensures written { Writes O.Sink out.old out.new result (restore_line sum.files sum.bytes) }
    ensures kept { FaultsStay O.Sink out.old out.new }
{
    match write_restored(out, sum.files, sum.bytes) {
        Ok(()) => Status::Done,
        Err(SinkFailed) => Status::ReportFault,
    }
}

// Does the order to restore PKG into DIR, and writes its report or its refusal.
fn restore_order<S: Shelf, O: Sink>(
    alloc: Global,
    shelf: &mut S,
    out: &mut O,
    workers: u32,
    pkg: &str,
    dir: &str,
) -> Status
    requires { (1 ≤ workers) × (workers ≤ 64) }
    ensures law { StopsRestoring S.Shelf shelf.old shelf.new pkg.now dir.now result }
    ensures sealed { KeepsSealed S.Shelf shelf.old shelf.new result }
    ensures shown { Shows S.Shelf O.Sink (Some (OrderRestore workers pkg.now dir.now)) shelf.old shelf.new out.old out.new result }
    ensures report { ReportsOrder S.Shelf O.Sink (Some (OrderRestore workers pkg.now dir.now)) shelf.old out.old out.new result }
    ensures counts { CountsStay S.Shelf shelf.old shelf.new }
    ensures sink_kept { FaultsStay O.Sink out.old out.new }
{
    match restore_package(alloc, shelf, workers, pkg, dir) {
        Ok(sum) => report_restored(out, sum),
        Err(status) => refuse(out, status),
    }
}

/// Does what the words order, on a shelf, and writes the report or the refusal to `out`.
///
/// At `pack DIR PKG` DIR is planned; its first offence is `Refused`. Then PKG is created, `InTheWay` where it is there, and
/// gets the package of DIR, whole and sealed. At `restore PKG DIR` the folder DIR is made; the first thing that stands in it
/// is `InTheWay`. Then PKG is read, `Missing` where it isn't there, and each of its files is checked and written under DIR,
/// up to the first fault, which is `PackageRefused`. All other words are `Usage`, and then nothing is read.
pub fn cook<S: Shelf, O: Sink>(
    alloc: Global,
    words: &[String],
    shelf: &mut S,
    out: &mut O,
) -> Status
    // The words alone decide it.
    ensures usage { (result ≡ Status.Usage) ↔ (order_of (map string_bytes words.now) ≡ None) }
    // The pack law and the restore law: the answers of each order, and what stands after them.
    ensures obeys { ObeysOrder S.Shelf shelf.old shelf.new (order_of (map string_bytes words.now)) result }
    ensures sealed { KeepsSealed S.Shelf shelf.old shelf.new result }
    // The cause law, for every shelf and sink.
    ensures shown { Shows S.Shelf O.Sink (order_of (map string_bytes words.now)) shelf.old shelf.new out.old out.new result }
    // The report law.
    ensures report { ReportsOrder S.Shelf O.Sink (order_of (map string_bytes words.now)) shelf.old out.old out.new result }
    // The completeness law.
    ensures complete { IsComplete S.Shelf O.Sink (order_of (map string_bytes words.now)) shelf.old shelf.new out.old out.new result }
{
    let Ok(order) = read_words(words) else {
        return refuse(out, Status::Usage);
    };
    match order {
        Order::Pack {
            workers,
            rate,
            dir,
            pkg,
        } => {
            let options = Options { workers, rate };
            pack_order(alloc, shelf, out, options, dir, pkg)
        }
        Order::Restore { workers, pkg, dir } => {
            restore_order(alloc, shelf, out, workers, pkg, dir)
        }
    }
}
