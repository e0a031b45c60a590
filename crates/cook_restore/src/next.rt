// The files of an open package, one by one.
ghost use Rattle.std.specs.Prelude.{◌≡◌, ◌≤◌, ◌<◌, length, IfOk, IfErr, OnErr};
ghost use Rattle.std.specs.Option.{option_map};
ghost use Rattle.shelf_core.specs.Reads.{CountsStay, Has};
ghost use Rattle.cook_restore.specs.Giving.{IsContentGiven, NotGiven, asked_at};
ghost use Rattle.cook_restore.specs.Restoring.{KeepsBytes, KeepsPackage, GivesNext, IsNotGiven, IsEnded};

use crate::giving::{Package, Task, give};
use crate::stop::Stop;
use crate::{FileError, FileSum, Restorer};
use cook_bits::Name;
use shelf_core::Shelf;
use std::alloc::Global;

// The root under which files are to stand, if they are to be written.
fn root_of(target: &Option<Name>) -> Option<&str>
    ensures { option_map (λ dir. dir.now) result ≡ target.now }
{
    match target {
        Some(dir) => Some(dir.as_str()),
        None => None,
    }
}

impl Restorer {
    /// Gives the next file. Its content is read whole and checked by its length and its MD5, and only then its file is
    /// created in the target, written, and sealed. A content that doesn't fit the buffer is read a second time for that. Before
    /// the file is created the folders of its name are made, the shorter first and each once for all files.
    ///
    /// The answer is `None` where all files were given or an earlier call was refused. `File` comes where the meaning of the
    /// package ends with this file's fault, `InTheWay` where a file of its full name is there, `Changed` where the package
    /// gave fewer bytes than it had. After `Failed` and `NoMemory` the file may stand with a front of its content, unsealed;
    /// any other answer leaves the shelf's files as they were, or with the file.
    pub fn next_file<S: Shelf>(
        &mut self,
        alloc: Global,
        shelf: &mut S,
    ) -> Result<Option<FileSum>, FileError>
        requires there { Has S.Shelf shelf.old self.old.pkg }
        ensures given { IfOk result (GivesNext S.Shelf shelf.old shelf.new self.old self.new) }
        ensures stopped { IfErr result (IsNotGiven S.Shelf shelf.old shelf.new self.old) }
        ensures ended { OnErr result (IsEnded self.old self.new) }
        ensures kept { KeepsPackage self.old self.new }
        ensures stays { KeepsBytes S.Shelf shelf.old shelf.new self.old.pkg }
        ensures still_there { Has S.Shelf shelf.new self.old.pkg }
        ensures counts { CountsStay S.Shelf shelf.old shelf.new }
    {
        let number = self.number as usize;
        if self.ended || number >= self.records.len() {
            return Ok(None);
        }
        match self.give_file(alloc, shelf, number) {
            Ok(length) => {
                let sum = FileSum {
                    number: self.number,
                    length,
                };
                self.number += 1;
                Ok(Some(sum))
            }
            Err(stop) => {
                self.ended = true;
                Err(stop.of_file(self.number))
            }
        }
    }

    // Gives the file of a number.
    fn give_file<S: Shelf>(
        &mut self,
        alloc: Global,
        shelf: &mut S,
        number: usize,
    ) -> Result<u64, Stop>
        requires inside { number < length self.old.records.items }
        requires there { Has S.Shelf shelf.old self.old.pkg }
        ensures given { IfOk result (IsContentGiven S.Shelf shelf.old shelf.new (asked_at self.old number)) }
        ensures stopped { IfErr result (NotGiven S.Shelf shelf.old shelf.new (asked_at self.old number)) }
        ensures kept { KeepsPackage self.old self.new }
        ensures same { (self.new.number ≡ self.old.number) × (self.new.ended ≡ self.old.ended) }
        ensures counts { CountsStay S.Shelf shelf.old shelf.new }
    {
        let package = Package {
            name: self.pkg.as_str(),
            len: self.len,
        };
        let task = Task {
            said: &self.records[number],
            content: self.contents[number],
            target: root_of(&self.target),
        };
        give(
            alloc,
            shelf,
            package,
            task,
            &mut self.names,
            self.buffer.as_mut_slice(),
        )
    }
}
