ghost use Rattle.std.specs.Prelude.{◌≡◌, ◌≤◌, Some, IfOk};
ghost use Rattle.shelf_core.specs.Causes.{HasCause, Rose};

use crate::fault::Fault;
use crate::measured::{Measured, stamp_of};
use crate::open_file::{self, OpenFile};
use crate::unsealed::{self, Sealing, Unsealed};
use crate::walk;
use shelf_core::{CreateError, Entry, Shelf, ShelfError};
use std::fs;
use std::io::{self, ErrorKind};

/// The files of the system. One file is kept open for reading, and each that is being written.
#[derive(Drop)]
pub struct RealShelf {
    system: HostRuntime,
    reading: Option<OpenFile>,
    unsealed: Vec<Unsealed>,
    measured: Measured,
    sealing: Sealing,
    faults: u64,
    starved: u64,
    /// The last fault that was counted.
    pub(crate) last_fault: Option<Fault>,
}

impl RealShelf {
    /// The files of the system, before any call failed.
    pub fn new(system: HostRuntime, sealing: Sealing) -> RealShelf
        ensures faults { result.faults ≡ 0 }
        ensures starved { result.starved ≡ 0 }
    {
        RealShelf {
            system,
            reading: None,
            unsealed: Vec::new(system.alloc()),
            measured: Measured::new(system.alloc()),
            sealing,
            faults: 0,
            starved: 0,
            last_fault: None,
        }
    }

    /// Counts why a call failed: want of memory by itself, and all else as a fault, which is kept.
    fn refusal(&mut self, fault: Fault) -> ShelfError
        ensures faults_kept { self.old.faults ≤ self.new.faults }
        ensures starved_kept { self.old.starved ≤ self.new.starved }
        ensures fault { result ≡ ShelfError.Failed → Rose self.old.faults self.new.faults }
        ensures want { result ≡ ShelfError.NoMemory → Rose self.old.starved self.new.starved }
        ensures kept { result ≡ ShelfError.Failed → self.new.last_fault ≡ Some fault }
    {
        if fault.error.kind() == ErrorKind::OutOfMemory {
            self.starved = self.starved.saturating_add(1);
            ShelfError::NoMemory
        } else {
            self.faults = self.faults.saturating_add(1);
            self.last_fault = Some(fault);
            ShelfError::Failed
        }
    }

    /// Hands on what a call gave, or counts why it failed.
    fn answer<T: Drop>(&mut self, done: Result<T, Fault>) -> Result<T, ShelfError>
        ensures given { IfOk result (λ value. done ≡ Ok value) }
        ensures cause { HasCause ShelfError.Failed ShelfError.NoMemory self.old.faults self.new.faults self.old.starved self.new.starved result }
    {
        match done {
            Ok(value) => Ok(value),
            Err(fault) => Err(self.refusal(fault)),
        }
    }

    /// Hands on what the system gave for a name, or counts its error.
    fn answer_for<T: Drop>(&mut self, name: &str, done: io::Result<T>) -> Result<T, ShelfError>
        ensures given { IfOk result (λ value. done ≡ Ok value) }
        ensures cause { HasCause ShelfError.Failed ShelfError.NoMemory self.old.faults self.new.faults self.old.starved self.new.starved result }
    {
        let alloc = self.system.alloc();
        self.answer(done.map_err(|error| Fault::at(alloc, name, error)))
    }

    /// The length of a plain file, which is remembered with the time of its last change, but for a file that this shelf is
    /// writing. `None` where there is nothing by that name.
    fn measure(&mut self, name: &str) -> io::Result<Option<u64>>
        ensures faults { self.new.faults ≡ self.old.faults }
        ensures starved { self.new.starved ≡ self.old.starved }
    {
        let Some(stamp) = stamp_of(&self.system, name)? else {
            return Ok(None);
        };
        if !unsealed::is_writing(self.unsealed.as_slice(), name) {
            self.measured.keep(name, stamp)?;
        }
        Ok(Some(stamp.len))
    }

    /// Looks again at the file that is open for reading. That it changed since its length was asked is a fault.
    fn look_again(&mut self) -> Result<(), ShelfError>
        ensures cause { HasCause ShelfError.Failed ShelfError.NoMemory self.old.faults self.new.faults self.old.starved self.new.starved result }
    {
        let Some(open) = &self.reading else {
            return Ok(());
        };
        let name = open.name.as_str();
        let seen = match self.measured.look_again(&self.system, name) {
            Ok(()) => Ok(()),
            Err(error) => Err(Fault::at(self.system.alloc(), name, error)),
        };
        self.answer(seen)
    }

    /// Leaves the file that is open for reading, unless it has this name.
    fn leave_for(&mut self, name: &str) -> Result<(), ShelfError>
        ensures cause { HasCause ShelfError.Failed ShelfError.NoMemory self.old.faults self.new.faults self.old.starved self.new.starved result }
    {
        if self
            .reading
            .as_ref()
            .is_some_and(|open| open.is_named(name))
        {
            return Ok(());
        }
        let seen = self.look_again();
        self.reading = None;
        seen
    }
}

#[tactic(auto, using(crate::proofs::NothingTold::grew), unfolding(shelf_core::specs::Told::IsTold, shelf_core::specs::Told::HasFile, shelf_core::specs::Told::IsFree, shelf_core::specs::Told::IsUnsealedIn, shelf_core::specs::Told::IsNotUnsealed, shelf_core::specs::Told::with_file, shelf_core::specs::Told::with_unsealed, shelf_core::specs::Told::without_unsealed))]
impl Shelf for RealShelf {
    ghost use Rattle.std.specs.Prelude.{None};
    ghost use Rattle.std.proofs.Common.{refl};
    ghost use Rattle.shelf_core.specs.Untold.{has_file, no_content};

    ghost files = { λ shelf. None };

    ghost unsealed = { λ shelf. None };

    ghost faults = { λ shelf. shelf.faults };

    ghost starved = { λ shelf. shelf.starved };

    ghost told_together = { λ shelf. refl };

    ghost contents_are_bytes = { λ shelf. no_content };

    ghost unsealed_is_there = { λ shelf name told unsealed. has_file name };

    fn list(&mut self, root: &str) -> Result<Vec<Entry>, ShelfError> {
        let done = walk::list(&self.system, root);
        self.answer(done)
    }

    fn len(&mut self, name: &str) -> Result<Option<u64>, ShelfError> {
        let done = self.measure(name);
        self.answer_for(name, done)
    }

    fn read_at(&mut self, name: &str, at: u64, buf: &mut [u8]) -> Result<usize, ShelfError> {
        self.leave_for(name)?;
        let done = open_file::read(&self.system, &mut self.reading, name, at, buf);
        self.answer_for(name, done)
    }

    fn create(&mut self, name: &str) -> Result<(), CreateError> {
        match unsealed::create(&self.system, &mut self.unsealed, name) {
            Ok(()) => Ok(()),
            Err(error) if error.kind() == ErrorKind::AlreadyExists => Err(CreateError::Exists),
            Err(error) => {
                let fault = Fault::at(self.system.alloc(), name, error);
                match self.refusal(fault) {
                    ShelfError::Failed => Err(CreateError::Failed),
                    ShelfError::NoMemory => Err(CreateError::NoMemory),
                }
            }
        }
    }

    fn make_folder(&mut self, name: &str) -> Result<(), ShelfError> {
        let done = fs::create_dir_all(&self.system, name);
        self.answer_for(name, done)
    }

    fn append(&mut self, name: &str, bytes: &[u8]) -> Result<(), ShelfError> {
        let done = unsealed::append(&mut self.unsealed, name, bytes);
        self.answer_for(name, done)
    }

    fn seal(&mut self, name: &str) -> Result<(), ShelfError> {
        self.look_again()?;
        let done = unsealed::seal(&self.system, &mut self.unsealed, name, self.sealing);
        self.answer_for(name, done)
    }
}
