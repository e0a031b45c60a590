ghost use Rattle.std.specs.Prelude.{◌≡◌};
ghost use Rattle.cook_top.specs.Statuses.{number_of};

use cook_bits::Name;
use cook_pack::{PackError, RefuseWhy};
use cook_restore::{PackageWhy, RestoreError};
use shelf_core::ShelfError;

/// How a command ended.
#[derive(Debug, Drop)]
pub enum Status {
    /// The command did all its work, and the report was written.
    Done,
    /// The words aren't an order.
    Usage,
    /// The directory's first offence.
    Refused { name: Name, why: RefuseWhy },
    /// The package's first fault.
    PackageRefused { why: PackageWhy },
    /// What was to be made is there already.
    InTheWay { name: Name },
    /// The shelf failed.
    ShelfFault,
    /// No memory was left.
    NoMemory,
    /// The work was done, and the report wasn't written.
    ReportFault,
    /// A file that had `was` bytes gave only `now`.
    Changed { name: Name, was: u64, now: u64 },
    /// A file isn't there.
    Missing { name: Name },
}

impl Status {
    /// The number with which the program ends.
    pub fn number(&self) -> u8
        ensures { result ≡ number_of self.now }
    {
        match self {
            Status::Done => 0,
            Status::Usage => 1,
            Status::Refused { .. } => 2,
            Status::PackageRefused { .. } => 3,
            Status::InTheWay { .. } => 4,
            Status::ShelfFault => 5,
            Status::NoMemory => 6,
            Status::ReportFault => 7,
            Status::Changed { .. } => 8,
            Status::Missing { .. } => 9,
        }
    }
}

impl From<PackError> for Status {
    ghost use Rattle.std.specs.Prelude.{◌≡◌};
    ghost use Rattle.cook_top.specs.Statuses.{status_of_pack_error};

    ghost from_gives = { λ e result. result ≡ status_of_pack_error e };

    fn from(error: PackError) -> Self {
        match error {
            PackError::Refused { name, why } => Status::Refused { name, why },
            PackError::InTheWay { name } => Status::InTheWay { name },
            PackError::Changed { name, was, now } => Status::Changed { name, was, now },
            PackError::Missing { name } => Status::Missing { name },
            PackError::Failed => Status::ShelfFault,
            PackError::NoMemory => Status::NoMemory,
        }
    }
}

impl From<ShelfError> for Status {
    ghost use Rattle.std.specs.Prelude.{◌≡◌};
    ghost use Rattle.cook_top.specs.Statuses.{status_of_shelf_error};

    ghost from_gives = { λ e result. result ≡ status_of_shelf_error e };

    fn from(error: ShelfError) -> Self {
        match error {
            ShelfError::Failed => Status::ShelfFault,
            ShelfError::NoMemory => Status::NoMemory,
        }
    }
}

impl From<RestoreError> for Status {
    ghost use Rattle.std.specs.Prelude.{◌≡◌};
    ghost use Rattle.cook_top.specs.Statuses.{status_of_restore_error};

    ghost from_gives = { λ e result. result ≡ status_of_restore_error e };

    fn from(error: RestoreError) -> Self {
        match error {
            RestoreError::Package(why) => Status::PackageRefused { why },
            RestoreError::Missing { name } => Status::Missing { name },
            RestoreError::Changed { name, was, now } => Status::Changed { name, was, now },
            RestoreError::Failed => Status::ShelfFault,
            RestoreError::NoMemory => Status::NoMemory,
        }
    }
}
