// The plan as a value, which keeps what was found sound.
ghost use Rattle.std.specs.Prelude.{◌≡◌, length};
ghost use Rattle.cook_pack.specs.Planned.{IsSound};
ghost use Rattle.cook_pack.specs.Entries.{planned};

use crate::PlannedFile;
use cook_bits::Name;
use std::marker::Model;

/// What is to be packed: the files under a root, in byte order of their relative names.
///
/// Every plan, from whatever shelf, has at most 1,000,000 files, whose names are relative, distinct and none a folder of
/// another, and at most 2^50 bytes.
#[derive(Debug, Drop)]
pub struct Plan {
    root: Name,
    files: Vec<PlannedFile>,
}

impl Model for Plan {
    ghost use Rattle.cook_pack.specs.Planned.{Planned, IsSound};
    ghost use Rattle.cook_pack.specs.Entries.{planned};

    ghost Value = { Planned };

    ghost view = { λ plan. planned plan.root plan.files.items };

    ghost invariant = { λ plan. IsSound (planned plan.root plan.files.items) };
}

impl Plan {
    /// Keeps the root and the files in their order.
    pub fn new(root: Name, files: Vec<PlannedFile>) -> Plan
        requires { IsSound (planned root files.items) }
        ensures { result ≡ planned root files.items }
    {
        Plan { root, files }
    }

    /// The number of files.
    pub fn files(&self) -> u32
        ensures count { result ≡ length self.now.files }
        ensures sound { IsSound self.now }
    {
        self.files.len() as u32
    }

    /// The number of tracks: none, as long as neither frames nor waves are coded.
    pub fn tracks(&self) -> u32
        ensures { result ≡ 0 }
    {
        0
    }

    /// The root under which the files stand.
    pub fn root(&self) -> &str
        ensures { result.now ≡ self.now.root }
    {
        self.root.as_str()
    }

    /// The files in byte order of their names.
    pub fn as_slice(&self) -> &[PlannedFile]
        ensures files { result.now ≡ self.now.files }
        ensures sound { IsSound self.now }
    {
        self.files.as_slice()
    }
}
