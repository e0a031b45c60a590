ghost use Rattle.std.specs.Prelude.{◌≡◌, [], ◌∷◌, ◌++◌, OnOk, OnErr};

use cook_bits::NoMemory;
use std::alloc::Global;
use std::marker::Model;

/// The places in a listing of the frames of one run, ascending in number. Contracts see them as a list.
#[derive(Debug, Drop)]
pub struct Members {
    places: Vec<u32>,
}

impl Model for Members {
    ghost use Rattle.std.specs.Prelude.{List, ℕ};

    ghost Value = { List ℕ };

    ghost view = { λ m. m.places.items };
}

impl Members {
    pub(crate) fn new(alloc: Global) -> Members
        ensures { result ≡ [] }
    {
        Members {
            places: Vec::new(alloc),
        }
    }

    pub(crate) fn push(&mut self, place: u32) -> Result<(), NoMemory>
        ensures ok { OnOk result (self.new ≡ self.old ++ place ∷ []) }
        ensures err { OnErr result (self.new ≡ self.old) }
    {
        self.places.push(place)?;
        Ok(())
    }

    /// The places as a slice.
    pub fn as_slice(&self) -> &[u32]
        ensures { result.now ≡ self.now }
    {
        self.places.as_slice()
    }
}

/// A run: a longest list of frames, each numbered one above the one before it.
#[derive(Debug, Drop)]
pub struct Run {
    /// The place in the listing of the run's first frame.
    pub first: u32,
    /// The places of all its frames, the first included.
    pub members: Members,
}
