/// What is done with each tile of a buffer. A task touches its tile, its answer and its share's scratch, and nothing
/// else that threads share.
pub trait TileTask: Sync {
    ghost use Rattle.std.specs.Prelude.{ℕ, List};

    /// What is answered for a tile.
    type Answer: Send + Drop;

    /// Room for the work on a tile, one for each worker.
    type Scratch: Send;

    // The tiles that it takes under a number.
    ghost Takes: { Self → ℕ → List ℕ → Type 0 };

    // The scratches that fit it.
    ghost Fits: { Self → Self.Scratch → Type 0 };

    // The number of a tile, the tile before, the tile after and the answer. It doesn't speak of the scratch.
    ghost Does: { Self → ℕ → List ℕ → List ℕ → Self.Answer → Type 0 };

    /// Works on the tile with this number.
    fn run(&self, number: usize, tile: &mut [u16], scratch: &mut Self::Scratch) -> Self::Answer
        requires takes { Takes self.now number tile.old }
        requires fits { Fits self.now scratch.old }
        ensures does { Does self.now number tile.old tile.new result }
        ensures fits { Fits self.now scratch.new };
}
