// Which tiles a worker's share has.

ghost use Rattle.std.specs.Prelude.{◌≡◌, ◌<◌, ◌≤◌};
ghost use Rattle.slice_pool.specs.Shares.{first_tile};

/// The first tile of a share, of so many tiles among so many workers.
#[tactic(auto, unfolding(crate::specs::Shares::first_tile))]
pub(crate) fn first_tile(tiles: usize, workers: usize, share: usize) -> usize
    requires some { 0 < workers }
    requires few { workers < 4294967296 }
    requires share { share ≤ workers }
    ensures exact { result ≡ first_tile tiles workers share }
    ensures high { result ≤ tiles }
{
    (share as u128 * tiles as u128 / workers as u128) as usize
}
