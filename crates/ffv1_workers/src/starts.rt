// Where the tiles of a frame stand in a buffer.

ghost use Rattle.std.specs.Prelude.{◌≡◌, ◌+◌, ◌≤◌, All, length};
ghost use Rattle.dpx_packing.specs.Tiles.{tile_size};
ghost use Rattle.ffv1_frame.specs.Grid.{IsGrid, IsHeadIn, tile_of};
ghost use Rattle.ffv1_frame.specs.Parts.{tiles_of};
ghost use Rattle.ffv1_workers.specs.Frames.{AreStarts, row_tiles};

use crate::encoding::head_of_row;
use ffv1_frame::{Grid, Part};
use ffv1_slice::SliceHead;

// How many samples the tile of a head has.
fn tile_len(grid: &Grid, head: &SliceHead) -> usize
    requires grid { IsGrid grid.now }
    requires head { IsHeadIn grid.now head.now }
    ensures exact { result ≡ tile_size (tile_of grid.now head.now) }
    ensures high { result ≤ 805306368 }
{
    let tile = grid.tile(head);
    tile.height as usize * (3 * tile.width as usize)
}

/// Leaves where the tile of each part begins, and where the last one ends.
pub(crate) fn place_tiles(grid: &Grid, parts: &[Part], bounds: &mut [usize])
    requires grid { IsGrid grid.now }
    requires heads { All (λ part. IsHeadIn grid.now part.head) parts.now }
    requires few { length parts.now ≤ 1024 }
    requires room { length bounds.old ≡ length parts.now + 1 }
    ensures { AreStarts (tiles_of grid.now parts.now) bounds.new }
{
    let mut at = 0;
    bounds[0] = 0;
    for i in 0..parts.len() {
        at += tile_len(grid, &parts[i].head);
        bounds[i + 1] = at;
    }
}

/// Leaves where the tile of each row begins in a grid of one column, and where the last one ends.
pub(crate) fn place_rows(grid: &Grid, bounds: &mut [usize])
    requires grid { IsGrid grid.now }
    requires column { grid.now.columns ≡ 1 }
    requires room { length bounds.old ≡ grid.now.rows + 1 }
    ensures { AreStarts (row_tiles grid.now) bounds.new }
{
    let mut at = 0;
    bounds[0] = 0;
    for row in 0..grid.rows {
        at += tile_len(grid, &head_of_row(row));
        bounds[row as usize + 1] = at;
    }
}
