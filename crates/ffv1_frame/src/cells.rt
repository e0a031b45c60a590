// The grid of cells over a picture.

use crate::edges::edge;
use dpx_packing::Tile;
use ffv1_slice::SliceHead;

/// The grid of cells over a picture (RFC 9043, section 4.6, "Slice Header"): a slice covers some of them.
#[derive(Clone, Copy, Debug, PartialEq, Eq)]
pub struct Grid {
    /// Columns of cells.
    pub columns: u32,
    /// Rows of cells.
    pub rows: u32,
    /// The picture's pixels in a line.
    pub width: u32,
    /// The picture's lines.
    pub height: u32,
}

impl Grid {
    ghost use Rattle.std.specs.Prelude.{◌≡◌, ◌≤◌};
    ghost use Rattle.dpx_packing.specs.Tiles.{IsInside};
    ghost use Rattle.ffv1_frame.specs.Grid.{IsGrid, IsHeadIn, tile_of};

    /// The pixels of the cells of a head. There is at least one.
    pub fn tile(&self, head: &SliceHead) -> Tile
        requires grid { IsGrid self.now }
        requires head { IsHeadIn self.now head.now }
        ensures exact { result ≡ tile_of self.now head.now }
        ensures inside { IsInside self.now.width self.now.height result }
        ensures wide { 1 ≤ result.width }
        ensures high { 1 ≤ result.height }
    {
        let x = edge(self.columns, self.width, head.x);
        let y = edge(self.rows, self.height, head.y);
        let right = edge(self.columns, self.width, head.x + head.columns);
        let bottom = edge(self.rows, self.height, head.y + head.rows);
        Tile {
            x,
            y,
            width: right - x,
            height: bottom - y,
        }
    }
}
