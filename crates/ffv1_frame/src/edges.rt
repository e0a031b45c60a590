// Where columns and rows of cells begin.

ghost use Rattle.std.specs.Prelude.{◌≡◌, ◌<◌, ◌≤◌};
ghost use Rattle.ffv1_frame.specs.Grid.{edge};

/// The pixels before a column or row of cells, of so many cells over so many pixels.
#[tactic(auto, unfolding(crate::specs::Grid::edge))]
pub(crate) fn edge(cells: u32, size: u32, i: u32) -> u32
    requires some { 1 ≤ cells }
    requires few { cells ≤ 1024 }
    requires small { size ≤ 16384 }
    requires within { i ≤ cells }
    ensures { result ≡ edge cells size i }
{
    i * size / cells
}
