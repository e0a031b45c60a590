// Whether a picture has the grid of the parameters.

ghost use Rattle.std.specs.Prelude.{◌≡◌, IfOk, OnErr};
ghost use Rattle.ffv1_frame.specs.Grid.{HasGrid, IsGridOf};

use crate::Grid;
use ffv1_params::Params;
use thiserror::Error;

/// A picture has no grid of these parameters: it is empty or too large, or has fewer pixels than cells across or down.
#[derive(Clone, Copy, Debug, PartialEq, Eq, Error)]
#[error("no grid of cells")]
pub struct GridBad;

const MOST_SIDE: u64 = 16_384;

const MOST_PIXELS: u64 = 67_108_864;

/// The grid of the parameters over a picture of this size. `GridBad` comes exactly where the picture has none: where its
/// sides aren't 1 to 16,384, it has more than 67,108,864 pixels, or the grid has more columns than the width or more rows
/// than the height. It takes no memory.
pub fn grid(params: &Params, width: u64, height: u64) -> Result<Grid, GridBad>
    ensures grid { IfOk result (IsGridOf params.now) }
    ensures width { IfOk result (λ grid. grid.width ≡ width) }
    ensures height { IfOk result (λ grid. grid.height ≡ height) }
    ensures bad { OnErr result (HasGrid params.now width height → ⊥) }
{
    let (columns, rows) = (params.columns(), params.rows());
    if width > MOST_SIDE || height > MOST_SIDE || width * height > MOST_PIXELS {
        return Err(GridBad);
    }
    if u64::from(columns) > width || u64::from(rows) > height {
        return Err(GridBad);
    }
    Ok(Grid {
        columns,
        rows,
        width: width as u32,
        height: height as u32,
    })
}
