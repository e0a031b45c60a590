// A tile of a frame coded, as the task of a worker.

ghost use Rattle.std.specs.Prelude.{◌≡◌};
ghost use Rattle.ffv1_frame.specs.Written.{film_head};

use cook_bits::{Bytes, NoMemory};
use ffv1_frame::Grid;
use ffv1_params::Params;
use ffv1_slice::{SliceHead, encode};
use slice_pool::TileTask;
use std::alloc::Global;

/// Codes each tile of a grid of one column as the slice of the row with the tile's number, and leaves the tile. It answers
/// the slice without its footer. The slices of all rows in order are what `assemble` makes a frame of.
#[derive(Drop)]
pub struct EncodeTask<'a> {
    pub alloc: Global,
    pub params: &'a Params,
    pub grid: &'a Grid,
}

/// A worker that codes needs no room of its own.
#[derive(Clone, Copy, Debug, PartialEq, Eq)]
pub struct NoScratch;

/// The head of the cell in a row of the one column.
pub(crate) fn head_of_row(row: u32) -> SliceHead
    ensures { result ≡ film_head row }
{
    SliceHead {
        x: 0,
        y: row,
        columns: 1,
        rows: 1,
        indices: [0, 0],
    }
}

impl TileTask for EncodeTask<'_> {
    ghost use Rattle.std.specs.Prelude.{◌≡◌, IfOk};
    ghost use Rattle.ffv1_workers.specs.Encoding.{TakesRow, coded_row};

    type Answer = Result<Bytes, NoMemory>;

    type Scratch = NoScratch;

    ghost Takes = { λ task number tile. TakesRow task.params.now task.grid.now number tile };

    ghost Fits = { λ _ _. Unit {0} };

    ghost Does = { λ task number old new answer. (new ≡ old) × IfOk answer (λ bytes. bytes ≡ coded_row task.params.now task.grid.now number old) };

    fn run(
        &self,
        number: usize,
        tile: &mut [u16],
        _scratch: &mut NoScratch,
    ) -> Result<Bytes, NoMemory> {
        let head = head_of_row(number as u32);
        let size = self.grid.tile(&head);
        encode(
            self.alloc,
            self.params,
            &head,
            size.width,
            size.height,
            number == 0,
            tile,
        )
    }
}
