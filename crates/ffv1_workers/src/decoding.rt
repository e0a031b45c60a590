// A tile of a frame decoded, as the task of a worker.

use ffv1_frame::{Grid, Part};
use ffv1_params::Params;
use ffv1_slice::{Scratch, SliceHead, SliceWhy, decode};
use slice_pool::TileTask;

/// Decodes each tile of a frame that was cut into parts, by the part with the tile's number. It answers the head that the
/// slice codes, or its first fault, after which the tile is free. It takes no memory.
#[derive(Drop)]
pub struct DecodeTask<'a> {
    pub bytes: &'a [u8],
    pub params: &'a Params,
    pub grid: &'a Grid,
    pub parts: &'a [Part],
}

impl TileTask for DecodeTask<'_> {
    ghost use Rattle.ffv1_workers.specs.Decoding.{TakesTile, HasScratch, DecodesTile};

    type Answer = Result<SliceHead, SliceWhy>;

    type Scratch = Scratch;

    ghost Takes = { λ task number tile. TakesTile task.bytes.now task.params.now task.grid.now task.parts.now number tile };

    ghost Fits = { λ task scratch. HasScratch task.params.now task.grid.now scratch };

    ghost Does = { λ task number old new answer. DecodesTile task.bytes.now task.params.now task.grid.now task.parts.now number new answer };

    fn run(
        &self,
        number: usize,
        tile: &mut [u16],
        scratch: &mut Scratch,
    ) -> Result<SliceHead, SliceWhy> {
        let part = self.parts[number];
        let size = self.grid.tile(&part.head);
        let coded = &self.bytes[part.at..part.at + part.len];
        decode(
            self.params,
            coded,
            size.width,
            size.height,
            number == 0,
            tile,
            scratch,
        )
    }
}
