// A line: units in a row, and then the bytes of the stride past them.

ghost use Rattle.std.specs.Prelude.{◌*◌, take};
ghost use Rattle.dpx_packing.specs.Blocks.{EachFits, repeated, with_spare};
ghost use Rattle.dpx_packing.specs.Line.{Fit64};

use crate::blocks::{Block, Sizes, join_blocks, split_blocks};

#[derive(Drop)]
pub struct Line<'a, U> {
    pub unit: &'a U,
    pub units: usize,
    /// Bytes past the units.
    pub spare: usize,
}

// What is sound of a line: its unit is, and its numbers fit a machine's.
impl<U: Block> Block for Line<'_, U> {
    ghost form = { λ l. with_spare (repeated (U.form l.unit.now) l.units) l.spare };

    ghost Fits = { λ l samples pads. EachFits (U.Fits l.unit.now) (U.form l.unit.now) l.units samples (take (l.units * (U.form l.unit.now).pads) pads) };

    ghost IsSound = { λ l. U.IsSound l.unit.now × Fit64 (with_spare (repeated (U.form l.unit.now) l.units) l.spare) };

    fn sizes(&self) -> Sizes {
        let unit = self.unit.sizes();
        Sizes {
            bytes: self.units * unit.bytes + self.spare,
            samples: self.units * unit.samples,
            pads: self.units * unit.pads + self.spare,
        }
    }

    fn split(&self, bytes: &[u8], samples: &mut [u16], pads: &mut [u8]) {
        let unit = self.unit.sizes();
        let tight = self.units * unit.bytes;
        let held = self.units * unit.pads;
        split_blocks(
            self.unit,
            self.units,
            &bytes[..tight],
            samples,
            &mut pads[..held],
        );
        pads[held..].copy_from_slice(&bytes[tight..]);
    }

    fn join(&self, samples: &[u16], pads: &[u8], bytes: &mut [u8]) {
        let unit = self.unit.sizes();
        let tight = self.units * unit.bytes;
        let held = self.units * unit.pads;
        join_blocks(
            self.unit,
            self.units,
            samples,
            &pads[..held],
            &mut bytes[..tight],
        );
        bytes[tight..].copy_from_slice(&pads[held..]);
    }
}
