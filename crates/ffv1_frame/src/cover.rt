// Whether slices cover each cell of a grid once: a mark for each cell.

ghost use Rattle.std.specs.Prelude.{◌≡◌, ◌↔◌, ◌+◌, ◌*◌, ◌≤◌, All, IsTrue, EachIndex, length, map, slice_index};
ghost use Rattle.std.specs.Bool.{OnTrue, OnFalse};
ghost use Rattle.dpx_packing.specs.Tiles.{CoverOnce};
ghost use Rattle.ffv1_frame.specs.Grid.{IsGrid, IsHeadIn, cells_of};
ghost use Rattle.ffv1_frame.specs.Marks.{MarksSpan, HasMark, MarksBox, HasMarked};
ghost use Rattle.ffv1_frame.specs.Parts.{cells_of_part};

use crate::{Grid, Part};
use ffv1_slice::SliceHead;

const MOST_CELLS: usize = 1024;

// Marks the cells between two places, if none of them is marked.
#[tactic(auto, using(crate::proofs::Marking::marking))]
fn mark_span(marks: &mut [u8], from: usize, to: usize) -> bool
    requires order { from ≤ to }
    requires inside { to ≤ length marks.old }
    ensures marked { OnTrue result (MarksSpan from to marks.old marks.new) }
    ensures taken { OnFalse result (HasMark from to marks.old) }
{
    for k in from..to {
        if marks[k] != 0 {
            return false;
        }
        marks[k] = 1;
    }
    true
}

// Marks the cells of a head, if none of them is marked.
#[tactic(auto, using(crate::proofs::Marking::marking))]
fn mark_box(grid: &Grid, head: &SliceHead, marks: &mut [u8]) -> bool
    requires grid { IsGrid grid.now }
    requires head { IsHeadIn grid.now head.now }
    requires cells { length marks.old ≡ grid.now.columns * grid.now.rows }
    ensures marked { OnTrue result (MarksBox grid.now.columns (cells_of head.now) marks.old marks.new) }
    ensures taken { OnFalse result (HasMarked grid.now.columns (cells_of head.now) marks.old) }
{
    for row in 0..head.rows {
        let (from, to) = row_span(grid, head, row);
        if !mark_span(marks, from, to) {
            return false;
        }
    }
    true
}

// The cells of a head in one of its rows.
fn row_span(grid: &Grid, head: &SliceHead, row: u32) -> (usize, usize)
    requires grid { IsGrid grid.now }
    requires head { IsHeadIn grid.now head.now }
    requires row { row + 1 ≤ head.now.rows }
    ensures from { result.0 ≡ (head.now.y + row) * grid.now.columns + head.now.x }
    ensures to { result.1 ≡ (head.now.y + row) * grid.now.columns + head.now.x + head.now.columns }
    ensures high { result.1 ≤ grid.now.columns * grid.now.rows }
{
    let from = (head.y + row) * grid.columns + head.x;
    (from as usize, (from + head.columns) as usize)
}

// Whether each cell is marked.
fn are_marked(marks: &[u8]) -> bool
    ensures { IsTrue result ↔ EachIndex marks.now (λ k. slice_index marks.now k ≡ 1) }
{
    marks.iter().all(|mark| *mark == 1)
}

// Marks the cells of all slices, until one is marked twice.
fn mark_all(grid: &Grid, parts: &[Part], marks: &mut [u8]) -> bool
    requires grid { IsGrid grid.now }
    requires inside { All (λ part. IsHeadIn grid.now part.head) parts.now }
    requires cells { length marks.old ≡ grid.now.columns * grid.now.rows }
    ensures covered { OnTrue result (CoverOnce grid.now.columns grid.now.rows (map cells_of_part parts.now)) }
    ensures other { OnFalse result (CoverOnce grid.now.columns grid.now.rows (map cells_of_part parts.now) → ⊥) }
{
    marks.fill(0);
    for i in 0..parts.len() {
        if !mark_box(grid, &parts[i].head, marks) {
            return false;
        }
    }
    are_marked(marks)
}

/// Whether the slices cover each cell of the grid exactly once.
pub(crate) fn covers_once(grid: &Grid, parts: &[Part]) -> bool
    requires grid { IsGrid grid.now }
    requires inside { All (λ part. IsHeadIn grid.now part.head) parts.now }
    ensures covered { OnTrue result (CoverOnce grid.now.columns grid.now.rows (map cells_of_part parts.now)) }
    ensures other { OnFalse result (CoverOnce grid.now.columns grid.now.rows (map cells_of_part parts.now) → ⊥) }
{
    let mut marks = [0; MOST_CELLS];
    let cells = (grid.columns * grid.rows) as usize;
    mark_all(grid, parts, &mut marks[..cells])
}
