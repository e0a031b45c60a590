// Frames cut into slices.

ghost use Rattle.std.specs.Prelude.{◌≡◌, ◌≤◌, [], All, length, map, reverse, Ok, Err, IfErr, OnOk, OnErr};
ghost use Rattle.dpx_packing.specs.Tiles.{CoverOnce};
ghost use Rattle.ffv1_frame.specs.Footers.{cut_back, slices_of};
ghost use Rattle.ffv1_frame.specs.Grid.{IsGridOf};
ghost use Rattle.ffv1_frame.specs.Parts.{coded_in, IsWithin, HeadIsRefused, HasPixels, IsCut, FrameFault, tiles_of};
ghost use Rattle.ffv1_frame.specs.Heads.{HeadsRead, Settles, SettlesNot};

use crate::cover::covers_once;
use crate::footer::last_slice;
use crate::part::{MOST_SLICES, NO_HEAD};
use crate::{FrameWhy, Grid, Part, Parts};
use ffv1_params::Params;
use ffv1_slice::{SliceWhy, read_head};

// Adds the slices that the footers cut off, from the frame's end.
#[tactic(auto, using(crate::proofs::CutLaws::cut_laws))]
fn split(bytes: &[u8], ec: bool, most: usize, parts: &mut Parts) -> Result<(), FrameWhy>
    requires none { parts.old.items ≡ [] }
    requires most { most ≤ 1024 }
    ensures ok { OnOk result (cut_back ec most bytes.now ≡ Ok (map (coded_in bytes.now) (reverse parts.new.items))) }
    ensures within { OnOk result (All (IsWithin bytes.now) parts.new.items) }
    ensures err { IfErr result (λ why. cut_back ec most bytes.now ≡ Err why) }
{
    let mut end = bytes.len();
    while end > 0 {
        match last_slice(&bytes[..end], ec, most - parts.len()) {
            Ok(span) => {
                end = span.at;
                parts.push(Part {
                    at: span.at,
                    len: span.len,
                    head: NO_HEAD,
                });
            }
            Err(why) => return Err(why),
        }
    }
    Ok(())
}

// Reads the heads of slices in order.
#[tactic(auto, using(crate::proofs::HeadLaws::head_laws))]
fn read_heads(bytes: &[u8], params: &Params, parts: &mut [Part]) -> Result<(), SliceWhy>
    requires within { All (IsWithin bytes.now) parts.old }
    ensures ok { OnOk result (HeadsRead params.now bytes.now parts.old parts.new) }
    ensures err { IfErr result (HeadIsRefused params.now (map (coded_in bytes.now) parts.old)) }
{
    for i in 0..parts.len() {
        let part = parts[i];
        let coded = &bytes[part.at..part.at + part.len];
        match read_head(params, coded, i == 0) {
            Ok(head) => {
                parts[i] = Part {
                    at: part.at,
                    len: part.len,
                    head,
                };
            }
            Err(why) => return Err(why),
        }
    }
    Ok(())
}

// Puts slices that were found from the end in order, reads their heads, and tests that they cover the grid.
#[tactic(auto, using(crate::proofs::HeadLaws::head_laws))]
fn settle(bytes: &[u8], params: &Params, grid: &Grid, parts: &mut [Part]) -> Result<(), FrameWhy>
    requires grid { IsGridOf params.now grid.now }
    requires within { All (IsWithin bytes.now) parts.old }
    ensures ok { OnOk result (Settles params.now grid.now bytes.now (reverse parts.old) parts.new) }
    ensures err { IfErr result (SettlesNot params.now grid.now (map (coded_in bytes.now) (reverse parts.old))) }
{
    parts.reverse();
    if let Err(why) = read_heads(bytes, params, parts) {
        return Err(FrameWhy::Head(why));
    }
    if covers_once(grid, parts) {
        Ok(())
    } else {
        Err(FrameWhy::SliceGrid)
    }
}

// Cuts a frame into no parts yet.
fn cut_whole(bytes: &[u8], params: &Params, grid: &Grid, parts: &mut Parts) -> Result<(), FrameWhy>
    requires grid { IsGridOf params.now grid.now }
    requires none { parts.old.items ≡ [] }
    ensures ok { OnOk result (IsCut params.now grid.now bytes.now parts.new.items) }
    ensures err { IfErr result (FrameFault params.now grid.now bytes.now) }
{
    if bytes.is_empty() {
        return Err(FrameWhy::FrameShort);
    }
    if let Err(why) = split(bytes, params.ec(), MOST_SLICES, parts) {
        return Err(why);
    }
    settle(bytes, params, grid, parts.as_mut_slice())
}

/// Cuts a frame into its slices, by the footers from its end, and reads their heads (RFC 9043, sections 4.5, 4.6 and 4.9).
/// The parts then cover each cell of the grid once, and their tiles the picture. `Err` is the first fault: that of the
/// footers, from the end; then the first head that is refused; then that the cells aren't covered once. There are no parts
/// then. It takes no memory.
pub fn cut(bytes: &[u8], params: &Params, grid: &Grid, parts: &mut Parts) -> Result<(), FrameWhy>
    requires grid { IsGridOf params.now grid.now }
    ensures ok { OnOk result (IsCut params.now grid.now bytes.now parts.new.items) }
    ensures tiles { OnOk result (CoverOnce grid.now.width grid.now.height (tiles_of grid.now parts.new.items)) }
    ensures pixels { OnOk result (All HasPixels (tiles_of grid.now parts.new.items)) }
    ensures err { IfErr result (FrameFault params.now grid.now bytes.now) }
    ensures none { OnErr result (parts.new.items ≡ []) }
{
    parts.clear();
    let cut = cut_whole(bytes, params, grid, parts);
    if cut.is_err() {
        parts.clear();
    }
    cut
}
