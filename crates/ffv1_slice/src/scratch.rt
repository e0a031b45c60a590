ghost use Rattle.std.specs.Prelude.{◌≡◌, ℕ, ◌+◌, ◌*◌, ◌≤◌, length, IfOk, IfErr};
ghost use Rattle.ffv1_params.specs.QuantTables.{most_contexts};
ghost use Rattle.ffv1_slice.specs.Faults.{SliceFault};
ghost use Rattle.ffv1_slice.specs.Slice.{Codes};

use crate::getting::get_slice_with;
use crate::lines::Planes;
use crate::{SliceHead, SliceWhy};
use cook_bits::NoMemory;
use ffv1_params::Params;
use range_coder::{Decoder, laws};
use std::alloc::Global;
use std::marker::Model;

/// The states and lines that slices are read with: room that is made once. Contracts see for how many contexts and for
/// what width it was made.
#[derive(Drop)]
pub struct Scratch {
    contexts: u32,
    width: u32,
    states: Vec<u8>,
    planes: Planes,
}

impl Model for Scratch {
    ghost use Rattle.ffv1_slice.specs.Room.{Room, HasRoom};

    ghost Value = { Room };

    ghost view = { λ s. record { contexts = s.contexts; width = s.width } };

    ghost invariant = { λ s. HasRoom s.contexts s.width s.states.items s.planes };
}

impl Scratch {
    /// Room for the slices of all parameters none of whose sets has more contexts, and for all tiles that aren't wider.
    pub fn new(alloc: Global, contexts: u32, width: u32) -> Result<Scratch, NoMemory>
        requires contexts_some { 1 ≤ contexts }
        requires contexts_most { contexts ≤ 32768 }
        requires width_some { 1 ≤ width }
        requires width_most { width ≤ 16384 }
        ensures { IfOk result (λ scratch. scratch ≡ record { contexts = contexts; width = width }) }
    {
        let slots = 33 + 64 * contexts as usize;
        let states = vec![in alloc; 128; slots]?;
        let planes = Planes::new(alloc, width as usize + 3)?;
        Ok(Scratch {
            contexts,
            width,
            states,
            planes,
        })
    }
}

/// Reads a slice without its footer: the head that the bytes code, and the tile of this size, with three colours a pixel
/// line by line, each below two to the bits of the parameters. `first` says whether it is the first slice of its frame.
/// `Err` is what the reading meets first, and the tile is then free. It takes no memory.
pub fn decode(
    params: &Params,
    bytes: &[u8],
    width: u32,
    height: u32,
    first: bool,
    tile: &mut [u16],
    scratch: &mut Scratch,
) -> Result<SliceHead, SliceWhy>
    requires width_some { 1 ≤ width }
    requires width_most { width ≤ 16384 }
    requires height_some { 1 ≤ height }
    requires height_most { height ≤ 16384 }
    requires tile { length tile.old ≡ 3 * (width * height) }
    requires contexts { most_contexts params.now.sets ≤ scratch.old.contexts }
    requires width { width ≤ scratch.old.width }
    ensures ok { IfOk result (λ head. Codes params.now first width height bytes.now head tile.new) }
    ensures err { IfErr result (SliceFault params.now first width height bytes.now) }
    ensures scratch { scratch.new ≡ scratch.old }
{
    laws::codings_are_joined();
    laws::sets_of_states();
    laws::symbol_slots();
    let Some(mut decoder) = Decoder::new(bytes) else {
        return Err(SliceWhy::BadStart);
    };
    scratch.planes.clear();
    get_slice_with(
        &mut decoder,
        params,
        &mut scratch.states,
        &mut scratch.planes,
        first,
        tile,
        width as usize,
        height as usize,
    )
}
