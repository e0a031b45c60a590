// What stands before the rows of a slice: the keyframe bit, and the header.

ghost use Rattle.std.specs.Prelude.{◌≡◌, true, ◌^◌, ◌<◌, ◌≤◌, length, map, OnOk};
ghost use Rattle.range_coder.specs.Coding.{Puts};
ghost use Rattle.range_coder.specs.Table.{AreLive};
ghost use Rattle.ffv1_slice.specs.Headers.{placed_number, AreSmall};
ghost use Rattle.ffv1_slice.specs.Slice.{key_choices, front_choices, written_numbers};

use crate::SliceHead;
use cook_bits::NoMemory;
use range_coder::{Encoder, Placed, Table};

/// The numbers of a header.
const NUMBERS: usize = 9;

/// The slot at which the states of the header begin.
const HEADER_SLOT: u32 = 1;

/// Codes the keyframe bit, where it is asked for, and the header.
#[tactic(auto, using(crate::proofs::Headers::headers))]
pub(crate) fn put_front(
    encoder: &mut Encoder,
    table: &Table,
    states: &mut [u8],
    head: &SliceHead,
    first: bool,
) -> Result<(), NoMemory>
    requires slots { 33 ≤ length states.old }
    requires live { AreLive table.now states.old }
    requires small { AreSmall head.now }
    ensures ok { OnOk result (Puts table.now encoder.old states.old encoder.new states.new (front_choices first (written_numbers head.now))) }
    ensures live { AreLive table.now states.new }
{
    put_key(encoder, table, states, first)?;
    let numbers = numbers_of(head);
    encoder.put_symbols(table, states, &numbers, false)
}

#[tactic(auto, using(crate::proofs::Headers::headers))]
fn put_key(
    encoder: &mut Encoder,
    table: &Table,
    states: &mut [u8],
    first: bool,
) -> Result<(), NoMemory>
    requires slots { 33 ≤ length states.old }
    requires live { AreLive table.now states.old }
    ensures ok { OnOk result (Puts table.now encoder.old states.old encoder.new states.new (key_choices first true)) }
    ensures live { AreLive table.now states.new }
{
    if first {
        encoder.put_slot(table, states, 0, true)
    } else {
        Ok(())
    }
}

// The numbers of the header, each with the header's states: progressive lines, and no aspect of pixels.
fn numbers_of(head: &SliceHead) -> [Placed; NUMBERS]
    requires { AreSmall head.now }
    ensures { result ≡ map placed_number (written_numbers head.now) }
{
    [
        placed(head.x),
        placed(head.y),
        placed(head.columns - 1),
        placed(head.rows - 1),
        placed(head.indices[0]),
        placed(head.indices[1]),
        placed(3),
        placed(0),
        placed(0),
    ]
}

fn placed(number: u32) -> Placed
    requires { number < 2 ^ 31 }
    ensures { result ≡ placed_number number }
{
    Placed {
        first: HEADER_SLOT,
        value: number as i32,
    }
}
