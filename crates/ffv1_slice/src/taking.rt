// The keyframe bit and the header of a slice, read.

ghost use Rattle.std.specs.Prelude.{◌≡◌, ◌↔◌, ◌+◌, ◌<◌, ◌≤◌, true, false, length, IsTrue, OnOk, IfOk, IfErr};
ghost use Rattle.range_coder.specs.Coding.{Gets};
ghost use Rattle.range_coder.specs.Table.{AreLive};
ghost use Rattle.ffv1_slice.specs.Faults.{HeadFault};
ghost use Rattle.ffv1_slice.specs.Slice.{key_choices, CodesHead};
ghost use Rattle.ffv1_slice.specs.Taking.{MayStand, NumbersRead, NumbersFail, FrontRead, FrontFails};

use crate::{SliceHead, SliceWhy};
use ffv1_params::Params;
use range_coder::{Decoder, Table, laws};

/// The numbers of a header.
const NUMBERS: usize = 9;

/// The slot at which the states of the header begin.
const HEADER_SLOT: usize = 1;

/// The slots of the keyframe bit and of the header.
const FRONT_SLOTS: usize = 33;

// Reads the numbers of a header, and tests each as soon as it can be.
#[tactic(auto, using(crate::proofs::Takings::takings))]
fn get_numbers(
    decoder: &mut Decoder<'_>,
    params: &Params,
    states: &mut [u8],
    numbers: &mut [u32],
) -> Result<(), SliceWhy>
    requires slots { 33 ≤ length states.old }
    requires live { AreLive params.now.table states.old }
    requires nine { length numbers.old ≡ 9 }
    ensures ok { OnOk result (NumbersRead params.now decoder.old states.old decoder.new states.new numbers.new 9) }
    ensures err { IfErr result (NumbersFail params.now decoder.old states.old decoder.new states.new) }
{
    for at in 0..NUMBERS {
        let Ok(number) = decoder.get_symbol_at(params.table(), states, HEADER_SLOT, false) else {
            return Err(SliceWhy::BadSymbol);
        };
        numbers[at] = number as u32;
        if !may_stand(params, numbers, at) {
            return Err(SliceWhy::SliceHeader);
        }
    }
    Ok(())
}

// Whether the number at a place can stand there, behind those before it.
fn may_stand(params: &Params, numbers: &[u32], place: usize) -> bool
    requires { length numbers.now ≡ 9 }
    ensures { IsTrue result ↔ MayStand params.now numbers.now place }
{
    match place {
        3 => {
            let across = u64::from(numbers[0]) + u64::from(numbers[2]);
            let down = u64::from(numbers[1]) + u64::from(numbers[3]);
            across < u64::from(params.columns()) && down < u64::from(params.rows())
        }
        4 => numbers[4] < params.sets(),
        5 => numbers[5] < params.sets(),
        _ => true,
    }
}

// The keyframe bit, where it is asked for; else true.
#[tactic(auto, using(crate::proofs::Fronts::fronts))]
fn get_key(decoder: &mut Decoder<'_>, table: &Table, states: &mut [u8], first: bool) -> bool
    requires slots { 33 ≤ length states.old }
    requires live { AreLive table.now states.old }
    ensures gets { Gets table.now decoder.old states.old decoder.new states.new (key_choices first result) }
    ensures asked { first ≡ false → result ≡ true }
    ensures live { AreLive table.now states.new }
{
    if first {
        decoder.get_slot(table, states, 0)
    } else {
        true
    }
}

/// Reads the keyframe bit, where it is asked for, and the header. It takes no memory.
#[tactic(auto, using(crate::proofs::Fronts::fronts))]
pub(crate) fn get_front(
    decoder: &mut Decoder<'_>,
    params: &Params,
    states: &mut [u8],
    first: bool,
) -> Result<SliceHead, SliceWhy>
    requires slots { 33 ≤ length states.old }
    requires live { AreLive params.now.table states.old }
    ensures ok { IfOk result (FrontRead params.now first decoder.old states.old decoder.new states.new) }
    ensures err { IfErr result (FrontFails params.now first decoder.old states.old decoder.new states.new) }
{
    if !get_key(decoder, params.table(), states, first) {
        return Err(SliceWhy::NotKey);
    }
    let mut numbers = [0; NUMBERS];
    get_numbers(decoder, params, states, &mut numbers)?;
    Ok(SliceHead {
        x: numbers[0],
        y: numbers[1],
        columns: numbers[2] + 1,
        rows: numbers[3] + 1,
        indices: [numbers[4], numbers[5]],
    })
}

/// The head that the bytes of a slice begin with. `first` says whether it is the first slice of its frame. `Err` is what
/// the reading meets first, and is never `SampleRange`. It takes no memory.
pub fn read_head(params: &Params, bytes: &[u8], first: bool) -> Result<SliceHead, SliceWhy>
    ensures ok { IfOk result (CodesHead params.now first bytes.now) }
    ensures err { IfErr result (HeadFault params.now first bytes.now) }
{
    laws::codings_are_joined();
    laws::sets_of_states();
    laws::sets_stand_apart();
    laws::symbol_slots();
    let _table = params.table();
    let Some(mut decoder) = Decoder::new(bytes) else {
        return Err(SliceWhy::BadStart);
    };
    let mut states = [128; FRONT_SLOTS];
    get_front(&mut decoder, params, &mut states, first)
}
