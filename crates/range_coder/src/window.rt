// The window of an encoder: the two numbers that change with each bit, apart from the bytes, so that they can stand
// in local variables while a line is coded. It keeps the upper end of its interval, which bit 1 doesn't change.

ghost use Rattle.std.specs.Prelude.{◌≡◌, ◌+◌, ◌-◌, ◌<◌, ◌≤◌, [], ◌∷◌, length, if◌then◌else◌, OnOk, OnErr};
ghost use Rattle.range_coder.specs.Interval.{part_of_one, narrow};
ghost use Rattle.range_coder.specs.Table.{IsState, IsLive, IsClosed, AreLive, next_state};
ghost use Rattle.range_coder.specs.Encoding.{IsWindow, spare_in};
ghost use Rattle.range_coder.specs.Held.{held, PutsIn, FrontIn};
ghost use Rattle.range_coder.specs.Symbol.{choice};

use crate::Table;
use crate::carry::push_digit;
use cook_bits::NoMemory;

/// Upper end and range of an interval, as far as they stand below the bytes written.
#[derive(Clone, Copy)]
pub(crate) struct Window {
    pub(crate) top: u32,
    pub(crate) range: u32,
}

impl Window {
    /// Codes a bit with the state, and adapts the state. After a refusal nothing is changed.
    #[inline(always)]
    pub(crate) fn put(
        &mut self,
        bytes: &mut Vec<u8>,
        table: &Table,
        state: &mut u8,
        bit: bool,
    ) -> Result<(), NoMemory>
        requires live { IsLive table.now state.old }
        requires window { IsWindow bytes.old.items self.old.top self.old.range }
        ensures ok { OnOk result ((held self.new bytes.new).interval ≡ narrow (held self.old bytes.old).interval state.old bit) }
        ensures next { OnOk result (state.new ≡ next_state table.now state.old bit) }
        ensures err { OnErr result ((held self.new bytes.new).interval ≡ (held self.old bytes.old).interval) }
        ensures same { OnErr result (state.new ≡ state.old) }
        ensures live { IsLive table.now state.new }
        ensures closed { IsClosed table.now }
        ensures room { OnErr result (spare_in bytes.old ≡ 0) }
        ensures spare { spare_in bytes.old ≤ spare_in bytes.new + 1 }
        ensures window { IsWindow bytes.new.items self.new.top self.new.range }
    {
        let next = table.next(*state, bit);
        let (top, range) = part(self.top, self.range, *state, bit);
        if range < 256 {
            let low = top - range;
            push_digit(bytes, low / 256)?;
            self.top = low % 256 * 256 + range * 256;
            self.range = range * 256;
        } else {
            self.top = top;
            self.range = range;
        }
        *state = next;
        Ok(())
    }

    /// Codes a bit with the state of a slot, and adapts it. After a refusal nothing is changed.
    #[inline(always)]
    pub(crate) fn put_slot(
        &mut self,
        bytes: &mut Vec<u8>,
        table: &Table,
        states: &mut [u8],
        slot: usize,
        bit: bool,
    ) -> Result<(), NoMemory>
        requires slot { slot < length states.old }
        requires live { AreLive table.now states.old }
        requires window { IsWindow bytes.old.items self.old.top self.old.range }
        ensures ok { OnOk result (PutsIn table.now self.old bytes.old states.old self.new bytes.new states.new (choice slot bit ∷ [])) }
        ensures err { OnErr result (FrontIn table.now self.old bytes.old states.old self.new bytes.new states.new (choice slot bit ∷ [])) }
        ensures live { AreLive table.now states.new }
        ensures closed { IsClosed table.now }
        ensures window { IsWindow bytes.new.items self.new.top self.new.range }
    {
        self.put(bytes, table, &mut states[slot], bit)?;
        Ok(())
    }
}

/// The part of a window that a bit has: its upper end and its range.
#[inline(always)]
pub(crate) fn part(top: u32, range: u32, state: u8, bit: bool) -> (u32, u32)
    requires usable { IsState state }
    requires least { 256 ≤ range }
    requires most { range ≤ 65280 }
    requires within { range ≤ top }
    ensures top { result.0 ≡ (if bit then top else top - part_of_one range state) }
    ensures range { result.1 ≡ (if bit then part_of_one range state else range - part_of_one range state) }
    ensures some { 1 ≤ result.1 }
    ensures within { result.1 ≤ result.0 }
    ensures below { result.0 ≤ top }
{
    let ones = range * u32::from(state) / 256;
    if bit {
        (top, ones)
    } else {
        (top - ones, range - ones)
    }
}
