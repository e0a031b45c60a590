// Numbers, and the lengths of the runs of a table, read with states of their own.

ghost use Rattle.std.specs.Prelude.{◌≡◌, ◌<◌, ◌^◌, ℕ, List, IfOk};
ghost use Rattle.range_coder.specs.Table.{IsLive, AreLive};
ghost use Rattle.range_coder.specs.DefaultTable.{default_one_states};
ghost use Rattle.ffv1_params.specs.QuantTables.{IsTable};
ghost use Rattle.ffv1_params.specs.Reading as reading;
ghost use Rattle.ffv1_params.specs.Walk.{Answers, Leads, reader_at};

use crate::ParamsWhy;
use cook_bits::Bytes;
use range_coder::{Decoder, States, Table, get_symbol, laws};
use std::alloc::Global;

/// The places of the first half of a table, which its runs fill.
const HALF: u32 = 128;

/// A number without a sign.
pub(crate) fn symbol_of(
    decoder: &mut Decoder<'_>,
    table: &Table,
    states: &mut States,
) -> Result<u32, ParamsWhy>
    requires default { table.now ≡ default_one_states }
    requires live { AreLive table.now states.old }
    ensures answers { Answers (reader_at decoder.old states.old) (reader_at decoder.new states.new) result reading.symbol }
    ensures few { IfOk result (λ n. n < 2 ^ 31) }
    ensures live { AreLive table.now states.new }
{
    laws::n3();
    laws::front_is_read();
    laws::read_is_inside();
    laws::lists_are_joined();
    laws::choices_stay_live();
    laws::symbols_part();
    laws::symbol_slots();
    match get_symbol(decoder, table, states, false) {
        Ok(number) => Ok(number as u32),
        Err(_) => Err(ParamsWhy::Symbol),
    }
}

/// A single bit, with the first of the states.
pub(crate) fn bit_of(decoder: &mut Decoder<'_>, table: &Table, states: &mut States) -> bool
    requires default { table.now ≡ default_one_states }
    requires live { AreLive table.now states.old }
    ensures answers { Leads (reader_at decoder.old states.old) (reader_at decoder.new states.new) reading.bit (reading.give result) }
    ensures live { AreLive table.now states.new }
{
    laws::n3();
    laws::front_is_read();
    laws::read_is_inside();
    laws::lists_are_joined();
    laws::choices_stay_live();
    states.get(decoder, table, 0)
}

/// The lengths of the runs of a table, with fresh states.
#[tactic(auto, using(crate::proofs::RunReadLaws::run_read_laws), unfolding(crate::specs::Walk::Fails))]
pub(crate) fn runs_of(
    alloc: Global,
    decoder: &mut Decoder<'_>,
    table: &Table,
) -> Result<Bytes, ParamsWhy>
    requires default { table.now ≡ default_one_states }
    requires fresh { IsLive table.now 128 }
    ensures answers { (shared : List ℕ) → Answers (reader_at decoder.old shared) (reader_at decoder.new shared) result reading.table }
    ensures table { IfOk result IsTable }
{
    let mut states = States::fresh();
    let mut runs = Vec::new(alloc);
    let mut left = HALF;
    while left > 0 {
        let run = symbol_of(decoder, table, &mut states)? + 1;
        if run > left {
            return Err(ParamsWhy::Tables);
        }
        runs.push(run as u8)?;
        left -= run;
    }
    Ok(Bytes::from_vec(runs))
}
