// The values of a record, put one after another.

ghost use Rattle.std.specs.Prelude.{◌≡◌, ◌≤◌, ◌<◌, ◌^◌, OnOk, IfOk};
ghost use Rattle.range_coder.specs.Interval.{whole, ending};
ghost use Rattle.range_coder.specs.Symbol.{fresh_states};
ghost use Rattle.std.specs.Prelude.{All};
ghost use Rattle.range_coder.specs.Choices.{chosen};
ghost use Rattle.range_coder.specs.Table.{IsLive, AreLive};
ghost use Rattle.range_coder.specs.Coding.{Puts};
ghost use Rattle.ffv1_params.specs.Record.{number as a_number, single as a_bit, table as a_table, unsigned_choices, run_choices, version_fields, colour_fields, grid_fields, set_fields, flag_fields};
ghost use Rattle.ffv1_params.specs.Track.{after_field, after_fields};

use crate::parameters::{FLAT, STEPPED};
use cook_bits::{Bytes, NoMemory};
use range_coder::{Encoder, States, Table, laws, put_symbol};
use std::alloc::Global;
use std::marker::Model;

/// Codes the values of a record. Contracts see the interval and the shared states.
#[derive(Drop)]
pub(crate) struct FieldWriter {
    encoder: Encoder,
    table: Table,
    states: States,
}

impl Model for FieldWriter {
    ghost use Rattle.ffv1_params.specs.Track.{WriterAt, AreUsable};

    ghost Value = { WriterAt };

    ghost view = { λ w. record { interval = w.encoder.interval; states = w.states } };

    ghost invariant = { λ w. AreUsable w.table w.states };
}

impl FieldWriter {
    pub(crate) fn new(alloc: Global) -> FieldWriter
        ensures { result ≡ record { interval = whole; states = fresh_states } }
    {
        FieldWriter {
            encoder: Encoder::new(alloc),
            table: Table::default_table(),
            states: States::fresh(),
        }
    }

    #[tactic(auto, unfolding(crate::specs::Track::after_field, crate::specs::Record::field_decisions, crate::specs::Record::states_after_field))]
    pub(crate) fn number(&mut self, value: u32) -> Result<(), NoMemory>
        requires { value < 2 ^ 31 }
        ensures { OnOk result (self.new ≡ after_field self.old (a_number value)) }
    {
        put_number(&mut self.encoder, &self.table, &mut self.states, value)
    }

    #[tactic(auto, unfolding(crate::specs::Track::after_field, crate::specs::Record::field_decisions, crate::specs::Record::states_after_field))]
    pub(crate) fn single(&mut self, bit: bool) -> Result<(), NoMemory>
        ensures { OnOk result (self.new ≡ after_field self.old (a_bit bit)) }
    {
        self.states.put(&mut self.encoder, &self.table, 0, bit)
    }

    #[tactic(auto, unfolding(crate::specs::Track::after_field, crate::specs::Record::field_decisions, crate::specs::Record::states_after_field))]
    pub(crate) fn table(&mut self, runs: &[u8]) -> Result<(), NoMemory>
        requires { All (λ run. 1 ≤ run) runs.now }
        ensures { OnOk result (self.new ≡ after_field self.old (a_table runs.now)) }
    {
        put_runs(&mut self.encoder, &self.table, runs)
    }

    /// The version, the micro version and the coder: the range coder with the default table.
    pub(crate) fn version(&mut self) -> Result<(), NoMemory>
        ensures { OnOk result (self.new ≡ after_fields self.old version_fields) }
    {
        self.number(3)?;
        self.number(4)?;
        self.number(1)
    }

    /// RGB of so many bits, chroma planes, no subsampling, no extra plane.
    pub(crate) fn colours(&mut self, bits: u8) -> Result<(), NoMemory>
        ensures { OnOk result (self.new ≡ after_fields self.old (colour_fields bits)) }
    {
        self.number(1)?;
        self.number(u32::from(bits))?;
        self.single(true)?;
        self.number(0)?;
        self.number(0)?;
        self.single(false)
    }

    /// One column of slices, and so many rows.
    pub(crate) fn grid(&mut self, rows: u32) -> Result<(), NoMemory>
        requires some { 1 ≤ rows }
        requires most { rows ≤ 1024 }
        ensures { OnOk result (self.new ≡ after_fields self.old (grid_fields rows)) }
    {
        self.number(0)?;
        self.number(rows - 1)
    }

    /// One set of tables: three that grow in steps, and two that are flat.
    pub(crate) fn set(&mut self) -> Result<(), NoMemory>
        ensures { OnOk result (self.new ≡ after_fields self.old set_fields) }
    {
        self.number(1)?;
        self.table(&STEPPED)?;
        self.table(&STEPPED)?;
        self.table(&STEPPED)?;
        self.table(&FLAT)?;
        self.table(&FLAT)
    }

    /// No initial states, slices with a parity, and key frames alone.
    pub(crate) fn flags(&mut self) -> Result<(), NoMemory>
        ensures { OnOk result (self.new ≡ after_fields self.old flag_fields) }
    {
        self.single(false)?;
        self.number(1)?;
        self.number(1)
    }

    pub(crate) fn finish(self) -> Result<Bytes, NoMemory>
        ensures { IfOk result (λ bytes. bytes ≡ ending self.interval) }
    {
        let FieldWriter {
            encoder,
            table: _,
            states: _,
        } = self;
        encoder.finish()
    }
}

// The lengths of runs, each less one, with fresh states.
fn put_runs(encoder: &mut Encoder, table: &Table, runs: &[u8]) -> Result<(), NoMemory>
    requires fresh { IsLive table.now 128 }
    requires some { All (λ run. 1 ≤ run) runs.now }
    ensures { OnOk result (encoder.new.interval ≡ chosen table.now fresh_states encoder.old.interval (run_choices runs.now)) }
{
    laws::lists_are_joined();
    let mut states = States::fresh();
    for run in runs {
        put_number(encoder, table, &mut states, (*run - 1) as u32)?;
    }
    Ok(())
}

// A number without a sign.
fn put_number(
    encoder: &mut Encoder,
    table: &Table,
    states: &mut States,
    value: u32,
) -> Result<(), NoMemory>
    requires live { AreLive table.now states.old }
    requires few { value < 2 ^ 31 }
    ensures ok { OnOk result (Puts table.now encoder.old states.old encoder.new states.new (unsigned_choices value)) }
    ensures live { AreLive table.now states.new }
{
    put_symbol(encoder, table, states, value as i32, false)
}
