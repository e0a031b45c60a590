// The values of a record, read one after another.

ghost use Rattle.std.specs.Prelude.{◌≡◌, ◌*◌, ◌≤◌, ◌<◌, ◌^◌, ℕ, List, IfOk, IsTrue};
ghost use Rattle.range_coder.specs.Reading.{Begins};
ghost use Rattle.ffv1_params.specs.Reading.{start_place};
ghost use Rattle.range_coder.specs.Symbol.{fresh_states};
ghost use Rattle.ffv1_params.specs.Parameters.{is_depth};
ghost use Rattle.ffv1_params.specs.QuantTables.{IsTable};
ghost use Rattle.ffv1_params.specs.Reading as reading;
ghost use Rattle.ffv1_params.specs.Walk.{Answers, Leads, IsAt, reader_at};
ghost use Rattle.ffv1_params.specs.declared.error.ParamsWhy.TheVariants.{Tables};

use crate::ParamsWhy;
use crate::runs::{bit_of, runs_of, symbol_of};
use cook_bits::Bytes;
use range_coder::{Decoder, States, Table};
use std::alloc::Global;
use std::marker::Model;

/// Reads the values of a record. Contracts see the reader and the shared states.
#[derive(Drop)]
pub(crate) struct FieldReader<'a> {
    decoder: Decoder<'a>,
    table: Table,
    states: States,
}

impl<'a> Model for FieldReader<'a> {
    ghost use Rattle.ffv1_params.specs.Walk.{ReaderAt};
    ghost use Rattle.ffv1_params.specs.Track.{AreUsable};

    ghost Value = { ReaderAt };

    ghost view = { λ w. record { reader = w.decoder; states = w.states } };

    ghost invariant = { λ w. AreUsable w.table w.states };
}

impl<'a> FieldReader<'a> {
    pub(crate) fn new(decoder: Decoder<'a>) -> FieldReader<'a>
        ensures walk { result ≡ reader_at decoder.entry fresh_states }
        ensures begins { (bytes : List ℕ) → Begins decoder.entry bytes → IsAt (reader_at decoder.entry fresh_states) bytes start_place }
    {
        FieldReader {
            decoder,
            table: Table::default_table(),
            states: States::fresh(),
        }
    }

    fn symbol(&mut self) -> Result<u32, ParamsWhy>
        ensures answers { Answers self.old self.new result reading.symbol }
        ensures few { IfOk result (λ n. n < 2 ^ 31) }
    {
        symbol_of(&mut self.decoder, &self.table, &mut self.states)
    }

    fn bit(&mut self) -> bool
        ensures { Leads self.old self.new reading.bit (reading.give result) }
    {
        bit_of(&mut self.decoder, &self.table, &mut self.states)
    }

    // A number that is refused outside these bounds.
    #[tactic(auto, using(crate::proofs::WalkLaws::walk_laws), unfolding(crate::specs::Reading::within))]
    fn within(&mut self, least: u32, most: u32, why: ParamsWhy) -> Result<u32, ParamsWhy>
        ensures answers { Answers self.old self.new result (reading.within least most why) }
        ensures least { IfOk result (λ n. least ≤ n) }
        ensures most { IfOk result (λ n. n ≤ most) }
    {
        let number = self.symbol()?;
        if number < least || number > most {
            return Err(why);
        }
        Ok(number)
    }

    // A bit that is refused where it is set.
    #[tactic(auto, using(crate::proofs::WalkLaws::walk_laws), unfolding(crate::specs::Reading::unset))]
    fn unset(&mut self, why: ParamsWhy) -> Result<(), ParamsWhy>
        ensures { Answers self.old self.new result (reading.unset why) }
    {
        if self.bit() {
            return Err(why);
        }
        Ok(())
    }

    /// The version, the micro version and the coder.
    #[tactic(auto, using(crate::proofs::WalkLaws::walk_laws), unfolding(crate::specs::Reading::version))]
    pub(crate) fn version(&mut self) -> Result<u32, ParamsWhy>
        ensures { Answers self.old self.new result reading.version }
    {
        self.within(3, 3, ParamsWhy::Version)?;
        self.within(4, 1 << 31, ParamsWhy::Version)?;
        self.within(1, 1, ParamsWhy::Coder)
    }

    // The bits of a sample, where 0 stands for 8.
    #[tactic(auto, using(crate::proofs::WalkLaws::walk_laws), unfolding(crate::specs::Reading::depth))]
    fn depth(&mut self) -> Result<u8, ParamsWhy>
        ensures answers { Answers self.old self.new result reading.depth }
        ensures depth { IfOk result (λ bits. IsTrue (is_depth bits)) }
    {
        match self.symbol()? {
            0 => Ok(8),
            8 => Ok(8),
            10 => Ok(10),
            12 => Ok(12),
            16 => Ok(16),
            _ => Err(ParamsWhy::Colour),
        }
    }

    /// The colour space, the bits of a sample, which it answers, the planes and the subsampling.
    #[tactic(auto, using(crate::proofs::WalkLaws::walk_laws), unfolding(crate::specs::Reading::colours))]
    pub(crate) fn colours(&mut self) -> Result<u8, ParamsWhy>
        ensures answers { Answers self.old self.new result reading.colours }
        ensures depth { IfOk result (λ bits. IsTrue (is_depth bits)) }
    {
        self.within(1, 1, ParamsWhy::Colour)?;
        let bits = self.depth()?;
        self.bit();
        self.within(0, 0, ParamsWhy::Colour)?;
        self.within(0, 0, ParamsWhy::Colour)?;
        self.unset(ParamsWhy::Colour)?;
        Ok(bits)
    }

    /// The columns and the rows of slices.
    #[tactic(auto, using(crate::proofs::WalkLaws::walk_laws), unfolding(crate::specs::Reading::grid))]
    pub(crate) fn grid(&mut self) -> Result<(u32, u32), ParamsWhy>
        ensures answers { Answers self.old self.new result reading.grid }
        ensures few { IfOk result (λ slices. slices.0 * slices.1 ≤ 1024) }
        ensures columns { IfOk result (λ slices. 1 ≤ slices.0) }
        ensures rows { IfOk result (λ slices. 1 ≤ slices.1) }
    {
        let columns = u64::from(self.symbol()?) + 1;
        let rows = u64::from(self.symbol()?) + 1;
        if columns * rows > 1024 {
            return Err(ParamsWhy::Grid);
        }
        Ok((columns as u32, rows as u32))
    }

    /// The number of sets.
    pub(crate) fn count(&mut self) -> Result<u32, ParamsWhy>
        ensures answers { Answers self.old self.new result (reading.within 1 8 Tables) }
        ensures least { IfOk result (λ count. 1 ≤ count) }
        ensures most { IfOk result (λ count. count ≤ 8) }
    {
        self.within(1, 8, ParamsWhy::Tables)
    }

    /// The lengths of the runs of a table.
    pub(crate) fn table(&mut self, alloc: Global) -> Result<Bytes, ParamsWhy>
        ensures answers { Answers self.old self.new result reading.table }
        ensures table { IfOk result IsTable }
    {
        runs_of(alloc, &mut self.decoder, &self.table)
    }

    // No initial states of as many sets.
    #[tactic(auto, using(crate::proofs::RepeatLaws::no_states_laws))]
    pub(crate) fn no_states(&mut self, count: u32) -> Result<(), ParamsWhy>
        ensures { Answers self.old self.new result (reading.no_states count) }
    {
        for _ in 0..count {
            self.unset(ParamsWhy::States)?;
        }
        Ok(())
    }

    /// Whether slices have a parity, and whether there are key frames alone, which doesn't matter.
    #[tactic(auto, using(crate::proofs::WalkLaws::walk_laws), unfolding(crate::specs::Reading::flags))]
    pub(crate) fn flags(&mut self) -> Result<bool, ParamsWhy>
        ensures { Answers self.old self.new result reading.flags }
    {
        let ec = self.within(0, 1, ParamsWhy::Ec)?;
        self.within(0, 1, ParamsWhy::Ec)?;
        Ok(ec == 1)
    }
}
