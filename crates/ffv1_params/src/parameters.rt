ghost use Rattle.std.specs.Prelude.{◌≡◌, ◌↔◌, ℕ, ◌*◌, ◌≤◌, All, ◌<◌, [], ◌∷◌, ◌++◌, length, IfOk, OnOk, IsTrue, pos, unsigned_abs};
ghost use Rattle.std.specs.Int.{int_rem_euclid};
ghost use Rattle.range_coder.specs.DefaultTable.{default_one_states};
ghost use Rattle.range_coder.specs.Table.{IsLive, IsClosed};
ghost use Rattle.ffv1_params.specs.Parameters.{AreFilm, AreSound, IsPicture, is_depth, set_at, film_params, film_rows, film_tables};
ghost use Rattle.ffv1_params.specs.QuantTables.{TellsContexts, AreFlat, quant_at, set_of, most_contexts};

use crate::quantization::TableSet;
use cook_bits::{Bytes, NoMemory};
use range_coder::{Table, laws};
use std::alloc::Global;
use std::marker::Model;

/// The parameters of a stream of FFV1 frames (RFC 9043, section 4.2, "Parameters").
#[derive(Drop)]
pub struct Params {
    bits: u8,
    columns: u32,
    rows: u32,
    ec: bool,
    table: Table,
    sets: Vec<TableSet>,
}

impl Model for Params {
    ghost use Rattle.ffv1_params.specs.Parameters.{Parameters, AreSound};

    ghost Value = { Parameters };

    ghost view = { λ p. record { bits = p.bits; columns = p.columns; rows = p.rows; ec = p.ec; table = p.table; sets = p.sets.items } };

    ghost invariant = { λ p. AreSound (record { bits = p.bits; columns = p.columns; rows = p.rows; ec = p.ec; table = p.table; sets = p.sets.items }) };
}

impl Params {
    /// The parameters that this project writes for pictures of this size: slices of one column, each of
    /// few enough lines for its bytes to be counted in 24 bits, one set of quantization tables, and
    /// slices with a parity. The bits of a sample are 8, 10, 12 or 16.
    #[tactic(auto, using(crate::proofs::RowLaws::row_laws), unfolding(crate::specs::Parameters::film_params))]
    pub fn film(alloc: Global, bits: u8, width: u32, height: u32) -> Result<Params, NoMemory>
        requires depth { IsTrue (is_depth bits) }
        requires picture { IsPicture width height }
        ensures params { IfOk result (λ p. p ≡ film_params bits (film_rows width height)) }
        ensures film { IfOk result AreFilm }
    {
        let mut sets = Vec::new(alloc);
        sets.push(film_set(alloc)?)?;
        Ok(Params {
            bits,
            columns: 1,
            rows: rows_of(width, height),
            ec: true,
            table: Table::default_table(),
            sets,
        })
    }

    // The parameters of these values, which slices code with the default table.
    pub(crate) fn of(bits: u8, columns: u32, rows: u32, ec: bool, sets: Vec<TableSet>) -> Params
        requires depth { IsTrue (is_depth bits) }
        requires columns { 1 ≤ columns }
        requires rows { 1 ≤ rows }
        requires slices { columns * rows ≤ 1024 }
        requires some { 1 ≤ length sets.items }
        requires most { length sets.items ≤ 8 }
        requires tell { All TellsContexts sets.items }
        ensures { result ≡ record { bits = bits; columns = columns; rows = rows; ec = ec; table = default_one_states; sets = sets.items } }
    {
        Params {
            bits,
            columns,
            rows,
            ec,
            table: Table::default_table(),
            sets,
        }
    }

    /// The bits of a sample: 8, 10, 12 or 16.
    pub fn bits(&self) -> u8
        ensures bits { result ≡ self.now.bits }
        ensures sound { AreSound self.now }
    {
        self.bits
    }

    /// The columns of the grid of slices.
    pub fn columns(&self) -> u32
        ensures columns { result ≡ self.now.columns }
        ensures sound { AreSound self.now }
    {
        self.columns
    }

    /// The rows of the grid of slices.
    pub fn rows(&self) -> u32
        ensures rows { result ≡ self.now.rows }
        ensures sound { AreSound self.now }
    {
        self.rows
    }

    /// The sets of quantization tables, 1 to 8.
    pub fn sets(&self) -> u32
        ensures count { result ≡ length self.now.sets }
        ensures sound { AreSound self.now }
    {
        self.sets.len() as u32
    }

    /// The contexts that a set tells apart, 1 to 32,768: the sum of one value of each of its five tables
    /// is below that and above its negative.
    pub fn contexts(&self, set: u32) -> u32
        requires { set < length self.now.sets }
        ensures count { result ≡ (set_at self.now set).contexts }
        ensures tell { TellsContexts (set_at self.now set) }
    {
        self.sets[set as usize].contexts()
    }

    /// Whether each slice has a parity.
    pub fn ec(&self) -> bool
        ensures ec { result ≡ self.now.ec }
        ensures sound { AreSound self.now }
    {
        self.ec
    }

    /// The most contexts that one of the sets tells apart, 1 to 32,768.
    pub fn most_contexts(&self) -> u32
        ensures most { result ≡ most_contexts self.now.sets }
        ensures each { (set : ℕ) → set < length self.now.sets → (set_at self.now set).contexts ≤ result }
        ensures some { 1 ≤ result }
        ensures few { result ≤ 32768 }
    {
        most_of(self.sets.as_slice())
    }

    /// How the states of a slice are adapted: by a table that is closed, and for which 8 to 248 are live.
    pub fn table(&self) -> &Table
        ensures table { result.now ≡ self.now.table }
        ensures sound { AreSound self.now }
        ensures closed { IsClosed self.now.table }
        ensures live { (state : ℕ) → 8 ≤ state → state ≤ 248 → IsLive self.now.table state }
    {
        laws::default_table_is_live();
        &self.table
    }

    /// The values of a set: those of its five tables, one behind another, for each difference modulo 256.
    #[inline(always)]
    pub fn values(&self, set: u32) -> &[i16]
        requires { set < length self.now.sets }
        ensures values { result.now ≡ (set_at self.now set).values }
        ensures tell { TellsContexts (set_at self.now set) }
    {
        self.sets[set as usize].values()
    }

    /// Whether the last two of the five tables of a set have no value but 0, so that they may be left out of sums.
    #[inline(always)]
    pub fn is_flat(&self, set: u32) -> bool
        requires { set < length self.now.sets }
        ensures { IsTrue result ↔ AreFlat (set_at self.now set).values }
    {
        self.sets[set as usize].is_flat()
    }

    /// The value of a difference, taken modulo 256, in one of the five tables of a set.
    #[inline(always)]
    pub fn quant(&self, set: u32, table: u32, difference: i32) -> i32
        requires set { set < length self.now.sets }
        requires table { table < 5 }
        ensures { result ≡ quant_at (set_at self.now set) table (unsigned_abs (int_rem_euclid difference (pos 256))) }
    {
        self.sets[set as usize].quant(table, difference)
    }
}

// The most contexts that one of the sets tells apart.
fn most_of(sets: &[TableSet]) -> u32
    requires some { 1 ≤ length sets.now }
    requires tell { All TellsContexts sets.now }
    ensures most { result ≡ most_contexts sets.now }
    ensures few { result ≤ 32768 }
{
    let mut most = 0;
    for set in sets {
        let contexts = set.contexts();
        if contexts > most {
            most = contexts;
        }
    }
    most
}

// The most bytes of a slice that the lines are counted for, and the bytes for a sample.
const SLICE_BYTES: u32 = 16_000_000;

const SAMPLE_BYTES: u32 = 35;

#[tactic(auto, unfolding(crate::specs::Parameters::film_rows))]
fn rows_of(width: u32, height: u32) -> u32
    requires { IsPicture width height }
    ensures rows { result ≡ film_rows width height }
    ensures some { 1 ≤ result }
    ensures few { result ≤ 1024 }
{
    let lines = SLICE_BYTES / (SAMPLE_BYTES * width * 3);
    (height + (lines - 1)) / lines
}

// The runs of the writer's tables: three that grow in steps, and two that are flat.
pub(crate) const STEPPED: [u8; 5] = [1, 2, 5, 16, 104];

pub(crate) const FLAT: [u8; 1] = [128];

fn film_set(alloc: Global) -> Result<TableSet, NoMemory>
    ensures { IfOk result (λ set. set ≡ set_of film_tables) }
{
    let mut tables = Vec::new(alloc);
    push_runs(alloc, &mut tables, &STEPPED)?;
    push_runs(alloc, &mut tables, &STEPPED)?;
    push_runs(alloc, &mut tables, &STEPPED)?;
    push_runs(alloc, &mut tables, &FLAT)?;
    push_runs(alloc, &mut tables, &FLAT)?;
    TableSet::of_runs(alloc, tables.as_slice())
}

fn push_runs(alloc: Global, tables: &mut Vec<Bytes>, runs: &[u8]) -> Result<(), NoMemory>
    ensures { OnOk result (tables.new.items ≡ tables.old.items ++ runs.now ∷ []) }
{
    tables.push(Bytes::copy(alloc, runs)?)?;
    Ok(())
}
