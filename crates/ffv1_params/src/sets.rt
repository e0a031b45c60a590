// Sets of quantization tables, read one after another.

ghost use Rattle.std.specs.Prelude.{◌≡◌, ◌≤◌, length, IfOk, All};
ghost use Rattle.ffv1_params.specs.QuantTables.{IsTable, TellsContexts, context_count};
ghost use Rattle.ffv1_params.specs.Reading as reading;
ghost use Rattle.ffv1_params.specs.Walk.{Answers, items_of};

use crate::ParamsWhy;
use crate::quantization::TableSet;
use crate::walk::FieldReader;
use cook_bits::Bytes;
use std::alloc::Global;

/// The tables of a set.
const TABLES: u32 = 5;

/// The most contexts of a set.
const MOST_CONTEXTS: u64 = 32_768;

/// So many sets.
#[tactic(auto, using(crate::proofs::RepeatLaws::repeat_laws), unfolding(crate::specs::Walk::Fails))]
pub(crate) fn sets_of(
    alloc: Global,
    fields: &mut FieldReader<'_>,
    count: u32,
) -> Result<Vec<TableSet>, ParamsWhy>
    ensures answers { Answers fields.old fields.new (items_of result) (reading.repeated count reading.table_set) }
    ensures count { IfOk result (λ sets. length sets.items ≡ count) }
    ensures tell { IfOk result (λ sets. All TellsContexts sets.items) }
{
    let mut sets = Vec::new(alloc);
    for _ in 0..count {
        sets.push(read_set(alloc, fields)?)?;
    }
    Ok(sets)
}

#[tactic(auto, using(crate::proofs::WalkLaws::walk_laws), unfolding(crate::specs::Reading::table_set, crate::specs::Walk::Fails))]
fn read_set(alloc: Global, fields: &mut FieldReader<'_>) -> Result<TableSet, ParamsWhy>
    ensures answers { Answers fields.old fields.new result reading.table_set }
    ensures tell { IfOk result TellsContexts }
{
    let tables = tables_of(alloc, fields)?;
    if contexts_of(tables.as_slice()) > MOST_CONTEXTS {
        return Err(ParamsWhy::Contexts);
    }
    Ok(TableSet::of_runs(alloc, tables.as_slice())?)
}

// The five tables of a set.
#[tactic(auto, using(crate::proofs::RepeatLaws::repeat_laws), unfolding(crate::specs::Walk::Fails))]
fn tables_of(alloc: Global, fields: &mut FieldReader<'_>) -> Result<Vec<Bytes>, ParamsWhy>
    ensures answers { Answers fields.old fields.new (items_of result) (reading.repeated 5 reading.table) }
    ensures five { IfOk result (λ tables. length tables.items ≡ 5) }
    ensures tables { IfOk result (λ tables. All IsTable tables.items) }
{
    let mut tables = Vec::new(alloc);
    for _ in 0..TABLES {
        tables.push(fields.table(alloc)?)?;
    }
    Ok(tables)
}

// The contexts that the tables tell apart.
fn contexts_of(tables: &[Bytes]) -> u64
    requires five { length tables.now ≡ 5 }
    requires tables { All IsTable tables.now }
    ensures { result ≡ context_count tables.now }
{
    let mut scale = 1;
    for runs in tables {
        let runs = runs.as_slice();
        scale *= 2 * runs.len() as u64 - 1;
    }
    (scale + 1) / 2
}
