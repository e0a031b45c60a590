// The rule of names in side data: relative, ascending, none under one before.
ghost use Rattle.std.specs.Prelude.{◌≡◌, ◌<◌, ◌++◌, ◌∷◌, [], true, length, HoldsAt, IfNone, IfSome, IfOk};
ghost use Rattle.std.specs.List.Sorted.{IsSortedByKey};
ghost use Rattle.std.specs.Ordering.{nat_cmp};
ghost use Rattle.std.specs.Cmp.Lexicographic.{slice_cmp};
ghost use Rattle.reversal.specs.SideData.{names_of};
ghost use Rattle.reversal.specs.SideReading.{is_above_last, is_good_name, first_bad_name};

use crate::FileRecord;
use cook_bits::NoMemory;
use name_tree::laws::names_are_taken;
use name_tree::{NameError, NameTree};
use std::alloc::Global;

fn is_above_last(held: &[FileRecord], name: &str) -> bool
    ensures { result ≡ is_above_last (names_of held.now) name.now }
{
    match held {
        [] => true,
        [.., last] => last.name.as_str().cmp(name).is_lt(),
    }
}

// Whether the name is good behind those that are held, in records and in a tree. A good one is taken into the tree.
fn is_good_name(tree: &mut NameTree, held: &[FileRecord], name: &str) -> Result<bool, NoMemory>
    requires sorted { IsSortedByKey (λ r. r.name) (slice_cmp nat_cmp) held.now }
    requires names { tree.old.names ≡ names_of held.now }
    ensures good { IfOk result (λ good. good ≡ is_good_name (names_of held.now) name.now) }
    ensures taken { IfOk result (λ good. good ≡ true → tree.new.names ≡ names_of held.now ++ name.now ∷ []) }
{
    if !is_above_last(held, name) {
        return Ok(false);
    }
    names_are_taken();
    match tree.insert(name) {
        Ok(()) => Ok(true),
        Err(why) => match why {
            NameError::NoMemory => Err(NoMemory),
            _ => Ok(false),
        },
    }
}

/// The number of the first record whose name is refused, counted from 0.
pub(crate) fn first_bad_name(
    alloc: Global,
    records: &[FileRecord],
) -> Result<Option<usize>, NoMemory>
    ensures none { IfOk result (λ at. IfNone at (first_bad_name (names_of records.now) ≡ None)) }
    ensures some { IfOk result (λ at. IfSome at (HoldsAt (λ r. first_bad_name (names_of records.now) ≡ Some r.name) records.now)) }
    ensures within { IfOk result (λ at. IfSome at (λ at. at < length records.now)) }
{
    let mut tree = NameTree::new(alloc);
    for at in 0..records.len() {
        if !is_good_name(&mut tree, &records[..at], records[at].name.as_str())? {
            return Ok(Some(at));
        }
    }
    Ok(None)
}
