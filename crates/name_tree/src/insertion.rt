// Where a name would stand in a tree, why it is refused, and its places.
ghost use Rattle.std.specs.Prelude.{◌≡◌, ℕ, List, true, false, ◌+◌, ◌<◌, ◌≤◌, ◌^◌, ◌∷◌, [], ◌++◌, length, take, vec_len, IfOk, OnOk, OnErr, Some, None};
ghost use Rattle.cook_bits.specs.Names.{is_relative_name};
ghost use Rattle.name_tree.specs.Held.{Answers, refusal_of, is_among};
ghost use Rattle.name_tree.specs.Tree.{IsTree};
ghost use Rattle.name_tree.specs.Nodes.{node_at, links_of, AreKeyed, AreNodes, IsNameTree, given_of};
ghost use Rattle.name_tree.specs.Searching.{IsChildOrNone, IsFound, IsOnWay, IsEnd, IsDeepest, IsFree};

use crate::NameError;
use crate::node::{Node, ROOT, hang, node_at};
use crate::search::{Spot, child, deepest, end_of_piece};
use crate::texts::Texts;

// one more than a relative name has at most
const SLASHED_BYTES: usize = 1025;

// Writes the text and a slash.
fn write_slashed(buffer: &mut [u8], text: &[u8])
    requires { length text.now < length buffer.old }
    ensures { take (length text.now + 1) buffer.new ≡ text.now ++ 47 ∷ [] }
{
    buffer[..text.len()].copy_from_slice(text);
    buffer[text.len()] = b'/';
}

// The child that is a folder of this name, or 0.
fn folder_named(nodes: &[Node], names: &Texts, parent: u32, near: u32, name: &[u8]) -> u32
    requires short { length name.now ≤ 1024 }
    requires tree { IsTree (length nodes.now) (links_of names.now nodes.now) }
    requires keyed { AreKeyed names.now nodes.now }
    requires parent { parent < length nodes.now }
    requires near { IsChildOrNone nodes.now parent near }
    ensures found { 0 < result → IsFound names.now nodes.now parent (name.now ++ 47 ∷ []) result }
    ensures absent { result ≡ 0 → (j : ℕ) → 0 < j → IsFound names.now nodes.now parent (name.now ++ 47 ∷ []) j → ⊥ }
{
    let mut slashed = [0; SLASHED_BYTES];
    write_slashed(&mut slashed, name);
    child(nodes, names, parent, near, &slashed[..name.len() + 1]).found
}

// Behind which child the next folder of the name may be added.
fn free_for_folder(
    nodes: &[Node],
    names: &Texts,
    spot: Spot,
    name: &[u8],
    end: usize,
) -> Result<u32, NameError>
    requires nodes { AreNodes names.now nodes.now }
    requires relative { is_relative_name name.now ≡ true }
    requires way { IsOnWay names.now nodes.now name.now spot.parent }
    requires near { IsChildOrNone nodes.now spot.parent spot.near }
    requires deepest { IsDeepest names.now nodes.now name.now spot.parent }
    requires end { IsEnd name.now (node_at nodes.now spot.parent).len (Some end) }
    ensures free { IfOk result (λ before. IsFree names.now nodes.now name.now spot.parent before) }
    ensures near { IfOk result (λ before. IsChildOrNone nodes.now spot.parent before) }
    ensures answer { Answers result (refusal_of names.now name.now) }
{
    let file = child(nodes, names, spot.parent, spot.near, &name[..end - 1]);
    if file.found != 0 {
        return Err(NameError::UnderFile);
    }
    let folder = child(nodes, names, spot.parent, file.before, &name[..end]);
    Ok(folder.before)
}

// Behind which child the file of the name may be added.
fn free_for_file(nodes: &[Node], names: &Texts, spot: Spot, name: &[u8]) -> Result<u32, NameError>
    requires nodes { AreNodes names.now nodes.now }
    requires relative { is_relative_name name.now ≡ true }
    requires short { length name.now ≤ 1024 }
    requires way { IsOnWay names.now nodes.now name.now spot.parent }
    requires near { IsChildOrNone nodes.now spot.parent spot.near }
    requires deepest { IsDeepest names.now nodes.now name.now spot.parent }
    requires end { IsEnd name.now (node_at nodes.now spot.parent).len None }
    ensures free { IfOk result (λ before. IsFree names.now nodes.now name.now spot.parent before) }
    ensures near { IfOk result (λ before. IsChildOrNone nodes.now spot.parent before) }
    ensures answer { Answers result (refusal_of names.now name.now) }
{
    let file = child(nodes, names, spot.parent, spot.near, name);
    if file.found != 0 {
        return Err(NameError::Exists);
    }
    let folder = folder_named(nodes, names, spot.parent, file.before, name);
    if folder != 0 {
        return Err(NameError::OverFolder);
    }
    Ok(file.before)
}

/// Behind which child of the deepest folder the name may be added, or why it is refused.
pub(crate) fn free_place(
    nodes: &[Node],
    names: &Texts,
    spot: Spot,
    name: &[u8],
) -> Result<u32, NameError>
    requires nodes { AreNodes names.now nodes.now }
    requires relative { is_relative_name name.now ≡ true }
    requires short { length name.now ≤ 1024 }
    requires way { IsOnWay names.now nodes.now name.now spot.parent }
    requires near { IsChildOrNone nodes.now spot.parent spot.near }
    requires deepest { IsDeepest names.now nodes.now name.now spot.parent }
    ensures free { IfOk result (λ before. IsFree names.now nodes.now name.now spot.parent before) }
    ensures near { IfOk result (λ before. IsChildOrNone nodes.now spot.parent before) }
    ensures answer { Answers result (refusal_of names.now name.now) }
{
    match end_of_piece(name, node_at(nodes, spot.parent).len as usize) {
        Some(end) => free_for_folder(nodes, names, spot, name, end),
        None => free_for_file(nodes, names, spot, name),
    }
}

/// Adds the name under the folder, behind the child `before`, and tells the place of its file. After a refusal, which is
/// for want of memory, all is as before.
pub(crate) fn add(
    nodes: &mut Vec<Node>,
    names: &mut Texts,
    parent: u32,
    before: u32,
    name: &[u8],
) -> Result<u32, NameError>
    requires nodes { AreNodes names.old nodes.old.items }
    requires relative { is_relative_name name.now ≡ true }
    requires short { length name.now ≤ 1024 }
    requires way { IsOnWay names.old nodes.old.items name.now parent }
    requires near { IsChildOrNone nodes.old.items parent before }
    requires free { IsFree names.old nodes.old.items name.now parent before }
    ensures nodes { OnOk result (AreNodes names.new nodes.new.items) }
    ensures within { IfOk result (λ at. at < vec_len nodes.new) }
    ensures names { OnOk result (names.new ≡ names.old ++ name.now ∷ []) }
    ensures given { OnOk result (given_of names.new nodes.new.items ≡ given_of names.old nodes.old.items) }
    ensures err { OnErr result ((names.new ≡ names.old) × (nodes.new.items ≡ nodes.old.items)) }
    ensures memory { Answers result None }
{
    let number = names.len();
    if number > u32::MAX as usize {
        return Err(NameError::NoMemory);
    }
    if nodes.len() + name.len() > u32::MAX as usize {
        return Err(NameError::NoMemory);
    }
    nodes.reserve(name.len())?;
    names.push(name)?;
    let mut parent = parent;
    let mut before = before;
    let mut start = node_at(nodes, parent).len as usize;
    while let Some(end) = end_of_piece(name, start) {
        parent = hang(nodes, parent, before, number as u32, end as u16);
        before = 0;
        start = end;
    }
    Ok(hang(nodes, parent, before, number as u32, name.len() as u16))
}

// The places with the root at least.
fn rooted(nodes: &mut Vec<Node>) -> Result<(), NameError>
    ensures nodes { (names : List (List ℕ)) → AreNodes names nodes.old.items → AreNodes names nodes.new.items }
    ensures given { (names : List (List ℕ)) → given_of names nodes.new.items ≡ given_of names nodes.old.items }
    ensures some { OnOk result (0 < vec_len nodes.new) }
    ensures longer { vec_len nodes.old ≤ vec_len nodes.new }
    ensures memory { Answers result None }
{
    if !nodes.is_empty() {
        return Ok(());
    }
    nodes.reserve(1)?;
    match nodes.push(ROOT) {
        Ok(()) => Ok(()),
        Err(_) => unreachable!(),
    }
}

/// Adds the relative name, and tells the place of its file. After a refusal the names are as before.
pub(crate) fn insert(
    nodes: &mut Vec<Node>,
    names: &mut Texts,
    last: u32,
    name: &[u8],
) -> Result<u32, NameError>
    requires tree { IsNameTree names.old nodes.old.items last }
    requires relative { is_relative_name name.now ≡ true }
    requires short { length name.now ≤ 1024 }
    ensures tree { IfOk result (λ at. IsNameTree names.new nodes.new.items at) }
    ensures kept { OnErr result (IsNameTree names.new nodes.new.items last) }
    ensures answer { Answers result (refusal_of names.old name.now) }
    ensures ok { OnOk result (names.new ≡ names.old ++ name.now ∷ []) }
    ensures held { OnOk result (is_among names.new name.now ≡ true) }
    ensures err { OnErr result (names.new ≡ names.old) }
    ensures given { given_of names.new nodes.new.items ≡ given_of names.old nodes.old.items }
{
    rooted(nodes)?;
    let spot = deepest(nodes, names, last, name);
    let before = free_place(nodes, names, spot, name)?;
    let at = add(nodes, names, spot.parent, before, name)?;
    Ok(at)
}
