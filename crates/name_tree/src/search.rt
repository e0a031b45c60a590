// Searches among the places of a tree.
ghost use Rattle.std.specs.Prelude.{◌≡◌, ◌≢◌, ℕ, true, false, ◌+◌, ◌-◌, ◌<◌, ◌≤◌, ◌^◌, ◌⊎◌, List, [], ◌∷◌, ◌++◌, length, take, drop};
ghost use Rattle.name_tree.specs.Tree.{Below, AtMost, IsTree, IsFolderKey};
ghost use Rattle.name_tree.specs.Nodes.{node_at, key_at, links_of, after_of, AreKeyed, AreNodes};
ghost use Rattle.name_tree.specs.Searching.{IsChildOrNone, IsBefore, IsPlace, IsFound, IsOnWay, IsEnd, IsDeepest};

use crate::node::{Node, after, node_at};
use crate::texts::Texts;

#[inline]
#[tactic(auto, unfolding(crate::specs::Nodes::key_at))]
pub(crate) fn key<'a>(nodes: &[Node], names: &'a Texts, at: u32) -> &'a [u8]
    requires some { 0 < at }
    requires within { at < length nodes.now }
    requires keyed { AreKeyed names.now nodes.now }
    ensures { result.now ≡ key_at names.now nodes.now at }
{
    let node = node_at(nodes, at);
    &names.get(node.name as usize)[..node.len as usize]
}

fn is_below(nodes: &[Node], names: &Texts, at: u32, target: &[u8]) -> bool
    requires some { 0 < at }
    requires within { at < length nodes.now }
    requires keyed { AreKeyed names.now nodes.now }
    ensures yes { result ≡ true → Below (key_at names.now nodes.now at) target.now }
    ensures no { result ≡ false → AtMost target.now (key_at names.now nodes.now at) }
{
    key(nodes, names, at).cmp(target).is_lt()
}

// The last child of the parent whose key is below the target, or 0, looked for from `from` on, which is one of them or 0.
fn place(nodes: &[Node], names: &Texts, parent: u32, from: u32, target: &[u8]) -> u32
    requires tree { IsTree (length nodes.now) (links_of names.now nodes.now) }
    requires keyed { AreKeyed names.now nodes.now }
    requires parent { parent < length nodes.now }
    requires from { IsBefore names.now nodes.now parent target.now from }
    ensures { IsPlace names.now nodes.now parent target.now result }
{
    let mut before = from;
    loop {
        let next = after(nodes, parent, before);
        if next == 0 {
            return before;
        }
        if !is_below(nodes, names, next, target) {
            return before;
        }
        before = next;
    }
}

/// Where a key stands, or would stand, among the children of a folder.
#[derive(Clone, Copy, Debug, Drop)]
pub(crate) struct Position {
    /// The last child below the key, or 0.
    pub(crate) before: u32,
    /// The child with the key, or 0.
    pub(crate) found: u32,
}

// The child near to which the search begins, if its key is below the target.
fn start(nodes: &[Node], names: &Texts, parent: u32, near: u32, target: &[u8]) -> u32
    requires keyed { AreKeyed names.now nodes.now }
    requires near { IsChildOrNone nodes.now parent near }
    ensures { IsBefore names.now nodes.now parent target.now result }
{
    if near == 0 {
        return 0;
    }
    if is_below(nodes, names, near, target) {
        near
    } else {
        0
    }
}

// The place, if it has the key, else 0.
fn matching(nodes: &[Node], names: &Texts, at: u32, target: &[u8]) -> u32
    requires within { at < length nodes.now }
    requires keyed { AreKeyed names.now nodes.now }
    ensures some { 0 < result → (result ≡ at) × (key_at names.now nodes.now result ≡ target.now) }
    ensures none { result ≡ 0 → 0 < at → key_at names.now nodes.now at ≢ target.now }
{
    if at == 0 {
        return 0;
    }
    if key(nodes, names, at) == target {
        at
    } else {
        0
    }
}

/// Looks for a key among the children of the parent, from the child `near` on where its key is below, else from the first.
pub(crate) fn child(
    nodes: &[Node],
    names: &Texts,
    parent: u32,
    near: u32,
    target: &[u8],
) -> Position
    requires tree { IsTree (length nodes.now) (links_of names.now nodes.now) }
    requires keyed { AreKeyed names.now nodes.now }
    requires parent { parent < length nodes.now }
    requires near { IsChildOrNone nodes.now parent near }
    ensures place { IsPlace names.now nodes.now parent target.now result.before }
    ensures found { 0 < result.found → IsFound names.now nodes.now parent target.now result.found }
    ensures absent { result.found ≡ 0 → (j : ℕ) → 0 < j → IsFound names.now nodes.now parent target.now j → ⊥ }
{
    let from = start(nodes, names, parent, near, target);
    let before = place(nodes, names, parent, from, target);
    let next = after(nodes, parent, before);
    let found = matching(nodes, names, next, target);
    Position { before, found }
}

// How many bytes both begin with.
fn shared(left: &[u8], right: &[u8]) -> usize
    ensures within { result ≤ length left.now }
    ensures same { take result left.now ≡ take result right.now }
{
    let mut count = 0;
    while count < left.len() && count < right.len() && left[count] == right[count] {
        count += 1;
    }
    count
}

/// The end of the first piece behind `start`: just behind its slash, or none where no slash is left.
pub(crate) fn end_of_piece(name: &[u8], start: usize) -> Option<usize>
    requires { start ≤ length name.now }
    ensures { IsEnd name.now start result }
{
    let mut end = start;
    while end < name.len() {
        if name[end] == b'/' {
            return Some(end + 1);
        }
        end += 1;
    }
    None
}

/// A folder, and one of its children from which a search may begin, or 0.
#[derive(Clone, Copy, Debug, Drop)]
pub(crate) struct Spot {
    pub(crate) parent: u32,
    pub(crate) near: u32,
}

// The deepest folder of the name among the folders of the place `last`, which ends the name of a file or is 0.
pub(crate) fn climbed(nodes: &[Node], names: &Texts, last: u32, name: &[u8]) -> Spot
    requires nodes { AreNodes names.now nodes.now }
    requires within { last < length nodes.now }
    ensures way { IsOnWay names.now nodes.now name.now result.parent }
    ensures near { IsChildOrNone nodes.now result.parent result.near }
{
    if last == 0 {
        return Spot { parent: 0, near: 0 };
    }
    let shared = shared(key(nodes, names, last), name);
    let mut near = last;
    let mut parent = node_at(nodes, last).parent;
    while node_at(nodes, parent).len as usize > shared {
        near = parent;
        parent = node_at(nodes, parent).parent;
    }
    Spot { parent, near }
}

/// The deepest folder of the name in the tree.
pub(crate) fn deepest(nodes: &[Node], names: &Texts, last: u32, name: &[u8]) -> Spot
    requires nodes { AreNodes names.now nodes.now }
    requires within { last < length nodes.now }
    ensures way { IsOnWay names.now nodes.now name.now result.parent }
    ensures near { IsChildOrNone nodes.now result.parent result.near }
    ensures deepest { IsDeepest names.now nodes.now name.now result.parent }
{
    let mut spot = climbed(nodes, names, last, name);
    while let Some(end) = end_of_piece(name, node_at(nodes, spot.parent).len as usize) {
        let position = child(nodes, names, spot.parent, spot.near, &name[..end]);
        if position.found == 0 {
            return spot;
        }
        spot = Spot {
            parent: position.found,
            near: 0,
        };
    }
    spot
}
