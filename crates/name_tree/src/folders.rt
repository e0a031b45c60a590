// The folders of a name, given one after another, the shorter first.
ghost use Rattle.std.specs.Prelude.{◌≡◌, ℕ, true, ◌++◌, ◌<◌, length, vec_len};
ghost use Rattle.std.specs.Option.{option_map};
ghost use Rattle.name_tree.specs.Held.{is_among, folder_left, WithFolder};
ghost use Rattle.name_tree.specs.Tree.{IsTree};
ghost use Rattle.name_tree.specs.Nodes.{node_at, links_of, AreKeyed, AreNodes, given_of, with_given};
ghost use Rattle.name_tree.specs.Searching.{IsChildOrNone, IsFound, IsOnWay};
ghost use Rattle.name_tree.specs.Giving.{IsGivenTo, IsAhead};

use crate::node::{Node, node_at};
use crate::search::{Spot, child, climbed, end_of_piece, key};
use crate::texts::Texts;

// The child with the key, or 0: the child near to which the search begins, or one that is looked for.
fn child_named(nodes: &[Node], names: &Texts, parent: u32, near: u32, target: &[u8]) -> u32
    requires tree { IsTree (length nodes.now) (links_of names.now nodes.now) }
    requires keyed { AreKeyed names.now nodes.now }
    requires parent { parent < length nodes.now }
    requires near { IsChildOrNone nodes.now parent near }
    ensures found { 0 < result → IsFound names.now nodes.now parent target.now result }
    ensures absent { result ≡ 0 → (j : ℕ) → 0 < j → IsFound names.now nodes.now parent target.now j → ⊥ }
{
    if near != 0 {
        if key(nodes, names, near) == target {
            return near;
        }
    }
    child(nodes, names, parent, near, target).found
}

// The deepest folder of the name, or the root, that was given, among those of the place `last`.
fn given_folder(nodes: &[Node], names: &Texts, last: u32, name: &[u8]) -> Spot
    requires nodes { AreNodes names.now nodes.now }
    requires within { last < length nodes.now }
    ensures way { IsOnWay names.now nodes.now name.now result.parent }
    ensures near { IsChildOrNone nodes.now result.parent result.near }
    ensures given { IsGivenTo nodes.now result.parent }
{
    let mut spot = climbed(nodes, names, last, name);
    'up: while spot.parent != 0 {
        let node = node_at(nodes, spot.parent);
        if node.given {
            return spot;
        }
        spot = Spot {
            parent: node.parent,
            near: spot.parent,
        };
    }
    spot
}

/// The place of the next folder and the length of its name, or none, and the place of the last one.
#[derive(Clone, Copy, Debug, Drop)]
pub(crate) struct Ahead {
    pub(crate) place: u32,
    pub(crate) len: Option<usize>,
}

// The shortest folder of the name that was not given.
fn find_ahead(nodes: &[Node], names: &Texts, last: u32, name: &[u8]) -> Ahead
    requires nodes { AreNodes names.now nodes.now }
    requires within { last < length nodes.now }
    requires held { is_among names.now name.now ≡ true }
    ensures within { result.place < length nodes.now }
    ensures ahead { IsAhead names.now nodes.now name.now result.place result.len }
{
    let mut spot = given_folder(nodes, names, last, name);
    'down: while let Some(end) = end_of_piece(name, node_at(nodes, spot.parent).len as usize) {
        let found = child_named(nodes, names, spot.parent, spot.near, &name[..end]);
        let node = node_at(nodes, found);
        if !node.given {
            return Ahead {
                place: found,
                len: Some(end - 1),
            };
        }
        spot = Spot {
            parent: found,
            near: 0,
        };
    }
    Ahead {
        place: spot.parent,
        len: None,
    }
}

fn mark(nodes: &mut [Node], at: u32)
    requires { at < length nodes.old }
    ensures { nodes.new ≡ with_given nodes.old at }
{
    let mut node = node_at(nodes, at);
    node.given = true;
    nodes[at as usize] = node;
}

/// Counts the shortest folder of the name that was not given as given, and tells it.
pub(crate) fn give(nodes: &mut Vec<Node>, names: &Texts, last: u32, name: &[u8]) -> Ahead
    requires nodes { AreNodes names.now nodes.old.items }
    requires within { 0 < last → last < length nodes.old.items }
    requires held { is_among names.now name.now ≡ true }
    ensures nodes { AreNodes names.now nodes.new.items }
    ensures within { result.place < length nodes.new.items }
    ensures len { result.len ≡ option_map length (folder_left (given_of names.now nodes.old.items) name.now) }
    ensures given { let before = given_of names.now nodes.old.items in
        WithFolder before (given_of names.now nodes.new.items) (folder_left before name.now) }
{
    let ahead = find_ahead(nodes, names, last, name);
    match ahead.len {
        None => ahead,
        Some(_) => {
            mark(nodes, ahead.place);
            ahead
        }
    }
}
