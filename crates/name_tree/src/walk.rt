ghost use Rattle.std.specs.Prelude.{◌≡◌, ℕ, List, ◌<◌, length};
ghost use Rattle.std.specs.Iterator.{YieldsFirst, item_count};
ghost use Rattle.name_tree.specs.Held.{walk_of};
ghost use Rattle.name_tree.specs.Tree.{IsFolderKey};
ghost use Rattle.name_tree.specs.Nodes.{node_at, key_at, AreLinked, AreNodes};
ghost use Rattle.name_tree.specs.Walking.{IsFirst, IsNextFile};

use crate::node::{Node, node_at};
use crate::texts::Texts;
use std::marker::Model;

/// A walk over the names in byte order. It gives the numbers of their insertion; contracts see those that are left.
#[derive(Drop)]
pub struct Walk<'a> {
    names: &'a Texts,
    nodes: &'a [Node],
    // the place that comes next, or 0
    at: u32,
}

impl<'a> Model for Walk<'a> {
    ghost use Rattle.std.specs.Prelude.{List, ℕ};

    ghost Value = { List ℕ };

    ghost use Rattle.name_tree.specs.Walking.{left_of, IsWalk};

    ghost view = { λ w. left_of w.names.now w.nodes.now w.at };

    ghost invariant = { λ w. IsWalk w.names.now w.nodes.now w.at };
}

// The first file at a place or below it; the root, 0, where it has no children.
fn first_file(nodes: &[Node], at: u32) -> u32
    requires linked { AreLinked nodes.now }
    requires within { at < length nodes.now }
    ensures first { (names : List (List ℕ)) → AreNodes names nodes.now → IsFirst names nodes.now at result }
    ensures within { result < length nodes.now }
    ensures end { (node_at nodes.now result).first_child ≡ 0 }
{
    let mut place = at;
    'down: loop {
        let first = node_at(nodes, place).first_child;
        if first == 0 {
            return place;
        }
        place = first;
    }
}

// The file behind a file, or 0.
fn next_file(nodes: &[Node], at: u32) -> u32
    requires linked { AreLinked nodes.now }
    requires within { at < length nodes.now }
    ensures { (names : List (List ℕ)) → AreNodes names nodes.now → (IsFolderKey (key_at names nodes.now at) → ⊥)
        → IsNextFile names nodes.now at result }
{
    let mut place = at;
    'up: while place != 0 {
        let node = node_at(nodes, place);
        if node.next_sibling != 0 {
            return first_file(nodes, node.next_sibling);
        }
        place = node.parent;
    }
    0
}

impl<'a> Iterator for Walk<'a> {
    type Item = usize;

    ghost next_gives = { YieldsFirst (λ w. w) };

    ghost remaining = { item_count (λ w. w) };

    fn next(&mut self) -> Option<usize> {
        if self.at == 0 {
            return None;
        }
        let number = node_at(self.nodes, self.at).name;
        self.at = next_file(self.nodes, self.at);
        Some(number as usize)
    }
}

/// The walk over the places of a tree.
pub(crate) fn walk_over<'a>(names: &'a Texts, nodes: &'a [Node]) -> Walk<'a>
    requires { AreNodes names.now nodes.now }
    ensures { result ≡ walk_of names.now }
{
    if nodes.is_empty() {
        return Walk {
            names,
            nodes,
            at: 0,
        };
    }
    let at = first_file(nodes, 0);
    Walk { names, nodes, at }
}
