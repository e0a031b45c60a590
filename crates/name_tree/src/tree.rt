ghost use Rattle.std.specs.Prelude.{◌≡◌, ◌<◌, ◌++◌, ◌∷◌, [], true, length, IfSome, OnOk, OnErr};
ghost use Rattle.std.specs.Option.{option_map};
ghost use Rattle.name_tree.specs.Held.{Answers, refusal_of, walk_of, is_among, folder_left, left_count, WithFolder};

use crate::NameError;
use crate::folders::give;
use crate::insertion::insert;
use crate::node::Node;
use crate::texts::Texts;
use crate::walk::{Walk, walk_over};
use cook_bits::is_relative_name;
use std::alloc::Global;
use std::marker::Model;

/// The names of a directory's files. Contracts see the names in order of insertion, and the folders that were given.
#[derive(Drop)]
pub struct NameTree {
    names: Texts,
    // the places, the root first; none before the first name
    nodes: Vec<Node>,
    // a place from which the next search begins
    last: u32,
}

impl Model for NameTree {
    ghost use Rattle.name_tree.specs.Held.{Held};

    ghost Value = { Held };

    ghost use Rattle.name_tree.specs.Nodes.{given_of, IsNameTree};

    ghost view = { λ t. record { names = t.names; given = given_of t.names t.nodes.items } };

    ghost invariant = { λ t. IsNameTree t.names t.nodes.items t.last };
}

impl NameTree {
    /// A tree of no names. It takes no memory.
    pub fn new(alloc: Global) -> NameTree
        ensures { result ≡ record { names = []; given = [] } }
    {
        NameTree {
            names: Texts::new(alloc),
            nodes: Vec::new(alloc),
            last: 0,
        }
    }

    /// Takes a name. It is `Bad` exactly where it is no relative name; `Exists` where it is held; `UnderFile` where a
    /// proper folder of it is held; `OverFolder` where it is a proper folder of a name that is held. After a refusal the
    /// names are as before.
    pub fn insert(&mut self, name: &str) -> Result<(), NameError>
        ensures answer { Answers result (refusal_of self.old.names name.now) }
        ensures ok { OnOk result (self.new.names ≡ self.old.names ++ name.now ∷ []) }
        ensures held { OnOk result (is_among self.new.names name.now ≡ true) }
        ensures err { OnErr result (self.new.names ≡ self.old.names) }
        ensures given { self.new.given ≡ self.old.given }
    {
        if !is_relative_name(name) {
            return Err(NameError::Bad);
        }
        self.last = insert(&mut self.nodes, &mut self.names, self.last, name.as_bytes())?;
        Ok(())
    }

    /// The numbers of insertion, counted from 0, of the names, in byte order of names. It takes no memory.
    pub fn walk(&self) -> Walk<'_>
        ensures { result ≡ walk_of self.now.names }
    {
        walk_over(&self.names, &self.nodes)
    }

    /// The length of the shortest proper folder of the name that was not given before, which is then counted as given.
    /// `None` exactly where there is none. The name is one that is held. It takes no memory.
    pub fn next_folder(&mut self, name: &str) -> Option<usize>
        requires { is_among self.old.names name.now ≡ true }
        ensures length { result ≡ option_map length (folder_left self.old.given name.now) }
        ensures given { WithFolder self.old.given self.new.given (folder_left self.old.given name.now) }
        ensures fewer { IfSome result (λ _. left_count self.new.given name.now < left_count self.old.given name.now) }
        ensures names { self.new.names ≡ self.old.names }
    {
        let ahead = give(&mut self.nodes, &self.names, self.last, name.as_bytes());
        self.last = ahead.place;
        ahead.len
    }
}
