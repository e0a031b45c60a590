ghost use Rattle.std.specs.Prelude.{◌≡◌, ◌+◌, ◌<◌, ◌≤◌, ◌^◌, length, vec_len, vec_capacity};
ghost use Rattle.name_tree.specs.Nodes.{node_at, after_of, linked, hung};

/// A place of the tree. A link is the index of a place, and 0, the root's, where it leads to none.
#[derive(Clone, Copy, Debug, PartialEq, Eq, Drop)]
pub(crate) struct Node {
    pub(crate) parent: u32,
    pub(crate) first_child: u32,
    pub(crate) next_sibling: u32,
    // The number of a name that begins with the key of this place: of a file its name, of a folder its name and a slash.
    pub(crate) name: u32,
    // how many bytes the key has
    pub(crate) len: u16,
    // whether the folder was given
    pub(crate) given: bool,
}

/// The root, without children.
pub(crate) const ROOT: Node = Node {
    parent: 0,
    first_child: 0,
    next_sibling: 0,
    name: 0,
    len: 0,
    given: false,
};

#[inline]
#[tactic(auto, unfolding(crate::specs::Nodes::node_at))]
pub(crate) fn node_at(nodes: &[Node], at: u32) -> Node
    requires { at < length nodes.now }
    ensures { result ≡ node_at nodes.now at }
{
    nodes[at as usize]
}

/// The place behind `before` among the children of the parent: the first child where `before` is 0.
#[inline]
pub(crate) fn after(nodes: &[Node], parent: u32, before: u32) -> u32
    requires parent { parent < length nodes.now }
    requires before { before < length nodes.now }
    ensures { result ≡ after_of nodes.now parent before }
{
    if before == 0 {
        node_at(nodes, parent).first_child
    } else {
        node_at(nodes, before).next_sibling
    }
}

fn link(nodes: &mut [Node], parent: u32, before: u32, at: u32)
    requires parent { parent < length nodes.old }
    requires before { before < length nodes.old }
    ensures { nodes.new ≡ linked nodes.old parent before at }
{
    if before == 0 {
        let mut node = node_at(nodes, parent);
        node.first_child = at;
        nodes[parent as usize] = node;
    } else {
        let mut node = node_at(nodes, before);
        node.next_sibling = at;
        nodes[before as usize] = node;
    }
}

/// Adds a child behind `before`, or as the first where `before` is 0, and tells its place.
#[tactic(auto, unfolding(crate::specs::Nodes::hung))]
pub(crate) fn hang(nodes: &mut Vec<Node>, parent: u32, before: u32, name: u32, len: u16) -> u32
    requires room { vec_len nodes.old < vec_capacity nodes.old }
    requires few { vec_len nodes.old < 2 ^ 32 }
    requires parent { parent < vec_len nodes.old }
    requires before { before < vec_len nodes.old }
    ensures at { result ≡ vec_len nodes.old }
    ensures nodes { nodes.new.items ≡ hung nodes.old.items parent before name len }
    ensures room { vec_capacity nodes.old ≤ vec_capacity nodes.new }
{
    let at = nodes.len() as u32;
    let node = Node {
        parent,
        first_child: 0,
        next_sibling: after(nodes, parent, before),
        name,
        len,
        given: false,
    };
    match nodes.push(node) {
        Ok(()) => link(nodes, parent, before, at),
        Err(_) => unreachable!(),
    }
    at
}
