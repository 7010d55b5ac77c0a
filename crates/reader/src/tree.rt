ghost use Rattle.std.specs.Prelude.{◌≤◌, length};

use crate::node::{BLANK, Node};
use lang::refusal::Refusal;

// The most nodes of a tree.
pub const MOST_NODES: usize = 4096;

// The table of nodes. `used` counts the nodes, past the 4,096th only that there are more.
// It is no Vec: the host lends the memory, and reading takes no more.
#[derive(Drop)]
pub struct Tree<'m> {
    nodes: &'m mut [Node],
    used: usize,
    ghost room: { 4096 ≤ length nodes.now },
    ghost few: { used ≤ 4097 },
}

impl<'m> Tree<'m> {
    ghost use Rattle.std.specs.Prelude.{◌≡◌, true, false, replicate, MatchResult, nat_lt, slice_index_or};
    ghost use Rattle.lang.specs.Refusals.{number};
    ghost use Rattle.reader.specs.Nodes.{blank, nodes_of, node_room, Added};

    // No node, in memory for 4,096 of them; 1 where it is shorter.
    pub fn over(nodes: &'m mut [Node]) -> Result<Tree<'m>, Refusal>
        ensures { MatchResult result
            (λ t. (nat_lt (length nodes.old) 4096 ≡ false) × (t.used ≡ 0) × (nodes_of t ≡ nodes.old))
            (λ e. (nat_lt (length nodes.old) 4096 ≡ true) × (number e ≡ 1)) }
    {
        if nodes.len() < MOST_NODES {
            return Err(Refusal::ShortMemory);
        }
        Ok(Tree { nodes, used: 0 })
    }

    // How many nodes there are; 4,097 where there are more than the table holds.
    pub fn len(&self) -> usize
        ensures { result ≡ self.now.used }
    {
        self.used
    }

    // The node with a number, or the zero record where there is none.
    pub fn node(&self, n: usize) -> Node
        ensures { result ≡ slice_index_or (nodes_of self.now) n blank }
    {
        // a match: with `copied` and `unwrap_or` each call copied the node, and the zero record, twice
        match self.nodes.get(n) {
            Some(node) => *node,
            None => BLANK,
        }
    }

    // One node more. Past the 4,096th only that there are more is kept.
    pub fn push(&mut self, node: Node)
        ensures { Added self.old node self.new }
    {
        let at = self.used;
        if at < MOST_NODES {
            self.nodes[at] = node;
        }
        if at <= MOST_NODES {
            self.used = at + 1;
        }
    }

    // No node counts any more; the memory keeps what it holds.
    pub fn clear(&mut self)
        ensures { (self.new.used ≡ 0) × (nodes_of self.new ≡ nodes_of self.old) }
    {
        self.used = 0;
    }

    // Every node is the zero record again, and none counts.
    pub fn wipe(&mut self)
        ensures { (self.new.used ≡ 0) × (nodes_of self.new ≡ replicate (node_room self.old) blank) }
    {
        self.used = 0;
        self.nodes.fill(BLANK);
    }
}
