// What a call may count on once it has passed the checks that all calls but read share.
ghost use Rattle.std.specs.Prelude.{◌≡◌};
ghost use Rattle.rules.specs.TableTest.{record_count};
ghost use Rattle.table.specs.Checks.{Ready, Ready-prop};

use crate::Node;

// A good table of so many nodes, with T slots, M atoms and loop slot L, each within its bounds.
#[derive(Clone, Copy)]
pub struct Plan<'a> {
    pub table: &'a [u8],
    pub nodes: usize,
    pub t: usize,
    pub m: usize,
    pub l: usize,
    pub ghost ready: { Ready t m l table.now } by { Ready-prop t m l table.now },
    pub ghost counted: { nodes ≡ record_count table.now },
}

impl Plan<'_> {
    ghost use Rattle.std.specs.Prelude.{◌<◌, ◌≤◌, cond, ltb};
    ghost use Rattle.rules.specs.Rows as Rows;
    ghost use Rattle.rules.specs.Table.{node_at};
    ghost use Rattle.rules.specs.TableTest.{byte_at, nodes_in};
    ghost use Rattle.table.specs.Nodes.{NodeRead};

    // Node n, read from its record.
    pub fn node(self, n: usize) -> Node
        requires { n < self.nodes }
        ensures { NodeRead self.entry.table.now n result }
    {
        crate::node_at(self.table, n)
    }

    // The height in node n's record.
    pub fn height(self, n: usize) -> usize
        requires { n < self.nodes }
        ensures { (result ≡ byte_at self.entry.table.now n 7) × (result < 256) }
    {
        crate::height_at(self.table, n)
    }

    // Whether node n has a second set of slacks where L is below T.
    pub fn loops(self, n: usize) -> bool
        requires { n < self.nodes }
        ensures { result ≡ Rows.loops (node_at (nodes_in self.entry.table.now) n) }
    {
        crate::loops_at(self.table, n)
    }

    // How many nodes have V's slacks, which they have where L is below T.
    pub fn kept_count(self) -> usize
        ensures { (result ≡ cond (ltb self.entry.l self.entry.t) (Rows.looping (nodes_in self.entry.table.now)) 0) × (result ≤ 128) }
    {
        if self.l < self.t {
            crate::looping(self.table)
        } else {
            0
        }
    }
}
