// Where the rows of each node begin and where its V does, and in which nodes' rows a part of the variables stands.
#![tactic(auto)]

ghost use Rattle.std.specs.Prelude.{◌≡◌, ◌+◌, ◌≤◌, ◌<◌, length};
ghost use Rattle.rules.specs.TableTest.{nodes_in};
ghost use Rattle.rules.specs.Rows.{slack_rows};
ghost use Rattle.table.specs.Nodes.{node_of};
ghost use Rattle.mps_line.specs.Bounds.{row_limit};
ghost use Rattle.mps_users.specs.Users.{has_part};
ghost use Rattle.mps_users.specs.Found.{Layout, Found};

use table::{Kind, Node, Plan};

// The number of a node's first row, and the first variable of its V.
#[derive(Clone, Copy, Debug, PartialEq, Eq)]
pub struct Place {
    pub first_row: usize,
    pub kept: u16,
}

// Whether part x of the variables is node n's own, or that of one of its parts.
fn is_used(node: Node, m: usize, n: usize, x: usize) -> bool
    requires { (m ≤ 16) × (n ≤ 128) × (node.left < 256) × (node.right < 256) }
    ensures { result ≡ has_part m x n (node_of node) }
{
    let own = x == m + n;
    let first = x == m + node.left;
    match node.kind {
        Kind::Atom => own || x == node.left,
        Kind::And | Kind::Or | Kind::Implies | Kind::Until => own || first || x == m + node.right,
        Kind::Not | Kind::Eventually | Kind::Always | Kind::Within | Kind::Throughout => own
            || first,
    }
}

// Writes the places of the nodes of a checked table, and returns how many rows they have.
pub fn find_layout(plan: Plan, layout: &mut [Place; 128]) -> usize
    ensures { Layout plan.entry.t plan.entry.m plan.entry.l (nodes_in plan.entry.table.now) plan.entry.nodes layout.new
        × (result ≡ length (slack_rows plan.entry.t plan.entry.m plan.entry.l (nodes_in plan.entry.table.now))) × (result ≤ row_limit) }
{
    let Plan { nodes, t, m, l, .. } = plan;
    let mut rows = 0;
    let mut looping = 0;
    for i in 0..nodes {
        let node = plan.node(i);
        layout[i] = Place {
            first_row: rows,
            kept: row::first_variable(m + nodes + looping, t),
        };
        rows += row::node_count(
            node.kind,
            t as u16,
            l as u16,
            node.from as u16,
            node.to as u16,
        );
        if table::loops(node.kind) {
            looping += 1;
        }
    }
    rows
}

// Writes the numbers of the nodes in whose rows part x stands, an atom's or a node's own, and returns how many they are.
pub fn find_users(plan: Plan, x: usize, users: &mut [u8; 128]) -> usize
    requires { x < plan.m + plan.nodes }
    ensures { Found plan.entry.m (nodes_in plan.entry.table.now) x users.new result }
{
    let mut count = 0;
    for i in 0..plan.nodes {
        if is_used(plan.node(i), plan.m, i, x) {
            users[count] = i as u8;
            count += 1;
        }
    }
    count
}
