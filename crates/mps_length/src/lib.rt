// How long the fixed-column MPS page of a table's rows is, found by one walk over the nodes.
#![tactic(auto)]

ghost use Rattle.std.specs.Prelude.{◌≡◌, ◌+◌, ◌*◌, ◌≤◌, ◌<◌, length};
ghost use Rattle.rules.specs.TableTest.{nodes_in};
ghost use Rattle.row.specs.Kinds.{Allowed};
ghost use Rattle.row.specs.NodeRows.{node_count};
ghost use Rattle.mps.specs.Page.{page};
ghost use Rattle.mps_length.specs.Digits.{digit_sum};
ghost use Rattle.mps_length.specs.Windows.{back_size};
ghost use Rattle.mps_length.specs.Nodes.{window_count, within_weight, throughout_weight, looped_sum, node_weight, Sized};
ghost use Rattle.mps_length.specs.Measured.{NodeMeasured, Measured};
ghost use Rattle.mps_length.specs.Idle.{IsAtomOf, has_atom, idle_atoms};
ghost use Rattle.mps_length.specs.Page.{page_size};

use table::{Kind, Plan};

// How many digits the numbers below n have together.
fn digits(n: usize) -> usize
    requires { n ≤ 1000000 }
    ensures { (result ≡ digit_sum n) × (result ≤ 6 * n) }
{
    n + n.saturating_sub(10)
        + n.saturating_sub(100)
        + n.saturating_sub(1000)
        + n.saturating_sub(10000)
        + n.saturating_sub(100000)
}

// The bytes of the line in RHS of the last row of G[a,b] over k slots: that of −(k − 1).
fn back_size(k: u16) -> usize
    requires { (1 ≤ k) × (k ≤ 64) }
    ensures { (result ≡ back_size k) × (result ≤ 28) }
{
    if k <= 1 {
        0
    } else if k <= 10 {
        27
    } else {
        28
    }
}

// The size of rows: how many they are, and how many bytes their lines have in COLUMNS and RHS.
#[derive(Clone, Copy, Debug, PartialEq, Eq)]
struct Size {
    rows: usize,
    lines: usize,
}

impl Size {
    // The size of no rows.
    const NONE: Size = Size { rows: 0, lines: 0 };

    // The size of these rows and of others.
    fn plus(self, other: Size) -> Size
        requires { (self.rows + other.rows ≤ 600000) × (self.lines + other.lines ≤ 50000000) }
        ensures { (result.rows ≡ self.rows + other.rows) × (result.lines ≡ self.lines + other.lines) }
    {
        Size {
            rows: self.rows + other.rows,
            lines: self.lines + other.lines,
        }
    }
}

// The size of rows that are alike at all t slots, with so many rows and bytes at a slot.
fn even(rows: usize, bytes: usize, t: u16) -> Size
    requires { (rows ≤ 4) × (bytes ≤ 400) × (t ≤ 64) }
    ensures { Sized (rows * t) (bytes * t) result.rows result.lines × (result.rows ≤ 256) × (result.lines ≤ 25600) }
{
    Size {
        rows: rows * usize::from(t),
        lines: bytes * usize::from(t),
    }
}

// The size of the rows of F, G or U at t slots that loop to slot l: so many rows and bytes at a slot that something
// follows, and one row of 53 bytes where nothing does. Where l is below t, something follows every slot of the node, and
// its V, whose rows are counted with them, ends with slot t.
fn looped(rows: usize, bytes: usize, t: u16, l: u16) -> Size
    requires { (rows ≤ 4) × (bytes ≤ 400) × (1 ≤ l) × (l ≤ t) × (t ≤ 64) }
    ensures { Sized (looped_sum rows 1 t l) (looped_sum bytes 53 t l) result.rows result.lines }
{
    let last = Size { rows: 1, lines: 53 };
    let ended = even(rows, bytes, t - 1).plus(last);
    if l < t {
        even(rows, bytes, t).plus(ended)
    } else {
        ended
    }
}

// The size of the rows of F[a,b] at t slots that loop to slot l.
fn within(t: u16, l: u16, a: u16, b: u16) -> Size
    requires { (1 ≤ l) × (l ≤ t) × (t ≤ 64) × (a ≤ b) × (b ≤ 63) }
    ensures { Sized (window_count t l a b t) (within_weight t l a b t) result.rows result.lines }
{
    let slots = usize::from(t);
    let total = window::total(t, l, a, b);
    Size {
        rows: total + slots,
        lines: 79 * total + 27 * slots,
    }
}

// The size of the rows of G[a,b] at t slots that loop to slot l.
fn throughout(t: u16, l: u16, a: u16, b: u16) -> Size
    requires { (1 ≤ l) × (l ≤ t) × (t ≤ 64) × (a ≤ b) × (b ≤ 63) }
    ensures { Sized (window_count t l a b t) (throughout_weight t l a b t) result.rows result.lines }
{
    let mut size = Size::NONE;
    for s in 0..t {
        let count = window::look(t, l, s, a, b).count;
        let slots = usize::from(count);
        size = size.plus(Size {
            rows: slots + 1,
            lines: 80 * slots + 26 + back_size(count),
        });
    }
    size
}

// The size of the rows of a node of this kind, its V's with them, at t slots that loop to slot l; `twice` says that left
// and right are one.
fn node_size(kind: Kind, twice: bool, t: u16, l: u16, a: u16, b: u16) -> Size
    requires { (1 ≤ l) × (l ≤ t) × (t ≤ 64) × Allowed kind a b }
    ensures { Sized (node_count kind t l a b) (node_weight kind twice t l a b) result.rows result.lines }
{
    match kind {
        Kind::Atom => even(1, 53, t),
        Kind::Not => even(1, 78, t),
        Kind::And => even(3, if twice { 186 } else { 213 }, t),
        Kind::Or => even(3, if twice { 159 } else { 185 }, t),
        Kind::Implies => even(3, if twice { 185 } else { 238 }, t),
        Kind::Eventually => looped(3, 185, t, l),
        Kind::Always => looped(3, 213, t, l),
        Kind::Until => looped(4, if twice { 292 } else { 318 }, t, l),
        Kind::Within => within(t, l, a, b),
        Kind::Throughout => throughout(t, l, a, b),
    }
}

// The size of the rows of node i of a checked table.
fn measure_node(plan: Plan, i: usize) -> Size
    requires { i < plan.nodes }
    ensures { NodeMeasured plan.entry.t plan.entry.m plan.entry.l (nodes_in plan.entry.table.now) i result.rows result.lines }
{
    let Plan { t, m, l, .. } = plan;
    let node = plan.node(i);
    let p = row::first_variable(row::left_block(node.kind, m, node.left), t);
    let q = row::first_variable(m + node.right, t);
    node_size(
        node.kind,
        p == q,
        t as u16,
        l as u16,
        node.from as u16,
        node.to as u16,
    )
}

// The size of the rows of the nodes of a checked table.
fn measure(plan: Plan) -> Size
    ensures { Measured plan.entry.t plan.entry.m plan.entry.l (nodes_in plan.entry.table.now) plan.entry.nodes result.rows result.lines }
{
    let mut size = Size::NONE;
    for i in 0..plan.nodes {
        size = size.plus(measure_node(plan, i));
    }
    size
}

// Whether a node of this kind is of atom x.
fn is_atom(kind: Kind, left: usize, x: usize) -> bool
    ensures { IsAtomOf kind left x result }
{
    kind == Kind::Atom && left == x
}

// Whether a node of a checked table is of atom x.
fn has_atom(plan: Plan, x: usize) -> bool
    ensures { result ≡ has_atom (nodes_in plan.entry.table.now) x plan.entry.nodes }
{
    for i in 0..plan.nodes {
        let node = plan.node(i);
        if is_atom(node.kind, node.left, x) {
            return true;
        }
    }
    false
}

// How many of the atoms no node of a checked table has.
fn idle_atoms(plan: Plan) -> usize
    ensures { (result ≡ idle_atoms (nodes_in plan.entry.table.now) plan.entry.nodes plan.entry.m) × (result ≤ 16) }
{
    let mut idle = 0;
    for x in 0..plan.m {
        if !has_atom(plan, x) {
            idle += 1;
        }
    }
    idle
}

// The bytes of all sections.
fn sum_up(size: Size, idle: usize, atoms: usize, slacks: usize) -> usize
    requires { (size.rows ≤ 600000) × (size.lines ≤ 50000000) × (idle ≤ 25600) × (atoms ≤ 25600) × (slacks ≤ 25600) }
    ensures { result ≡ page_size size.rows size.lines idle atoms slacks }
{
    45 + 6 * size.rows
        + digits(size.rows)
        + size.lines
        + 26 * idle
        + 16 * atoms
        + digits(atoms)
        + 26 * slacks
}

// The length of the page of a checked table.
pub fn page_length(plan: Plan) -> usize
    ensures { result ≡ length (page plan.entry.t plan.entry.m plan.entry.l (nodes_in plan.entry.table.now)) }
{
    let Plan { nodes, t, m, .. } = plan;
    let goal = Size { rows: 1, lines: 52 };
    let size = measure(plan).plus(goal);
    let idle = usize::from(row::first_variable(idle_atoms(plan), t));
    let atoms = usize::from(row::first_variable(m, t));
    let slacks = usize::from(row::first_variable(nodes + plan.kept_count(), t));
    sum_up(size, idle, atoms, slacks)
}
