// The node table: reading a node, the table test, and the checks that all calls but read share.
#![tactic(auto)]

ghost use Rattle.std.specs.Prelude.{◌≡◌, ◌&&◌, cond, ◌+◌, ◌*◌, ◌/◌, ◌≤◌, ◌<◌, eqb};
ghost use Rattle.rules.specs.Rows as Rows;
ghost use Rattle.rules.specs.Table.{node_at};
ghost use Rattle.rules.specs.TableTest as TableTest;
ghost use Rattle.rules.specs.TableTest.{byte_at, marked, node_good, node_test, height_test, record_good, record_count, nodes_in};
ghost use Rattle.rules.specs.Outcome.{between};
ghost use Rattle.table.specs.Nodes.{byte_of, kind_in, node_of, NodeRead, record_read};
ghost use Rattle.table.specs.Ends.{is_binary, has_window};
ghost use Rattle.table.specs.Heights.{FirstLow, ChildrenKnown};
ghost use Rattle.table.specs.Looping.{loops_by};
ghost use Rattle.table.specs.Plans.{CheckedPlan};

mod plan;

use answers::Refusal;
pub use plan::Plan;

// The mark of a node record.
pub const MARK: [u8; 2] = *b"ND";

#[derive(Clone, Copy, Debug, PartialEq, Eq)]
pub enum Kind {
    Atom = 1,
    Not,
    And,
    Or,
    Implies,
    Eventually,
    Always,
    Until,
    Within,
    Throughout,
}

// A byte that stands for no kind.
#[derive(Clone, Copy, Debug, PartialEq, Eq)]
pub struct UnknownKind {
    pub byte: u8,
}

// A node as its record has it. Of an atom, left is its number; a child is a node's number; from and to are the window a, b.
#[derive(Clone, Copy, Debug, PartialEq, Eq)]
pub struct Node {
    pub kind: Kind,
    pub left: usize,
    pub right: usize,
    pub from: usize,
    pub to: usize,
}

// The byte of a kind in a record.
impl From<Kind> for u8 {
    ghost from_gives = { λ kind byte. byte ≡ byte_of kind };

    fn from(kind: Kind) -> u8 {
        kind as u8
    }
}

// The kind that a byte stands for, if it is one of the ten.
impl TryFrom<u8> for Kind {
    type Error = UnknownKind;

    ghost try_from_gives = { λ byte read. read ≡ kind_in byte };

    #[tactic(auto, unfolding(crate::specs::Nodes::kind_in))]
    fn try_from(byte: u8) -> Result<Self, UnknownKind> {
        match byte {
            1 => Ok(Kind::Atom),
            2 => Ok(Kind::Not),
            3 => Ok(Kind::And),
            4 => Ok(Kind::Or),
            5 => Ok(Kind::Implies),
            6 => Ok(Kind::Eventually),
            7 => Ok(Kind::Always),
            8 => Ok(Kind::Until),
            9 => Ok(Kind::Within),
            10 => Ok(Kind::Throughout),
            _ => Err(UnknownKind { byte }),
        }
    }
}

// How many records the table has, if they are whole.
pub fn count(table: &[u8]) -> usize
    ensures { result ≡ record_count table.now }
{
    table.len() / 8
}

// Node n, where its record has one of the ten kinds.
fn read_node(table: &[u8], n: usize) -> Result<Node, UnknownKind>
    requires { n < record_count table.now }
    ensures { result ≡ record_read table.now n }
{
    let at = 8 * n;
    let kind = Kind::try_from(table[at + 2])?;
    Ok(Node {
        kind,
        left: usize::from(table[at + 3]),
        right: usize::from(table[at + 4]),
        from: usize::from(table[at + 5]),
        to: usize::from(table[at + 6]),
    })
}

// Node n, read from its record. An unknown kind, which no good table has, is read as atom 0.
pub fn node_at(table: &[u8], n: usize) -> Node
    requires { n < record_count table.now }
    ensures { NodeRead table.now n result }
{
    match read_node(table, n) {
        Ok(node) => node,
        Err(_) => Node {
            kind: Kind::Atom,
            left: 0,
            right: 0,
            from: 0,
            to: 0,
        },
    }
}

// Whether a node of this kind has two parts.
pub fn is_binary(kind: Kind) -> bool
    ensures { result ≡ is_binary kind }
{
    matches!(kind, Kind::And | Kind::Or | Kind::Implies | Kind::Until)
}

// Whether a kind has a window.
pub fn has_window(kind: Kind) -> bool
    ensures { result ≡ has_window kind }
{
    matches!(kind, Kind::Within | Kind::Throughout)
}

// Whether left, right and window are as node n of its kind may have them: each is below an end, and a right that is not
// used and a window that is not there are below 1.
fn parts_good(node: Node, m: usize, n: usize) -> bool
    ensures { result ≡ node_good m n node.right node.from node.to (node_of node) }
{
    let left_end = if node.kind == Kind::Atom { m } else { n };
    let right_end = if is_binary(node.kind) { n } else { 1 };
    let to_end = if has_window(node.kind) { 64 } else { 1 };
    (node.left < left_end && node.right < right_end) && (node.from <= node.to && node.to < to_end)
}

// Whether node n's record has its mark, which is one comparison of two bytes.
fn marked(table: &[u8], n: usize) -> bool
    requires { n < record_count table.now }
    ensures { result ≡ marked table.now n }
{
    let at = 8 * n;
    u16::from_le_bytes([table[at], table[at + 1]]) == u16::from_le_bytes(MARK)
}

// Whether node n's record has its mark, and fields as such a node may have them.
fn node_good(table: &[u8], m: usize, n: usize) -> bool
    requires { n < record_count table.now }
    ensures { result ≡ node_test m table.now n }
{
    match read_node(table, n) {
        Ok(node) => marked(table, n) && parts_good(node, m, n),
        Err(_) => false,
    }
}

// The height in node n's record.
pub fn height_at(table: &[u8], n: usize) -> usize
    requires { n < record_count table.now }
    ensures { (result ≡ byte_at table.now n 7) × (result < 256) }
{
    usize::from(table[8 * n + 7])
}

// Whether node n's record has the height that its children's records give. Who has no right child has node 0 there, an
// atom, of height 0.
fn height_good(table: &[u8], n: usize) -> bool
    requires n_bound { n < record_count table.now }
    requires children_known { ChildrenKnown table.now n }
    ensures { result ≡ height_test table.now n }
{
    let at = 8 * n;
    let left = usize::from(table[at + 3]);
    let right = usize::from(table[at + 4]);
    height_at(table, n) == height_at(table, left).max(height_at(table, right)) + 1
}

// Whether an atom's record is as it must be: right, window and height are 0, which is one comparison of four bytes.
fn atom_good(table: &[u8], m: usize, n: usize) -> bool
    requires { (n < record_count table.now) × (byte_at table.now n 2 ≡ 1) }
    ensures { result ≡ record_good m table.now n }
{
    let at = 8 * n;
    let rest = u32::from_le_bytes([table[at + 4], table[at + 5], table[at + 6], table[at + 7]]);
    marked(table, n) && (usize::from(table[at + 3]) < m && rest == 0)
}

// Whether node n's record is as it must be. Many nodes are atoms, whose test is short.
fn record_good(table: &[u8], m: usize, n: usize) -> bool
    requires n_bound { n < record_count table.now }
    requires first_low { FirstLow table.now n }
    ensures { result ≡ record_good m table.now n }
{
    if table[8 * n + 2] == u8::from(Kind::Atom) {
        atom_good(table, m, n)
    } else {
        node_good(table, m, n) && height_good(table, n)
    }
}

// Whether a table of this many bytes is 1 to 128 whole records.
fn size_good(len: usize) -> bool
    ensures { result ≡ (eqb (8 * (len / 8)) len && between 1 128 (len / 8)) }
{
    8 * (len / 8) == len && within(len / 8, 128)
}

// Whether the bytes are a good table with m atoms.
pub fn good(table: &[u8], m: usize) -> bool
    ensures { result ≡ TableTest.good m table.now }
{
    if !size_good(table.len()) {
        return false;
    }
    for n in 0..count(table) {
        if !record_good(table, m, n) {
            return false;
        }
    }
    true
}

// Whether n is 1 to high.
pub fn within(n: usize, high: usize) -> bool
    ensures { result ≡ between 1 high n }
{
    1 <= n && n <= high
}

// The checks that all calls but read make first: refusals 1, 2, 13 and 7. (In line, so that no plan is made in memory.)
#[inline(always)]
pub fn check(table: &[u8], t: usize, m: usize, l: usize) -> Result<Plan<'_>, Refusal>
    ensures { CheckedPlan t m l table.now result }
{
    if !within(t, 64) {
        return Err(Refusal::Slots);
    }
    if !within(m, 16) {
        return Err(Refusal::Atoms);
    }
    if !within(l, t) {
        return Err(Refusal::Loop);
    }
    if !good(table, m) {
        return Err(Refusal::Table);
    }
    Ok(Plan {
        table,
        nodes: count(table),
        t,
        m,
        l,
    })
}

// Whether a node of this kind has a second set of slacks where L is below T: F, G and U.
pub fn loops(kind: Kind) -> bool
    ensures { result ≡ loops_by kind }
{
    matches!(kind, Kind::Eventually | Kind::Always | Kind::Until)
}

// Whether node n is of such a kind.
pub fn loops_at(table: &[u8], n: usize) -> bool
    requires { n < record_count table.now }
    ensures { result ≡ Rows.loops (node_at (nodes_in table.now) n) }
{
    loops(node_at(table, n).kind)
}

// A count with one more, if there is one.
pub fn one_more(count: usize, more: bool) -> usize
    requires { count < 128 }
    ensures { result ≡ cond more (count + 1) count }
{
    if more { count + 1 } else { count }
}

// How many of the nodes are.
pub fn looping(table: &[u8]) -> usize
    requires { record_count table.now ≤ 128 }
    ensures { (result ≡ Rows.looping (nodes_in table.now)) × (result ≤ record_count table.now) }
{
    let mut found = 0;
    for n in 0..count(table) {
        found = one_more(found, loops_at(table, n));
    }
    found
}
