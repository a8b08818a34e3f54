// Rows as values, and the places of variables.
#![tactic(auto)]

ghost use Rattle.std.specs.Prelude.{◌≡◌, ◌&&◌, cond, [], ◌∷◌, ◌+◌, ◌-◌, ◌*◌, ◌≤◌, ◌<◌, ltb, pos, negsuc, neg_ℤ};
ghost use Rattle.rules.specs.Rows as Definitions;
ghost use Rattle.rules.specs.Rows.{ge, eq, plus, minus};
ghost use Rattle.table.specs.Looping.{loops_by};
ghost use Rattle.row.specs.Kinds.{slot_count, left_block, Allowed, block_count};
ghost use Rattle.row.specs.NodeRows.{Own, Kept, node_count};
ghost use Rattle.row.specs.Placed.{block_limit, first_limit, slot_row_limit, Small, Placed};
ghost use Rattle.row.specs.Meaning.{term_of, row_of};

use table::{Kind, Node};

#[derive(Clone, Copy, Debug, PartialEq, Eq)]
pub enum Relation {
    AtLeast,
    Equal,
}

#[derive(Clone, Copy, Debug, PartialEq, Eq)]
pub struct Term {
    pub coefficient: i8,
    pub variable: u16,
}

impl Term {
    pub fn plus(variable: u16) -> Self
        ensures { term_of result ≡ plus variable }
    {
        Self {
            coefficient: 1,
            variable,
        }
    }

    pub fn minus(variable: u16) -> Self
        ensures { term_of result ≡ minus variable }
    {
        Self {
            coefficient: -1,
            variable,
        }
    }
}

#[derive(Clone, Copy, Debug, PartialEq, Eq)]
pub enum Terms {
    Single(Term),
    Pair(Term, Term),
    Triple(Term, Term, Term),
}

#[derive(Clone, Copy, Debug, PartialEq, Eq)]
pub struct Row {
    pub relation: Relation,
    pub right: i8,
    pub terms: Terms,
}

// A block of slacks, one for each slot: a node's own, or its V's where the plan loops to a slot L below T. `own` is its
// variable at the first slot, `left` and `right` are those of the node's parts, and `from`, `to` its window. Where the
// block loops, something follows its last slot: `next` is its variable.
#[derive(Clone, Copy, Debug, PartialEq, Eq)]
pub struct Block {
    pub kind: Kind,
    pub own: u16,
    pub left: u16,
    pub right: u16,
    pub from: u16,
    pub to: u16,
    pub next: Option<u16>,
}

// The first variable of a block: the variables stand in blocks of t, one for each slot; the atoms' come first, then the nodes' and
// then the V's.
pub fn first_variable(block: usize, t: usize) -> u16
    requires { (block ≤ block_limit) × (t ≤ 64) }
    ensures { (result ≡ block * t) × (result ≤ first_limit) }
{
    (block * t) as u16
}

// The variable of node n at a slot.
pub fn slack(t: usize, m: usize, n: usize, slot: usize) -> u16
    requires { (t ≤ 64) × (m ≤ 16) × (n ≤ 128) × (1 ≤ slot) × (slot ≤ 64) }
    ensures { result ≡ Definitions.slack t m n slot }
{
    first_variable(m + n, t) + (slot - 1) as u16
}

// The block of a node's left part: an atom's own, or a node's after the m atoms'.
pub fn left_block(kind: Kind, m: usize, left: usize) -> usize
    requires { (m ≤ 16) × (left < 256) }
    ensures { (result ≡ left_block kind m left) × (result ≤ block_limit) }
{
    match kind {
        Kind::Atom => left,
        _ => m + left,
    }
}

// a − b = 0
pub fn same(a: u16, b: u16) -> Row
    ensures { row_of result ≡ eq (plus a ∷ minus b ∷ []) (pos 0) }
{
    Row {
        relation: Relation::Equal,
        right: 0,
        terms: Terms::Pair(Term::plus(a), Term::minus(b)),
    }
}

// a + b = 1
pub fn opposite(a: u16, b: u16) -> Row
    ensures { row_of result ≡ eq (plus a ∷ plus b ∷ []) (pos 1) }
{
    Row {
        relation: Relation::Equal,
        right: 1,
        terms: Terms::Pair(Term::plus(a), Term::plus(b)),
    }
}

// a − b ≥ 0
pub fn above(a: u16, b: u16) -> Row
    ensures { row_of result ≡ ge (plus a ∷ minus b ∷ []) (pos 0) }
{
    Row {
        relation: Relation::AtLeast,
        right: 0,
        terms: Terms::Pair(Term::plus(a), Term::minus(b)),
    }
}

// a + b ≥ 1
pub fn either(a: u16, b: u16) -> Row
    ensures { row_of result ≡ ge (plus a ∷ plus b ∷ []) (pos 1) }
{
    Row {
        relation: Relation::AtLeast,
        right: 1,
        terms: Terms::Pair(Term::plus(a), Term::plus(b)),
    }
}

// a + b − c ≥ 0
pub fn covered(a: u16, b: u16, c: u16) -> Row
    ensures { row_of result ≡ ge (plus a ∷ plus b ∷ minus c ∷ []) (pos 0) }
{
    Row {
        relation: Relation::AtLeast,
        right: 0,
        terms: Terms::Triple(Term::plus(a), Term::plus(b), Term::minus(c)),
    }
}

// a − b − c ≥ −1
pub fn forced(a: u16, b: u16, c: u16) -> Row
    ensures { row_of result ≡ ge (plus a ∷ minus b ∷ minus c ∷ []) (negsuc 0) }
{
    Row {
        relation: Relation::AtLeast,
        right: -1,
        terms: Terms::Triple(Term::plus(a), Term::minus(b), Term::minus(c)),
    }
}

// a = 1
pub fn goal(a: u16) -> Row
    ensures { row_of result ≡ eq (plus a ∷ []) (pos 1) }
{
    Row {
        relation: Relation::Equal,
        right: 1,
        terms: Terms::Single(Term::plus(a)),
    }
}

// −(k − 1), the right side of the last row of G[a,b] over k slots
pub fn less_one(k: u16) -> i8
    requires { (1 ≤ k) × (k ≤ 64) }
    ensures { result ≡ neg_ℤ (pos (k - 1)) }
{
    1 - (k as i8)
}

// How many rows a node of this kind has at a slot; `inner` is whether a slot follows, and `looks` how many slots its window has.
pub fn slot_count(kind: Kind, inner: bool, looks: usize) -> usize
    requires { looks ≤ 64 }
    ensures { (result ≡ slot_count kind inner looks) × (result ≤ slot_row_limit) }
{
    match kind {
        Kind::Atom | Kind::Not => 1,
        Kind::And | Kind::Or | Kind::Implies => 3,
        Kind::Eventually | Kind::Always => last_count(inner, 3),
        Kind::Until => last_count(inner, 4),
        Kind::Within | Kind::Throughout => looks + 1,
    }
}

// How many rows stand before a slot, counted from 0, with as many at each slot.
pub fn rows_before(slot: usize, rows: usize) -> usize
    requires { (slot ≤ 63) × (rows ≤ slot_row_limit) }
    ensures { (result ≡ slot * rows) × (result ≤ 63 * slot_row_limit) }
{
    slot * rows
}

// The block of node n, whose V has the first variable v.
pub fn own_block(node: Node, t: usize, m: usize, l: usize, n: usize, v: u16) -> Block
    requires { (1 ≤ l) × (l ≤ t) × (t ≤ 64) × (m ≤ 16) × (n < 128) × (v ≤ first_limit) × Small node }
    ensures { Own t m l n v node result × Placed result }
{
    let own = first_variable(m + n, t);
    let looped = v + (l - 1) as u16;
    Block {
        kind: node.kind,
        own,
        left: first_variable(left_block(node.kind, m, node.left), t),
        right: first_variable(m + node.right, t),
        from: node.from as u16,
        to: node.to as u16,
        next: if l < t { Some(looped) } else { None },
    }
}

// The block of its V.
pub fn kept_block(block: Block, v: u16) -> Block
    requires { Placed block × (v ≤ first_limit) }
    ensures { Kept v block result × Placed result }
{
    Block {
        own: v,
        next: None,
        ..block
    }
}

// Whether a node has a V's block, of t slots that loop to slot l.
pub fn has_kept(kind: Kind, t: usize, l: usize) -> bool
    ensures { result ≡ (ltb l t && loops_by kind) }
{
    l < t && table::loops(kind)
}

// How many rows F, G and U have at the last slot: one where nothing follows it.
fn last_count(loops: bool, inner: usize) -> usize
    requires { (1 ≤ inner) × (inner ≤ 4) }
    ensures { (result ≡ cond loops inner 1) × (1 ≤ result) × (result ≤ inner) }
{
    if loops { inner } else { 1 }
}

// How many rows a block of this kind and with this window has at t slots that loop to slot l.
#[tactic(auto, unfolding(crate::specs::Kinds::block_count))]
pub fn block_count(kind: Kind, loops: bool, t: u16, l: u16, a: u16, b: u16) -> usize
    requires { (1 ≤ l) × (l ≤ t) × (t ≤ 64) × Allowed kind a b }
    ensures { (result ≡ block_count kind loops t l a b) × (t ≤ result) × (result ≤ slot_row_limit * t) }
{
    let slots = usize::from(t);
    match kind {
        Kind::Atom | Kind::Not => slots,
        Kind::And | Kind::Or | Kind::Implies => 3 * slots,
        Kind::Eventually | Kind::Always => 3 * (slots - 1) + last_count(loops, 3),
        Kind::Until => 4 * (slots - 1) + last_count(loops, 4),
        Kind::Within | Kind::Throughout => window::total(t, l, a, b) + slots,
    }
}

// How many rows a node has, its V's with them.
pub fn node_count(kind: Kind, t: u16, l: u16, a: u16, b: u16) -> usize
    requires { (1 ≤ l) × (l ≤ t) × (t ≤ 64) × Allowed kind a b }
    ensures { (result ≡ node_count kind t l a b) × (result ≤ 2 * (slot_row_limit * t)) }
{
    let own = block_count(kind, l < t, t, l, a, b);
    if has_kept(kind, usize::from(t), usize::from(l)) {
        return block_count(kind, false, t, l, a, b) + own;
    }
    own
}
