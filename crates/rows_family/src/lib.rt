// The rows of each family, a line of the table of rows, at a slot.
#![tactic(auto)]

ghost use Rattle.std.specs.Prelude.{ℕ, List, ◌+◌, ◌≤◌, length};
ghost use Rattle.cursor.specs.Puts.{Puts, Room};
ghost use Rattle.rules.specs.Rule.Window.{within, throughout};
ghost use Rattle.row.specs.Placed.{first_limit, variable_limit};
ghost use Rattle.row.specs.Kinds.{over_rows};
ghost use Rattle.window.specs.Slots.{variables};
ghost use Rattle.rows_family.specs.Windows.{above_of, range, each};
ghost use Rattle.rules.specs.Rows.{rows_bytes, same_rows, not_rows, and_rows, or_rows, implies_rows, until_rows};
ghost use Rattle.rows_family.specs.Each.{PutsEach};

use cursor::Cursor;
use row::{Relation, Term};
use rows_record::put_row;
use window::Looks;

// P − p = 0
#[tactic(auto, using(crate::specs::Put::record_length))]
pub fn put_same(out: &mut Cursor, node: u16, p: u16)
    requires { Room out.old (length (rows_bytes (same_rows node p))) }
    ensures { Puts (rows_bytes (same_rows node p)) out.old out.new }
{
    put_row(out, row::same(node, p));
}

// P + p = 1
#[tactic(auto, using(crate::specs::Put::record_length))]
pub fn put_not(out: &mut Cursor, node: u16, p: u16)
    requires { Room out.old (length (rows_bytes (not_rows node p))) }
    ensures { Puts (rows_bytes (not_rows node p)) out.old out.new }
{
    put_row(out, row::opposite(node, p));
}

// p − P ≥ 0; q − P ≥ 0; P − p − q ≥ −1
#[tactic(auto, using(crate::specs::Put::record_length))]
pub fn put_and(out: &mut Cursor, node: u16, p: u16, q: u16)
    requires { Room out.old (length (rows_bytes (and_rows node p q))) }
    ensures { Puts (rows_bytes (and_rows node p q)) out.old out.new }
{
    put_row(out, row::above(p, node));
    put_row(out, row::above(q, node));
    put_row(out, row::forced(node, p, q));
}

// P − p ≥ 0; P − q ≥ 0; p + q − P ≥ 0
#[tactic(auto, using(crate::specs::Put::record_length))]
pub fn put_or(out: &mut Cursor, node: u16, p: u16, q: u16)
    requires { Room out.old (length (rows_bytes (or_rows node p q))) }
    ensures { Puts (rows_bytes (or_rows node p q)) out.old out.new }
{
    put_row(out, row::above(node, p));
    put_row(out, row::above(node, q));
    put_row(out, row::covered(p, q, node));
}

// P + p ≥ 1; P − q ≥ 0; q − p − P ≥ −1
#[tactic(auto, using(crate::specs::Put::record_length))]
pub fn put_implies(out: &mut Cursor, node: u16, p: u16, q: u16)
    requires { Room out.old (length (rows_bytes (implies_rows node p q))) }
    ensures { Puts (rows_bytes (implies_rows node p q)) out.old out.new }
{
    put_row(out, row::either(node, p));
    put_row(out, row::above(node, q));
    put_row(out, row::forced(q, p, node));
}

// P − q ≥ 0; p + q − P ≥ 0; q + P' − P ≥ 0; P − p − P' ≥ −1
#[tactic(auto, using(crate::specs::Put::record_length))]
pub fn put_until(out: &mut Cursor, node: u16, p: u16, q: u16, next: u16)
    requires { Room out.old (length (rows_bytes (until_rows node p q next))) }
    ensures { Puts (rows_bytes (until_rows node p q next)) out.old out.new }
{
    put_row(out, row::above(node, q));
    put_row(out, row::covered(p, q, node));
    put_row(out, row::covered(q, next, node));
    put_row(out, row::forced(node, p, next));
}

// a − b ≥ 0
#[tactic(auto, using(crate::specs::Put::record_length))]
fn put_above(out: &mut Cursor, a: u16, b: u16)
    requires { Room out.old (length (above_of a b)) }
    ensures { Puts (above_of a b) out.old out.new }
{
    put_row(out, row::above(a, b));
}

// A window's slots are one range, or two: a loop goes over a range, and does not ask at each slot where it stands.

// Puts something at n slots one after the other; p is the part's variable at the first of them.
#[inline(always)]
fn put_run<F: Fn(&mut Cursor, u16)>(out: &mut Cursor, p: u16, n: u16, put: F)
    requires low { (p ≤ variable_limit) × (n ≤ 64) }
    requires puts { (bytes : ℕ → List ℕ) × PutsEach F.Fn put bytes × Room out.old (length (range bytes p n)) }
    ensures { (bytes : ℕ → List ℕ) → PutsEach F.Fn put bytes → Room out.old (length (range bytes p n)) →
        Puts (range bytes p n) out.old out.new }
{
    for i in 0..n {
        put(out, p + i);
    }
}

// The same, with a cursor of its own: it stays in registers over the loop.
fn put_range<F: Fn(&mut Cursor, u16)>(out: &mut Cursor, p: u16, n: u16, put: F)
    requires low { (p ≤ variable_limit) × (n ≤ 64) }
    requires puts { (bytes : ℕ → List ℕ) × PutsEach F.Fn put bytes × Room out.old (length (range bytes p n)) }
    ensures { (bytes : ℕ → List ℕ) → PutsEach F.Fn put bytes → Room out.old (length (range bytes p n)) →
        Puts (range bytes p n) out.old out.new }
{
    let mut cursor = Cursor {
        out: &mut *out.out,
        at: out.at,
    };
    put_run(&mut cursor, p, n, put);
    out.at = cursor.at;
}

// Puts something at each slot of a window; p is the part's variable at the first slot of all.
fn put_each<F: Fn(&mut Cursor, u16) + Copy>(out: &mut Cursor, p: u16, looks: Looks, put: F)
    requires low { p ≤ first_limit }
    requires puts { (bytes : ℕ → List ℕ) × PutsEach F.Fn put bytes × Room out.old (length (each bytes looks p)) }
    ensures { (bytes : ℕ → List ℕ) → PutsEach F.Fn put bytes → Room out.old (length (each bytes looks p)) →
        Puts (each bytes looks p) out.old out.new }
{
    let first = p + looks.first;
    put_range(out, first, looks.head, put);
    if looks.rest != 0 {
        put_range(out, first + looks.head + looks.skip, looks.rest, put);
    }
}

// P − p(s) ≥ 0 for each slot s of a window; the sum of all p(s), less P, ≥ 0
pub fn put_within(out: &mut Cursor, node: u16, p: u16, looks: Looks)
    requires low { p ≤ first_limit }
    requires p_in_bounds { Room out.old (length (rows_bytes (over_rows within node (variables looks p)))) }
    ensures { Puts (rows_bytes (over_rows within node (variables looks p))) out.old out.new }
{
    put_each(out, p, looks, |out, v| put_above(out, node, v));
    rows_record::put_head(out, Relation::AtLeast, (looks.count + 1) as u8, 0);
    put_each(
        out,
        p,
        looks,
        |out, v| rows_record::put_term(out, Term::plus(v)),
    );
    rows_record::put_term(out, Term::minus(node));
}

// p(s) − P ≥ 0 for each slot s of a window; P less all p(s) ≥ −(k − 1)
pub fn put_throughout(out: &mut Cursor, node: u16, p: u16, looks: Looks)
    requires low { p ≤ first_limit }
    requires p_in_bounds { Room out.old (length (rows_bytes (over_rows throughout node (variables looks p)))) }
    ensures { Puts (rows_bytes (over_rows throughout node (variables looks p))) out.old out.new }
{
    let k = looks.count;
    put_each(out, p, looks, |out, v| put_above(out, v, node));
    rows_record::put_head(out, Relation::AtLeast, (k + 1) as u8, row::less_one(k));
    rows_record::put_term(out, Term::plus(node));
    put_each(
        out,
        p,
        looks,
        |out, v| rows_record::put_term(out, Term::minus(v)),
    );
}
