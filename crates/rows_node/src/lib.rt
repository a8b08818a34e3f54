// The rows of a block of slacks at all slots: a loop over the slots for each family of rows.
#![tactic(auto)]

ghost use Rattle.std.specs.Prelude.{◌≡◌, true, ℕ, List, ◌+◌, ◌≤◌, length};
ghost use Rattle.cursor.specs.Puts.{Puts, Room};
ghost use Rattle.rules.specs.Rows.{Row, rows_bytes};
ghost use Rattle.table.specs.Ends.{has_window};
ghost use Rattle.window.specs.Slots.{variables};
ghost use Rattle.row.specs.Kinds.{Allowed, over_rows};
ghost use Rattle.row.specs.Placed.{first_limit, Placed};
ghost use Rattle.rows_node.specs.Families.{Family, PutsFamily, window_of, at_slots, at_all, with_kept};
ghost use Rattle.rows_node.specs.Blocks.{block_bytes, node_bytes};

use cursor::Cursor;
use row::Block;
use rows_family::{put_and, put_implies, put_not, put_or, put_same, put_until};
use table::Kind;
use window::Looks;

// A family of rows is put by a closure that is given the variables at a slot: the node's, those of its left and right parts,
// and that of what follows.

// The rows of a family at n slots.
#[inline(always)]
fn write_run<F: Fn(&mut Cursor, u16, u16, u16, u16)>(out: &mut Cursor, n: u16, block: Block, put: F)
    requires low { (n ≤ 64) × Placed block }
    requires puts { (rows : Family) × PutsFamily F.Fn put rows × Room out.old (length (at_slots rows block n)) }
    ensures { (rows : Family) → PutsFamily F.Fn put rows → Room out.old (length (at_slots rows block n)) →
        Puts (at_slots rows block n) out.old out.new }
{
    for s in 0..n {
        let node = block.own + s;
        put(out, node, block.left + s, block.right + s, node + 1);
    }
}

// The same, with a cursor of its own: it stays in registers over the loop.
fn write_slots<F: Fn(&mut Cursor, u16, u16, u16, u16)>(
    out: &mut Cursor,
    n: u16,
    block: Block,
    put: F,
)
    requires low { (n ≤ 64) × Placed block }
    requires puts { (rows : Family) × PutsFamily F.Fn put rows × Room out.old (length (at_slots rows block n)) }
    ensures { (rows : Family) → PutsFamily F.Fn put rows → Room out.old (length (at_slots rows block n)) →
        Puts (at_slots rows block n) out.old out.new }
{
    let mut cursor = Cursor {
        out: &mut *out.out,
        at: out.at,
    };
    write_run(&mut cursor, n, block, put);
    out.at = cursor.at;
}

// The rows of a block of F, G or U at t slots. Where nothing follows the last slot, the node is there what the part with the
// first variable `alone` is.
#[inline(always)]
fn write_block<F: Fn(&mut Cursor, u16, u16, u16, u16) + Copy>(
    out: &mut Cursor,
    t: u16,
    block: Block,
    alone: u16,
    put: F,
)
    requires low { (1 ≤ t) × (t ≤ 64) × Placed block × (alone ≤ first_limit) }
    requires puts { (rows : Family) × PutsFamily F.Fn put rows × Room out.old (length (at_all rows block alone t)) }
    ensures { (rows : Family) → PutsFamily F.Fn put rows → Room out.old (length (at_all rows block alone t)) →
        Puts (at_all rows block alone t) out.old out.new }
{
    let inner = t - 1;
    write_slots(out, inner, block, put);
    let node = block.own + inner;
    match block.next {
        Some(next) => put(out, node, block.left + inner, block.right + inner, next),
        None => put_same(out, node, alone + inner),
    }
}

// The rows of a node of F, G or U at t slots. Where it loops, the rows of its V, whose first variable is v, come first.
fn write_both<F: Fn(&mut Cursor, u16, u16, u16, u16) + Copy>(
    out: &mut Cursor,
    t: u16,
    own: Block,
    v: u16,
    alone: u16,
    put: F,
)
    requires low { (1 ≤ t) × (t ≤ 64) × Placed own × (v ≤ first_limit) × (alone ≤ first_limit) }
    requires puts { (rows : Family) × PutsFamily F.Fn put rows × Room out.old (length (with_kept rows own v alone t)) }
    ensures { (rows : Family) → PutsFamily F.Fn put rows → Room out.old (length (with_kept rows own v alone t)) →
        Puts (with_kept rows own v alone t) out.old out.new }
{
    if own.next.is_some() {
        write_block(out, t, row::kept_block(own, v), alone, put);
    }
    write_block(out, t, own, alone, put);
}

// The rows of F[a,b] or G[a,b] at a slot.
fn put_window(out: &mut Cursor, kind: Kind, node: u16, p: u16, looks: Looks)
    requires low { p ≤ first_limit }
    requires p_in_bounds { Room out.old (length (rows_bytes (over_rows (window_of kind) node (variables looks p)))) }
    ensures { Puts (rows_bytes (over_rows (window_of kind) node (variables looks p))) out.old out.new }
{
    match kind {
        Kind::Throughout => rows_family::put_throughout(out, node, p, looks),
        _ => rows_family::put_within(out, node, p, looks),
    }
}

// The rows of a block of F[a,b] or G[a,b] at t slots that loop to slot l.
#[inline(always)]
fn run_windows(out: &mut Cursor, t: u16, l: u16, block: Block)
    requires low { (1 ≤ l) × (l ≤ t) × (t ≤ 64) × Placed block }
    requires window { (has_window block.kind ≡ true) × (block.from ≤ block.to) × (block.to ≤ 63) }
    requires block_in_bounds { Room out.old (length (block_bytes block t l)) }
    ensures { Puts (block_bytes block t l) out.old out.new }
{
    for s in 0..t {
        let looks = window::look(t, l, s, block.from, block.to);
        put_window(out, block.kind, block.own + s, block.left, looks);
    }
}

// The same, with a cursor of its own. (In one function with the loops of the other kinds each of their slots would take
// longer.)
#[inline(never)]
fn write_windows(out: &mut Cursor, t: u16, l: u16, block: Block)
    requires low { (1 ≤ l) × (l ≤ t) × (t ≤ 64) × Placed block }
    requires window { (has_window block.kind ≡ true) × (block.from ≤ block.to) × (block.to ≤ 63) }
    requires block_in_bounds { Room out.old (length (block_bytes block t l)) }
    ensures { Puts (block_bytes block t l) out.old out.new }
{
    let mut cursor = Cursor {
        out: &mut *out.out,
        at: out.at,
    };
    run_windows(&mut cursor, t, l, block);
    out.at = cursor.at;
}

// Writes the rows of a node at t slots that loop to slot l. `own` is its own block, and v the first variable of its V, whose
// rows come first.
pub fn write_node(out: &mut Cursor, t: u16, l: u16, own: Block, v: u16)
    requires le_l { (1 ≤ l) × (l ≤ t) × (t ≤ 64) × Placed own × Allowed own.kind own.from own.to × (v ≤ first_limit) }
    requires own_in_bounds { Room out.old (length (node_bytes t l v own)) }
    ensures { Puts (node_bytes t l v own) out.old out.new }
{
    match own.kind {
        Kind::Atom => write_slots(out, t, own, |out, node, p, _, _| put_same(out, node, p)),
        Kind::Not => write_slots(out, t, own, |out, node, p, _, _| put_not(out, node, p)),
        Kind::And => write_slots(out, t, own, |out, node, p, q, _| put_and(out, node, p, q)),
        Kind::Or => write_slots(out, t, own, |out, node, p, q, _| put_or(out, node, p, q)),
        Kind::Implies => write_slots(
            out,
            t,
            own,
            |out, node, p, q, _| put_implies(out, node, p, q),
        ),
        Kind::Eventually => write_both(
            out,
            t,
            own,
            v,
            own.left,
            |out, node, p, _, next| put_or(out, node, p, next),
        ),
        Kind::Always => write_both(
            out,
            t,
            own,
            v,
            own.left,
            |out, node, p, _, next| put_and(out, node, p, next),
        ),
        Kind::Until => write_both(
            out,
            t,
            own,
            v,
            own.right,
            |out, node, p, q, next| put_until(out, node, p, q, next),
        ),
        Kind::Within | Kind::Throughout => write_windows(out, t, l, Block { ..own }),
    }
}
