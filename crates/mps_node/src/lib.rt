// The lines of the rows of a node at all slots, and of all rows of a table.
#![tactic(auto)]

ghost use Rattle.std.specs.Prelude.{◌≡◌, ◌+◌, ◌≤◌, ◌<◌, length};
ghost use Rattle.rules.specs.Rows.{rows_of};
ghost use Rattle.rules.specs.TableTest.{nodes_in};
ghost use Rattle.mps.specs.Page.{each_row};
ghost use Rattle.row.specs.NodeRows.{block_rows, kept_place};
ghost use Rattle.mps_line.specs.Bounds.{number_limit, LinesFit, block_lines, node_lines, slot_lines, table_lines};
ghost use Rattle.mps_line.specs.Emitted.{Lines};
ghost use Rattle.mps_row.specs.Texts.{line_of, TextFits};
ghost use Rattle.mps_slot.specs.Spots.{slot_rows, Windowed};
ghost use Rattle.mps_node.specs.Places.{blocks_rows, Fit, KeptFit, BlocksAt};
ghost use Rattle.mps_node.specs.Windows.{OverAt};

use cursor::Cursor;
use mps_row::{Spot, Text};
use mps_window::Over;
use row::Block;
use table::{Kind, Plan};

// A node's own block of slacks, and its V's if it has one.
#[derive(Clone, Copy, Debug, PartialEq, Eq)]
pub struct Blocks {
    pub own: Block,
    pub kept: Option<Block>,
}

// Those of node n of a checked table, whose V has the first variable v.
pub fn blocks_at(plan: Plan, n: usize, v: u16) -> Blocks
    requires { (n < plan.nodes) × (v ≡ kept_place plan.t plan.m (nodes_in plan.table.now) n) }
    ensures { BlocksAt plan.entry.t plan.entry.m plan.entry.l (nodes_in plan.entry.table.now) n v result }
{
    let node = plan.node(n);
    let own = row::own_block(node, plan.t, plan.m, plan.l, n, v);
    let kept = if row::has_kept(node.kind, plan.t, plan.l) {
        Some(row::kept_block(own, v))
    } else {
        None
    };
    Blocks { own, kept }
}

// The window of a block at slot s + 1, if its kind has one.
pub fn over_at(block: Block, t: u16, l: u16, s: u16) -> Option<Over>
    requires { (1 ≤ l) × (l ≤ t) × (t ≤ 64) × (s < t) × Fit t block }
    ensures { OverAt block t l s result }
{
    if !table::has_window(block.kind) {
        return None;
    }
    Some(Over {
        within: block.kind == Kind::Within,
        own: block.own + s,
        left: block.left,
        looks: window::look(t, l, s, block.from, block.to),
    })
}

// How many rows there are at a slot.
fn slot_count(spot: Spot, over: Option<Over>) -> usize
    requires { Windowed spot over }
    ensures { (result ≡ length (slot_rows spot over)) × (result ≤ slot_lines) }
{
    match over {
        Some(over) => usize::from(over.looks.count) + 1,
        None => row::slot_count(spot.kind, spot.next.is_some(), 0),
    }
}

// The lines of a block at t slots, from row `first` on.
pub fn put_block(page: &mut Cursor, text: Text, first: usize, block: Block, t: u16, l: u16)
    requires { LinesFit page.old.at block_lines × TextFits text × (first + block_lines ≤ number_limit) × (1 ≤ l) × (l ≤ t) × (t ≤ 64) × Fit t block }
    ensures { Lines block_lines (each_row (line_of text) first (block_rows block t l)) page.old page.new }
{
    let mut i = first;
    for s in 0..t {
        let spot = mps_row::spot_of(block, t, s);
        let over = over_at(block, t, l, s);
        mps_slot::put_slot(page, text, i, spot, over);
        i += slot_count(spot, over);
    }
}

// The lines of a node at t slots, from row `first` on: "All of a node's V rows, by slot, come before its P rows."
fn put_node(page: &mut Cursor, text: Text, first: usize, blocks: Blocks, t: u16, l: u16)
    requires { LinesFit page.old.at node_lines × TextFits text × (first + node_lines ≤ number_limit) × (1 ≤ l) × (l ≤ t) × (t ≤ 64)
        × Fit t blocks.own × KeptFit t blocks.kept }
    ensures { Lines node_lines (each_row (line_of text) first (blocks_rows t l blocks)) page.old page.new }
{
    match blocks.kept {
        None => put_block(page, text, first, blocks.own, t, l),
        Some(kept) => {
            put_block(page, text, first, kept, t, l);
            let loops = kept.next.is_some();
            let rows = row::block_count(kept.kind, loops, t, l, kept.from, kept.to);
            put_block(page, text, first + rows, blocks.own, t, l)
        }
    }
}

// The lines of all rows of a checked table.
pub fn put_all(page: &mut Cursor, text: Text, plan: Plan)
    requires { LinesFit page.old.at table_lines × TextFits text }
    ensures { Lines table_lines (each_row (line_of text) 0 (rows_of plan.entry.t plan.entry.m plan.entry.l (nodes_in plan.entry.table.now)))
        page.old page.new }
{
    let t = plan.t as u16;
    let l = plan.l as u16;
    let mut first: usize = 0;
    let mut looping: usize = 0;
    for n in 0..plan.nodes {
        let v = row::first_variable(plan.m + plan.nodes + looping, plan.t);
        let blocks = blocks_at(plan, n, v);
        let own = blocks.own;
        put_node(page, text, first, blocks, t, l);
        first += row::node_count(own.kind, t, l, own.from, own.to);
        looping = table::one_more(looping, plan.loops(n));
    }
    let goal = row::goal(row::slack(plan.t, plan.m, plan.nodes - 1, 1));
    mps_row::put_row(page, text, first, goal);
}
