// The lines of the columns of an MPS page. A variable is looked for in the rows of its own node and of those that have it as a part alone.
#![tactic(auto)]

ghost use Rattle.std.specs.Prelude.{◌≡◌, ◌&&◌, true, eqb, ◌+◌, ◌*◌, ◌≤◌, ◌<◌};
ghost use Rattle.lists.specs.Flat.{flat};
ghost use Rattle.rules.specs.Rows.{looping, rows_of, variable_count};
ghost use Rattle.rules.specs.TableTest.{nodes_in};
ghost use Rattle.mps.specs.Page.{entry_line, each_row, column_lines};
ghost use Rattle.table.specs.Ends.{has_window};
ghost use Rattle.row.specs.NodeRows.{loops_of, next_of, block_rows};
ghost use Rattle.mps_line.specs.Bounds.{number_limit, LinesFit, plain_lines, slot_lines, block_lines, node_lines, nodes_lines, table_lines};
ghost use Rattle.mps_line.specs.Bounds.{part_lines, own_parts, kept_parts, all_parts};
ghost use Rattle.mps_line.specs.Emitted.{Lines};
ghost use Rattle.mps_row.specs.Laws.{Plain};
ghost use Rattle.mps_window.specs.Places.{rows_over};
ghost use Rattle.mps_node.specs.Places.{blocks_rows, Fit, KeptFit};
ghost use Rattle.mps_columns.specs.Walk.{kind_text, kind_around, kind_lines, Whole, KeptWhole};
ghost use Rattle.mps_columns.specs.Windows.{Missed};
ghost use Rattle.mps_columns.specs.Plans.{plan_rows, planned_part, planned_user, planned_users, KeptPart, Slotted};

mod columns;

use columns::{Columns, Part};
use cursor::Cursor;
use mps_line::Name;
use mps_node::Blocks;
use mps_row::Text;
use mps_users::Place;
use mps_window::Over;
use row::Block;
use table::Plan;

// A variable, and its slot, counted from 0.
#[derive(Clone, Copy, Debug, PartialEq, Eq)]
struct Variable {
    v: usize,
    s: u16,
}

// The lines of variable v in the rows of a block without a window at slot s + 1. `start` is the block's first row.
fn put_at(page: &mut Cursor, v: usize, start: usize, block: Block, s: u16, t: u16)
    requires { LinesFit page.old.at plain_lines × (v < number_limit) × (start + block_lines ≤ number_limit) × (s < t) × (t ≤ 64) × Fit t block × Plain block.kind }
    ensures { Lines plain_lines (kind_text v block t start s) page.old page.new }
{
    let i = start + row::rows_before(usize::from(s), row::slot_count(block.kind, true, 0));
    mps_entry::put_entries(page, v, i, mps_row::spot_of(block, t, s));
}

// Its lines in the rows of such a block at slot s + 1, and before it at the slot before.
fn put_around(page: &mut Cursor, v: usize, start: usize, block: Block, s: u16, t: u16)
    requires { LinesFit page.old.at (2 * plain_lines) × (v < number_limit) × (start + block_lines ≤ number_limit) × (s < t) × (t ≤ 64)
        × Fit t block × Plain block.kind }
    ensures { Lines (2 * plain_lines) (kind_around v block t start s) page.old page.new }
{
    if s == 0 {
        return put_at(page, v, start, block, s, t);
    }
    put_at(page, v, start, block, s - 1, t);
    put_at(page, v, start, block, s, t);
}

// Whether it is what follows the block's last slot.
fn follows(block: Block, v: usize) -> bool
    ensures { result ≡ (loops_of block && eqb v (next_of block)) }
{
    block.next.is_some_and(|next| v == usize::from(next))
}

// All its lines in the rows of such a block: what follows the last slot stands there alone, and so does a variable at its slot, but for the own one of
// F, G and U.
fn put_plain(page: &mut Cursor, variable: Variable, start: usize, block: Block, t: u16)
    requires lines_fit { LinesFit page.old.at (2 * plain_lines) × Slotted t variable × (start + block_lines ≤ number_limit) × (t ≤ 64)
        × Fit t block × Plain block.kind }
    requires whole { Whole t block }
    ensures { Lines (2 * plain_lines) (kind_lines variable.v block t start variable.s) page.old page.new }
{
    let Variable { v, s } = variable;
    if follows(block, v) {
        put_at(page, v, start, block, t - 1, t);
    } else if table::loops(block.kind) && v == usize::from(block.own + s) {
        put_around(page, v, start, block, s, t);
    } else {
        put_at(page, v, start, block, s, t);
    }
}

// Whether a variable is surely in none of a window's rows at a slot: not the node's own, nor between the first and the last of the part's.
fn misses(over: Over, v: usize) -> bool
    ensures { Missed over v result }
{
    let looks = over.looks;
    let first = usize::from(over.left) + usize::from(looks.first);
    v != usize::from(over.own)
        && (v < first || first + usize::from(looks.count) + usize::from(looks.skip) <= v)
}

// Its lines in the rows of a window at a slot, from row i on.
fn put_seen(page: &mut Cursor, v: usize, i: usize, over: Over)
    requires { LinesFit page.old.at slot_lines × (v < number_limit) × (i + slot_lines ≤ number_limit) }
    ensures { Lines slot_lines (each_row (entry_line v) i (rows_over over)) page.old page.new }
{
    if !misses(over, v) {
        mps_window::put_entries(page, v, i, over);
    }
}

// All its lines in the rows of a block with a window.
fn put_windows(page: &mut Cursor, v: usize, start: usize, block: Block, t: u16, l: u16)
    requires { LinesFit page.old.at block_lines × (v < number_limit) × (start + block_lines ≤ number_limit) × (1 ≤ l) × (l ≤ t) × (t ≤ 64)
        × Fit t block × (has_window block.kind ≡ true) }
    ensures { Lines block_lines (each_row (entry_line v) start (block_rows block t l)) page.old page.new }
{
    let mut i = start;
    for s in 0..t {
        let over = mps_node::over_at(block, t, l, s).unwrap();
        put_seen(page, v, i, over);
        i += usize::from(over.looks.count) + 1;
    }
}

// All its lines in the rows of a block.
fn put_block(page: &mut Cursor, variable: Variable, start: usize, block: Block, t: u16, l: u16)
    requires { LinesFit page.old.at block_lines × Slotted t variable × (start + block_lines ≤ number_limit) × (1 ≤ l) × (l ≤ t) × (t ≤ 64)
        × Fit t block × Whole t block }
    ensures { Lines block_lines (each_row (entry_line variable.v) start (block_rows block t l)) page.old page.new }
{
    if table::has_window(block.kind) {
        put_windows(page, variable.v, start, block, t, l);
    } else {
        put_plain(page, variable, start, block, t);
    }
}

// All its lines in the rows of a node, V's before its own.
fn put_node(page: &mut Cursor, variable: Variable, start: usize, node: Blocks, t: u16, l: u16)
    requires lines_fit { LinesFit page.old.at node_lines × Slotted t variable × (start + node_lines ≤ number_limit) × (1 ≤ l) × (l ≤ t) × (t ≤ 64) }
    requires fit { Fit t node.own × Whole t node.own × KeptFit t node.kept × KeptWhole t node.kept }
    ensures { Lines node_lines (each_row (entry_line variable.v) start (blocks_rows t l node)) page.old page.new }
{
    let Blocks { own, kept } = node;
    match kept {
        None => put_block(page, variable, start, own, t, l),
        Some(kept) => {
            put_block(page, variable, start, kept, t, l);
            let rows = row::block_count(kept.kind, kept.next.is_some(), t, l, kept.from, kept.to);
            put_block(page, variable, start + rows, own, t, l);
        }
    }
}

// All its lines in the rows of node n.
fn put_user(page: &mut Cursor, columns: &Columns, n: usize, variable: Variable)
    requires { LinesFit page.old.at node_lines × Slotted columns.now.plan.t variable × (n < columns.now.plan.nodes) }
    ensures { Lines node_lines (planned_user columns.now.plan variable.v n)
        page.old page.new }
{
    let Plan { t, l, .. } = columns.plan;
    let place = columns.layout[n];
    let blocks = mps_node::blocks_at(columns.plan, n, place.kept);
    put_node(page, variable, place.first_row, blocks, t as u16, l as u16);
}

// All its lines in the rows of the nodes in whose rows its part stands.
fn put_users(page: &mut Cursor, part: Part, variable: Variable)
    requires { LinesFit page.old.at nodes_lines × Slotted part.columns.now.plan.t variable }
    ensures { Lines nodes_lines (planned_users part.entry.columns.now.plan part.entry.users.now variable.v) page.old page.new }
{
    for user in part.users {
        put_user(page, part.columns, usize::from(*user), variable);
    }
}

// The lines of the variable of a part at slot s + 1; a variable in no row has its COST line.
fn put_variable(page: &mut Cursor, part: Part, s: u16)
    requires { LinesFit page.old.at table_lines × (s < part.columns.now.plan.t) }
    ensures { Lines table_lines (column_lines (plan_rows part.entry.columns.now.plan) (part.entry.x * part.entry.columns.now.plan.t + s)) page.old page.new }
{
    let Plan { nodes, t, m, .. } = part.columns.plan;
    let v = usize::from(row::first_variable(part.x, t) + s);
    let before = page.at;
    put_users(page, part, Variable { v, s });
    let goal = row::goal(row::slack(t, m, nodes - 1, 1));
    mps_row::put_row(page, Text::Entry(v), part.columns.goal_row, goal);
    if page.at == before {
        mps_line::put_number_line(page, Name::Variable(v), Name::Cost, 0);
    }
}

// The lines of the variables of a part.
fn put_part(page: &mut Cursor, part: Part)
    requires { LinesFit page.old.at part_lines }
    ensures { Lines part_lines (planned_part part.entry.columns.now.plan part.entry.x) page.old page.new }
{
    for s in 0..part.columns.plan.t as u16 {
        put_variable(page, part, s);
    }
}

// Those of an atom's part, or of a node's own.
fn put_found(page: &mut Cursor, columns: &Columns, x: usize)
    requires { LinesFit page.old.at part_lines × (x < columns.now.plan.m + columns.now.plan.nodes) }
    ensures { Lines part_lines (planned_part columns.now.plan x) page.old page.new }
{
    let mut users = [0; 128];
    let count = mps_users::find_users(columns.plan, x, &mut users);
    let part = Part {
        columns,
        x,
        users: &users[..count],
    };
    put_part(page, part);
}

// Those of node n's V, the part x.
fn put_kept(page: &mut Cursor, columns: &Columns, n: usize, x: usize)
    requires fit { LinesFit page.old.at part_lines × (n < columns.now.plan.nodes) }
    requires kept { KeptPart columns.now.plan n x }
    ensures { Lines part_lines (planned_part columns.now.plan x) page.old page.new }
{
    let users = [n as u8];
    let part = Part {
        columns,
        x,
        users: &users,
    };
    put_part(page, part);
}

// Those of all atoms and nodes.
fn put_own_parts(page: &mut Cursor, columns: &Columns)
    requires { LinesFit page.old.at (own_parts * part_lines) }
    ensures { Lines (own_parts * part_lines) (flat (planned_part columns.now.plan) (columns.now.plan.m + columns.now.plan.nodes)) page.old page.new }
{
    let Plan { nodes, m, .. } = columns.plan;
    for x in 0..m + nodes {
        put_found(page, columns, x);
    }
}

// Those of the V's, in node order.
fn put_kept_parts(page: &mut Cursor, columns: &Columns)
    requires { LinesFit page.old.at (kept_parts * part_lines) }
    ensures { Lines (kept_parts * part_lines) (flat (λ j. planned_part columns.now.plan (columns.now.plan.m + columns.now.plan.nodes + j))
        (looping (nodes_in columns.now.plan.table.now))) page.old page.new }
{
    let Plan { nodes, m, .. } = columns.plan;
    let mut found = 0;
    for n in 0..nodes {
        if columns.plan.loops(n) {
            put_kept(page, columns, n, m + nodes + found);
            found += 1;
        }
    }
}

// The lines of all variables of a checked table.
pub fn put_columns(page: &mut Cursor, plan: Plan)
    requires { LinesFit page.old.at (all_parts * part_lines) }
    ensures { Lines (all_parts * part_lines) (flat (column_lines (rows_of plan.entry.t plan.entry.m plan.entry.l (nodes_in plan.entry.table.now)))
        (variable_count plan.entry.t plan.entry.m plan.entry.l (nodes_in plan.entry.table.now))) page.old page.new }
{
    let mut layout = [Place {
        first_row: 0,
        kept: 0,
    }; 128];
    let goal_row = mps_users::find_layout(plan, &mut layout);
    let columns = Columns {
        plan,
        layout: &layout,
        goal_row,
    };
    put_own_parts(page, &columns);
    if plan.l < plan.t {
        put_kept_parts(page, &columns);
    }
}
