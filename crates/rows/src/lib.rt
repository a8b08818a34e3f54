// The row writer.
#![tactic(auto)]

ghost use Rattle.std.specs.Prelude.{◌≡◌, ◌+◌, ◌*◌, ◌≤◌, ◌<◌, length};
ghost use Rattle.lists.specs.Splice.{splice};
ghost use Rattle.cursor.specs.Puts.{Puts, Room};
ghost use Rattle.rules.specs.Quantities.{node_limit};
ghost use Rattle.rules.specs.Rows.{rows_of, rows_bytes};
ghost use Rattle.rules.specs.TableTest.{nodes_in};
ghost use Rattle.rules.specs.Outcome.{returned, buffer, rows_outcome};
ghost use Rattle.answers.specs.Meaning.{answer_of};
ghost use Rattle.table.specs.Looping.{looping_to};
ghost use Rattle.row.specs.Placed.{node_row_limit};
ghost use Rattle.row.specs.Kinds.{Allowed};
ghost use Rattle.row.specs.NodeRows.{node_count};
ghost use Rattle.rows.specs.Sizes.{node_byte_limit, inner_slacks, node_length};
ghost use Rattle.rows.specs.Parts.{part_bytes, nodes_bytes, length_to, count_to};
ghost use Rattle.rows.specs.Answers.{rows_answer};

use answers::Refusal;
use cursor::Cursor;
use table::{Kind, Plan};

// Writes the rows of node n, its V's first. `part` is the number of its V's block: after the nodes, and after the V's of the
// nodes before it.
fn write_node(plan: Plan, n: usize, part: usize, out: &mut Cursor)
    requires low { n < plan.nodes }
    requires part_value { part ≡ plan.nodes + looping_to (nodes_in plan.table.now) n }
    requires n_in_bounds { Room out.old (length (part_bytes plan.t plan.m plan.l (nodes_in plan.table.now) n)) }
    ensures { Puts (part_bytes plan.entry.t plan.entry.m plan.entry.l (nodes_in plan.entry.table.now) n) out.old out.new }
{
    let Plan { t, m, l, .. } = plan;
    let node = plan.node(n);
    let v = row::first_variable(m + part, t);
    let own = row::own_block(node, t, m, l, n, v);
    rows_node::write_node(out, t as u16, l as u16, own, v);
}

// Writes the rows of all nodes.
fn write_nodes(plan: Plan, out: &mut Cursor)
    requires { Room out.old (length_to plan.t plan.m plan.l (nodes_in plan.table.now) plan.nodes) }
    ensures { Puts (nodes_bytes plan.entry.t plan.entry.m plan.entry.l (nodes_in plan.entry.table.now) plan.entry.nodes) out.old out.new }
{
    let mut looping = 0;
    for i in 0..plan.nodes {
        write_node(plan, i, plan.nodes + looping, out);
        looping = table::one_more(looping, plan.loops(i));
    }
}

// How many rows there are, and how many bytes.
#[derive(Clone, Copy, Debug, PartialEq, Eq)]
struct Size {
    rows: usize,
    bytes: usize,
}

// How many slacks a node of F, G or U has, V's with them, but for the one at the slot that nothing follows.
fn inner_slacks(loops: bool, slots: usize) -> usize
    requires { (1 ≤ slots) × (slots ≤ 64) }
    ensures { (result ≡ inner_slacks loops slots) × (result ≤ 127) }
{
    if loops { 2 * slots - 1 } else { slots - 1 }
}

// How many rows a node has at t slots that loop to slot l, its V's with them, and how many bytes. F, G and U have three rows,
// 36 bytes, or four, 53 bytes, for each inner slack, and one of 11 bytes at the slot that nothing follows.
#[tactic(auto, unfolding(row::specs::Kinds::block_count, crate::specs::Sizes::block_length))]
fn node_size(kind: Kind, t: u16, l: u16, a: u16, b: u16) -> Size
    requires { (1 ≤ l) × (l ≤ t) × (t ≤ 64) × Allowed kind a b }
    ensures fact { (result.rows ≡ node_count kind t l a b) × (result.rows ≤ node_row_limit) }
    ensures fact_2 { (result.bytes ≡ node_length kind t l a b) × (result.bytes ≤ node_byte_limit) }
{
    let slots = usize::from(t);
    let inner = inner_slacks(l < t, slots);
    match kind {
        Kind::Atom | Kind::Not => Size {
            rows: slots,
            bytes: 11 * slots,
        },
        Kind::And | Kind::Or | Kind::Implies => Size {
            rows: 3 * slots,
            bytes: 36 * slots,
        },
        Kind::Eventually | Kind::Always => Size {
            rows: 3 * inner + 1,
            bytes: 36 * inner + 11,
        },
        Kind::Until => Size {
            rows: 4 * inner + 1,
            bytes: 53 * inner + 11,
        },
        Kind::Within | Kind::Throughout => {
            let total = window::total(t, l, a, b);
            Size {
                rows: total + slots,
                bytes: 14 * total + 8 * slots,
            }
        }
    }
}

// How many rows all nodes have, and how many bytes.
fn measure(plan: Plan) -> Size
    ensures fact { (result.rows ≡ count_to plan.entry.t plan.entry.m plan.entry.l (nodes_in plan.entry.table.now) plan.entry.nodes) ×
        (result.rows ≤ node_limit * node_row_limit) }
    ensures fact_2 { (result.bytes ≡ length_to plan.entry.t plan.entry.m plan.entry.l (nodes_in plan.entry.table.now) plan.entry.nodes) ×
        (result.bytes ≤ node_limit * node_byte_limit) }
{
    let mut rows = 0;
    let mut bytes = 0;
    for i in 0..plan.nodes {
        let node = plan.node(i);
        let size = node_size(
            node.kind,
            plan.t as u16,
            plan.l as u16,
            node.from as u16,
            node.to as u16,
        );
        rows += size.rows;
        bytes += size.bytes;
    }
    Size { rows, bytes }
}

// Writes all rows at the start of `out`.
fn write_all(plan: Plan, out: &mut [u8])
    requires { length (rows_bytes (rows_of plan.t plan.m plan.l (nodes_in plan.table.now))) ≤ length out.old }
    ensures { out.new ≡ splice 0 (rows_bytes (rows_of plan.entry.t plan.entry.m plan.entry.l (nodes_in plan.entry.table.now))) out.old }
{
    let mut cursor = Cursor { out, at: 0 };
    write_nodes(plan, &mut cursor);
    let goal = row::goal(row::slack(plan.t, plan.m, plan.nodes - 1, 1));
    rows_record::put_row(&mut cursor, goal);
}

// Writes the rows, where there is room.
fn write_checked(plan: Plan, out: &mut [u8]) -> Result<usize, Refusal>
    ensures r_value { answer_of result ≡ returned (rows_answer plan.entry.t plan.entry.m plan.entry.l plan.entry.table.now (length out.old)) }
    ensures out_after { out.new ≡ buffer (rows_answer plan.entry.t plan.entry.m plan.entry.l plan.entry.table.now (length out.old)) out.old }
{
    let size = measure(plan);
    let count = size.rows + 1;
    if out.len() < size.bytes + 8 {
        return Err(Refusal::Room);
    }
    write_all(plan, out);
    Ok(count)
}

// Writes a table's rows at the start of `out`, for t slots that loop to slot l. The result is the row count.
pub fn write_rows(
    table: &[u8],
    t: usize,
    m: usize,
    l: usize,
    out: &mut [u8],
) -> Result<usize, Refusal>
    ensures r_value { answer_of result ≡ returned (rows_outcome t m l table.now (length out.old)) }
    ensures out_after { out.new ≡ buffer (rows_outcome t m l table.now (length out.old)) out.old }
{
    let plan = table::check(table, t, m, l)?;
    write_checked(plan, out)
}
