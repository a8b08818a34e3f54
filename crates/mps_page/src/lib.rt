// The fixed-column MPS page of a table's rows.
#![tactic(auto)]

ghost use Rattle.std.specs.Prelude.{◌≡◌, ◌+◌, ◌*◌, ◌≤◌, length};
ghost use Rattle.std.proofs.lemmas.List.Edits.{sets};
ghost use Rattle.rules.specs.Rows.{variable_count, rows_of};
ghost use Rattle.rules.specs.TableTest.{nodes_in};
ghost use Rattle.rules.specs.Outcome.{returned, buffer};
ghost use Rattle.answers.specs.Meaning.{answer_of};
ghost use Rattle.mps_line.specs.Bounds.{LinesFit, part_lines, all_parts};
ghost use Rattle.mps_line.specs.Emitted.{Emitted, Lines};
ghost use Rattle.mps.specs.Page.{column_section, page};
ghost use Rattle.mps.specs.Outcome.{page_outcome};
ghost use Rattle.mps_page.specs.Answers.{page_answer, Short};

use answers::Refusal;
use cursor::Cursor;
use table::Plan;

// COLUMNS: the lines of each variable.
fn put_columns(page: &mut Cursor, plan: Plan)
    requires { LinesFit page.old.at (1 + all_parts * part_lines) }
    ensures { Lines (1 + all_parts * part_lines) (column_section (variable_count plan.entry.t plan.entry.m plan.entry.l (nodes_in plan.entry.table.now))
        (rows_of plan.entry.t plan.entry.m plan.entry.l (nodes_in plan.entry.table.now))) page.old page.new }
{
    mps_line::put_text(page, b"COLUMNS\n");
    mps_columns::put_columns(page, plan);
}

// Puts the page of a checked table at the start of the buffer, where there is room for it.
fn put_page(cursor: &mut Cursor, plan: Plan)
    requires { cursor.old.at ≡ 0 }
    ensures { Emitted (page plan.entry.t plan.entry.m plan.entry.l (nodes_in plan.entry.table.now)) cursor.old cursor.new }
{
    let Plan { nodes, t, m, .. } = plan;
    mps_sections::put_rows(cursor, plan);
    put_columns(cursor, plan);
    mps_sections::put_rights(cursor, plan);
    let atoms = usize::from(row::first_variable(m, t));
    let variables = usize::from(row::first_variable(m + nodes + plan.kept_count(), t));
    mps_sections::put_bounds(cursor, atoms, variables);
}

// Writes the page at the start of a buffer that has room for it.
fn write_page(out: &mut [u8], plan: Plan)
    requires { length (page plan.t plan.m plan.l (nodes_in plan.table.now)) ≤ length out.old }
    ensures { out.new ≡ sets out.old 0 (page plan.entry.t plan.entry.m plan.entry.l (nodes_in plan.entry.table.now)) }
{
    let mut cursor = Cursor { out, at: 0 };
    put_page(&mut cursor, plan);
}

// Writes the page, where there is room.
fn write_checked(plan: Plan, out: &mut [u8]) -> Result<usize, Refusal>
    ensures r_value { answer_of result ≡ returned (page_answer plan.entry.t plan.entry.m plan.entry.l plan.entry.table.now (length out.old)) }
    ensures out_after { out.new ≡ buffer (page_answer plan.entry.t plan.entry.m plan.entry.l plan.entry.table.now (length out.old)) out.old }
    ensures fact { Short (answer_of result) }
{
    let length = mps_length::page_length(plan);
    if out.len() < length {
        return Err(Refusal::Room);
    }
    write_page(out, plan);
    Ok(length)
}

// Writes the fixed-column MPS page of a table's rows at the start of `out`. The result is its length in bytes.
pub fn mps_page(
    table: &[u8],
    t: usize,
    m: usize,
    l: usize,
    out: &mut [u8],
) -> Result<usize, Refusal>
    ensures r_value { answer_of result ≡ returned (page_outcome t m l table.now (length out.old)) }
    ensures out_after { out.new ≡ buffer (page_outcome t m l table.now (length out.old)) out.old }
    ensures fact { Short (answer_of result) }
{
    let plan = table::check(table, t, m, l)?;
    write_checked(plan, out)
}
