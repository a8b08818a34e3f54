// The sections of an MPS page but COLUMNS.
#![tactic(auto)]

ghost use Rattle.std.specs.Prelude.{◌+◌, ◌≤◌, ◌<◌};
ghost use Rattle.rules.specs.Rows.{rows_of};
ghost use Rattle.rules.specs.TableTest.{nodes_in};
ghost use Rattle.mps_line.specs.Bounds.{number_limit, LinesFit, table_lines};
ghost use Rattle.mps_line.specs.Emitted.{Lines};
ghost use Rattle.mps.specs.Page.{row_section, right_section, bound_line, bound_section};

use cursor::Cursor;
use mps_line::Name;
use mps_row::Text;
use table::Plan;

// NAME and ROWS: the free row, and a line for each row.
pub fn put_rows(page: &mut Cursor, plan: Plan)
    requires { LinesFit page.old.at (3 + table_lines) }
    ensures { Lines (3 + table_lines) (row_section (rows_of plan.entry.t plan.entry.m plan.entry.l (nodes_in plan.entry.table.now))) page.old page.new }
{
    mps_line::put_text(page, b"NAME\n");
    mps_line::put_text(page, b"ROWS\n");
    mps_line::put_type_line(page, b'N', Name::Cost);
    mps_node::put_all(page, Text::Typed, plan);
}

// RHS: the right sides that are not 0.
pub fn put_rights(page: &mut Cursor, plan: Plan)
    requires { LinesFit page.old.at (1 + table_lines) }
    ensures { Lines (1 + table_lines) (right_section (rows_of plan.entry.t plan.entry.m plan.entry.l (nodes_in plan.entry.table.now))) page.old page.new }
{
    mps_line::put_text(page, b"RHS\n");
    mps_node::put_all(page, Text::Right, plan);
}

// The bound of a variable; the first ones are the atoms'.
fn put_bound(page: &mut Cursor, atoms: usize, v: usize)
    requires { LinesFit page.old.at 1 × (v < number_limit) }
    ensures { Lines 1 (bound_line atoms v) page.old page.new }
{
    if v < atoms {
        mps_line::put_binary_line(page, v);
    } else {
        mps_line::put_upper_line(page, v);
    }
}

// BOUNDS and ENDATA: a bound for each variable.
pub fn put_bounds(page: &mut Cursor, atoms: usize, variables: usize)
    requires { LinesFit page.old.at (variables + 2) × (variables ≤ number_limit) }
    ensures { Lines (variables + 2) (bound_section atoms variables) page.old page.new }
{
    mps_line::put_text(page, b"BOUNDS\n");
    for v in 0..variables {
        put_bound(page, atoms, v);
    }
    mps_line::put_text(page, b"ENDATA\n");
}
