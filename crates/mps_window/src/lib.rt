// The lines of a window's rows on an MPS page, at one slot. Request N4: "F has P − p(s) ≥ 0 for each s, then the sum of all p(s), less P, ≥ 0.
// G has p(s) − P ≥ 0 for each s, then P less all p(s) ≥ −(k − 1)."
#![tactic(auto)]

ghost use Rattle.std.specs.Prelude.{not, ◌++◌, ◌+◌, ◌-◌, ◌≤◌, ◌<◌};
ghost use Rattle.lists.specs.Flat.{flat};
ghost use Rattle.mps.specs.Words.{G, RHS};
ghost use Rattle.mps.specs.Page.{row_name, type_line, number_unless_zero, entry_line, each_row};
ghost use Rattle.mps_line.specs.Bounds.{number_limit, LinesFit, slot_lines};
ghost use Rattle.mps_line.specs.Emitted.{Lines};
ghost use Rattle.mps_line.specs.Units.{unit_line};
ghost use Rattle.mps_row.specs.Texts.{line_of, TextFits};
ghost use Rattle.window.specs.Slots.{window_by};
ghost use Rattle.mps_window.specs.Over.{last_right};
ghost use Rattle.mps_window.specs.Places.{rows_over, Placed};

mod over;

use cursor::Cursor;
use mps_line::Name;
use mps_row::Text;
pub use over::Over;
use window::Looks;

// ROWS: `count` rows of type G from row i on.
fn put_types(page: &mut Cursor, i: usize, count: usize)
    requires { LinesFit page.old.at count × (i + count ≤ number_limit) }
    ensures { Lines count (flat (λ j. type_line G (row_name (i + j))) count) page.old page.new }
{
    for j in 0..count {
        mps_line::put_type_line(page, b'G', Name::Row(i + j));
    }
}

// RHS: the right side of the last row, −(k − 1) for G, where it is not 0.
fn put_right(page: &mut Cursor, i: usize, over: Over)
    requires { LinesFit page.old.at 1 × (i < number_limit) }
    ensures { Lines 1 (number_unless_zero RHS i (last_right (window_by over.within) over.looks.count)) page.old page.new }
{
    let count = over.looks.count;
    if over.within || count == 1 {
        return;
    }
    let right = i64::from(row::less_one(count));
    mps_line::put_number_line(page, Name::Rights, Name::Row(i), right);
}

// Entries of the same number in `count` rows from row i on.
fn put_units(page: &mut Cursor, v: usize, i: usize, up: bool, count: usize)
    requires { LinesFit page.old.at count × (v < number_limit) × (i + count ≤ number_limit) }
    ensures { Lines count (flat (λ j. unit_line v (i + j) up) count) page.old page.new }
{
    for j in 0..count {
        mps_line::put_unit(page, v, i + j, up);
    }
}

// Which of a window's slots a variable stands at, if it is the part's there.
fn place_of(looks: Looks, left: u16, v: usize) -> Option<usize>
    ensures { Placed looks left v result }
{
    let i = v.checked_sub(usize::from(left) + usize::from(looks.first))?;
    let head = usize::from(looks.head);
    let skip = usize::from(looks.skip);
    if i < head {
        return Some(i);
    }
    if i < head + skip || usize::from(looks.count) + skip <= i {
        return None;
    }
    Some(i - skip)
}

// The entries of the node's own variable: in every row.
fn put_own(page: &mut Cursor, v: usize, i: usize, over: Over)
    requires { LinesFit page.old.at slot_lines × (v < number_limit) × (i + slot_lines ≤ number_limit) }
    ensures { Lines slot_lines (flat (λ j. unit_line v (i + j) over.within) over.looks.count
        ++ unit_line v (i + over.looks.count) (not over.within)) page.old page.new }
{
    let count = usize::from(over.looks.count);
    put_units(page, v, i, over.within, count);
    mps_line::put_unit(page, v, i + count, !over.within);
}

// The entries of the part's variable at the j-th slot of the window: in that slot's row and in the last one.
fn put_part(page: &mut Cursor, v: usize, i: usize, over: Over, j: usize)
    requires { LinesFit page.old.at slot_lines × (v < number_limit) × (i + slot_lines ≤ number_limit) × (j < over.looks.count) }
    ensures { Lines slot_lines (unit_line v (i + j) (not over.within) ++ unit_line v (i + over.looks.count) over.within)
        page.old page.new }
{
    mps_line::put_unit(page, v, i + j, !over.within);
    mps_line::put_unit(page, v, i + usize::from(over.looks.count), over.within);
}

// The column of variable v: the node's own, the part's at one of the window's slots, or another.
pub fn put_entries(page: &mut Cursor, v: usize, i: usize, over: Over)
    requires { LinesFit page.old.at slot_lines × (v < number_limit) × (i + slot_lines ≤ number_limit) }
    ensures { Lines slot_lines (each_row (entry_line v) i (rows_over over)) page.old page.new }
{
    if v == usize::from(over.own) {
        return put_own(page, v, i, over);
    }
    match place_of(over.looks, over.left, v) {
        None => {}
        Some(j) => put_part(page, v, i, over, j),
    }
}

// The lines of a window's rows from row i on: a row for each slot, and the last row.
pub fn put_window(page: &mut Cursor, text: Text, i: usize, over: Over)
    requires { LinesFit page.old.at slot_lines × TextFits text × (i + slot_lines ≤ number_limit) }
    ensures { Lines slot_lines (each_row (line_of text) i (rows_over over)) page.old page.new }
{
    let count = usize::from(over.looks.count);
    match text {
        Text::Typed => put_types(page, i, count + 1),
        Text::Right => put_right(page, i + count, over),
        Text::Entry(v) => put_entries(page, v, i, over),
    }
}
