// The lines of the rows of a node at a slot.
#![tactic(auto)]

ghost use Rattle.std.specs.Prelude.{◌≡◌, [], map, ◌+◌, ◌≤◌, length};
ghost use Rattle.rules.specs.Rows.{and_rows, or_rows, implies_rows, until_rows};
ghost use Rattle.mps.specs.Page.{each_row};
ghost use Rattle.row.specs.Meaning.{row_of};
ghost use Rattle.mps_line.specs.Bounds.{number_limit, LinesFit, plain_lines, slot_lines};
ghost use Rattle.mps_line.specs.Emitted.{Lines};
ghost use Rattle.mps_row.specs.Laws.{Plain};
ghost use Rattle.mps_row.specs.Spots.{spot_rows};
ghost use Rattle.mps_row.specs.Texts.{line_of, TextFits};
ghost use Rattle.mps_slot.specs.Spots.{slot_rows, Windowed};

use cursor::Cursor;
use mps_row::{Spot, Text};
use mps_window::Over;
use row::Row;
use table::Kind;

// The lines of rows, one after the other, from row i on.
fn put_rows(page: &mut Cursor, text: Text, i: usize, rows: &[Row])
    requires { LinesFit page.old.at (length rows.now) × TextFits text × (i + length rows.now ≤ number_limit) }
    ensures { Lines (length rows.now) (each_row (line_of text) i (map row_of rows.now)) page.old page.new }
{
    for (j, row) in rows.iter().enumerate() {
        mps_row::put_row(page, text, i + j, *row);
    }
}

// p − P ≥ 0; q − P ≥ 0; P − p − q ≥ −1
fn and_rows(node: u16, p: u16, q: u16) -> [Row; 3]
    ensures { map row_of result ≡ and_rows node p q }
{
    [
        row::above(p, node),
        row::above(q, node),
        row::forced(node, p, q),
    ]
}

// P − p ≥ 0; P − q ≥ 0; p + q − P ≥ 0
fn or_rows(node: u16, p: u16, q: u16) -> [Row; 3]
    ensures { map row_of result ≡ or_rows node p q }
{
    [
        row::above(node, p),
        row::above(node, q),
        row::covered(p, q, node),
    ]
}

// P + p ≥ 1; P − q ≥ 0; q − p − P ≥ −1
fn implies_rows(node: u16, p: u16, q: u16) -> [Row; 3]
    ensures { map row_of result ≡ implies_rows node p q }
{
    [
        row::either(node, p),
        row::above(node, q),
        row::forced(q, p, node),
    ]
}

// P − q ≥ 0; p + q − P ≥ 0; q + P' − P ≥ 0; P − p − P' ≥ −1
fn until_rows(node: u16, p: u16, q: u16, next: u16) -> [Row; 4]
    ensures { map row_of result ≡ until_rows node p q next }
{
    [
        row::above(node, q),
        row::covered(p, q, node),
        row::covered(q, next, node),
        row::forced(node, p, next),
    ]
}

// The lines of the rows of a node without a window.
fn put_plain(page: &mut Cursor, text: Text, i: usize, spot: Spot)
    requires { LinesFit page.old.at plain_lines × TextFits text × (i + plain_lines ≤ number_limit) × Plain spot.kind }
    ensures { Lines plain_lines (each_row (line_of text) i (spot_rows spot [])) page.old page.new }
{
    let Spot {
        kind,
        own,
        left,
        right,
        next,
    } = spot;
    match kind {
        Kind::Atom => put_rows(page, text, i, &[row::same(own, left)]),
        Kind::Not => put_rows(page, text, i, &[row::opposite(own, left)]),
        Kind::And => put_rows(page, text, i, &and_rows(own, left, right)),
        Kind::Or => put_rows(page, text, i, &or_rows(own, left, right)),
        Kind::Implies => put_rows(page, text, i, &implies_rows(own, left, right)),
        Kind::Eventually => match next {
            Some(next) => put_rows(page, text, i, &or_rows(own, left, next)),
            None => put_rows(page, text, i, &[row::same(own, left)]),
        },
        Kind::Always => match next {
            Some(next) => put_rows(page, text, i, &and_rows(own, left, next)),
            None => put_rows(page, text, i, &[row::same(own, left)]),
        },
        Kind::Until => match next {
            Some(next) => put_rows(page, text, i, &until_rows(own, left, right, next)),
            None => put_rows(page, text, i, &[row::same(own, right)]),
        },
        Kind::Within | Kind::Throughout => {}
    }
}

// The lines of the rows of a node at a slot, from row i on: those of its window there, if it has one.
pub fn put_slot(page: &mut Cursor, text: Text, i: usize, spot: Spot, over: Option<Over>)
    requires { LinesFit page.old.at slot_lines × TextFits text × (i + slot_lines ≤ number_limit) × Windowed spot over }
    ensures { Lines slot_lines (each_row (line_of text) i (slot_rows spot over)) page.old page.new }
{
    match over {
        Some(over) => mps_window::put_window(page, text, i, over),
        None => put_plain(page, text, i, spot),
    }
}
