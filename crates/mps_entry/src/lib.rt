// The entries of a variable's column in the rows of a node without a window, at one slot, by what the variable is to the node: its own, that of a
// part or of both, or that of what follows.
#![tactic(auto)]

ghost use Rattle.std.specs.Prelude.{◌≡◌, true, false, [], ◌++◌, ◌+◌, ◌≤◌, ◌<◌};
ghost use Rattle.rules.specs.Rows.{implies_rows, until_rows};
ghost use Rattle.mps_line.specs.Bounds.{number_limit, LinesFit, plain_lines};
ghost use Rattle.mps_line.specs.Emitted.{Lines};
ghost use Rattle.mps_line.specs.Units.{unit_line};
ghost use Rattle.mps_entry.specs.Roles.{double_line, three_lines, both_joined, both_until, own_until, pair_rows, join_rows, lines};
ghost use Rattle.mps_entry.specs.Spots.{EntriesFit, Ordered};
ghost use Rattle.mps_row.specs.Spots.{spot_rows};

use cursor::Cursor;
use mps_line::Name;
use mps_row::Spot;
use table::Kind;

// 2 or −2.
fn put_double(page: &mut Cursor, v: usize, i: usize, up: bool)
    requires { LinesFit page.old.at 1 × (v < number_limit) × (i < number_limit) }
    ensures { Lines 1 (double_line v i up) page.old page.new }
{
    let c = if up { 2 } else { -2 };
    mps_line::put_number_line(page, Name::Variable(v), Name::Row(i), c);
}

// 1 or −1 in two rows.
fn put_two(page: &mut Cursor, v: usize, i: usize, a: bool, j: usize, b: bool)
    requires { LinesFit page.old.at 2 × (v < number_limit) × (i < number_limit) × (j < number_limit) }
    ensures { Lines 2 (unit_line v i a ++ unit_line v j b) page.old page.new }
{
    mps_line::put_unit(page, v, i, a);
    mps_line::put_unit(page, v, j, b);
}

// 1 or −1 in three rows, from row i on.
fn put_three(page: &mut Cursor, v: usize, i: usize, a: bool, b: bool, c: bool)
    requires { LinesFit page.old.at 3 × (v < number_limit) × (i + 3 ≤ number_limit) }
    ensures { Lines 3 (three_lines v i a b c) page.old page.new }
{
    mps_line::put_unit(page, v, i, a);
    let second = i + 1;
    put_two(page, v, second, b, second + 1, c);
}

// P − p = 0, or where the part goes up, P + p = 1
fn put_pair(page: &mut Cursor, v: usize, i: usize, up: bool, node: u16, p: u16)
    requires { EntriesFit page.old.at v i × (p < node) }
    ensures { Lines plain_lines (lines v i (pair_rows up node p)) page.old page.new }
{
    if v == usize::from(node) {
        return mps_line::put_unit(page, v, i, true);
    }
    if v == usize::from(p) {
        return mps_line::put_unit(page, v, i, up);
    }
}

// A part that is both, of "and" where it goes up and of "or" where it goes down.
fn put_both(page: &mut Cursor, v: usize, i: usize, up: bool)
    requires { EntriesFit page.old.at v i }
    ensures { Lines plain_lines (both_joined v i up) page.old page.new }
{
    mps_line::put_unit(page, v, i, up);
    let second = i + 1;
    mps_line::put_unit(page, v, second, up);
    put_double(page, v, second + 1, !up);
}

// p − P ≥ 0; q − P ≥ 0; P − p − q ≥ −1, or all with the opposite signs and 0 for −1; q is the other part's, or what follows
fn put_joined(page: &mut Cursor, v: usize, i: usize, up: bool, spot: Spot, q: u16)
    requires { EntriesFit page.old.at v i × (spot.left < spot.own) × (q ≡ spot.own → ⊥) }
    ensures { Lines plain_lines (lines v i (join_rows up spot.own spot.left q)) page.old page.new }
{
    if v == usize::from(spot.own) {
        return put_three(page, v, i, !up, !up, up);
    }
    if v == usize::from(spot.left) {
        if v == usize::from(q) {
            return put_both(page, v, i, up);
        }
        return put_two(page, v, i, up, i + 1 + 1, !up);
    }
    if v == usize::from(q) {
        return put_two(page, v, i + 1, up, i + 1 + 1, !up);
    }
}

// P + p ≥ 1; P − q ≥ 0; q − p − P ≥ −1
fn put_implies(page: &mut Cursor, v: usize, i: usize, spot: Spot)
    requires { EntriesFit page.old.at v i × (spot.left < spot.own) × (spot.right < spot.own) }
    ensures { Lines plain_lines (lines v i (implies_rows spot.own spot.left spot.right)) page.old page.new }
{
    let q = usize::from(spot.right);
    if v == usize::from(spot.own) {
        return put_three(page, v, i, true, true, false);
    }
    if v == usize::from(spot.left) {
        if v == q {
            return put_two(page, v, i, true, i + 1, false);
        }
        return put_two(page, v, i, true, i + 1 + 1, false);
    }
    if v == q {
        return put_two(page, v, i + 1, false, i + 1 + 1, true);
    }
}

// A part that is both, of "until".
fn put_both_until(page: &mut Cursor, v: usize, i: usize)
    requires { EntriesFit page.old.at v i }
    ensures { Lines plain_lines (both_until v i) page.old page.new }
{
    mps_line::put_unit(page, v, i, false);
    let second = i + 1;
    put_double(page, v, second, true);
    put_two(page, v, second + 1, true, second + 1 + 1, false);
}

// The node's own variable, of "until".
fn put_own_until(page: &mut Cursor, v: usize, i: usize)
    requires { EntriesFit page.old.at v i }
    ensures { Lines plain_lines (own_until v i) page.old page.new }
{
    mps_line::put_unit(page, v, i, true);
    put_three(page, v, i + 1, false, false, true);
}

// P − q ≥ 0; p + q − P ≥ 0; q + P' − P ≥ 0; P − p − P' ≥ −1
fn put_until(page: &mut Cursor, v: usize, i: usize, spot: Spot, next: u16)
    requires { EntriesFit page.old.at v i × (spot.left < spot.own) × (spot.right < spot.own) × (spot.own < next) }
    ensures { Lines plain_lines (lines v i (until_rows spot.own spot.left spot.right next)) page.old page.new }
{
    let q = usize::from(spot.right);
    if v == usize::from(spot.own) {
        return put_own_until(page, v, i);
    }
    if v == usize::from(next) {
        return put_two(page, v, i + 1 + 1, true, i + 1 + 1 + 1, false);
    }
    if v == usize::from(spot.left) {
        if v == q {
            return put_both_until(page, v, i);
        }
        return put_two(page, v, i + 1, true, i + 1 + 1 + 1, false);
    }
    if v == q {
        return put_three(page, v, i, false, true, true);
    }
}

// The entries of variable v in the rows of a node without a window at a slot, from row i on.
pub fn put_entries(page: &mut Cursor, v: usize, i: usize, spot: Spot)
    requires { EntriesFit page.old.at v i × Ordered spot }
    ensures { Lines plain_lines (lines v i (spot_rows spot [])) page.old page.new }
{
    match spot.kind {
        Kind::Atom => put_pair(page, v, i, false, spot.own, spot.left),
        Kind::Not => put_pair(page, v, i, true, spot.own, spot.left),
        Kind::And => put_joined(page, v, i, true, spot, spot.right),
        Kind::Or => put_joined(page, v, i, false, spot, spot.right),
        Kind::Implies => put_implies(page, v, i, spot),
        Kind::Eventually => match spot.next {
            Some(next) => put_joined(page, v, i, false, spot, next),
            None => put_pair(page, v, i, false, spot.own, spot.left),
        },
        Kind::Always => match spot.next {
            Some(next) => put_joined(page, v, i, true, spot, next),
            None => put_pair(page, v, i, false, spot.own, spot.left),
        },
        Kind::Until => match spot.next {
            Some(next) => put_until(page, v, i, spot, next),
            None => put_pair(page, v, i, false, spot.own, spot.right),
        },
        Kind::Within | Kind::Throughout => {}
    }
}
