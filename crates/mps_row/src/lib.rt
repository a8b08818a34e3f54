// The lines of rows on an MPS page: in ROWS, in RHS, or in the column of a variable.
#![tactic(auto)]

ghost use Rattle.std.specs.Prelude.{◌≡◌, cond, ◌+◌, ◌*◌, ◌≤◌, ◌<◌, eqb, pos, nat_abs};
ghost use Rattle.mps.specs.Merged.{coefficient};
ghost use Rattle.mps.specs.Page.{number_unless_zero};
ghost use Rattle.row.specs.Meaning.{relation_of, terms_of, row_of};
ghost use Rattle.mps_line.specs.Bounds.{number_limit, LinesFit};
ghost use Rattle.mps_line.specs.Names.{name_text, NameFits};
ghost use Rattle.mps_line.specs.Emitted.{Lines};
ghost use Rattle.row.specs.Placed.{Placed};
ghost use Rattle.mps_row.specs.Spots.{spot_at};
ghost use Rattle.mps_row.specs.Texts.{type_letter, line_of, TextFits};

use cursor::Cursor;
use mps_line::Name;
use row::{Block, Relation, Row, Term, Terms};
use table::Kind;

// Which line a row gives: its type, its right side, or the entry of a variable's column.
#[derive(Clone, Copy, Debug, PartialEq, Eq)]
pub enum Text {
    Typed,
    Right,
    Entry(usize),
}

// A block at a slot: its variable there, its parts', and that of what follows, where something does.
#[derive(Clone, Copy, Debug, PartialEq, Eq)]
pub struct Spot {
    pub kind: Kind,
    pub own: u16,
    pub left: u16,
    pub right: u16,
    pub next: Option<u16>,
}

// A block at slot s + 1 of t.
pub fn spot_of(block: Block, t: u16, s: u16) -> Spot
    requires { (s < t) × (t ≤ 64) × Placed block }
    ensures { result ≡ spot_at t block s }
{
    let own = block.own + s;
    Spot {
        kind: block.kind,
        own,
        left: block.left + s,
        right: block.right + s,
        next: if s + 1 < t { Some(own + 1) } else { block.next },
    }
}

// A term's coefficient, where it is of this variable.
fn term_in(t: Term, v: usize) -> i64
    ensures { (result ≡ cond (eqb t.variable v) t.coefficient (pos 0)) × (nat_abs result ≤ 128) }
{
    if usize::from(t.variable) == v {
        i64::from(t.coefficient)
    } else {
        0
    }
}

// The coefficients of a variable in a row, added together.
pub fn coefficient_in(terms: Terms, v: usize) -> i64
    ensures { (result ≡ coefficient v (terms_of terms)) × (nat_abs result ≤ 3 * 128) }
{
    match terms {
        Terms::Single(a) => term_in(a, v),
        Terms::Pair(a, b) => term_in(a, v) + term_in(b, v),
        Terms::Triple(a, b, c) => term_in(a, v) + (term_in(b, v) + term_in(c, v)),
    }
}

// A row's type.
fn letter(relation: Relation) -> u8
    ensures { result ≡ type_letter (relation_of relation) }
{
    match relation {
        Relation::AtLeast => b'G',
        Relation::Equal => b'E',
    }
}

// A line with the number c of row i, unless it is 0.
fn put_unless_zero(page: &mut Cursor, name: Name, i: usize, c: i64)
    requires { LinesFit page.old.at 1 × NameFits name × (i < number_limit) × (nat_abs c ≤ 3 * 128) }
    ensures { Lines 1 (number_unless_zero (name_text name) i c) page.old page.new }
{
    if c == 0 {
        return;
    }
    mps_line::put_number_line(page, name, Name::Row(i), c);
}

// The line of row i.
pub fn put_row(page: &mut Cursor, text: Text, i: usize, row: Row)
    requires { LinesFit page.old.at 1 × TextFits text × (i < number_limit) }
    ensures { Lines 1 (line_of text i (row_of row)) page.old page.new }
{
    match text {
        Text::Typed => mps_line::put_type_line(page, letter(row.relation), Name::Row(i)),
        Text::Right => put_unless_zero(page, Name::Rights, i, i64::from(row.right)),
        Text::Entry(v) => {
            put_unless_zero(page, Name::Variable(v), i, coefficient_in(row.terms, v))
        }
    }
}
