// The printed text of row records, written into a page.
#![tactic(auto)]

ghost use Rattle.std.specs.Prelude.{◌≡◌, ◌∷◌, ◌+◌, ◌*◌, ◌/◌, ◌≤◌, ◌<◌, length, get_or};
ghost use Rattle.cursor.specs.Puts.{Puts, Room};
ghost use Rattle.rules.specs.Rows.{signed_in, relation_in, terms_in, row_in, rows_in};
ghost use Rattle.text.specs.Decimal.{decimal, signed_text};
ghost use Rattle.rowlist_text.specs.Sizes.{rows_room};
ghost use Rattle.rowlist_text.specs.RowText.{relation_text, sign_of, terms_text, row_text, rows_text, head_text, Whole};

use cursor::Cursor;
use text::put_decimal;

// The bytes of rows that program rowlist holds, and of their text. Contracts call them `rows_room` and `listing_room`.
pub const ROWS: usize = 65536;

pub const LISTING: usize = 184000;

// `>=` and `=`, by the relation byte of a record: an enum would be made from the byte here and matched here alone.
fn put_relation(page: &mut Cursor, relation: u8)
    requires { Room page.old 2 }
    ensures { Puts (relation_text (relation_in relation)) page.old page.new × (page.new.at ≤ page.old.at + 2) }
{
    if relation == 1 {
        page.put_bytes(b">=");
    } else {
        page.put_byte(b'=');
    }
}

// A signed byte as a whole number.
#[tactic(auto, using(text::proofs::DecimalLaws::below_1000))]
fn put_signed(page: &mut Cursor, b: u8)
    requires { Room page.old 4 }
    ensures { Puts (signed_text (signed_in b)) page.old page.new × (page.new.at ≤ page.old.at + 4) }
{
    let value = b.cast_signed();
    let magnitude = usize::from(value.unsigned_abs());
    if value < 0 {
        page.put_byte(b'-');
        put_decimal(page, magnitude);
        return;
    }
    put_decimal(page, magnitude);
}

// `+` or `-`, by a coefficient byte.
fn sign(b: u8) -> u8
    ensures { result ≡ sign_of (signed_in b) }
{
    if b.cast_signed() < 0 { b'-' } else { b'+' }
}

// A space, the sign and the variable.
#[tactic(auto, using(text::proofs::DecimalLaws::below_100000))]
fn put_term(page: &mut Cursor, coefficient: u8, variable: [u8; 2])
    requires { Room page.old 7 }
    ensures put { Puts (32 ∷ sign_of (signed_in coefficient) ∷ decimal (get_or variable 0 0 + 256 * get_or variable 1 0)) page.old page.new }
    ensures upper_bound { page.new.at ≤ page.old.at + 7 }
{
    page.put([b' ', sign(coefficient)]);
    put_decimal(page, usize::from(u16::from_le_bytes(variable)));
}

// The terms of a record.
fn put_terms(page: &mut Cursor, terms: &[u8])
    requires { 3 * page.old.at + 7 * length terms.now ≤ 3 * length page.old.out.now }
    ensures { Puts (terms_text (terms_in (length terms.now / 3) terms.now)) page.old page.new
        × (3 * page.new.at ≤ 3 * page.old.at + 7 * length terms.now) }
{
    let mut rest = terms;
    while let [coefficient, low, high, tail @ ..] = rest {
        put_term(page, *coefficient, [*low, *high]);
        rest = tail;
    }
}

// The line of row `i`, by its record, which is at the front of `row`.
#[tactic(auto, using(text::proofs::DecimalLaws::below_100000))]
fn put_row(page: &mut Cursor, i: usize, row: &[u8])
    requires { Room page.old (14 + 7 * get_or row.now 3 0) × (i < 100000) × (5 + 3 * get_or row.now 3 0 ≤ length row.now) }
    ensures put { Puts (row_text i (row_in row.now)) page.old page.new }
    ensures upper_bound { page.new.at ≤ page.old.at + 14 + 7 * get_or row.now 3 0 }
{
    put_decimal(page, i);
    page.put_byte(b' ');
    put_relation(page, row[2]);
    page.put_byte(b' ');
    put_signed(page, row[4]);
    put_terms(page, &row[5..5 + 3 * usize::from(row[3])]);
    page.put_byte(b'\n');
}

// The lines of `count` records. "a row is 5 bytes and 3 per term"
pub fn put_rows(page: &mut Cursor, count: usize, rows: &[u8])
    requires rows_bound { (5 * page.old.at + 14 * length rows.now ≤ 5 * length page.old.out.now) × (length rows.now ≤ rows_room) }
    requires whole { Whole count rows.now }
    ensures put { Puts (rows_text 0 (rows_in count rows.now)) page.old page.new }
    ensures result_bound { 5 * page.new.at ≤ 5 * page.old.at + 14 * length rows.now }
{
    let mut rest = rows;
    for i in 0..count {
        put_row(page, i, rest);
        rest = &rest[5 + 3 * usize::from(rest[3])..];
    }
}

// The first line.
#[tactic(auto, using(text::proofs::DecimalLaws::below_100000))]
pub fn put_head(page: &mut Cursor, count: usize, variables: usize)
    requires { (count < 100000) × (variables < 100000) × Room page.old 22 }
    ensures { Puts (head_text count variables) page.old page.new × (page.new.at ≤ page.old.at + 22) }
{
    page.put_bytes(b"rows ");
    put_decimal(page, count);
    page.put_bytes(b" vars ");
    put_decimal(page, variables);
    page.put_byte(b'\n');
}
