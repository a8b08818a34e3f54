// The lines of an MPS page. A line is put where there is room for it, and the cursor then stands after it, with room or without.
#![tactic(auto)]

ghost use Rattle.std.specs.Prelude.{◌≡◌, List, [], ◌∷◌, ◌++◌, ℕ, ◌+◌, ◌*◌, ◌/◌, ◌%◌, ◌≤◌, ◌<◌, nat_abs, length};
ghost use Rattle.cursor.specs.Puts.{Puts, Room};
ghost use Rattle.endian.specs.Words.{little_endian};
ghost use Rattle.text.specs.Decimal.{decimal, signed_text};
ghost use Rattle.text.specs.DecimalLaws.{pair_text};
ghost use Rattle.mps.specs.Page.{type_line, number_line, binary_line, upper_line};
ghost use Rattle.mps_line.specs.Names.{name_text, NameFits};
ghost use Rattle.mps_line.specs.Bounds.{number_limit, line_limit, coefficient_limit, LinesFit};
ghost use Rattle.mps_line.specs.Emitted.{Lines};
ghost use Rattle.mps_line.specs.Fields.{padded, word_field, word_fields};
ghost use Rattle.mps_line.specs.DigitWords.{after};
ghost use Rattle.mps_line.specs.Units.{bit, one, unit_line};

use cursor::Cursor;
use text::put_decimal;

// 2 to the power 56: the words below it have at most seven bytes.
const SEVEN_BYTES: u64 = 1 << 56;

// A word of spaces.
const SPACES: u64 = 0x2020202020202020;

// What stands in a field that names something.
#[derive(Clone, Copy, Debug, PartialEq, Eq)]
pub enum Name {
    Cost,
    Rights,
    Row(usize),
    Variable(usize),
}

// Puts a text of a line's length or less.
pub fn put_text(page: &mut Cursor, text: &[u8])
    requires { LinesFit page.old.at 1 × (length text.now ≤ line_limit) }
    ensures { Lines 1 text.now page.old page.new }
{
    let past = page.at + text.len();
    if page.out.len() < past {
        page.at = past;
        return;
    }
    page.put_bytes(text);
}

// How many digits a number has.
fn digits_in(n: usize) -> usize
    requires { n < number_limit }
    ensures { (result ≡ length (decimal n)) × (result ≤ 6) }
{
    n.max(1).ilog10() as usize + 1
}

fn name_length(name: Name) -> usize
    requires { NameFits name }
    ensures { (result ≡ length (name_text name)) × (result ≤ 7) }
{
    match name {
        Name::Cost => 4,
        Name::Rights => 3,
        Name::Row(i) => 1 + digits_in(i),
        Name::Variable(v) => 1 + digits_in(v),
    }
}

fn signed_length(c: i64) -> usize
    requires { nat_abs c ≤ coefficient_limit }
    ensures { (result ≡ length (signed_text c)) × (result ≤ 7) }
{
    let n = digits_in(c.unsigned_abs() as usize);
    if c < 0 { n + 1 } else { n }
}

// ---- a name as a word

// A word with a byte before its bytes; its last one goes.
fn with_byte(rest: u64, byte: u8) -> u64
    ensures { little_endian 8 result ≡ after (byte ∷ []) rest }
{
    endian::grown(rest % SEVEN_BYTES, byte)
}

// A word with a digit before its bytes.
fn with_digit(rest: u64, d: usize) -> u64
    requires { d < 10 }
    ensures { little_endian 8 result ≡ after ((48 + d) ∷ []) rest }
{
    with_byte(rest, b'0' + d as u8)
}

// A word with the two digits of a number before its bytes.
fn with_pair(rest: u64, n: usize) -> u64
    requires { n < 100 }
    ensures { little_endian 8 result ≡ after (pair_text n) rest }
{
    with_digit(with_digit(rest, n % 10), n / 10)
}

// A word with the digits of a number before its bytes, two at once where it has more than one.
fn with_digits(rest: u64, n: usize) -> u64
    ensures { little_endian 8 result ≡ after (decimal n) rest }
{
    match n {
        0..=9 => with_digit(rest, n),
        10..=99 => with_pair(rest, n),
        _ => with_digits(with_pair(rest, n % 100), n / 100),
    }
}

// A letter and a number, and spaces up to 8 bytes.
fn lettered_word(letter: u8, n: usize) -> u64
    requires { n < number_limit }
    ensures { little_endian 8 result ≡ padded 8 (letter ∷ decimal n) }
{
    with_byte(with_digits(SPACES, n), letter)
}

// A name, and spaces up to 8 bytes.
fn name_word(name: Name) -> u64
    requires { NameFits name }
    ensures { little_endian 8 result ≡ padded 8 (name_text name) }
{
    match name {
        Name::Cost => u64::from_le_bytes(*b"COST    "),
        Name::Rights => u64::from_le_bytes(*b"RHS     "),
        Name::Row(i) => lettered_word(b'R', i),
        Name::Variable(v) => lettered_word(b'X', v),
    }
}

// ---- what a line is made of, put where there is room

// A field of ten columns: the 8 bytes of a name's word, and two spaces.
fn put_field(page: &mut Cursor, w: u64)
    requires { Room page.old 10 }
    ensures { Puts (word_field w) page.old page.new }
{
    page.put(w.to_le_bytes());
    page.put(*b"  ");
}

// Four spaces, and two fields.
fn put_fields(page: &mut Cursor, first: u64, second: u64)
    requires { Room page.old 24 }
    ensures { Puts (word_fields first second) page.old page.new }
{
    page.put(*b"    ");
    put_field(page, first);
    put_field(page, second);
}

// A letter and a number.
fn put_lettered(page: &mut Cursor, letter: u8, n: usize)
    requires { Room page.old (1 + length (decimal n)) }
    ensures { Puts (letter ∷ decimal n) page.old page.new }
{
    page.put_byte(letter);
    put_decimal(page, n);
}

fn put_name(page: &mut Cursor, name: Name)
    requires { Room page.old (length (name_text name)) }
    ensures { Puts (name_text name) page.old page.new }
{
    match name {
        Name::Cost => page.put(*b"COST"),
        Name::Rights => page.put(*b"RHS"),
        Name::Row(i) => put_lettered(page, b'R', i),
        Name::Variable(v) => put_lettered(page, b'X', v),
    }
}

fn put_signed(page: &mut Cursor, c: i64)
    requires { Room page.old (length (signed_text c)) × (nat_abs c ≤ coefficient_limit) }
    ensures { Puts (signed_text c) page.old page.new }
{
    let n = c.unsigned_abs() as usize;
    if c < 0 {
        page.put_byte(b'-');
        put_decimal(page, n);
        return;
    }
    put_decimal(page, n);
}

// ---- the lines

// A row's type and name.
pub fn put_type_line(page: &mut Cursor, letter: u8, name: Name)
    requires { LinesFit page.old.at 1 × NameFits name }
    ensures { Lines 1 (type_line (letter ∷ []) (name_text name)) page.old page.new }
{
    let past = page.at + 5 + name_length(name);
    if page.out.len() < past {
        page.at = past;
        return;
    }
    page.put([b' ', letter, b' ', b' ']);
    put_name(page, name);
    page.put_byte(b'\n');
}

// A name, a row and a number.
pub fn put_number_line(page: &mut Cursor, name: Name, row: Name, c: i64)
    requires { LinesFit page.old.at 1 × NameFits name × NameFits row × (nat_abs c ≤ coefficient_limit) }
    ensures { Lines 1 (number_line (name_text name) (name_text row) c) page.old page.new }
{
    let past = page.at + 25 + signed_length(c);
    if page.out.len() < past {
        page.at = past;
        return;
    }
    put_fields(page, name_word(name), name_word(row));
    put_signed(page, c);
    page.put_byte(b'\n');
}

// The length of a line with 1 or −1.
fn unit_length(up: bool) -> usize
    ensures { (result + bit up ≡ 27) × (26 ≤ result) × (result ≤ 27) }
{
    if up { 26 } else { 27 }
}

// 1 or −1, and the line's end.
fn put_one(page: &mut Cursor, up: bool)
    requires { page.old.at + 3 ≤ length page.old.out.now + bit up }
    ensures { Puts (signed_text (one up) ++ (10 ∷ [])) page.old page.new }
{
    if up {
        page.put(*b"1\n");
    } else {
        page.put(*b"-1\n");
    }
}

// A variable, a row and 1 or −1.
pub fn put_unit(page: &mut Cursor, v: usize, i: usize, up: bool)
    requires { LinesFit page.old.at 1 × (v < number_limit) × (i < number_limit) }
    ensures { Lines 1 (unit_line v i up) page.old page.new }
{
    let past = page.at + unit_length(up);
    if page.out.len() < past {
        page.at = past;
        return;
    }
    put_fields(page, lettered_word(b'X', v), lettered_word(b'R', i));
    put_one(page, up);
}

// The bound of an atom's variable.
pub fn put_binary_line(page: &mut Cursor, v: usize)
    requires { LinesFit page.old.at 1 × (v < number_limit) }
    ensures { Lines 1 (binary_line v) page.old page.new }
{
    let past = page.at + 16 + digits_in(v);
    if page.out.len() < past {
        page.at = past;
        return;
    }
    page.put(*b" BV BND       ");
    put_lettered(page, b'X', v);
    page.put_byte(b'\n');
}

// The bound of a slack. (Its name has spaces behind it and a number; an atom's has not: one function for both would be no plainer.)
pub fn put_upper_line(page: &mut Cursor, v: usize)
    requires { LinesFit page.old.at 1 × (v < number_limit) }
    ensures { Lines 1 (upper_line v) page.old page.new }
{
    let past = page.at + 26;
    if page.out.len() < past {
        page.at = past;
        return;
    }
    page.put(*b" UP BND       ");
    put_field(page, lettered_word(b'X', v));
    page.put(*b"1\n");
}
