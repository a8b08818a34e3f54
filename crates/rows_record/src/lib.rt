// The records of rows.
#![tactic(auto)]

ghost use Rattle.std.specs.Prelude.{◌≡◌, [], ◌∷◌, ◌++◌, ◌+◌, ◌*◌, ◌≤◌, ◌<◌, length};
ghost use Rattle.cursor.specs.Puts.{Puts, Room};
ghost use Rattle.rules.specs.Rows.{relation_byte, signed_byte, term_bytes};
ghost use Rattle.row.specs.Meaning.{relation_of, term_of};
ghost use Rattle.endian.specs.Words.{little_endian, two_bytes};
ghost use Rattle.rows_record.specs.Records.{term_limit, head_bytes, head_of, record_of};

use cursor::Cursor;
use row::{Relation, Row, Term, Terms};

// The mark of a row record.
const MARK: [u8; 2] = *b"RW";

fn relation_byte(relation: Relation) -> u8
    ensures { result ≡ relation_byte (relation_of relation) }
{
    match relation {
        Relation::AtLeast => 1,
        Relation::Equal => 2,
    }
}

// A signed number as a byte, two's complement.
fn signed_byte(x: i8) -> u8
    ensures { result ≡ signed_byte x }
{
    x.cast_unsigned()
}

// A term's 3 bytes.
fn term_bytes(term: Term) -> [u8; 3]
    ensures { result ≡ term_bytes (term_of term) }
{
    let [low, high] = term.variable.to_le_bytes();
    [signed_byte(term.coefficient), low, high]
}

// A term's 3 bytes as a word.
fn term_word(term: Term) -> u64
    ensures { (little_endian 3 result ≡ term_bytes (term_of term)) × (result < term_limit) }
{
    u64::from(signed_byte(term.coefficient)) + (u64::from(term.variable) << 8)
}

// The last 8 bytes of a record of two terms as a word: its count and right side, and both terms.
fn pair_word(right: u8, a: Term, b: Term) -> u64
    ensures { little_endian 8 result ≡ 2 ∷ right ∷ (term_bytes (term_of a) ++ term_bytes (term_of b)) }
{
    2 + (u64::from(right) << 8) + (term_word(a) << 16) + (term_word(b) << 40)
}

// The last 8 bytes of a record of three terms as a word: the first term's variable, and the other terms.
fn triple_word(a: Term, b: Term, c: Term) -> u64
    ensures { little_endian 8 result ≡ two_bytes a.variable ++ (term_bytes (term_of b) ++ term_bytes (term_of c)) }
{
    u64::from(a.variable) + (term_word(b) << 16) + (term_word(c) << 40)
}

// Puts a term.
pub fn put_term(out: &mut Cursor, t: Term)
    requires { Room out.old 3 }
    ensures { Puts (term_bytes (term_of t)) out.old out.new }
{
    out.put(term_bytes(t));
}

// Puts the bytes of a record before its terms.
#[tactic(auto, unfolding(crate::specs::Records::head_of))]
pub fn put_head(out: &mut Cursor, relation: Relation, count: u8, right: i8)
    requires { Room out.old 5 }
    ensures { Puts (head_of relation count right) out.old out.new }
{
    let relation = relation_byte(relation);
    let right = signed_byte(right);
    out.put([MARK[0], MARK[1], relation, count, right]);
}

// Puts the 8 bytes of a record of one term.
fn put_single(out: &mut Cursor, relation: u8, right: u8, a: Term)
    requires { Room out.old 8 }
    ensures { Puts (head_bytes relation 1 right ++ term_bytes (term_of a)) out.old out.new }
{
    out.put([MARK[0], MARK[1], relation, 1, right]);
    put_term(out, a);
}

// Puts the 11 bytes of a record of two terms, both variables in one word.
fn put_pair(out: &mut Cursor, relation: u8, right: u8, a: Term, b: Term)
    requires { Room out.old 11 }
    ensures { Puts (head_bytes relation 2 right ++ (term_bytes (term_of a) ++ term_bytes (term_of b))) out.old out.new }
{
    let word = pair_word(right, a, b);
    out.put([MARK[0], MARK[1], relation]);
    out.put(word.to_le_bytes());
}

// Puts the 14 bytes of a record of three terms, all variables in one word.
fn put_triple(out: &mut Cursor, relation: u8, right: u8, a: Term, b: Term, c: Term)
    requires { Room out.old 14 }
    ensures { Puts (head_bytes relation 3 right ++ (term_bytes (term_of a) ++ (term_bytes (term_of b) ++ term_bytes (term_of c))))
        out.old out.new }
{
    let sign = signed_byte(a.coefficient);
    let word = triple_word(a, b, c);
    out.put([MARK[0], MARK[1], relation, 3, right, sign]);
    out.put(word.to_le_bytes());
}

// Puts a row's record. (In line, so that no row is made in memory.)
#[inline(always)]
#[tactic(auto, unfolding(crate::specs::Records::record_of))]
pub fn put_row(out: &mut Cursor, row: Row)
    requires { Room out.old (length (record_of row)) }
    ensures { Puts (record_of row) out.old out.new }
{
    let relation = relation_byte(row.relation);
    let right = signed_byte(row.right);
    match row.terms {
        Terms::Single(a) => put_single(out, relation, right, a),
        Terms::Pair(a, b) => put_pair(out, relation, right, a, b),
        Terms::Triple(a, b, c) => put_triple(out, relation, right, a, b, c),
    }
}
