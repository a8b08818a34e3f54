// The text of a node where a level is wanted: how many bytes it takes, and putting it behind a cursor.
#![tactic(auto)]

ghost use Rattle.std.specs.Prelude.{◌≡◌, ◌∷◌, ◌+◌, ◌-◌, ◌≤◌, ◌<◌, ltb, length, SomeIff};
ghost use Rattle.rules.specs.TableTest.{record_count};
ghost use Rattle.cursor.specs.Puts.{Puts, Room};
ghost use Rattle.text.specs.Decimal.{decimal};
ghost use Rattle.printer_text.specs.Shown.{span_text};
ghost use Rattle.printer_node.specs.Shapes.{grade_of, node_text, tighter, prefixed, paired, piece, head_text, shape_by, Printable, Shaped, HeadLow};
ghost use Rattle.printer_node.specs.Putting.{Putting};

use cursor::Cursor;
use table::{Kind, Node};

// The levels of the grammar, from the loosest on: an operator between two parts binds as tight as its level.
#[derive(Clone, Copy, Debug, PartialEq, Eq, PartialOrd, Ord)]
pub enum Level {
    Rule,
    Or,
    And,
    Until,
    Single,
}

impl Level {
    // How tight it is: 0 for a Rule, up to 4 for a Single.
    pub fn grade(self) -> usize
        ensures { result ≡ grade_of self }
    {
        self as usize
    }
}

// The two numbers of a window.
#[derive(Clone, Copy, Debug, PartialEq, Eq)]
pub struct Window {
    pub from: usize,
    pub to: usize,
}

// An operator before its part: ! or F or G, with a window or without.
#[derive(Clone, Copy, Debug, PartialEq, Eq)]
pub struct Prefix {
    pub letter: u8,
    pub window: Option<Window>,
    pub child: usize,
}

// An operator between two parts, and its level.
#[derive(Clone, Copy, Debug, PartialEq, Eq)]
pub struct Pair {
    pub left: usize,
    pub right: usize,
    pub sign: u8,
    pub level: Level,
}

// What a node's text is made of.
#[derive(Clone, Copy, Debug, PartialEq, Eq)]
pub enum Shape {
    Leaf(usize),
    Prefixed(Prefix),
    Paired(Pair),
}

// The next tighter level. No level is tighter than a Single.
fn tighter(level: Level) -> Level
    ensures { result ≡ tighter level }
{
    match level {
        Level::Rule => Level::Or,
        Level::Or => Level::And,
        Level::And => Level::Until,
        Level::Until | Level::Single => Level::Single,
    }
}

fn prefixed(letter: u8, child: usize, window: Option<Window>) -> Shape
    ensures { result ≡ prefixed letter child window }
{
    Shape::Prefixed(Prefix {
        letter,
        window,
        child,
    })
}

fn paired(sign: u8, level: Level, left: usize, right: usize) -> Shape
    ensures { result ≡ paired sign level left right }
{
    Shape::Paired(Pair {
        left,
        right,
        sign,
        level,
    })
}

fn shape_of(node: Node) -> Shape
    ensures { result ≡ shape_by node.kind node.left node.right node.from node.to }
{
    let window = Some(Window {
        from: node.from,
        to: node.to,
    });
    match node.kind {
        Kind::Atom => Shape::Leaf(node.left),
        Kind::Not => prefixed(b'!', node.left, None),
        Kind::And => paired(b'&', Level::And, node.left, node.right),
        Kind::Or => paired(b'|', Level::Or, node.left, node.right),
        Kind::Implies => paired(b'>', Level::Rule, node.left, node.right),
        Kind::Eventually => prefixed(b'F', node.left, None),
        Kind::Always => prefixed(b'G', node.left, None),
        Kind::Until => paired(b'U', Level::Until, node.left, node.right),
        Kind::Within => prefixed(b'F', node.left, window),
        Kind::Throughout => prefixed(b'G', node.left, window),
    }
}

// What node n's text is made of.
fn shape_at(table: &[u8], n: usize) -> Shape
    requires { Printable table.now × (n < record_count table.now) }
    ensures { Shaped table.now n result }
{
    shape_of(table::node_at(table, n))
}

// How many digits a number below 100 has.
fn digit_count(n: usize) -> usize
    requires { n < 100 }
    ensures { (result ≡ length (decimal n)) × (result ≤ 2) }
{
    if n < 10 { 1 } else { 2 }
}

// How many bytes an operator before its part has.
fn head_length(x: Prefix) -> usize
    requires { HeadLow x }
    ensures { result ≡ length (head_text x) }
{
    match x.window {
        Some(window) => 4 + digit_count(window.from) + digit_count(window.to),
        None => 1,
    }
}

// Whether an operator of a level stands in brackets where a level of grade k is wanted.
fn bracketed(level: Level, k: usize) -> bool
    ensures { result ≡ ltb (grade_of level) k }
{
    level.grade() < k
}

// How many bytes an operator between two parts has, with the brackets that a level of grade k wants around it.
fn pair_length(level: Level, k: usize) -> usize
    ensures { result ≡ length (piece (ltb (grade_of level) k) 40) + 1 + length (piece (ltb (grade_of level) k) 41) }
{
    if bracketed(level, k) { 3 } else { 1 }
}

// What is left of `room` bytes after node n's text where a level of grade k is wanted, if it fits. A k above 4 asks for what 4 asks.
// No part is looked at once none is left, however long the text is.
// (A chain of operators before a part is gone down in a loop: the compiler makes no jump of a last call whose answer is an option.)
pub fn spend(table: &[u8], n: usize, k: usize, room: usize) -> Option<usize>
    requires { Printable table.now × (n < record_count table.now) }
    ensures { SomeIff result (length (node_text table.now n k) ≤ room) (room - length (node_text table.now n k)) }
{
    let mut at = n;
    let mut grade = k;
    let mut free = room;
    while 0 < free {
        match shape_at(table, at) {
            Shape::Leaf(a) => return free.checked_sub(1 + digit_count(a)),
            Shape::Prefixed(x) => {
                free = free.checked_sub(head_length(x))?;
                at = x.child;
                grade = Level::Single.grade();
            }
            Shape::Paired(x) => {
                let rest = free.checked_sub(pair_length(x.level, grade))?;
                let rest = spend(table, x.left, tighter(x.level).grade(), rest)?;
                return spend(table, x.right, x.level.grade(), rest);
            }
        }
    }
    None
}

// A byte, if it is wanted.
fn put_if(page: &mut Cursor, byte: u8, wanted: bool)
    requires { Room page.old (length (piece wanted byte)) }
    ensures { Puts (piece wanted byte) page.old page.new }
{
    if wanted {
        page.put_byte(byte);
    }
}

fn put_atom(page: &mut Cursor, a: usize)
    requires { Room page.old (length (97 ∷ decimal a)) }
    ensures { Puts (97 ∷ decimal a) page.old page.new }
{
    page.put_byte(b'a');
    text::put_decimal(page, a);
}

// A number below 100. (In line, as `text::put_decimal` is not: the cursor's place then stays in a register.)
#[inline(always)]
fn put_number(page: &mut Cursor, n: usize)
    requires { (n < 100) × Room page.old (length (decimal n)) }
    ensures { Puts (decimal n) page.old page.new }
{
    if n < 10 {
        page.put_byte(b'0' + n as u8);
    } else {
        page.put([b'0' + (n / 10) as u8, b'0' + (n % 10) as u8]);
    }
}

// A window [a,b].
fn put_span(page: &mut Cursor, a: usize, b: usize)
    requires { (a < 100) × (b < 100) × Room page.old (length (span_text a b)) }
    ensures { Puts (span_text a b) page.old page.new }
{
    page.put_byte(b'[');
    put_number(page, a);
    page.put_byte(b',');
    put_number(page, b);
    page.put_byte(b']');
}

// An operator before its part.
#[inline(always)]
fn put_head(page: &mut Cursor, x: Prefix)
    requires { HeadLow x × Room page.old (length (head_text x)) }
    ensures { Puts (head_text x) page.old page.new }
{
    page.put_byte(x.letter);
    if let Some(window) = x.window {
        put_span(page, window.from, window.to);
    }
}

// The same, with a cursor of its own: it stays in registers over the bytes.
fn put_prefix(page: &mut Cursor, x: Prefix)
    requires { HeadLow x × Room page.old (length (head_text x)) }
    ensures { Puts (head_text x) page.old page.new }
{
    let mut head = Cursor {
        out: &mut *page.out,
        at: page.at,
    };
    put_head(&mut head, x);
    page.at = head.at;
}

// Node n's text where a level of grade k is wanted: the printer calls itself on the children, and the node number falls at each call.
pub fn put_node(table: &[u8], n: usize, k: usize, page: &mut Cursor)
    requires { Putting table.now n k page.old }
    ensures { Puts (node_text table.now n k) page.old page.new }
{
    match shape_at(table, n) {
        Shape::Leaf(a) => put_atom(page, a),
        Shape::Prefixed(x) => {
            put_prefix(page, x);
            put_node(table, x.child, Level::Single.grade(), page);
        }
        Shape::Paired(x) => {
            let wanted = bracketed(x.level, k);
            put_if(page, b'(', wanted);
            put_node(table, x.left, tighter(x.level).grade(), page);
            page.put_byte(x.sign);
            put_node(table, x.right, x.level.grade(), page);
            put_if(page, b')', wanted);
        }
    }
}
