// A rule's phrase and its records: five levels of the grammar that call each other in a cycle.
#![tactic(auto)]

ghost use Rattle.std.specs.Prelude.{◌≡◌, ◌||◌, ◌+◌, ◌*◌, ◌-◌, max, ◌≤◌, length};
ghost use Rattle.rules.specs.Quantities.{text_limit};
ghost use Rattle.rules.specs.Reading.Parser.{parsed, unary_of};
ghost use Rattle.table.specs.Nodes.{byte_of};
ghost use Rattle.reader_levels.specs.Records.{window_flaw, entry};
ghost use Rattle.reader_levels.specs.Steps.{rule_level, or_level, and_level, until_level, single_level, Ready, Wrote, Yields, Room};
ghost use Rattle.reader_levels.specs.Steps.{WroteOver, WroteAbove, joined, applied, prefix_kind, opened, windowed, closed};
ghost use Rattle.reader_levels.specs.Phrase.{phrase, view, views};

use reader_lexer::Token;
use table::Kind;

// What a part's nodes, height, highest atom number and flaw count in its code.
const NODES: u64 = 65536;

const HEIGHT: u64 = 4294967296;

const TOP: u64 = 281474976710656;

const FLAW: u64 = 72057594037927936;

// A phrase whose next token begins at `next`: `nodes` nodes are written so far, `top` is the phrase's highest atom number, or 255
// for all from there on, `flaw` is whether one of its windows is not allowed, and `height` is its height.
// They are one number, which the levels take in a register, and return in one beside that of the option.
// Tried: five fields come back through memory, 9 to 19% slower than the number at 1,024 bytes; the bar is 1.25 times Rust.
#[derive(Clone, Copy, Debug, PartialEq, Eq)]
pub struct Part {
    code: u64,
}

impl Part {
    fn new(next: u16, nodes: u16, top: u8, flaw: bool, height: u16) -> Part
        ensures { view result ≡ phrase next nodes top flaw height }
    {
        let counts = u64::from(next) + u64::from(nodes) * NODES + u64::from(height) * HEIGHT;
        Part {
            code: counts + u64::from(top) * TOP + u64::from(flaw) * FLAW,
        }
    }

    pub fn next(self) -> u16
        ensures { result ≡ (view self).next }
    {
        (self.code % NODES) as u16
    }

    pub fn nodes(self) -> u16
        ensures { result ≡ (view self).nodes }
    {
        (self.code / NODES % 65536) as u16
    }

    pub fn top(self) -> u8
        ensures { result ≡ (view self).top }
    {
        (self.code / TOP % 256) as u8
    }

    pub fn flaw(self) -> bool
        ensures { result ≡ (view self).flaw }
    {
        self.code / FLAW == 1
    }

    pub fn height(self) -> u16
        ensures { result ≡ (view self).height }
    {
        (self.code / HEIGHT % 65536) as u16
    }

    // The same part, where its next token begins at `next`.
    fn moved(self, next: u16) -> Part
        ensures { view result ≡ phrase next (view self).nodes (view self).top (view self).flaw (view self).height }
    {
        Part {
            code: self.code / NODES * NODES + u64::from(next),
        }
    }

    // The part under one node more, with a flaw where `flaw` says so. Its position and its highest atom number stay where they are in the code.
    fn under(self, flaw: bool) -> Part
        requires { Room (view self) }
        ensures { view result ≡ phrase (view self).next ((view self).nodes + 1) (view self).top ((view self).flaw || flaw) ((view self).height + 1) }
    {
        let over = self.code + NODES + HEIGHT;
        let code = if flaw && !self.flaw() {
            over % FLAW + FLAW
        } else {
            over
        };
        Part { code }
    }
}

// "when a is above b or b above 63"
fn outside(from: u8, to: u8) -> bool
    ensures { result ≡ window_flaw from to }
{
    to < from || 63 < to
}

// What stands behind the mark of a node's record.
#[derive(Clone, Copy)]
struct Entry {
    kind: Kind,
    left: u16,
    right: u16,
    from: u8,
    to: u8,
    height: u16,
}

// Writes node `n`'s record, where it is one of the first 128: the records of a rule with more are not wanted.
fn put(out: &mut [u8; 1024], n: u16, e: Entry)
    ensures { Wrote out.old (8 * n) (entry (byte_of e.kind) e.left e.right e.from e.to e.height) out.new }
{
    if 128 <= n {
        return;
    }
    let i = 8 * usize::from(n);
    let mark = table::MARK;
    out[i] = mark[0];
    out[i + 1] = mark[1];
    out[i + 2] = u8::from(e.kind);
    out[i + 3] = (e.left % 256) as u8;
    out[i + 4] = (e.right % 256) as u8;
    out[i + 5] = e.from;
    out[i + 6] = e.to;
    out[i + 7] = (e.height % 256) as u8;
}

// Writes the record of an atom as node `n`'s.
fn put_atom(out: &mut [u8; 1024], n: u16, number: u8)
    ensures { Wrote out.old (8 * n) (entry 1 number 0 0 0 0) out.new }
{
    let atom = Entry {
        kind: Kind::Atom,
        left: u16::from(number),
        right: 0,
        from: 0,
        to: 0,
        height: 0,
    };
    put(out, n, atom);
}

// The node over two parts.
fn join(out: &mut [u8; 1024], kind: Kind, left: Part, right: Part) -> Part
    requires { Room (view left) × Room (view right) }
    ensures part { view result ≡ joined (view left) (view right) }
    ensures wrote { WroteOver out.old (byte_of kind) (view left) (view right) out.new }
{
    let height = left.height().max(right.height()) + 1;
    let node = Entry {
        kind,
        left: left.nodes() - 1,
        right: right.nodes() - 1,
        from: 0,
        to: 0,
        height,
    };
    put(out, right.nodes(), node);
    let top = left.top().max(right.top());
    let flaw = left.flaw() || right.flaw();
    Part::new(right.next(), right.nodes() + 1, top, flaw, height)
}

// The node over one part, with its window, or 0 and 0.
// The hint, since LLVM takes what stands behind several `?` for rare: without it the reader took a tenth longer.
#[inline(always)]
fn cap(out: &mut [u8; 1024], kind: Kind, from: u8, to: u8, inner: Part) -> Part
    requires { Room (view inner) }
    ensures part { view result ≡ applied from to (view inner) }
    ensures wrote { WroteAbove out.old (byte_of kind) from to (view inner) out.new }
{
    let node = Entry {
        kind,
        left: inner.nodes() - 1,
        right: 0,
        from,
        to,
        height: inner.height() + 1,
    };
    put(out, inner.nodes(), node);
    inner.under(outside(from, to))
}

// The kind of an operator of one side.
fn prefix_kind(byte: u8) -> Option<Kind>
    ensures { result ≡ prefix_kind (unary_of byte) }
{
    match byte {
        b'!' => Some(Kind::Not),
        b'F' => Some(Kind::Eventually),
        b'G' => Some(Kind::Always),
        _ => None,
    }
}

// The kind of the operator F or G with a window.
fn windowed(byte: u8) -> Kind
    ensures { result ≡ windowed byte }
{
    if byte == b'F' {
        Kind::Within
    } else {
        Kind::Throughout
    }
}

// The position past the opening bracket of a window behind F or G. There is none behind the sign of not.
fn opening(text: &[u8], at: usize, byte: u8) -> Option<usize>
    ensures { result ≡ opened byte text.now at }
{
    if byte == b'!' {
        None
    } else {
        reader_lexer::past(text, at, b'[')
    }
}

// The part in a bracket, with the position of the token past the closing one.
fn close(text: &[u8], inner: Part) -> Option<Part>
    requires { length text.now ≤ text_limit }
    ensures { views result ≡ closed text.now (view inner) }
{
    let past = reader_lexer::sign_at(text, usize::from(inner.next()), b')')?;
    let next = reader_lexer::skip(text, past) as u16;
    Some(inner.moved(next))
}

// Rule: Or, or Or > Rule. The levels are five functions, one for each level of the grammar, as the paper asks. They pass the text on by a
// reference to the slice, and go on from a part, of which they take the position and the nodes so far: each has both in a register.
#[cycle(and_or_rule_single_until)]
fn rule(text: &&[u8], from: Part, out: &mut [u8; 1024]) -> Option<Part>
    requires { Ready text.now.now (view from).next (view from).nodes }
    ensures { Yields text.now.now (parsed rule_level text.now.now (view from).next) (view from).nodes out.old out.new (views result) }
{
    let left = or(text, from, out)?;
    let Some(after) = reader_lexer::sign_at(*text, usize::from(left.next()), b'>') else {
        return Some(left);
    };
    let right = rule(text, left.moved(after as u16), out)?;
    Some(join(out, Kind::Implies, left, right))
}

// Or: And, or And | Or.
#[cycle(and_or_rule_single_until)]
fn or(text: &&[u8], from: Part, out: &mut [u8; 1024]) -> Option<Part>
    requires { Ready text.now.now (view from).next (view from).nodes }
    ensures { Yields text.now.now (parsed or_level text.now.now (view from).next) (view from).nodes out.old out.new (views result) }
{
    let left = and(text, from, out)?;
    let Some(after) = reader_lexer::sign_at(*text, usize::from(left.next()), b'|') else {
        return Some(left);
    };
    let right = or(text, left.moved(after as u16), out)?;
    Some(join(out, Kind::Or, left, right))
}

// And: Until, or Until & And.
#[cycle(and_or_rule_single_until)]
fn and(text: &&[u8], from: Part, out: &mut [u8; 1024]) -> Option<Part>
    requires { Ready text.now.now (view from).next (view from).nodes }
    ensures { Yields text.now.now (parsed and_level text.now.now (view from).next) (view from).nodes out.old out.new (views result) }
{
    let left = until(text, from, out)?;
    let Some(after) = reader_lexer::sign_at(*text, usize::from(left.next()), b'&') else {
        return Some(left);
    };
    let right = and(text, left.moved(after as u16), out)?;
    Some(join(out, Kind::And, left, right))
}

// Until: Single, or Single U Until.
#[cycle(and_or_rule_single_until)]
fn until(text: &&[u8], from: Part, out: &mut [u8; 1024]) -> Option<Part>
    requires { Ready text.now.now (view from).next (view from).nodes }
    ensures { Yields text.now.now (parsed until_level text.now.now (view from).next) (view from).nodes out.old out.new (views result) }
{
    let at = usize::from(from.next());
    let n = from.nodes();
    let left = single(text, at, n, out)?;
    let Some(after) = reader_lexer::sign_at(*text, usize::from(left.next()), b'U') else {
        return Some(left);
    };
    let right = until(text, left.moved(after as u16), out)?;
    Some(join(out, Kind::Until, left, right))
}

// Single: ! Single, or F Single, or G Single, or an atom, or ( Rule ); or F or G with a window and a Single.
#[cycle(and_or_rule_single_until)]
fn single(text: &&[u8], at: usize, n: u16, out: &mut [u8; 1024]) -> Option<Part>
    requires { Ready text.now.now at n }
    ensures { Yields text.now.now (parsed single_level text.now.now at) n out.old out.new (views result) }
{
    let token = reader_lexer::token_at(*text, at)?;
    match token {
        Token::Atom { number, next } => {
            put_atom(out, n, number);
            let end = reader_lexer::skip(*text, next) as u16;
            Some(Part::new(end, n + 1, number, false, 0))
        }
        Token::Sign { byte, next } => {
            if byte == b'(' {
                let inner = rule(text, Part::new(next as u16, n, 0, false, 0), out)?;
                return close(*text, inner);
            }
            let kind = prefix_kind(byte)?;
            let Some(open) = opening(*text, next, byte) else {
                let inner = single(text, next, n, out)?;
                return Some(cap(out, kind, 0, 0, inner));
            };
            let window = reader_lexer::span_at(*text, open)?;
            let inner = single(text, window.next, n, out)?;
            Some(cap(out, windowed(byte), window.from, window.to, inner))
        }
    }
}

// The phrase that the text begins with.
pub fn whole(text: &[u8], out: &mut [u8; 1024]) -> Option<Part>
    requires { length text.now ≤ text_limit }
    ensures { Yields text.now (parsed rule_level text.now 0) 0 out.old out.new (views result) }
{
    rule(&text, Part::new(0, 0, 0, false, 0), out)
}
