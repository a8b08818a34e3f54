// The tokens of a rule text, and its windows.
#![tactic(auto)]

ghost use Rattle.std.specs.Prelude.{◌≡◌, ◌+◌, min, ◌≤◌, ◌<◌, length, drop, IfSome, SomeIff};
ghost use Rattle.rules.specs.Reading.Lexer.{start, digits as digit_count, value, atom_at, token_at, number_at, sign_at};
ghost use Rattle.rules.specs.Reading.Parser.{span_at};
ghost use Rattle.reader_lexer.specs.Capped.{capped, number_of, first_at};
ghost use Rattle.reader_lexer.specs.Signs.{sign_from, position_of};
ghost use Rattle.reader_lexer.specs.Spans.{bound_of, cut};

// A sign has its byte, an atom its number, or 255 for all from there on, and each the position past it.
#[derive(Clone, Copy, Debug, PartialEq, Eq)]
pub enum Token {
    Sign { byte: u8, next: usize },
    Atom { number: u8, next: usize },
}

// A window has its two numbers, or 255 for all from there on, and the position past it.
#[derive(Clone, Copy, Debug, PartialEq, Eq)]
pub struct Span {
    pub from: u8,
    pub to: u8,
    pub next: usize,
}

// The number that digits stand for, or 255 for all from there on, and the position past them or past the sign behind them.
#[derive(Clone, Copy, Debug, PartialEq, Eq)]
pub struct Number {
    pub value: u8,
    pub next: usize,
}

// A byte that is no space, and the position past it.
#[derive(Clone, Copy)]
struct First {
    byte: u8,
    next: usize,
}

// The first byte from `at` on that is no space. (Most often it is that at `at`, so the loop comes second.)
#[inline(always)]
fn lead(text: &[u8], at: usize) -> Option<First>
    ensures { SomeIff result (start text.now at < length text.now) (first_at text.now (start text.now at)) }
{
    if at < text.len() && text[at] != b' ' {
        return Some(First {
            byte: text[at],
            next: at + 1,
        });
    }
    for i in at..text.len() {
        if text[i] != b' ' {
            return Some(First {
                byte: text[i],
                next: i + 1,
            });
        }
    }
    None
}

// The first position from `at` on that holds no space.
pub fn skip(text: &[u8], at: usize) -> usize
    ensures { result ≡ start text.now at }
{
    match lead(text, at) {
        Some(first) => first.next - 1,
        None => at.max(text.len()),
    }
}

// The digits from `from` on: their number and where they end.
fn digits(text: &[u8], from: usize) -> Number
    ensures next { result.next ≡ from + digit_count (drop from text.now) }
    ensures value { result.value ≡ min 255 (value 0 (drop from text.now)) }
{
    let mut value: usize = 0;
    for i in from..text.len() {
        let byte = text[i];
        if !byte.is_ascii_digit() {
            return Number {
                value: value as u8,
                next: i,
            };
        }
        value = (10 * value + usize::from(byte - b'0')).min(255);
    }
    Number {
        value: value as u8,
        next: from.max(text.len()),
    }
}

// The digits from `d` on, where they are a decimal number without leading zeros.
#[inline(always)]
fn numeral(text: &[u8], d: usize) -> Option<Number>
    ensures { result ≡ number_of (atom_at text.now d) }
{
    let read = digits(text, d);
    if read.next == d {
        return None;
    }
    if d + 1 < read.next && text[d] == b'0' {
        return None;
    }
    Some(read)
}

// The token at `at`, past the spaces there.
pub fn token_at(text: &[u8], at: usize) -> Option<Token>
    ensures { result ≡ capped (token_at text.now at) }
{
    let first = lead(text, at)?;
    if first.byte != b'a' {
        return Some(Token::Sign {
            byte: first.byte,
            next: first.next,
        });
    }
    let atom = numeral(text, first.next)?;
    Some(Token::Atom {
        number: atom.value,
        next: atom.next,
    })
}

// The number at `at`, past the spaces there.
#[inline(always)]
fn number_at(text: &[u8], at: usize) -> Option<Number>
    ensures { result ≡ number_of (number_at text.now at) }
{
    numeral(text, skip(text, at))
}

// The position past the sign `byte`, where that is the token that begins at `at`.
pub fn sign_at(text: &[u8], at: usize, byte: u8) -> Option<usize>
    requires { byte ≡ 97 → ⊥ }
    ensures past { result ≡ position_of (sign_from text.now at byte) }
    ensures inside { IfSome result (λ next. next ≤ length text.now) }
{
    if at < text.len() && text[at] == byte {
        Some(at + 1)
    } else {
        None
    }
}

// The position past the sign `byte`, where that is the token at `at`, past the spaces there. (In line: with a call of this
// `reader_levels::single` takes 80 bytes of stack at each bracket and sign, and not 48.)
#[inline(always)]
pub fn past(text: &[u8], at: usize, byte: u8) -> Option<usize>
    requires { byte ≡ 97 → ⊥ }
    ensures { result ≡ position_of (sign_at text.now at byte) }
{
    if byte != b' ' && at < text.len() && text[at] == byte {
        return Some(at + 1);
    }
    sign_at(text, skip(text, at), byte)
}

// The number at `at`, and the position past the sign `byte` behind it.
#[inline(always)]
fn bound_at(text: &[u8], at: usize, byte: u8) -> Option<Number>
    requires { byte ≡ 97 → ⊥ }
    ensures { result ≡ bound_of text.now byte (number_at text.now at) }
{
    let number = number_at(text, at)?;
    let next = past(text, number.next, byte)?;
    Some(Number { next, ..number })
}

// The window from the position past its opening bracket: two numbers, a comma behind the first and the closing bracket behind the second.
// The hint, since LLVM takes what stands behind several `?` for rare: without it the reader took a tenth longer.
#[inline(always)]
pub fn span_at(text: &[u8], at: usize) -> Option<Span>
    ensures { result ≡ cut (span_at text.now at) }
{
    let from = bound_at(text, at, b',')?;
    let to = bound_at(text, from.next, b']')?;
    Some(Span {
        from: from.value,
        to: to.value,
        next: to.next,
    })
}
