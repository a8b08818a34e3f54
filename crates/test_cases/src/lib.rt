// A case: the name of a call, numbers with a space before each, and after a colon the bytes of a text or a table.
#![tactic(auto)]

ghost use Rattle.std.specs.Prelude.{◌≡◌, ◌≤◌, length};

use std::array;
use std::slice::Iter;

// How many numbers a line may have, and how many bytes. What goes beyond is dropped.
pub const NUMBERS: usize = 1023;

pub const BYTES: usize = 4096;

// What stands before the colon, and what after it.
fn parts(line: &[u8]) -> (&[u8], &[u8]) {
    match line.iter().position(|byte| *byte == b':') {
        Some(colon) => (&line[..colon], &line[colon + 1..]),
        None => (line, &line[line.len()..]),
    }
}

// A number in two's complement, cut to 64 bits.
fn number(text: &[u8]) -> usize {
    let mut minus = false;
    let mut number: usize = 0;
    for byte in text {
        match *byte {
            b'-' => minus = true,
            digit @ b'0'..=b'9' => {
                let digit = usize::from(digit - b'0');
                let ten = number.wrapping_mul(10);
                number = if minus {
                    ten.wrapping_sub(digit)
                } else {
                    ten.wrapping_add(digit)
                };
            }
            _ => {}
        }
    }
    number
}

// The numbers of a line, and 0 after the last.
#[derive(Debug, Drop)]
pub struct Numbers {
    pub list: [usize; NUMBERS],
    pub count: usize,
    pub ghost few: { count ≤ 1023 },
}

impl Numbers {
    // The numbers before the colon.
    pub fn of(line: &[u8]) -> Numbers {
        let (text, _) = parts(line);
        let words = text.split(|byte| *byte == b' ').skip(1);
        let mut list = [0; NUMBERS];
        for (place, word) in list.iter_mut().zip(words) {
            *place = number(word);
        }
        let count = text.iter().filter(|byte| **byte == b' ').count();
        Numbers {
            list,
            count: count.min(NUMBERS),
        }
    }

    // Where the numbers end that begin at an index: after the last of the line.
    pub fn end(&self, start: usize) -> usize
        requires { start ≤ 1023 }
        ensures { (start ≤ result) × (result ≤ 1023) }
    {
        self.count.max(start)
    }

    // The numbers as those of a run.
    pub fn run(&self) -> [u16; NUMBERS] {
        array::from_fn(|i| (self.list[i] % 65536) as u16)
    }

    // The numbers as figures.
    pub fn figures(&self) -> [i32; NUMBERS] {
        array::from_fn(|i| signed(self.list[i]))
    }

    // Figures that are said as pairs of a count and a figure, from index 4 on; the result is how many.
    pub fn counted(&self, into: &mut [i32]) -> usize
        ensures { result ≤ length into.new }
    {
        let mut n = 0;
        for pair in self.list[4..self.end(4)].chunks_exact(2) {
            let end = n + pair[0].min(into.len() - n);
            into[n..end].fill(signed(pair[1]));
            n = end;
        }
        n
    }
}

// A number of fewer bits from its two's complement; 0 where it is none.
pub fn signed<N: TryFrom<isize> + Default>(number: usize) -> N
where
    N::Error: Drop,
{
    N::try_from(number.cast_signed()).unwrap_or_default()
}

// What a hexadecimal digit in lower case says; 0 past the end.
fn digit(byte: Option<&u8>) -> u8
    ensures { result ≤ 15 }
{
    match byte {
        Some(byte) if *byte < b'a' => *byte % 16,
        Some(byte) => (*byte % 16 + 9) % 16,
        None => 0,
    }
}

// The byte that is said next: `%` and two hexadecimal digits stand for one, every other byte for itself.
fn said(rest: &mut Iter<'_, u8>) -> Option<u8> {
    let byte = *rest.next()?;
    if byte != b'%' {
        return Some(byte);
    }
    let high = digit(rest.next());
    let low = digit(rest.next());
    Some(high * 16 + low)
}

// The bytes after the colon; the result is how many.
pub fn bytes(line: &[u8], into: &mut [u8]) -> usize
    ensures { result ≤ length into.new }
{
    let (_, text) = parts(line);
    let mut rest = text.iter();
    for (i, place) in into.iter_mut().enumerate() {
        match said(&mut rest) {
            Some(byte) => *place = byte,
            None => return i,
        }
    }
    into.len()
}
