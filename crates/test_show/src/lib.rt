// What is printed: answers, and what a lent buffer holds.
#![tactic(auto)]

ghost use Rattle.std.specs.Prelude.{◌≤◌, length};

use answers::Refusal;
use judge::Verdict;
use std::io;

// What a lent buffer holds before the call, in each byte and in each word.
pub const FILL: u8 = 254;

pub const FILL_WORD: u64 = 0xfefefefefefefefe;

// What is longer is printed as its length and a checksum.
const LONG: usize = 1000;

fn refusal(rt: &impl Print, refusal: Refusal) -> io::Result<()> {
    println!(rt; "refused {}", u32::from(refusal))
}

pub fn answer(rt: &impl Print, answer: Result<usize, Refusal>) -> io::Result<()> {
    match answer {
        Ok(n) => println!(rt; "value {n}"),
        Err(r) => refusal(rt, r),
    }
}

pub fn ruling(rt: &impl Print, ruling: Result<Verdict, Refusal>) -> io::Result<()> {
    match ruling {
        Ok(Verdict::Outside(v)) => println!(rt; "outside {v}"),
        Ok(Verdict::NotBinary(v)) => println!(rt; "not binary {v}"),
        Ok(Verdict::Broken { shortfall, row }) if shortfall < 0 => println!(rt;
            "broken {row} below 0"
        ),
        Ok(Verdict::Broken { shortfall, row }) => println!(rt;
            "broken {row} shortfall {shortfall}"
        ),
        Ok(Verdict::Passed { rows, error }) => println!(rt; "passed {rows} error {error}"),
        Err(r) => refusal(rt, r),
    }
}

fn hexadecimal(rt: &impl Print, bytes: &[u8]) -> io::Result<()> {
    for byte in bytes {
        print!(rt; "{byte:02x}")?;
    }
    Ok(())
}

// FNV-1a of 64 bits.
fn checksum(bytes: &[u8]) -> u64 {
    bytes.iter().fold(
        0xcbf29ce484222325,
        |sum, byte| (sum ^ u64::from(*byte)).wrapping_mul(0x100000001b3),
    )
}

// The length without the fill at the end.
fn used<W: Copy + PartialEq>(buffer: &[W], fill: W) -> usize
    ensures { result ≤ length buffer.now }
{
    buffer
        .iter()
        .rposition(|w| *w != fill)
        .map_or(0, |last| last + 1)
}

// Bytes as text or in hexadecimal, or where they are many their length and checksum.
fn part(rt: &impl Print, bytes: &[u8], is_text: bool) -> io::Result<()> {
    if LONG < bytes.len() {
        print!(rt; "{} bytes, sum {:016x}", bytes.len(), checksum(bytes))
    } else if is_text {
        rt.write_all(bytes)
    } else {
        hexadecimal(rt, bytes)
    }
}

// The line of a case likewise.
pub fn case(rt: &impl Print, line: &[u8]) -> io::Result<()> {
    part(rt, line, true)?;
    println!(rt)
}

// What a buffer holds, the fill at its end as `~` and its length.
pub fn buffer(rt: &impl Print, bytes: &[u8], is_text: bool) -> io::Result<()> {
    let n = used(bytes, FILL);
    part(rt, &bytes[..n], is_text)?;
    println!(rt; "~{}", bytes.len() - n)
}

// A slot's number, or that there is none, with a space before.
pub fn slot(rt: &impl Print, slot: Option<usize>) -> io::Result<()> {
    match slot {
        Some(t) => print!(rt; " {t}"),
        None => print!(rt; " none"),
    }
}

fn first_slots(rt: &impl Print, words: &[u64]) -> io::Result<()> {
    print!(rt; "first slots")?;
    for word in words {
        slot(rt, evaluator::first_slot(*word))?;
    }
    println!(rt)
}

// What a buffer of words holds, in hexadecimal with a space before each, the fill at its end as `~` and its length; and the
// first slots of what was written.
pub fn word_buffer(rt: &impl Print, buffer: &[u64]) -> io::Result<()> {
    let n = used(buffer, FILL_WORD);
    print!(rt; "words")?;
    for word in &buffer[..n] {
        print!(rt; " {word:x}")?;
    }
    println!(rt; "~{}", buffer.len() - n)?;
    if 0 < n {
        first_slots(rt, &buffer[..n])
    } else {
        Ok(())
    }
}
