// Runs the cases of standard input, one a line.
#![tactic(auto)]

ghost use Rattle.std.specs.Prelude.{◌≤◌, length};

mod calls;

use std::io;
use std::io::Read;

// The most bytes of cases.
const CASES: usize = 1572864;

fn run_lines(rt: &impl Print, text: &[u8]) -> io::Result<()> {
    for line in text.split_inclusive(|byte| *byte == b'\n') {
        calls::run_line(rt, line.strip_suffix(b"\n").unwrap_or(line))?;
    }
    Ok(())
}

// Reads until the space is full; the input's end and a failed read end it. The result is how many bytes were read.
fn read_full<R: Read>(input: &mut R, space: &mut [u8]) -> usize
    ensures { result ≤ length space.new }
{
    let mut done: usize = 0;
    while done < space.len() {
        match input.read(&mut space[done..]) {
            Ok(0) | Err(_) => return done,
            Ok(n) => done += n,
        }
    }
    done
}

fn read_lines(rt: &HostRuntime, space: &mut [u8]) -> io::Result<()> {
    let n = read_full(&mut rt.stdin(), space);
    run_lines(rt, &space[..n])
}

// (A function of its own, so that no other goal has the long buffer in it.)
fn main(rt: HostRuntime) -> io::Result<()> {
    let mut space = [0u8; CASES];
    read_lines(&rt, &mut space)
}
