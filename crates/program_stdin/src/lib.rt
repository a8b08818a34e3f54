// Standard input, scanned until nothing that follows can count.
#![tactic(auto)]

ghost use Rattle.std.specs.Prelude.{length};
ghost use Rattle.program_stdin.specs.Read.{Scanned, Turned};

use program_input::Scan;
use std::io::Read;

// How many bytes are asked for at once.
const CHUNK: usize = 65536;

// Not an `Option`: the contract says that a stop before the input's end is at a settled scan.
#[derive(Clone, Copy, Debug, PartialEq, Eq)]
enum Turn {
    More(Scan),
    Settled,
    End,
}

// Reads some of the input, unless the scan is settled; the input's end and a failed read end it.
fn read_some<R: Read>(input: &mut R, scan: Scan, text: &mut [u8]) -> Turn
    ensures { Turned scan text.old text.new result }
{
    if scan.stage.is_settled() {
        return Turn::Settled;
    }
    let mut buffer = [0u8; CHUNK];
    match input.read(&mut buffer) {
        Ok(0) | Err(_) => Turn::End,
        Ok(n) => Turn::More(scan.feed(&buffer[..n], text)),
    }
}

// Reads the input to its end, or until the scan is settled, so that a program stops at the end of line 2. The scan and the
// text that it keeps stand for some bytes, scanned from the start, and where it is settled for whatever follows them too;
// that these are the input's is not in the contract, which knows nothing of it.
pub fn read_all<R: Read>(input: &mut R, text: &mut [u8]) -> Scan
    ensures { Scanned (length text.old) result text.new }
{
    let mut scan = Scan::start();
    for _ in 0..u64::MAX {
        match read_some(input, scan, text) {
            Turn::More(next) => scan = next,
            Turn::Settled | Turn::End => return scan,
        }
    }
    scan
}
