// The call that a line asks for: made, and printed with its answer and with what the whole lent buffer then holds.
// Calls go by the first letter of their name. Of a call that writes, the first number is the length of the buffer lent, of evaluate in words.
ghost use Rattle.std.specs.Prelude.{◌≤◌, ◌+◌, nat_abs, length};
ghost use Rattle.millionths.specs.Bounds as Bounds;

use answers::Refusal;
use judge_sums::{RowSum, WindowKind};
use millionths::Millionths;
use row::{Term, Terms};
use std::io;
use test_cases::{Numbers, signed};
use test_show::{FILL, FILL_WORD};

// The length of a lent buffer's guard, and of all that can be lent, in bytes and in words.
const GUARD: usize = 8;

const LARGEST: usize = 4194304;

const MOST_WORDS: usize = 512;

// The most figures of a table, and of a window's row.
const FIGURES: usize = 17344;

const SLOTS: usize = 64;

// A call that writes bytes.
#[derive(Clone, Copy, Debug, PartialEq, Eq)]
enum Writer {
    Reader,
    Rows,
    Mps,
    Printer,
}

impl Writer {
    // read ROOM M:TEXT, write ROOM T M L:TABLE, mps ROOM T M L:TABLE, print ROOM M:TABLE
    fn call(self, numbers: &Numbers, bytes: &[u8], out: &mut [u8]) -> Result<usize, Refusal> {
        let list = &numbers.list;
        match self {
            Writer::Reader => reader::read(bytes, list[1], out),
            Writer::Rows => rows::write_rows(bytes, list[1], list[2], list[3], out),
            Writer::Mps => mps_page::mps_page(bytes, list[1], list[2], list[3], out),
            Writer::Printer => printer::print(bytes, list[1], out),
        }
    }

    fn writes_text(self) -> bool {
        matches!(self, Writer::Mps | Writer::Printer)
    }
}

// Lends as much room as is asked for, or all there is, for a call, and prints the answer; the result is all of the room with
// its guard.
fn lend<'a, W, C>(rt: &impl Print, room: usize, space: &'a mut [W], call: C) -> io::Result<&'a [W]>
where
    C: FnOnce(&mut [W]) -> Result<usize, Refusal>,
    requires { C.IsAlwaysCallable call }
{
    let end = room.saturating_add(GUARD).min(space.len());
    let lent = &mut space[..end];
    let answer = call(&mut lent[..end.saturating_sub(GUARD)]);
    test_show::answer(rt, answer)?;
    Ok(lent)
}

fn write_in(
    rt: &impl Print,
    writer: Writer,
    numbers: &Numbers,
    bytes: &[u8],
    space: &mut [u8],
) -> io::Result<()> {
    let lent = lend(
        rt,
        numbers.list[0],
        space,
        |out| writer.call(numbers, bytes, out),
    )?;
    test_show::buffer(rt, lent, writer.writes_text())
}

// (A function of its own, so that no other goal has the long buffer in it, and one frame has it.)
#[inline(never)]
fn write(rt: &impl Print, writer: Writer, numbers: &Numbers, bytes: &[u8]) -> io::Result<()> {
    let mut space = [FILL; LARGEST];
    write_in(rt, writer, numbers, bytes, &mut space)
}

// evaluate ROOM T M L NUMBERS:TABLE
fn evaluate(rt: &impl Print, numbers: &Numbers, table: &[u8]) -> io::Result<()> {
    let list = &numbers.list;
    let run = numbers.run();
    let run = &run[4..numbers.end(4)];
    let mut space = [FILL_WORD; MOST_WORDS];
    let lent = lend(rt, list[0], &mut space, |out| {
        evaluator::evaluate(table, list[1], list[2], list[3], run, out)
    })?;
    test_show::word_buffer(rt, lent)
}

// first WORD
fn first(rt: &impl Print, numbers: &Numbers) -> io::Result<()> {
    print!(rt; "slot")?;
    test_show::slot(rt, evaluator::first_slot(numbers.list[0] as u64))?;
    println!(rt)
}

// judge T M L E FIGURES:TABLE
fn judge(rt: &impl Print, numbers: &Numbers, table: &[u8], figures: &[i32]) -> io::Result<()> {
    let list = &numbers.list;
    test_show::ruling(
        rt,
        judge::judge(table, list[0], list[1], list[2], figures, signed(list[3])),
    )
}

// counted T M L E and pairs of a count and a figure:TABLE
fn judge_counted(rt: &impl Print, numbers: &Numbers, table: &[u8]) -> io::Result<()> {
    let mut space = [0i32; FIGURES];
    let n = numbers.counted(&mut space);
    judge(rt, numbers, table, &space[..n])
}

// list:INPUT, what rowlist prints
fn list_rows(rt: &impl Print, input: &[u8]) -> io::Result<()> {
    let mut page = [FILL; rowlist_text::LISTING];
    let n = rowlist_page::page_of(input, &mut page);
    println!(rt; "value {n}")?;
    test_show::buffer(rt, &page, true)
}

fn show_sum(rt: &impl Print, sum: RowSum) -> io::Result<()> {
    println!(rt; "positive {} whole {}", sum.positive, sum.whole)
}

fn term(coefficient: usize, variable: usize) -> Term {
    Term {
        coefficient: signed(coefficient),
        variable: (variable % 65536) as u16,
    }
}

// sum X Y and terms of a coefficient and a variable, over the figures X and Y
fn sum(rt: &impl Print, numbers: &Numbers) -> io::Result<()> {
    let list = &numbers.list;
    let a = term(list[2], list[3]);
    let b = term(list[4], list[5]);
    let c = term(list[6], list[7]);
    let terms = match numbers.count {
        4 => Terms::Single(a),
        6 => Terms::Pair(a, b),
        _ => Terms::Triple(a, b, c),
    };
    show_sum(rt, judge_sums::row_sum(&numbers.figures()[..2], terms))
}

// The sum of figures, one after the other.
fn sum_of(figures: &[i32]) -> i64
    requires { length figures.now ≤ 64 }
    ensures { nat_abs result ≤ Bounds.window_sum }
{
    let mut sum: i64 = 0;
    for figure in figures {
        sum = judge_sums::grown(sum, Millionths { value: *figure });
    }
    sum
}

// total W X and figures: a window's last row, of F[a,b] where W is 1 and otherwise of G[a,b], over the node's figure X and
// the part's at the slots of the window
fn total(rt: &impl Print, numbers: &Numbers) -> io::Result<()> {
    let figures = numbers.figures();
    let sum = sum_of(&figures[2..numbers.end(2).min(2 + SLOTS)]);
    let kind = if numbers.list[0] == 1 {
        WindowKind::Within
    } else {
        WindowKind::Throughout
    };
    show_sum(
        rt,
        judge_sums::window_sum(kind, sum, Millionths { value: figures[1] }),
    )
}

fn run(rt: &impl Print, call: u8, numbers: &Numbers, bytes: &[u8]) -> io::Result<()> {
    match call {
        b'c' => judge_counted(rt, numbers, bytes),
        b'e' => evaluate(rt, numbers, bytes),
        b'f' => first(rt, numbers),
        b'j' => judge(rt, numbers, bytes, &numbers.figures()[4..numbers.end(4)]),
        b'l' => list_rows(rt, bytes),
        b'm' => write(rt, Writer::Mps, numbers, bytes),
        b'p' => write(rt, Writer::Printer, numbers, bytes),
        b'r' => write(rt, Writer::Reader, numbers, bytes),
        b's' => sum(rt, numbers),
        b't' => total(rt, numbers),
        b'w' => write(rt, Writer::Rows, numbers, bytes),
        _ => println!(rt; "no such call"),
    }
}

// Prints a line and runs its case; a line with `#` is a note and is printed alone.
pub fn run_line(rt: &impl Print, line: &[u8]) -> io::Result<()> {
    test_show::case(rt, line)?;
    match line {
        [] | [b'#', ..] => Ok(()),
        [call, ..] => {
            let mut space = [0u8; test_cases::BYTES];
            let n = test_cases::bytes(line, &mut space);
            run(rt, *call, &Numbers::of(line), &space[..n])
        }
    }
}
