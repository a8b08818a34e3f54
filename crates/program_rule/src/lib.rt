// What the programs share: the rule of an input read, a program's work on its table, and a refusal or `bad input` printed.
#![tactic(auto)]

ghost use Rattle.std.specs.Prelude.{◌≡◌, ℕ, List, ◌≤◌, length};
ghost use Rattle.rules.specs.Demands.{Answer};
ghost use Rattle.rules.specs.Outcome.{returned, buffer};
ghost use Rattle.answers.specs.Meaning.{number_of, answer_of};
ghost use Rattle.cursor.specs.Put.{Put};
ghost use Rattle.program_input.specs.Scanning.{state};
ghost use Rattle.program_rule.specs.Sizes.{node_room, table_room, refusal_room};
ghost use Rattle.program_rule.specs.Output.{refused_text, bad_input};
ghost use Rattle.program_rule.specs.Outcome.{rule_outcome, rule_then, output};
ghost use Rattle.program_rule.specs.Shown.{shown};
ghost use Rattle.program_rule.specs.Told.{printed_of, Told};

use answers::Refusal;
use cursor::Cursor;
use program_input::Scan;

// The bytes of a table, and of what is kept of line 2. Contracts call them `table_room` and `text_room`.
pub const TABLE: usize = 1024;

pub const TEXT: usize = 1025;

// `refused` and the number.
#[tactic(auto, using(crate::specs::Outcomes::number_small, text::proofs::DecimalLaws::below_100000))]
pub fn put_refusal(out: &mut [u8], refusal: Refusal) -> usize
    requires { refusal_room ≤ length out.old }
    ensures { Put 0 (refused_text (number_of refusal)) out.old out.new result × (result ≤ refusal_room) }
{
    let mut page = Cursor { out, at: 0 };
    page.put_bytes(b"refused ");
    text::put_decimal(&mut page, u32::from(refusal) as usize);
    page.put_byte(b'\n');
    page.at
}

// `bad input`.
pub fn put_bad_input(out: &mut [u8]) -> usize
    requires { refusal_room ≤ length out.old }
    ensures { Put 0 bad_input out.old out.new result × (result ≤ refusal_room) }
{
    let mut page = Cursor { out, at: 0 };
    page.put_bytes(b"bad input\n");
    page.at
}

// Reads a rule for `t` slots into `table`: the check of `t`, and then the reader.
pub fn read_rule(text: &[u8], t: usize, m: usize, table: &mut [u8]) -> Result<usize, Refusal>
    requires { length table.old ≡ table_room }
    ensures r_value { answer_of result ≡ returned (rule_outcome t m text.now) }
    ensures table_after { table.new ≡ buffer (rule_outcome t m text.now) table.old }
{
    match t {
        1..=64 => reader::read(text, m, table),
        _ => Err(Refusal::Slots),
    }
}

// What a program makes of a rule's table.
pub trait Work {
    // The bytes of page that it asks for.
    ghost least: { ℕ };

    // What it makes of T, M and a table of N nodes where the page has `room` bytes: a text, or a refusal.
    ghost made: { (room T M N : ℕ) (table : List ℕ) → Answer (List ℕ) };

    // Writes the text at the start of `out`; the result is its length. A refusal leaves `out` as it was.
    fn put(table: &[u8], t: usize, m: usize, n: usize, out: &mut [u8]) -> Result<usize, Refusal>
        requires { (n ≤ node_room) × (least ≤ length out.old) }
        ensures { Told (made (length out.old) t m n table.now) out.old out.new result };
}

// The work on the table of a rule, if it is not refused.
fn put_rule<W: Work>(text: &[u8], t: usize, m: usize, out: &mut [u8]) -> Result<usize, Refusal>
    requires { W.least ≤ length out.old }
    ensures { Told (rule_then (W.made (length out.old)) t m text.now) out.old out.new result }
{
    let mut table = [0u8; TABLE];
    let n = read_rule(text, t, m, &mut table)?;
    W::put(&table[..8 * n], t, m, n, out)
}

// What a scan and its text stand for, from the start of `out`; the result is its length.
pub fn print<W: Work>(scan: Scan, text: &[u8], out: &mut [u8]) -> usize
    requires { (W.least ≤ length out.old) × (refusal_room ≤ length out.old) }
    ensures put { Put 0 (shown (printed_of (W.made (length out.old))) (state scan text.now)) out.old out.new result }
    ensures upper_bound { result ≤ length out.old }
{
    if !scan.stage.is_shaped() {
        return put_bad_input(out);
    }
    let rule = &text[..scan.kept.min(text.len())];
    match put_rule::<W>(rule, scan.slots, scan.atoms, out) {
        Ok(end) => end,
        Err(refusal) => put_refusal(out, refusal),
    }
}

// The page of a whole input.
pub fn page_of<W: Work>(bytes: &[u8], out: &mut [u8]) -> usize
    requires { (W.least ≤ length out.old) × (refusal_room ≤ length out.old) }
    ensures put { Put 0 (output (printed_of (W.made (length out.old))) bytes.now) out.old out.new result }
    ensures upper_bound { result ≤ length out.old }
{
    let mut text = [0u8; TEXT];
    let scan = Scan::start().feed(bytes, &mut text);
    print::<W>(scan, &text, out)
}
