// A table's root printed as text: the checks, in an order of their own, and the text put where nothing refuses.
#![tactic(auto)]

ghost use Rattle.std.specs.Prelude.{◌≡◌, length};
ghost use Rattle.rules.specs.Outcome.{returned, buffer};
ghost use Rattle.answers.specs.Meaning.{answer_of};
ghost use Rattle.printer_text.specs.Outcome.{print_outcome};

use answers::Refusal;
use cursor::Cursor;
use printer_node::Level;

// The largest text that is printed, in bytes: the largest that the reader takes.
pub const LONGEST: usize = 1024;

// The text of the table's root into `out`, and its length; or the first refusal of 2, 7, 3 and 11, with `out` as it was.
pub fn print(table: &[u8], m: usize, out: &mut [u8]) -> Result<usize, Refusal>
    ensures r_value { answer_of result ≡ returned (print_outcome m table.now (length out.old)) }
    ensures out_after { out.new ≡ buffer (print_outcome m table.now (length out.old)) out.old }
{
    if !table::within(m, 16) {
        return Err(Refusal::Atoms);
    }
    if !table::good(table, m) {
        return Err(Refusal::Table);
    }
    let root = table::count(table) - 1;
    let rule = Level::Rule.grade();
    let Some(rest) = printer_node::spend(table, root, rule, LONGEST) else {
        return Err(Refusal::LongText);
    };
    let length = LONGEST - rest;
    if out.len() < length {
        return Err(Refusal::Room);
    }
    printer_node::put_node(table, root, rule, &mut Cursor { out, at: 0 });
    Ok(length)
}
