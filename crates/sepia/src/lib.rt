// The calls for C and Rust: a static library. A slice passes as a pointer and a length. The parameters are the C header's.
#![tactic(auto, using(crate::proofs::Bounds::fit_32_bits))]

ghost use Rattle.std.specs.Prelude.{◌≡◌, length};
ghost use Rattle.rules.specs.Outcome.{returned, buffer, read_outcome, evaluate_outcome, rows_outcome, judge_outcome};
ghost use Rattle.rules.specs.Words.{first_slot};
ghost use Rattle.mps.specs.Outcome.{page_outcome};
ghost use Rattle.printer_text.specs.Outcome.{print_outcome};
ghost use Rattle.sepia_answers.specs.Boundary.{version, in_c, slot_in_c, verdict_in_c};

use sepia_answers::{SepiaAnswer, SepiaVerdict};

// The version of this boundary, for a caller to compare with its header's.
#[unsafe(no_mangle)]
pub extern "C" fn sepia_version() -> u32
    ensures { result ≡ version }
{
    8
}

// Reads a rule text into its node table.
#[unsafe(no_mangle)]
pub extern "C" fn sepia_read(text: &[u8], m: usize, out: &mut [u8]) -> SepiaAnswer
    ensures r_value { result ≡ in_c (returned (read_outcome m text.now (length out.old))) }
    ensures out_after { out.new ≡ buffer (read_outcome m text.now (length out.old)) out.old }
{
    sepia_answers::plain(reader::read(text, m, out))
}

// Evaluates a table over a run: a truth word for each node.
#[unsafe(no_mangle)]
pub extern "C" fn sepia_evaluate(
    table: &[u8],
    t: usize,
    m: usize,
    l: usize,
    run: &[u16],
    out: &mut [u64],
) -> SepiaAnswer
    ensures r_value { result ≡ in_c (returned (evaluate_outcome t m l table.now run.now (length out.old))) }
    ensures out_after { out.new ≡ buffer (evaluate_outcome t m l table.now run.now (length out.old)) out.old }
{
    sepia_answers::plain(evaluator::evaluate(table, t, m, l, run, out))
}

// The first slot at which a truth word has a set bit, and 0 where it has none.
#[unsafe(no_mangle)]
pub extern "C" fn sepia_first_slot(word: u64) -> u32
    ensures { result ≡ slot_in_c (first_slot word) }
{
    sepia_answers::slot_number(evaluator::first_slot(word))
}

// Writes a table's rows.
#[unsafe(no_mangle)]
pub extern "C" fn sepia_rows(
    table: &[u8],
    t: usize,
    m: usize,
    l: usize,
    out: &mut [u8],
) -> SepiaAnswer
    ensures r_value { result ≡ in_c (returned (rows_outcome t m l table.now (length out.old))) }
    ensures out_after { out.new ≡ buffer (rows_outcome t m l table.now (length out.old)) out.old }
{
    sepia_answers::plain(rows::write_rows(table, t, m, l, out))
}

// Writes the fixed-column MPS page of a table's rows.
#[unsafe(no_mangle)]
pub extern "C" fn sepia_mps(
    table: &[u8],
    t: usize,
    m: usize,
    l: usize,
    out: &mut [u8],
) -> SepiaAnswer
    ensures r_value { result ≡ in_c (returned (page_outcome t m l table.now (length out.old))) }
    ensures out_after { out.new ≡ buffer (page_outcome t m l table.now (length out.old)) out.old }
{
    sepia_answers::plain(mps_page::mps_page(table, t, m, l, out))
}

// Judges a solver's figures.
#[unsafe(no_mangle)]
pub extern "C" fn sepia_judge(
    table: &[u8],
    t: usize,
    m: usize,
    l: usize,
    figures: &[i32],
    e: i32,
) -> SepiaVerdict
    ensures { result ≡ verdict_in_c (judge_outcome t m l table.now figures.now e) }
{
    sepia_answers::plain_verdict(judge::judge(table, t, m, l, figures, e))
}

// Prints the root of a table as rule text.
#[unsafe(no_mangle)]
pub extern "C" fn sepia_print(table: &[u8], m: usize, out: &mut [u8]) -> SepiaAnswer
    ensures r_value { result ≡ in_c (returned (print_outcome m table.now (length out.old))) }
    ensures out_after { out.new ≡ buffer (print_outcome m table.now (length out.old)) out.old }
{
    sepia_answers::plain(printer::print(table, m, out))
}
