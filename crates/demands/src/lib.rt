// The demands, as the contracts of functions that only make the calls.
#![tactic(auto)]

ghost use Rattle.rules.specs.Demands.{FirstAnswers};
ghost use Rattle.answers.specs.Meaning.{answer_of};
ghost use Rattle.row.specs.Meaning.{terms_of};
ghost use Rattle.judge_sums.specs.Meaning.{row_sum_of};
ghost use Rattle.evaluator.specs.Meaning.{first_slot_of};
ghost use Rattle.judge.specs.Meaning.{ruling_of};
ghost use Rattle.headlines.specs.Demand1.{ReaderRefuses, EvaluatorRefuses, RowWriterRefuses, JudgeRefuses};
ghost use Rattle.headlines.specs.Demand2.{ReaderAnswers, EvaluatorAnswers, RowWriterAnswers, JudgeAnswers};
ghost use Rattle.headlines.specs.Heights.{ReaderHeights};
ghost use Rattle.headlines.specs.Words.{SaysBytes};
ghost use Rattle.headlines.specs.Demand3.{Planning, Demanded};
ghost use Rattle.demands.specs.Meaning.{planned_of};
ghost use Rattle.headlines.specs.Passed.{PassedMeans, PassedAtZero};
ghost use Rattle.headlines.specs.Trust.{PassedNear};
ghost use Rattle.headlines.specs.Shortfall.{SameVerdict, CarriesShortfall};
ghost use Rattle.headlines.specs.RowSum.{PositiveFirst, SummedVerdict};
ghost use Rattle.headlines.specs.Page.{PageRefuses, PageAnswers, PageMeans};
ghost use Rattle.headlines.specs.Print.{PrinterRefuses, PrinterAnswers, PrintingBack};

use answers::Refusal;
use judge::Verdict;
use judge_sums::RowSum;
use row::Terms;

// Demands 1 and 2 of the reader, and the heights that it writes.
pub fn read(text: &[u8], m: usize, out: &mut [u8]) -> Result<usize, Refusal>
    ensures reader_refuses { ReaderRefuses m text.now (answer_of result) out.old out.new }
    ensures reader_answers { ReaderAnswers m text.now (answer_of result) out.old out.new }
    ensures reader_heights { ReaderHeights text.now (answer_of result) out.new }
{
    reader::read(text, m, out)
}

// Demands 1 and 2 of the evaluator, and that its words say what its bytes said.
pub fn evaluate(
    table: &[u8],
    t: usize,
    m: usize,
    l: usize,
    run: &[u16],
    out: &mut [u64],
) -> Result<usize, Refusal>
    ensures evaluator_refuses { EvaluatorRefuses t m l table.now run.now (answer_of result) out.old out.new }
    ensures evaluator_answers { EvaluatorAnswers t m l table.now run.now (answer_of result) out.old out.new }
    ensures says_bytes { SaysBytes t m l table.now run.now (answer_of result) out.new }
{
    evaluator::evaluate(table, t, m, l, run, out)
}

// What the first slot of a truth word is.
pub fn first_slot(word: u64) -> Option<usize>
    ensures { FirstAnswers word (first_slot_of result) }
{
    evaluator::first_slot(word)
}

// Demands 1 and 2 of the row writer.
pub fn write_rows(
    table: &[u8],
    t: usize,
    m: usize,
    l: usize,
    out: &mut [u8],
) -> Result<usize, Refusal>
    ensures row_writer_refuses { RowWriterRefuses t m l table.now (answer_of result) out.old out.new }
    ensures row_writer_answers { RowWriterAnswers t m l table.now (answer_of result) out.old out.new }
{
    rows::write_rows(table, t, m, l, out)
}

// Demands 1 and 2 of the judge, what a passed verdict means and its error figure promises, what a broken one carries, and the
// verdict by row sums.
pub fn judge_figures(
    table: &[u8],
    t: usize,
    m: usize,
    l: usize,
    figures: &[i32],
    e: i32,
) -> Result<Verdict, Refusal>
    ensures judge_refuses { JudgeRefuses t m l table.now figures.now e (ruling_of result) }
    ensures judge_answers { JudgeAnswers t m l table.now figures.now e (ruling_of result) }
    ensures passed_means { PassedMeans t m l table.now figures.now e (ruling_of result) }
    ensures passed_at_zero { PassedAtZero t m l table.now figures.now e (ruling_of result) }
    ensures passed_near { PassedNear t m l table.now figures.now e (ruling_of result) }
    ensures same_verdict { SameVerdict t m l table.now figures.now e (ruling_of result) }
    ensures carries_shortfall { CarriesShortfall t m l table.now figures.now e (ruling_of result) }
    ensures summed_verdict { SummedVerdict t m l table.now figures.now e (ruling_of result) }
{
    judge::judge(table, t, m, l, figures, e)
}

// The row sum of a row's terms, in whatever order they stand.
pub fn row_sum(figures: &[i32], terms: Terms) -> RowSum
    ensures { PositiveFirst figures.now (terms_of terms) (row_sum_of result) }
{
    judge_sums::row_sum(figures, terms)
}

// Demands 1 and 2 of the page writer, and what its page says.
pub fn mps_page(
    table: &[u8],
    t: usize,
    m: usize,
    l: usize,
    out: &mut [u8],
) -> Result<usize, Refusal>
    ensures page_refuses { PageRefuses t m l table.now (answer_of result) out.old out.new }
    ensures page_answers { PageAnswers t m l table.now (answer_of result) out.old out.new }
    ensures page_means { PageMeans t m l table.now (answer_of result) out.new }
{
    mps_page::mps_page(table, t, m, l, out)
}

// Demands 1 and 2 of the printer.
pub fn print(table: &[u8], m: usize, out: &mut [u8]) -> Result<usize, Refusal>
    ensures printer_refuses { PrinterRefuses m table.now (answer_of result) out.old out.new }
    ensures printer_answers { PrinterAnswers m table.now (answer_of result) out.old out.new }
{
    printer::print(table, m, out)
}

// A text is read, the table that was read is printed into `out`, and the printed text is read into `again`: to the same table.
pub fn print_back(
    text: &[u8],
    m: usize,
    table: &mut [u8],
    out: &mut [u8],
    again: &mut [u8],
) -> Result<usize, Refusal>
    ensures { PrintingBack m text.now table.old out.old again.old table.new out.new
        again.new (answer_of result) }
{
    let nodes = reader::read(text, m, table)?;
    let whole = &table[..8 * nodes];
    let length = printer::print(whole, m, out)?;
    reader::read(&out[..length], m, again)
}

// The horizon: slots 1 to t with m atoms each, and after slot t comes slot l again.
#[derive(Clone, Copy, Debug, PartialEq, Eq)]
pub struct Horizon {
    pub t: usize,
    pub m: usize,
    pub l: usize,
}

// The node count, the row count and the root's truth at slot 1.
#[derive(Clone, Copy, Debug, PartialEq, Eq)]
pub struct Planned {
    pub nodes: usize,
    pub rows: usize,
    pub truth: usize,
}

// A text is read, and the rows and the truth of the table that was read are written: what is answered and written for every input, and demand 3.
pub fn plan(
    text: &[u8],
    horizon: Horizon,
    run: &[u16],
    table: &mut [u8],
    rows: &mut [u8],
    truth: &mut [u64],
) -> Result<Planned, Refusal>
    ensures planning { Planning horizon.t horizon.m horizon.l text.now run.now table.old rows.old
        truth.old table.new rows.new truth.new (planned_of result) }
    ensures demanded { Demanded horizon.t horizon.m horizon.l text.now run.now table.old rows.old
        truth.old table.new rows.new truth.new (planned_of result) }
{
    let Horizon { t, m, l } = horizon;
    let nodes = reader::read(text, m, table)?;
    let records = &table[..8 * nodes];
    let count = rows::write_rows(records, t, m, l, rows)?;
    let at_first = evaluator::evaluate(records, t, m, l, run, truth)?;
    Ok(Planned {
        nodes,
        rows: count,
        truth: at_first,
    })
}
