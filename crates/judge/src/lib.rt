// The judge of a solver's figures.
#![tactic(auto)]

ghost use Rattle.std.specs.Prelude.{◌≡◌, ◌*◌, ◌≤◌, length};
ghost use Rattle.rules.specs.Rows.{variable_count};
ghost use Rattle.rules.specs.TableTest.{nodes_in};
ghost use Rattle.rules.specs.Outcome.{judge_outcome};
ghost use Rattle.rules.specs.Verdicts as Verdicts;
ghost use Rattle.table.specs.Plans.{CheckedPlan};
ghost use Rattle.judge.specs.Meaning.{verdict_of, ruling_of};
ghost use Rattle.judge.specs.Checks.{tolerated, counted};
ghost use Rattle.judge.specs.Parts.{rows_verdict, atoms_verdict};

use answers::Refusal;
use judge_slot::{Broken, LimitedTest, Test};
use table::Plan;

// The largest tolerance, in millionths.
const TOLERANCE: i32 = 1_000;

#[derive(Clone, Copy, Debug, PartialEq, Eq)]
pub enum Verdict {
    // the lowest variable outside the limits
    Outside(usize),
    // the lowest atom variable that is neither zero nor one
    NotBinary(usize),
    // the lowest broken row, and its shortfall in millionths
    Broken { shortfall: i64, row: usize },
    // the row count, and the root's error figure at slot 1
    Passed { rows: usize, error: u32 },
}

// The verdict where no figure is outside and every atom is binary.
fn rows_verdict(plan: Plan, test: LimitedTest) -> Verdict
    ensures { verdict_of result ≡ rows_verdict plan.entry.t plan.entry.m plan.entry.l test.entry.test.e (nodes_in plan.entry.table.now)
        test.entry.test.figures.now }
{
    match judge_search::test_all(plan, test) {
        Err(Broken { shortfall, row }) => Verdict::Broken { shortfall, row },
        Ok(rows) => Verdict::Passed {
            rows,
            error: judge_errors::root_figure(plan, test.test.e),
        },
    }
}

// The verdict where no figure is outside.
fn atoms_verdict(plan: Plan, test: LimitedTest) -> Verdict
    requires { plan.m * plan.t ≤ length test.test.figures.now }
    ensures { verdict_of result ≡ atoms_verdict plan.entry.t plan.entry.m plan.entry.l test.entry.test.e (nodes_in plan.entry.table.now)
        test.entry.test.figures.now }
{
    let Test { figures, e } = test.test;
    let atoms = usize::from(row::first_variable(plan.m, plan.t));
    match judge_limits::first_not_binary(figures, atoms, e) {
        Some(v) => Verdict::NotBinary(v),
        None => rows_verdict(plan, test),
    }
}

// The verdict on the figures of a checked table's variables.
fn verdict_of(plan: Plan, test: Test) -> Verdict
    requires { length test.figures.now ≡ variable_count plan.t plan.m plan.l (nodes_in plan.table.now) }
    ensures { verdict_of result ≡ Verdicts.verdict plan.entry.t plan.entry.m plan.entry.l test.entry.e (nodes_in plan.entry.table.now) test.entry.figures.now }
{
    let all = test.figures.len();
    match judge_limits::first_outside(test.figures, all, test.e) {
        Some(v) => Verdict::Outside(v),
        None => atoms_verdict(plan, LimitedTest { test }),
    }
}

// The ruling where the table is checked and the figures are as many as the variables.
fn judge_counted(plan: Plan, figures: &[i32], e: i32) -> Result<Verdict, Refusal>
    requires { length figures.now ≡ variable_count plan.t plan.m plan.l (nodes_in plan.table.now) }
    ensures { ruling_of result ≡ tolerated plan.entry.t plan.entry.m plan.entry.l plan.entry.table.now figures.now e }
{
    if e < 0 || TOLERANCE < e {
        return Err(Refusal::Tolerance);
    }
    let test = Test {
        figures,
        e: e as u16,
    };
    Ok(verdict_of(plan, test))
}

// How many variables there are.
fn variable_count(plan: Plan) -> usize
    ensures { result ≡ variable_count plan.entry.t plan.entry.m plan.entry.l (nodes_in plan.entry.table.now) }
{
    let slacks = plan.nodes + plan.kept_count();
    usize::from(row::first_variable(plan.m + slacks, plan.t))
}

// The ruling where the table is checked.
fn judge_checked(plan: Plan, figures: &[i32], e: i32) -> Result<Verdict, Refusal>
    ensures { ruling_of result ≡ counted plan.entry.t plan.entry.m plan.entry.l plan.entry.table.now figures.now e }
{
    if figures.len() != variable_count(plan) {
        return Err(Refusal::Figures);
    }
    judge_counted(plan, figures, e)
}

// The checks that all calls but read share. Out of line: with them in line the judge took up to a tenth longer.
#[inline(never)]
fn checked(table: &[u8], t: usize, m: usize, l: usize) -> Result<Plan<'_>, Refusal>
    ensures { CheckedPlan t m l table.now result }
{
    table::check(table, t, m, l)
}

// Judges figures, one for each variable, with a tolerance; after slot t comes slot l again. It writes nothing.
pub fn judge(
    table: &[u8],
    t: usize,
    m: usize,
    l: usize,
    figures: &[i32],
    e: i32,
) -> Result<Verdict, Refusal>
    ensures { ruling_of result ≡ judge_outcome t m l table.now figures.now e }
{
    let plan = checked(table, t, m, l)?;
    judge_checked(plan, figures, e)
}
