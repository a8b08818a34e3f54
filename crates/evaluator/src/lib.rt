// The evaluator: the truth word of every node of a table over a run, and a word's first slot.
#![tactic(auto)]

ghost use Rattle.std.specs.Prelude.{◌≡◌, List, ℕ, ◌^◌, ◌≤◌, ◌<◌, length};
ghost use Rattle.rules.specs.Outcome.{run_good, evaluate_outcome, returned, buffer};
ghost use Rattle.rules.specs.Words.{first_slot};
ghost use Rattle.rules.specs.Table as Table;
ghost use Rattle.rules.specs.Table.{NodeGood};
ghost use Rattle.rules.specs.TableTest.{nodes_in};
ghost use Rattle.answers.specs.Meaning.{answer_of};
ghost use Rattle.table.specs.Nodes.{node_of};
ghost use Rattle.evaluator_words.specs.Words.{Word};
ghost use Rattle.evaluator_atoms.specs.Columns.{Columns};
ghost use Rattle.evaluator.specs.Meaning.{first_slot_of};
ghost use Rattle.evaluator.specs.Nodes.{node_at, Children};
ghost use Rattle.evaluator.specs.Filled.{Filled};
ghost use Rattle.evaluator.specs.Checks.{own_check, Workable};

use answers::Refusal;
use evaluator_words::Horizon;
use table::{Kind, Node, Plan};

// Whether the run has t numbers, each with bits below m alone: then all of them together have no other.
fn run_good(run: &[u16], t: usize, m: usize) -> bool
    requires { m ≤ 16 }
    ensures { result ≡ run_good t m run.now }
{
    if run.len() != t {
        return false;
    }
    let mut seen: u16 = 0;
    for number in run {
        seen |= *number;
    }
    u32::from(seen) < 1 << m
}

// Refusals 8 and 11, once 1, 2, 13 and 7 do not apply.
fn own_check(plan: Plan, run: &[u16], room: usize) -> Result<(), Refusal>
    ensures { result ≡ own_check plan.entry.t plan.entry.m plan.entry.table.now run.now room }
{
    if !run_good(run, plan.t, plan.m) {
        return Err(Refusal::Run);
    }
    if room < plan.nodes {
        return Err(Refusal::Room);
    }
    Ok(())
}

// A node's word, from those of its children.
fn node_word(words: &[u64], cols: &[u64; 16], horizon: Horizon, node: Node) -> u64
    requires { Children horizon.t words.now (node_of node) }
    ensures { ((run : List ℕ) (m n : ℕ) → NodeGood m n (node_of node) → Columns horizon.t run m cols.now →
        Word horizon.t (node_at horizon.t horizon.l run words.now (node_of node)) result) }
{
    let Node {
        kind,
        left,
        right,
        from,
        to,
    } = node;
    match kind {
        Kind::Atom => cols[left],
        Kind::Not => horizon.not(words[left]),
        Kind::And => evaluator_words::and(words[left], words[right]),
        Kind::Or => evaluator_words::or(words[left], words[right]),
        Kind::Implies => horizon.implies(words[left], words[right]),
        Kind::Eventually => horizon.eventually(words[left]),
        Kind::Always => horizon.always(words[left]),
        Kind::Until => horizon.until(words[left], words[right]),
        Kind::Within => horizon.eventually_within(words[left], from, to),
        Kind::Throughout => horizon.always_within(words[left], from, to),
    }
}

// The word of node n of a plan's table. Many nodes are atoms: their height, "0 for an atom", tells them without the choice
// among ten kinds.
fn word_at(plan: Plan, words: &[u64], cols: &[u64; 16], n: usize) -> u64
    requires inside { n < plan.nodes }
    requires children { Children plan.t words.now (Table.node_at (nodes_in plan.table.now) n) }
    ensures { ((run : List ℕ) (m k : ℕ) → NodeGood m k (Table.node_at (nodes_in plan.entry.table.now) n) → Columns plan.entry.t run m cols.now →
        Word plan.entry.t (node_at plan.entry.t plan.entry.l run words.now (Table.node_at (nodes_in plan.entry.table.now) n)) result) }
{
    let node = plan.node(n);
    if plan.height(n) == 0 {
        return cols[node.left];
    }
    let horizon = Horizon {
        t: plan.t,
        l: plan.l,
    };
    node_word(words, cols, horizon, node)
}

// Writes the words of all nodes, in number order: children stand below their node.
fn work(plan: Plan, run: &[u16], out: &mut [u64])
    requires { Workable plan.t plan.m plan.table.now run.now (length out.old) }
    ensures { Filled plan.entry.t plan.entry.l run.now (nodes_in plan.entry.table.now) out.old
        (length (nodes_in plan.entry.table.now)) out.new }
{
    let mut cols = [0u64; 16];
    evaluator_atoms::columns(&mut cols, run, plan.t, plan.m);
    for n in 0..plan.nodes {
        out[n] = word_at(plan, out, &cols, n);
    }
}

// Writes one word for each node, "with bit t − 1 for slot t and zeros above", and answers the root's truth at slot 1. After
// slot t comes slot l again.
pub fn evaluate(
    table: &[u8],
    t: usize,
    m: usize,
    l: usize,
    run: &[u16],
    out: &mut [u64],
) -> Result<usize, Refusal>
    ensures r_value { answer_of result ≡ returned (evaluate_outcome t m l table.now run.now (length out.old)) }
    ensures out_after { out.new ≡ buffer (evaluate_outcome t m l table.now run.now (length out.old)) out.old }
{
    let plan = table::check(table, t, m, l)?;
    own_check(plan, run, out.len())?;
    work(plan, run, out);
    Ok((out[plan.nodes - 1] % 2) as usize)
}

// "gives the first slot with a set bit, or says that there is none"
pub fn first_slot(word: u64) -> Option<usize>
    ensures { first_slot_of result ≡ first_slot word }
{
    let zeros = word.trailing_zeros() as usize;
    if zeros < 64 { Some(zeros + 1) } else { None }
}
