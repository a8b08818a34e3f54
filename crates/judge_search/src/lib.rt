// The search for the first broken row of a table.
#![tactic(auto)]

ghost use Rattle.std.specs.Prelude.{◌≡◌, List, ℕ, ℤ, Ok, ◌+◌, ◌*◌, ◌-◌, ◌≤◌, ◌<◌};
ghost use Rattle.rules.specs.Table.{Node};
ghost use Rattle.rules.specs.Rows.{Row, rows_of};
ghost use Rattle.rules.specs.TableTest.{nodes_in};
ghost use Rattle.rules.specs.Judge.{shortfall};
ghost use Rattle.row.specs.Placed.{first_limit, variable_limit, Placed};
ghost use Rattle.row.specs.NodeRows.{block_on, part_rows, rows_to};
ghost use Rattle.judge_slot.specs.Counts as Counts;
ghost use Rattle.judge_slot.specs.Searches.{Search, Tested, tested, reached};
ghost use Rattle.judge_search.specs.Slots.{Room, Passing, BlockTested, FollowedBy, kind_of};
ghost use Rattle.judge_search.specs.Blocks.{BlockReady, NodeReady, NthBlock, OwnIn};

use judge_slot::{Broken, LimitedTest, Test};
use judge_sums::WindowKind;
use row::Block;
use table::{Kind, Plan};

// Tests the rows of k slots, those of a slot by `test`, after `count` rows that hold. The kinds have a loop each, without a look at
// the kind at each slot.
fn all_slots<F: Fn(usize, u16) -> Result<usize, Broken>>(
    count: usize,
    k: u16,
    test: F,
) -> Result<usize, Broken>
    requires room { Room count k }
    requires callable { (rows s : ℕ) → rows ≤ Counts.before_slot → s < k → F.pre test rows s }
    requires few { (rows s : ℕ) (x : Search) → s < k → F.post test rows s x → reached x ≤ rows + Counts.at_slot }
    ensures passing { (e : ℕ) (f : Row → ℤ) (g : ℕ → List Row) →
        ((rows s : ℕ) (x : Search) → s < k → F.post test rows s x → Tested e f (Ok rows) (g s) x) → Passing e f (Ok count) g k result }
    ensures low { reached result ≤ count + Counts.at_slot * k }
{
    let mut rows = count;
    for s in 0..k {
        rows = test(rows, s)?;
    }
    Ok(rows)
}

// Tests the rows of F, G or U at t slots, those of a slot that something follows by `inner`, which is given the variable of what
// follows. Where nothing follows the last slot, the node is the same there as `part`, its part's block.
fn followed<F: Fn(usize, u16, u16) -> Result<usize, Broken>>(
    test: Test,
    count: usize,
    t: u16,
    block: Block,
    part: u16,
    inner: F,
) -> Result<usize, Broken>
    requires room { Placed block × (part ≤ first_limit) × (1 ≤ t) × Room count t }
    requires callable { (rows s next : ℕ) → rows ≤ Counts.before_slot → s < t → next ≤ variable_limit → F.pre inner rows s next }
    requires few { (rows s next : ℕ) (x : Search) → s < t → F.post inner rows s next x → reached x ≤ rows + Counts.at_slot }
    ensures { (l : ℕ) (g : ℕ → ℕ → List Row) → ((rows s next : ℕ) (x : Search) → s < t → F.post inner rows s next x →
        Tested test.entry.e (shortfall test.entry.figures.now) (Ok rows) (g s next) x) → FollowedBy t l block part g →
        BlockTested test.entry.e (shortfall test.entry.figures.now) count t l block result }
{
    let last = t - 1;
    let rows = all_slots(count, last, |rows, s| inner(rows, s, block.own + s + 1))?;
    match block.next {
        Some(next) => inner(rows, last, next),
        None => test.test_same(Ok(rows), block.own + last, part + last),
    }
}

// Tests the rows over a window at slot s of t slots that loop to slot l.
fn test_window(
    test: LimitedTest,
    rows: usize,
    s: u16,
    t: u16,
    l: u16,
    kind: WindowKind,
    block: Block,
) -> Result<usize, Broken>
    requires { (block.kind ≡ kind_of kind) × BlockReady t l block × (rows ≤ Counts.before_slot) × (s < t) }
    ensures { Tested test.entry.test.e (shortfall test.entry.test.figures.now) (Ok rows) (block_on block t l s) result }
{
    let looks = window::look(t, l, s, block.from, block.to);
    test.test_window(Ok(rows), kind, block.own + s, block.left, looks)
}

// Tests the rows over a window at t slots that loop to slot l.
fn test_windows(
    test: LimitedTest,
    count: usize,
    t: u16,
    l: u16,
    kind: WindowKind,
    block: Block,
) -> Result<usize, Broken>
    requires { (block.kind ≡ kind_of kind) × BlockReady t l block × (count ≤ Counts.before_block) }
    ensures { BlockTested test.entry.test.e (shortfall test.entry.test.figures.now) count t l block result }
{
    all_slots(count, t, |rows, s| {
        test_window(test, rows, s, t, l, kind, block)
    })
}

// Tests the rows of a block at t slots that loop to slot l.
fn test_block(
    limited: LimitedTest,
    count: usize,
    t: u16,
    l: u16,
    block: Block,
) -> Result<usize, Broken>
    requires { BlockReady t l block × (count ≤ Counts.before_block) }
    ensures { BlockTested limited.entry.test.e (shortfall limited.entry.test.figures.now) count t l block result }
{
    let test = limited.test;
    let Block {
        own,
        left,
        right,
        ..
    } = block;
    match block.kind {
        Kind::Atom => all_slots(count, t, |rows, s| {
            test.test_same(Ok(rows), own + s, left + s)
        }),
        Kind::Not => all_slots(count, t, |rows, s| {
            test.test_not(Ok(rows), own + s, left + s)
        }),
        Kind::And => all_slots(count, t, |rows, s| {
            test.test_and(Ok(rows), own + s, left + s, right + s)
        }),
        Kind::Or => all_slots(count, t, |rows, s| {
            test.test_or(Ok(rows), own + s, left + s, right + s)
        }),
        Kind::Implies => all_slots(count, t, |rows, s| {
            test.test_implies(Ok(rows), own + s, left + s, right + s)
        }),
        Kind::Eventually => followed(test, count, t, block, left, |rows, s, next| {
            test.test_or(Ok(rows), own + s, left + s, next)
        }),
        Kind::Always => followed(test, count, t, block, left, |rows, s, next| {
            test.test_and(Ok(rows), own + s, left + s, next)
        }),
        Kind::Until => followed(test, count, t, block, right, |rows, s, next| {
            test.test_until(Ok(rows), own + s, left + s, right + s, next)
        }),
        Kind::Within => test_windows(limited, count, t, l, WindowKind::Within, block),
        Kind::Throughout => test_windows(limited, count, t, l, WindowKind::Throughout, block),
    }
}

// The i-th of the two blocks of the node with this block: its V's, where it has one, and its own. v is the first variable of its V.
fn nth_block(block: Block, v: u16, t: u16, l: u16, i: u16) -> Option<Block>
    requires { Placed block × (v ≤ first_limit) × (i < 2) }
    ensures { NthBlock t l v block i result }
{
    if i == 1 {
        return Some(block);
    }
    if row::has_kept(block.kind, usize::from(t), usize::from(l)) {
        Some(row::kept_block(block, v))
    } else {
        None
    }
}

// Tests the rows of a node: those of its V, where it has one, and those of its own block. It is a loop so that blocks
// are tested at one place, and the compiler makes no call of it.
fn test_node(
    test: LimitedTest,
    count: usize,
    t: u16,
    l: u16,
    block: Block,
    v: u16,
) -> Result<usize, Broken>
    requires { NodeReady t l block v × (count ≤ Counts.nodes) }
    ensures is { (m n : ℕ) (ns : List Node) → OwnIn t m l ns n v block →
        result ≡ tested test.entry.test.e (shortfall test.entry.test.figures.now) (Ok count) (part_rows t m l ns n) }
    ensures few { reached result ≤ count + Counts.node }
{
    let mut rows = count;
    for i in 0..2 {
        if let Some(next) = nth_block(block, v, t, l, i) {
            rows = test_block(test, rows, t, l, next)?;
        }
    }
    Ok(rows)
}

// Tests the rows of the nodes of a table. `kept` counts those that have a V.
fn test_nodes(plan: Plan, test: LimitedTest) -> Result<usize, Broken>
    ensures is { result ≡ tested test.entry.test.e (shortfall test.entry.test.figures.now) (Ok 0)
        (rows_to plan.entry.t plan.entry.m plan.entry.l (nodes_in plan.entry.table.now) plan.entry.nodes) }
    ensures few { reached result ≤ Counts.node * plan.entry.nodes }
{
    let mut rows: usize = 0;
    let mut kept: usize = 0;
    for i in 0..plan.nodes {
        let node = plan.node(i);
        let v = row::first_variable(plan.m + plan.nodes + kept, plan.t);
        let block = row::own_block(node, plan.t, plan.m, plan.l, i, v);
        rows = test_node(test, rows, plan.t as u16, plan.l as u16, block, v)?;
        kept = table::one_more(kept, table::loops(node.kind));
    }
    Ok(rows)
}

// Tests all rows of a table.
pub fn test_all(plan: Plan, test: LimitedTest) -> Result<usize, Broken>
    ensures { result ≡ tested test.entry.test.e (shortfall test.entry.test.figures.now) (Ok 0)
        (rows_of plan.entry.t plan.entry.m plan.entry.l (nodes_in plan.entry.table.now)) }
{
    let rows = test_nodes(plan, test)?;
    let goal = row::goal(row::slack(plan.t, plan.m, plan.nodes - 1, 1));
    test.test
        .step(Ok(rows), judge_sums::shortfall(goal, test.test.figures))
}
