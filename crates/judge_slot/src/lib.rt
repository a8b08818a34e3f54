// The rows of a node at a slot, tested one after the other.
#![tactic(auto)]

ghost use Rattle.std.specs.Prelude.{◌≡◌, true, Ok, ◌+◌, ◌*◌, ◌^◌, ◌≤◌, ◌<◌, nat_abs, ◌+ℤ◌, pos, length};
ghost use Rattle.rules.specs.Rows.{same_rows, not_rows, and_rows, or_rows, implies_rows, until_rows, value_at};
ghost use Rattle.rules.specs.Judge.{shortfall};
ghost use Rattle.rules.specs.Verdicts.{is_short};
ghost use Rattle.millionths.specs.Bounds as Bounds;
ghost use Rattle.judge_sums.specs.Laws.{short_of};
ghost use Rattle.row.specs.Kinds.{over_rows};
ghost use Rattle.window.specs.Slots.{variable_at, variables};
ghost use Rattle.judge_slot.specs.Counts as Counts;
ghost use Rattle.judge_slot.specs.Searches.{Step, Tested, Stepped, reached};
ghost use Rattle.judge_slot.specs.Windows.{window_of, slot_sum, last_right, LastShort};
ghost use Rattle.judge_slot.specs.Spreads.{Limited, SpreadOf, Joined, extreme_of};
ghost use Rattle.judge_slot.specs.Holding.{Held};

use judge_sums::WindowKind;
use millionths::Millionths;
use window::Looks;

// The first broken row, and its shortfall in millionths.
#[derive(Clone, Copy, Debug, PartialEq, Eq)]
pub struct Broken {
    pub shortfall: i64,
    pub row: usize,
}

// The figures that are tested, and the tolerance. Where a call has tested its rows, it answers how many rows were tested, its own
// with them, and hold; `state` is how many hold before, or the broken row that was found, which then is the answer.
#[derive(Clone, Copy)]
pub struct Test<'a> {
    pub figures: &'a [i32],
    pub e: u16,
}

impl Test<'_> {
    // The figure of a variable.
    fn figure(self, variable: u16) -> Millionths
        ensures { result.value ≡ value_at self.entry.figures.now variable }
    {
        judge_sums::figure_of(self.figures, variable)
    }

    // Whether a row of this shortfall is broken.
    fn is_short(self, shortfall: i64) -> bool
        ensures { result ≡ is_short self.entry.e shortfall }
    {
        i64::from(self.e) < shortfall
    }

    // One more row, of this shortfall, is tested, if none was broken.
    pub fn step(self, state: Result<usize, Broken>, shortfall: i64) -> Result<usize, Broken>
        requires { reached state ≤ Counts.before_step }
        ensures { Step self.entry.e shortfall state result }
    {
        let row = state?;
        if self.is_short(shortfall) {
            Err(Broken { shortfall, row })
        } else {
            Ok(row + 1)
        }
    }

    // Rows of these shortfalls are tested, one after the other.
    fn steps<const N: usize>(
        self,
        state: Result<usize, Broken>,
        shortfalls: [i64; N],
    ) -> Result<usize, Broken>
        requires { (reached state ≤ Counts.before_slot) × (N ≤ Counts.at_slot) }
        ensures { Stepped self.entry.e shortfalls.entry state result }
    {
        let rows = state?;
        let mut done = rows;
        for shortfall in shortfalls {
            done = self.step(Ok(done), shortfall)?;
        }
        Ok(done)
    }

    // P − p = 0
    pub fn test_same(self, state: Result<usize, Broken>, node: u16, p: u16) -> Result<usize, Broken>
        requires { reached state ≤ Counts.before_slot }
        ensures { Tested self.entry.e (shortfall self.entry.figures.now) state (same_rows node p) result }
    {
        let x = self.figure(node);
        let y = self.figure(p);
        self.steps(state, [judge_sums::pair(1, x, -1, y).off(0)])
    }

    // P + p = 1
    pub fn test_not(self, state: Result<usize, Broken>, node: u16, p: u16) -> Result<usize, Broken>
        requires { reached state ≤ Counts.before_slot }
        ensures { Tested self.entry.e (shortfall self.entry.figures.now) state (not_rows node p) result }
    {
        let x = self.figure(node);
        let y = self.figure(p);
        self.steps(state, [judge_sums::pair(1, x, 1, y).off(1)])
    }

    // p − P ≥ 0; q − P ≥ 0; P − p − q ≥ −1
    pub fn test_and(
        self,
        state: Result<usize, Broken>,
        node: u16,
        p: u16,
        q: u16,
    ) -> Result<usize, Broken>
        requires { reached state ≤ Counts.before_slot }
        ensures { Tested self.entry.e (shortfall self.entry.figures.now) state (and_rows node p q) result }
    {
        let x = self.figure(node);
        let y = self.figure(p);
        let z = self.figure(q);
        let first = judge_sums::pair(1, y, -1, x).short(0);
        let second = judge_sums::pair(1, z, -1, x).short(0);
        let third = judge_sums::triple(1, x, -1, y, -1, z).short(-1);
        self.steps(state, [first, second, third])
    }

    // P − p ≥ 0; P − q ≥ 0; p + q − P ≥ 0
    pub fn test_or(
        self,
        state: Result<usize, Broken>,
        node: u16,
        p: u16,
        q: u16,
    ) -> Result<usize, Broken>
        requires { reached state ≤ Counts.before_slot }
        ensures { Tested self.entry.e (shortfall self.entry.figures.now) state (or_rows node p q) result }
    {
        let x = self.figure(node);
        let y = self.figure(p);
        let z = self.figure(q);
        let first = judge_sums::pair(1, x, -1, y).short(0);
        let second = judge_sums::pair(1, x, -1, z).short(0);
        let third = judge_sums::triple(1, y, 1, z, -1, x).short(0);
        self.steps(state, [first, second, third])
    }

    // P + p ≥ 1; P − q ≥ 0; q − p − P ≥ −1
    pub fn test_implies(
        self,
        state: Result<usize, Broken>,
        node: u16,
        p: u16,
        q: u16,
    ) -> Result<usize, Broken>
        requires { reached state ≤ Counts.before_slot }
        ensures { Tested self.entry.e (shortfall self.entry.figures.now) state (implies_rows node p q) result }
    {
        let x = self.figure(node);
        let y = self.figure(p);
        let z = self.figure(q);
        let first = judge_sums::pair(1, x, 1, y).short(1);
        let second = judge_sums::pair(1, x, -1, z).short(0);
        let third = judge_sums::triple(1, z, -1, y, -1, x).short(-1);
        self.steps(state, [first, second, third])
    }

    // P − q ≥ 0; p + q − P ≥ 0; q + P' − P ≥ 0; P − p − P' ≥ −1
    pub fn test_until(
        self,
        state: Result<usize, Broken>,
        node: u16,
        p: u16,
        q: u16,
        next: u16,
    ) -> Result<usize, Broken>
        requires { reached state ≤ Counts.before_slot }
        ensures { Tested self.entry.e (shortfall self.entry.figures.now) state (until_rows node p q next) result }
    {
        let x = self.figure(node);
        let y = self.figure(p);
        let z = self.figure(q);
        let w = self.figure(next);
        let first = judge_sums::pair(1, x, -1, z).short(0);
        let second = judge_sums::triple(1, y, 1, z, -1, x).short(0);
        let third = judge_sums::triple(1, z, 1, w, -1, x).short(0);
        let fourth = judge_sums::triple(1, x, -1, y, -1, w).short(-1);
        self.steps(state, [first, second, third, fourth])
    }

    // The rows over a window at a slot, row by row.
    fn search_window(
        self,
        rows: usize,
        kind: WindowKind,
        node: u16,
        p: u16,
        looks: Looks,
    ) -> Result<usize, Broken>
        requires { Counts.Fit p 64 × (rows ≤ Counts.before_slot) }
        ensures { Tested self.entry.e (shortfall self.entry.figures.now) (Ok rows) (over_rows (window_of kind) node (variables looks p)) result }
    {
        let x = self.figure(node);
        let mut done = rows;
        let mut sum: i64 = 0;
        for i in 0..looks.count {
            let y = self.figure(p + window::nth(looks, i));
            done = self.step(Ok(done), slot_short(kind, x, y))?;
            sum = judge_sums::grown(sum, y);
        }
        self.step(Ok(done), last_short(kind, sum, x, looks.count))
    }
}

// What the row of F[a,b] or of G[a,b] at a slot of its window falls short by: P − p ≥ 0 or p − P ≥ 0. x is the node's figure, and y
// the part's at the slot.
fn slot_short(kind: WindowKind, x: Millionths, y: Millionths) -> i64
    ensures { result ≡ short_of (pos 0) (slot_sum kind x.value y.value) }
{
    match kind {
        WindowKind::Within => judge_sums::pair(1, x, -1, y).short(0),
        WindowKind::Throughout => judge_sums::pair(1, y, -1, x).short(0),
    }
}

// The right side of the last row over k slots.
fn last_right(kind: WindowKind, k: u16) -> i8
    requires { (1 ≤ k) × (k ≤ 64) }
    ensures { result ≡ last_right kind k }
{
    match kind {
        WindowKind::Within => 0,
        WindowKind::Throughout => row::less_one(k),
    }
}

// What the last row falls short by: the sum of all p, less P, ≥ 0, or P less all p ≥ −(k − 1). `sum` is that of the part's figures
// at the k slots.
fn last_short(kind: WindowKind, sum: i64, x: Millionths, k: u16) -> i64
    requires { (nat_abs sum ≤ Bounds.window_sum) × (1 ≤ k) × (k ≤ 64) }
    ensures { LastShort kind sum x.value k result }
{
    judge_sums::window_sum(kind, sum, x).short(last_right(kind, k))
}

// Some figures within limits: their sum, the least and the largest.
#[derive(Clone, Copy)]
struct Spread {
    sum: i32,
    least: Millionths,
    most: Millionths,
}

// The figure whose row falls short by most.
fn extreme(kind: WindowKind, spread: Spread) -> Millionths
    ensures { result ≡ extreme_of kind spread }
{
    match kind {
        WindowKind::Within => spread.most,
        WindowKind::Throughout => spread.least,
    }
}

// Two spreads as one.
fn joined(a: Spread, b: Spread) -> Spread
    requires { (nat_abs a.sum ≤ 64 * Bounds.near) × (nat_abs b.sum ≤ 64 * Bounds.near) }
    ensures { Joined a b result }
{
    Spread {
        sum: a.sum + b.sum,
        least: Millionths {
            value: a.least.value.min(b.least.value),
        },
        most: Millionths {
            value: a.most.value.max(b.most.value),
        },
    }
}

// The part's variable at the first slot of a window.
fn start(p: u16, looks: Looks) -> usize
    ensures { (result ≡ p + looks.first) × (result < 2 ^ 17) }
{
    usize::from(p) + usize::from(looks.first)
}

// The end of the part's variables at the slots of a window.
fn past(p: u16, looks: Looks) -> usize
    ensures { result ≡ p + looks.first + looks.count + looks.skip }
{
    start(p, looks) + usize::from(looks.count) + usize::from(looks.skip)
}

// A test of figures that are within limits.
#[derive(Clone, Copy)]
pub struct LimitedTest<'a> {
    pub test: Test<'a>,
    ghost limited: { Limited test.figures.now },
}

impl LimitedTest<'_> {
    // Of the k figures from a place on, without a branch.
    fn spread_of(self, from: usize, k: usize) -> Spread
        requires { (1 ≤ k) × (k ≤ 64) × (from + k ≤ length self.test.figures.now) }
        ensures { SpreadOf self.entry.test.figures.now (λ i. from + i) k result }
    {
        let figures = self.test.figures;
        let mut least = figures[from];
        let mut most = least;
        let mut sum: i32 = 0;
        for i in 0..k {
            let y = figures[from + i];
            sum += y;
            least = least.min(y);
            most = most.max(y);
        }
        Spread {
            sum,
            least: Millionths { value: least },
            most: Millionths { value: most },
        }
    }

    // Of a part's figures at the slots of a window, which are in one range or in two.
    fn window_spread(self, p: u16, looks: Looks) -> Spread
        requires { p + looks.first + looks.count + looks.skip ≤ length self.test.figures.now }
        ensures { SpreadOf self.entry.test.figures.now (variable_at looks p) looks.count result }
    {
        let from = start(p, looks);
        let head = usize::from(looks.head);
        let rest = usize::from(looks.rest);
        let first = self.spread_of(from, head);
        if 0 < rest {
            let second = self.spread_of(from + head + usize::from(looks.skip), rest);
            return joined(first, second);
        }
        first
    }

    // All rows over a window at a slot hold: the one with the extreme figure does, and the last one. False tells nothing.
    fn window_holds(self, kind: WindowKind, node: u16, p: u16, looks: Looks) -> bool
        ensures { result ≡ true →
            Held self.entry.test.e (shortfall self.entry.test.figures.now) (over_rows (window_of kind) node (variables looks p)) }
    {
        let test = self.test;
        if test.figures.len() < past(p, looks) {
            return false;
        }
        let x = test.figure(node);
        let seen = self.window_spread(p, looks);
        let slots = slot_short(kind, x, extreme(kind, seen));
        let last = last_short(kind, i64::from(seen.sum), x, looks.count);
        !test.is_short(slots) && !test.is_short(last)
    }

    // P − p(s) ≥ 0 for each slot s of a window, and the sum of all p(s), less P, ≥ 0; or p(s) − P ≥ 0 for each, and P less all
    // p(s) ≥ −(k − 1). p is the part's variable at the first slot of all.
    pub fn test_window(
        self,
        state: Result<usize, Broken>,
        kind: WindowKind,
        node: u16,
        p: u16,
        looks: Looks,
    ) -> Result<usize, Broken>
        requires { Counts.Fit p 64 × (reached state ≤ Counts.before_slot) }
        ensures { Tested self.entry.test.e (shortfall self.entry.test.figures.now) state
            (over_rows (window_of kind) node (variables looks p)) result }
    {
        let rows = state?;
        if self.window_holds(kind, node, p, looks) {
            Ok(rows + usize::from(looks.count) + 1)
        } else {
            self.test.search_window(rows, kind, node, p, looks)
        }
    }
}
