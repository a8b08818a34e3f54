// The sum of a row, and what it falls short by.
#![tactic(auto)]

ghost use Rattle.std.specs.Prelude.{◌≡◌, [], ◌∷◌, ◌+◌, ◌*◌, ◌≤◌, ℤ, pos, nat_abs, ◌+ℤ◌, ◌*ℤ◌};
ghost use Rattle.rules.specs.Quantities as Quantities;
ghost use Rattle.rules.specs.Rows.{value_at};
ghost use Rattle.rules.specs.Judge as Judge;
ghost use Rattle.judge_sums.specs.Sums.{added, passed, term, RowSumOf};
ghost use Rattle.judge_sums.specs.Windows.{last_terms, WindowSum};
ghost use Rattle.judge_sums.specs.Laws.{short_of, off_of};
ghost use Rattle.millionths.specs.Bounds as Bounds;
ghost use Rattle.row.specs.Meaning.{terms_of, row_of};

use millionths::Millionths;
use row::{Relation, Row, Terms};

// The figure of a variable.
pub fn figure_of(figures: &[i32], variable: u16) -> Millionths
    ensures { result.value ≡ value_at figures.now variable }
{
    match figures.get(usize::from(variable)) {
        Some(value) => Millionths { value: *value },
        None => Millionths::ZERO,
    }
}

// A coefficient times a figure.
fn product(coefficient: i8, figure: Millionths) -> i64
    ensures { (result ≡ coefficient *ℤ figure.value) × (nat_abs result ≤ Bounds.product) }
{
    i64::from(coefficient) * i64::from(figure.value)
}

// A right side in millionths.
fn scaled(right: i8) -> i64
    ensures { (result ≡ right *ℤ pos Quantities.one) × (nat_abs result ≤ Bounds.right) }
{
    product(right, Millionths::ONE)
}

// The sum of a row, its terms added in the order of the solver's trace: those with a positive coefficient first.
#[derive(Clone, Copy, Debug, PartialEq, Eq)]
pub struct RowSum {
    // the sum reached after those
    pub positive: i64,
    // the sum of all terms
    pub whole: i64,
}

// A sum and one more term, if it is taken.
fn add(sum: i64, taken: bool, term: i64) -> i64
    requires { (nat_abs sum ≤ Bounds.row_sum + 2 * Bounds.product) × (nat_abs term ≤ Bounds.product) }
    ensures { (result ≡ added sum taken term) × (nat_abs result ≤ nat_abs sum + Bounds.product) }
{
    if taken { sum + term } else { sum }
}

// A pass through three terms: a sum and, one after the other, a where p, b where q and c where s.
fn pass(sum: i64, p: bool, a: i64, q: bool, b: i64, s: bool, c: i64) -> i64
    requires { (nat_abs sum ≤ Bounds.row_sum) × (nat_abs a ≤ Bounds.product) × (nat_abs b ≤ Bounds.product) × (nat_abs c ≤ Bounds.product) }
    ensures { (result ≡ passed sum p a q b s c) × (nat_abs result ≤ nat_abs sum + Bounds.row_sum) }
{
    add(add(add(sum, p, a), q, b), s, c)
}

// The row sum of three terms.
pub fn triple(j: i8, x: Millionths, k: i8, y: Millionths, l: i8, z: Millionths) -> RowSum
    ensures { RowSumOf (x.value ∷ y.value ∷ z.value ∷ []) (term j 0 ∷ term k 1 ∷ term l 2 ∷ []) result }
{
    let a = product(j, x);
    let b = product(k, y);
    let c = product(l, z);
    let positive = pass(0, 0 < j, a, 0 < k, b, 0 < l, c);
    let whole = pass(positive, !(0 < j), a, !(0 < k), b, !(0 < l), c);
    RowSum { positive, whole }
}

// The row sum of two terms: the third is zero.
pub fn pair(j: i8, x: Millionths, k: i8, y: Millionths) -> RowSum
    ensures { RowSumOf (x.value ∷ y.value ∷ []) (term j 0 ∷ term k 1 ∷ []) result }
{
    triple(j, x, k, y, 0, Millionths::ZERO)
}

impl RowSum {
    // What the sum falls short of the right side by.
    pub fn short(self, right: i8) -> i64
        requires { nat_abs self.whole ≤ Bounds.row_sum }
        ensures { (result ≡ short_of right self.whole) × (nat_abs result ≤ Bounds.shortfall) }
    {
        scaled(right) - self.whole
    }

    // How far the sum is from the right side.
    pub fn off(self, right: i8) -> i64
        requires { nat_abs self.whole ≤ Bounds.row_sum }
        ensures { (result ≡ off_of right self.whole) × (nat_abs result ≤ Bounds.shortfall) }
    {
        (self.whole - scaled(right)).abs()
    }
}

// A sum of figures, and one more.
pub fn grown(sum: i64, figure: Millionths) -> i64
    requires { nat_abs sum ≤ Bounds.window_sum }
    ensures { (result ≡ sum +ℤ figure.value) × (nat_abs result ≤ nat_abs sum + Bounds.figure) }
{
    sum + i64::from(figure.value)
}

// The rows over a window: those of F[a,b], or of G[a,b].
#[derive(Clone, Copy, Debug, PartialEq, Eq)]
pub enum WindowKind {
    Within,
    Throughout,
}

// The row sum of a window's last row: `sum` is that of the part's figures at the slots of the window, and x the node's figure.
pub fn window_sum(kind: WindowKind, sum: i64, x: Millionths) -> RowSum
    requires { nat_abs sum ≤ Bounds.window_sum }
    ensures terms { WindowSum (last_terms kind) sum x.value result }
    ensures small { (nat_abs result.positive ≤ Bounds.row_sum) × (nat_abs result.whole ≤ Bounds.row_sum) }
{
    let figure = i64::from(x.value);
    match kind {
        WindowKind::Within => RowSum {
            positive: sum,
            whole: sum - figure,
        },
        WindowKind::Throughout => RowSum {
            positive: figure,
            whole: figure - sum,
        },
    }
}

// The row sum of terms over the figures.
pub fn row_sum(figures: &[i32], terms: Terms) -> RowSum
    ensures { RowSumOf figures.now (terms_of terms) result }
{
    match terms {
        Terms::Single(a) => {
            let x = figure_of(figures, a.variable);
            pair(a.coefficient, x, 0, Millionths::ZERO)
        }
        Terms::Pair(a, b) => {
            let x = figure_of(figures, a.variable);
            let y = figure_of(figures, b.variable);
            pair(a.coefficient, x, b.coefficient, y)
        }
        Terms::Triple(a, b, c) => {
            let x = figure_of(figures, a.variable);
            let y = figure_of(figures, b.variable);
            let z = figure_of(figures, c.variable);
            triple(a.coefficient, x, b.coefficient, y, c.coefficient, z)
        }
    }
}

// What the sum of a row falls short of its right side by or, for =, how far it is from it.
pub fn shortfall(row: Row, figures: &[i32]) -> i64
    ensures { (result ≡ Judge.shortfall figures.now (row_of row)) × (nat_abs result ≤ Bounds.shortfall) }
{
    let sum = row_sum(figures, row.terms);
    match row.relation {
        Relation::AtLeast => sum.short(row.right),
        Relation::Equal => sum.off(row.right),
    }
}
