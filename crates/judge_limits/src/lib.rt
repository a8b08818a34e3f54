// The first variable whose figure fails a test.
#![tactic(auto)]

ghost use Rattle.std.specs.Prelude.{◌≡◌, Bool, ℕ, ◌+◌, ◌-◌, ◌≤◌, length};
ghost use Rattle.lists.specs.First.{first};
ghost use Rattle.lists.specs.Scan.{Skipped};
ghost use Rattle.judge_limits.specs.Tests.{found, at_once, figure, outside_at, not_binary_at};

use millionths::Millionths;

// How many figures are tested at once.
const AT_ONCE: usize = 64;

// How many of the figures from one variable up to another are outside, without a branch; 0 is all that is asked for.
fn count_outside(figures: &[i32], from: usize, to: usize, e: u16) -> u32
    requires { (from ≤ to) × (to ≤ from + at_once) × (to ≤ length figures.now) }
    ensures { result ≡ 0 → Skipped (outside_at e figures.now) from to }
{
    let mut count = 0;
    for v in from..to {
        let figure = Millionths { value: figures[v] };
        count += u32::from(figure.is_outside(e));
    }
    count
}

// The lowest of the first n variables, from one on, whose figure fails a test.
fn first_failing<F: Fn(Millionths) -> bool>(
    figures: &[i32],
    from: usize,
    n: usize,
    fails: F,
) -> Option<usize>
    requires { (from ≤ n) × (n ≤ length figures.now) × F.IsAlwaysCallable fails }
    ensures { (test : ℕ → Bool) → ((v : ℕ) (b : Bool) → F.post fails (figure figures.now v) b → b ≡ test v) →
        found result ≡ first test (n - from) from }
{
    for v in from..n {
        if fails(Millionths { value: figures[v] }) {
            return Some(v);
        }
    }
    None
}

// The lowest of the first n variables that is outside the limits.
pub fn first_outside(figures: &[i32], n: usize, e: u16) -> Option<usize>
    requires { n ≤ length figures.now }
    ensures { found result ≡ first (outside_at e figures.now) n 0 }
{
    for block in 0..n.div_ceil(AT_ONCE) {
        let from = block * AT_ONCE;
        let to = from + AT_ONCE.min(n - from);
        if 0 < count_outside(figures, from, to, e) {
            return first_failing(figures, from, n, |x| x.is_outside(e));
        }
    }
    None
}

// The lowest of the first n variables that is not binary.
pub fn first_not_binary(figures: &[i32], n: usize, e: u16) -> Option<usize>
    requires { n ≤ length figures.now }
    ensures { found result ≡ first (not_binary_at e figures.now) n 0 }
{
    first_failing(figures, 0, n, |x| x.is_not_binary(e))
}
