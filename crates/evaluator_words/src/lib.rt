// Truth words: bit s of a word is the truth at slot s, counted from 0, with zeros from the horizon on.
#![tactic(auto)]

ghost use Rattle.std.specs.Prelude.{◌≡◌, Bool, not, ◌&&◌, ◌||◌, ℕ, ◌+◌, ◌-◌, ◌^◌, ◌≤◌, ◌<◌};
ghost use Rattle.rules.specs.Quantities.{SlotsAllowed, LoopAllowed};
ghost use Rattle.evaluator_words.specs.Bits.{on};
ghost use Rattle.evaluator_words.specs.Ahead.{some, Doubled};
ghost use Rattle.evaluator_words.specs.Words.{Word, eventually_kept, always_kept, until_kept};
ghost use Rattle.evaluator_words.specs.Words.{eventually_at, always_at, until_at, later_at, within_at, throughout_at};
ghost use Rattle.evaluator_words.specs.Rounds.{Round};

// The bits of a that b has not.
fn without(a: u64, b: u64) -> u64
    ensures { (j : ℕ) → on result j ≡ (on a j && not (on b j)) }
{
    a & !b
}

// Whether bit s of a word is set.
fn is_on(w: u64, s: usize) -> bool
    requires { s < 64 }
    ensures { result ≡ on w s }
{
    (w >> s) % 2 == 1
}

// p and q.
pub fn and(p: u64, q: u64) -> u64
    ensures { (T : ℕ) → p < 2 ^ T → Word T (λ j. on p j && on q j) result }
{
    p & q
}

// p or q.
pub fn or(p: u64, q: u64) -> u64
    ensures { (T : ℕ) → p < 2 ^ T → q < 2 ^ T → Word T (λ j. on p j || on q j) result }
{
    p | q
}

// Eventually q, kept to the slots up to the last: the bits up to the highest that is set.
fn eventually_kept(q: u64) -> u64
    ensures { (T : ℕ) → q < 2 ^ T → Word T (eventually_kept T (on q)) result }
{
    if q == 0 {
        return 0;
    }
    u64::MAX >> q.leading_zeros()
}

// Over a number of slots from each slot on: q is met, with p up to there; p is held at all of them.
#[derive(Clone, Copy, Debug, PartialEq, Eq)]
struct Reach {
    met: u64,
    held: u64,
}

impl Reach {
    // From k slots to twice as many.
    fn doubled(self, k: usize) -> Reach
        requires { k < 64 }
        ensures { (p q : ℕ → Bool) → Doubled p q k self.met self.held → Doubled p q (k + k) result.met result.held }
    {
        Reach {
            met: self.met | (self.held & (self.met >> k)),
            held: self.held & (self.held >> k),
        }
    }
}

// p until q, kept to the slots up to the last.
fn until_kept(p: u64, q: u64) -> u64
    ensures { (T : ℕ) → T ≤ 64 → q < 2 ^ T → Word T (until_kept T (on p) (on q)) result }
{
    Reach { met: q, held: p }
        .doubled(1)
        .doubled(2)
        .doubled(4)
        .doubled(8)
        .doubled(16)
        .doubled(32)
        .met
}

// Whether a bit of w is set at one of n places from each place on.
fn some_ahead(w: u64, n: usize) -> u64
    requires { (1 ≤ n) × (n ≤ 64) }
    ensures { (j : ℕ) → on result j ≡ some (on w) n j }
{
    let mut x = w;
    let mut seen: usize = 1;
    while seen <= n - seen {
        x |= x >> seen;
        seen += seen;
    }
    x | (x >> (n - seen))
}

// The d bits of w over and over.
fn repeated(w: u64, d: usize) -> u64
    requires { (1 ≤ d) × (d ≤ 64) × (w < 2 ^ d) }
    ensures { (f : ℕ → Bool) → Round d f w → (i : ℕ) → i < 64 → on result i ≡ f i }
{
    let mut x = w;
    let mut seen = d;
    while seen < 64 {
        x |= x << seen;
        seen += seen;
    }
    x
}

// The last slot t and the loop slot l, which comes after it again; both count from 1.
#[derive(Clone, Copy, Debug, PartialEq, Eq)]
pub struct Horizon {
    pub t: usize,
    pub l: usize,
    pub ghost slots: { SlotsAllowed t },
    pub ghost loop_slot: { LoopAllowed t l },
}

impl Horizon {
    // The bits of all slots.
    fn ones(self) -> u64
        ensures { result ≡ 2 ^ self.t - 1 }
    {
        u64::MAX >> (64 - self.t)
    }

    // Not p.
    pub fn not(self, p: u64) -> u64
        ensures { Word self.t (λ j. not (on p j)) result }
    {
        without(self.ones(), p)
    }

    // p implies q.
    pub fn implies(self, p: u64, q: u64) -> u64
        requires { q < 2 ^ self.t }
        ensures { Word self.t (λ j. not (on p j) || on q j) result }
    {
        or(self.not(p), q)
    }

    // Always p, kept to the slots up to the last: not eventually not p.
    fn always_kept(self, p: u64) -> u64
        ensures { Word self.t (always_kept self.t (on p)) result }
    {
        self.not(eventually_kept(self.not(p)))
    }

    // Eventually q, from its truth kept to the slots up to the last: where that holds at slot l, q comes again and again.
    fn eventually_again(self, kept: u64) -> u64
        ensures { (q : ℕ → Bool) → Word self.t (eventually_kept self.t q) kept → Word self.t (eventually_at self.t self.l q) result }
    {
        if is_on(kept, self.l - 1) {
            return self.ones();
        }
        kept
    }

    // Eventually q.
    pub fn eventually(self, q: u64) -> u64
        requires { q < 2 ^ self.t }
        ensures { Word self.t (eventually_at self.t self.l (on q)) result }
    {
        let kept = eventually_kept(q);
        if self.l < self.t {
            return self.eventually_again(kept);
        }
        kept
    }

    // Always p: not eventually not p.
    pub fn always(self, p: u64) -> u64
        ensures { Word self.t (always_at self.t self.l (on p)) result }
    {
        self.not(self.eventually(self.not(p)))
    }

    // p until q, from its truth kept to the slots up to the last: where that holds at slot l, it is enough that p holds up to
    // the last slot.
    fn until_again(self, p: u64, met: u64) -> u64
        ensures { (q : ℕ → Bool) → Word self.t (until_kept self.t (on p) q) met → Word self.t (until_at self.t self.l (on p) q) result }
    {
        if is_on(met, self.l - 1) {
            return met | self.always_kept(p);
        }
        met
    }

    // p until q.
    pub fn until(self, p: u64, q: u64) -> u64
        requires { q < 2 ^ self.t }
        ensures { Word self.t (until_at self.t self.l (on p) (on q)) result }
    {
        let kept = until_kept(p, q);
        if self.l < self.t {
            return self.until_again(p, kept);
        }
        kept
    }

    // p a slots later: at the slots up to the last, and then at those from l on, over and over.
    fn later(self, p: u64, a: usize) -> u64
        requires { (p < 2 ^ self.t) × (a < 64) }
        ensures { Word self.t (later_at self.t self.l a (on p)) result }
    {
        let again = repeated(p >> (self.l - 1), self.t - self.l + 1);
        (p >> a) | (again << 1 << (63 - a) >> (64 - self.t))
    }

    // F[0,n] p: a window that goes on after the last slot first meets p where p first holds from slot l on.
    fn within_next(self, p: u64, n: usize) -> u64
        requires { (p < 2 ^ self.t) × (n < 64) }
        ensures { Word self.t (within_at self.t self.l 0 n (on p)) result }
    {
        let near = some_ahead(p, n + 1);
        let first = (p >> (self.l - 1)).trailing_zeros() as usize;
        let all = self.ones();
        near | without(all, all >> (n - first.min(n)))
    }

    // F[a,b] p with the last slot as the loop slot: "a slot after T counts as T".
    fn within_last(self, p: u64, a: usize, b: usize) -> u64
        requires { (p < 2 ^ self.t) × (a ≤ b) × (b < 64) }
        ensures { Word self.t (within_at self.t self.t a b (on p)) result }
    {
        let near = some_ahead(p >> a, b - a + 1);
        if is_on(p, self.t - 1) {
            let all = self.ones();
            return near | without(all, all >> b);
        }
        near
    }

    // F[a,b] p: p a to b slots later.
    pub fn eventually_within(self, p: u64, a: usize, b: usize) -> u64
        requires { (p < 2 ^ self.t) × (a ≤ b) × (b < 64) }
        ensures { Word self.t (within_at self.t self.l a b (on p)) result }
    {
        if self.l < self.t {
            return self.within_next(self.later(p, a), b - a);
        }
        self.within_last(p, a, b)
    }

    // G[a,b] p: not F[a,b] not p.
    pub fn always_within(self, p: u64, a: usize, b: usize) -> u64
        requires { (a ≤ b) × (b < 64) }
        ensures { Word self.t (throughout_at self.t self.l a b (on p)) result }
    {
        self.not(self.eventually_within(self.not(p), a, b))
    }
}
