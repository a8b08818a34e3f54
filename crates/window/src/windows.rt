// What a window looks at from a slot, how many slots those are, and the i-th of them.

ghost use Rattle.std.specs.Prelude.{◌≡◌, ◌+◌, ◌*◌, ◌≤◌, ◌<◌, length};
ghost use Rattle.rules.specs.Truth.{slot_of};
ghost use Rattle.rules.specs.Rows.{window_slots};
ghost use Rattle.window.specs.Slots.{place_of, Looking};
ghost use Rattle.window.specs.Total.{slot_total};

use super::Looks;

// T, L and the window stay numbers of their own: a struct of them would be made for each call and taken apart in it.

// The slot of a time, of t slots that loop to slot l: "after T comes L again". With L equal to T that is the last slot.
fn slot_of(k: u16, t: u16, l: u16) -> u16
    requires { (1 ≤ l) × (l ≤ t) × (t ≤ 64) × (k < 128) }
    ensures { (result + 1 ≡ slot_of t l (k + 1)) × (result < t) }
{
    if k < t {
        return k;
    }
    if l == t {
        return t - 1;
    }
    l - 1 + (k - t) % (t - l + 1)
}

// "They look at slots t + a to t + b": the window a, b from slot s, of t slots that loop to slot l. What goes past the
// last slot goes on from slot l: up to where the window began, or not so far, and then it has two ranges.
pub fn look(t: u16, l: u16, s: u16, a: u16, b: u16) -> Looks
    requires { (1 ≤ l) × (l ≤ t) × (t ≤ 64) × (s < t) × (a ≤ b) × (b ≤ 63) }
    ensures { Looking t l (s + 1) a b result }
{
    let start = slot_of(s + a, t, l);
    let end = start + (b - a) + 1;
    if end <= t {
        let count = end - start;
        return Looks {
            first: start,
            count,
            head: count,
            skip: 0,
            rest: 0,
        };
    }
    let reach = l - 1 + (end - t);
    if start <= reach {
        let first = (l - 1).min(start);
        let count = t - first;
        return Looks {
            first,
            count,
            head: count,
            skip: 0,
            rest: 0,
        };
    }
    Looks {
        first: l - 1,
        count: end - start,
        head: end - t,
        skip: start - reach,
        rest: t - start,
    }
}

// The i-th of the slots.
pub fn nth(looks: Looks, i: u16) -> u16
    requires { i < looks.count }
    ensures { (result ≡ place_of looks i) × (result < 64) }
{
    if i < looks.head {
        looks.first + i
    } else {
        looks.first + i + looks.skip
    }
}

// How many different slots the window a, b looks at from slot s: all that it reaches, but at most those from where it
// begins, or from slot l if that is before, to the last slot.
fn slot_count(t: u16, l: u16, s: u16, a: u16, b: u16) -> u16
    requires { (1 ≤ l) × (l ≤ t) × (t ≤ 64) × (s < t) × (a ≤ b) × (b ≤ 63) }
    ensures { (result ≡ length (window_slots t l (s + 1) a b)) × (result ≤ 64) }
{
    let start = slot_of(s + a, t, l);
    (b - a + 1).min(t - (l - 1).min(start))
}

// How many slots the window a, b looks at from all t slots together.
pub fn total(t: u16, l: u16, a: u16, b: u16) -> usize
    requires { (1 ≤ l) × (l ≤ t) × (t ≤ 64) × (a ≤ b) × (b ≤ 63) }
    ensures { (result ≡ slot_total t l a b) × (result ≤ 64 * t) }
{
    let mut sum: usize = 0;
    for s in 0..t {
        sum += usize::from(slot_count(t, l, s, a, b));
    }
    sum
}
