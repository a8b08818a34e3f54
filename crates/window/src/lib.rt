// The slots that a window looks at from a slot, lowest slot first (request N4), where after slot T comes slot L again
// (request N8). Slots count from 0 here.
#![tactic(auto)]

ghost use Rattle.std.specs.Prelude.{◌≡◌, ℕ, ◌+◌, ◌≤◌, ◌<◌};
ghost use Rattle.lists.specs.Passing.{in_ranges};

mod windows;

pub use windows::{look, nth, total};

// The different slots of a window, `count` of them: the first `head` from `first` on, and the `rest` after `skip` slots
// more that it does not look at. (Four of these numbers, eight bytes, would be packed into one word at each call.)
#[derive(Clone, Copy, Debug, PartialEq, Eq)]
pub struct Looks {
    pub first: u16,
    pub count: u16,
    pub head: u16,
    pub skip: u16,
    pub rest: u16,
    pub ghost some: { 1 ≤ count },
    pub ghost few: { count ≤ 64 },
    pub ghost head_some: { 1 ≤ head },
    pub ghost ranges: { head + rest ≡ count },
    pub ghost places: { (i : ℕ) → i < count → in_ranges first head skip i < 64 },
}
