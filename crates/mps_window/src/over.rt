// A window at a slot.

ghost use Rattle.std.specs.Prelude.{ℕ, ◌<◌};
ghost use Rattle.window.specs.Slots.{variable_at};

use window::Looks;

// A window's rows at a slot: of F[a,b] where `within`, and otherwise of G[a,b]; the variables of the node there and of its part at the first slot of all;
// and the slots that it looks at. The part's variables stand before the node's. (`within` is also the sign of the node's entries.)
#[derive(Clone, Copy, Debug, PartialEq, Eq)]
pub struct Over {
    pub within: bool,
    pub own: u16,
    pub left: u16,
    pub looks: Looks,
    ghost below: { (j : ℕ) → j < looks.count → variable_at looks left j < own },
}
