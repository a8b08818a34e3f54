// Figures in millionths, with their own one, zero and conversion from a truth, and the tests of one figure.
#![tactic(auto)]

ghost use Rattle.std.specs.Prelude.{◌≡◌};
ghost use Rattle.rules.specs.Verdicts.{apart, is_outside, is_not_binary};
ghost use Rattle.millionths.specs.Unit.{of_truth};

#[derive(Clone, Copy, Debug, PartialEq, Eq, PartialOrd, Ord)]
pub struct Millionths {
    pub value: i32,
}

impl Millionths {
    pub const ONE: Self = Self { value: 1_000_000 };

    pub const ZERO: Self = Self { value: 0 };

    // Below −e or above one and e. (With numbers of 32 bits, so that several figures are tested at once.)
    pub fn is_outside(self, e: u16) -> bool
        ensures { result ≡ is_outside e self.value }
    {
        let tolerance = i32::from(e);
        self.value < Self::ZERO.value - tolerance || Self::ONE.value + tolerance < self.value
    }

    // More than e from another figure.
    fn is_apart(self, other: Self, e: u16) -> bool
        ensures { result ≡ apart e other.value self.value }
    {
        u32::from(e) < self.value.abs_diff(other.value)
    }

    // More than e from the figures of both truths.
    pub fn is_not_binary(self, e: u16) -> bool
        ensures { result ≡ is_not_binary e self.value }
    {
        self.is_apart(Self::from(false), e) && self.is_apart(Self::from(true), e)
    }
}

// The figure of a truth.
impl From<bool> for Millionths {
    fn from(truth: bool) -> Self
        ensures { result ≡ of_truth truth }
    {
        if truth { Self::ONE } else { Self::ZERO }
    }
}
