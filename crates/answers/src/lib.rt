// The refusals that calls answer with where they have no result.
#![tactic(auto)]

ghost use Rattle.std.specs.Prelude.{◌≡◌};
ghost use Rattle.answers.specs.Meaning.{number_of};

// The refusals of documents 01 and 02, in the order of their numbers, 1 to 13.
#[derive(Clone, Copy, Debug, PartialEq, Eq)]
pub enum Refusal {
    Slots,
    Atoms,
    LongText,
    Grammar,
    AtomNumber,
    Nodes,
    Table,
    Run,
    Figures,
    Tolerance,
    Room,
    Window,
    Loop,
}

// The number of a refusal.
impl From<Refusal> for u32 {
    ghost from_gives = { λ r n. n ≡ number_of r };

    fn from(r: Refusal) -> u32 {
        match r {
            Refusal::Slots => 1,
            Refusal::Atoms => 2,
            Refusal::LongText => 3,
            Refusal::Grammar => 4,
            Refusal::AtomNumber => 5,
            Refusal::Nodes => 6,
            Refusal::Table => 7,
            Refusal::Run => 8,
            Refusal::Figures => 9,
            Refusal::Tolerance => 10,
            Refusal::Room => 11,
            Refusal::Window => 12,
            Refusal::Loop => 13,
        }
    }
}
