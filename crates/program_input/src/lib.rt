// The input of programs rowlist and mpspage, scanned in chunks of any size.
#![tactic(auto)]

ghost use Rattle.std.specs.Prelude.{◌≡◌, ◌+◌, ◌-◌, ◌*◌, ◌≤◌, length, take};
ghost use Rattle.program_input.specs.Scanning.{state, kind_of, advanced, grown as grown_by, steps, shaped, settled};
ghost use Rattle.program_input.specs.Feeding.{Stepped, fed_text};

// How far the input is read: T, the space, M, the line feed, line 2, past line 2; or line 1 is of another shape.
#[derive(Clone, Copy, Debug, PartialEq, Eq)]
pub enum Stage {
    Start,
    Slots,
    Between,
    Atoms,
    Break,
    Rule,
    Done,
    Bad,
}

#[derive(Clone, Copy, Debug, PartialEq, Eq)]
enum Kind {
    Digit,
    Space,
    Feed,
    Other,
}

impl From<u8> for Kind {
    ghost from_gives = { λ b r. r ≡ kind_of b };

    fn from(b: u8) -> Kind {
        match b {
            b'\n' => Kind::Feed,
            b' ' => Kind::Space,
            b'0'..=b'9' => Kind::Digit,
            _ => Kind::Other,
        }
    }
}

impl Stage {
    // The stage after a digit, a space, a line feed or another byte.
    fn after(self, kind: Kind) -> Stage
        ensures { result ≡ advanced self kind }
    {
        match (self, kind) {
            (Stage::Start | Stage::Slots, Kind::Digit) => Stage::Slots,
            (Stage::Slots, Kind::Space) => Stage::Between,
            (Stage::Between | Stage::Atoms, Kind::Digit) => Stage::Atoms,
            (Stage::Atoms, Kind::Feed) => Stage::Break,
            (Stage::Break | Stage::Rule, Kind::Feed) | (Stage::Done, _) => Stage::Done,
            (Stage::Break | Stage::Rule, _) => Stage::Rule,
            _ => Stage::Bad,
        }
    }

    // Line 1, as far as it is read, has its shape.
    pub fn is_shaped(self) -> bool
        ensures { result ≡ shaped self }
    {
        matches!(
            self,
            Stage::Atoms | Stage::Break | Stage::Rule | Stage::Done
        )
    }

    // What follows changes nothing: line 2 is read to its end, or line 1 is of another shape.
    pub fn is_settled(self) -> bool
        ensures { result ≡ settled self }
    {
        matches!(self, Stage::Done | Stage::Bad)
    }
}

// From here on T and M are all alike.
const MANY: usize = 1000;

// The number v with the digit b behind it, up to 1,000.
fn grown(v: usize, b: u8) -> usize
    ensures { result ≡ grown_by v b }
{
    (v.min(MANY) * 10 + usize::from(b.saturating_sub(b'0'))).min(MANY)
}

// A scan: T and M, up to 1,000, and how many bytes of line 2 are kept in the text that is lent.
// The text lies beside the scan, in the program's own buffer: there is no heap, and a scan is copied.
#[derive(Clone, Copy, Debug, PartialEq, Eq)]
pub struct Scan {
    pub stage: Stage,
    pub slots: usize,
    pub atoms: usize,
    pub kept: usize,
}

impl Scan {
    // Nothing is read yet.
    pub fn start() -> Scan
        ensures { (result.stage ≡ Stage.Start) × (result.slots ≡ 0) × (result.atoms ≡ 0) × (result.kept ≡ 0) }
    {
        Scan {
            stage: Stage::Start,
            slots: 0,
            atoms: 0,
            kept: 0,
        }
    }

    // One byte of the input; one of line 2 is kept as long as there is room.
    fn step(&mut self, b: u8, text: &mut [u8])
        ensures { Stepped self.old text.old b self.new text.new }
    {
        self.stage = self.stage.after(Kind::from(b));
        match self.stage {
            Stage::Slots => self.slots = grown(self.slots, b),
            Stage::Atoms => self.atoms = grown(self.atoms, b),
            Stage::Rule => {
                if self.kept < text.len() {
                    text[self.kept] = b;
                    self.kept += 1;
                }
            }
            _ => {}
        }
    }

    // The next bytes of the input.
    pub fn feed(mut self, chunk: &[u8], text: &mut [u8]) -> Scan
        ensures text_after { state result text.new ≡ steps (length text.old) (state self text.old) chunk.now }
        ensures text_after_2 { text.new ≡
            fed_text (steps (length text.old) (state self text.old) chunk.now) text.old }
    {
        for b in chunk {
            self.step(*b, text);
        }
        self
    }
}
