// The words of the atoms. A run has a number for each slot, with a bit for each atom; a word has a bit for each slot. So the
// numbers are packed into words in blocks of 4, 8 or 16 slots and atoms, whichever the atoms fit into, and the bits are
// turned over by exchanging the halves of blocks, then of blocks of half the size.
#![tactic(auto)]

ghost use Rattle.std.specs.Prelude.{◌≡◌, List, ℕ, ◌+◌, ◌*◌, ◌≤◌, ◌<◌, length};
ghost use Rattle.evaluator_atoms.specs.Turning.{row_of, pairs_for, low_of, high_of, PairAt, Stage};
ghost use Rattle.evaluator_atoms.specs.Packing.{Width, Below, Laid, Blank, Packed};
ghost use Rattle.evaluator_atoms.specs.Columns.{Blocks, Columns};

// Adds the numbers of `count` slots to the first words, each from bit `place` on.
fn lay(block: &mut [u64; 16], run: &[u16], place: usize, count: usize)
    requires { (place < 64) × (count ≤ 16) × (place + count ≤ length run.now) }
    ensures { (w : ℕ) → Laid w run.now place count →
        Packed w run.now place block.old → Packed w run.now (place + count) block.new }
{
    for i in 0..count {
        block[i] |= u64::from(run[place + i]) << place;
    }
}

// The numbers in blocks of w slots: that of slot s stands in word s % w, from bit w * (s / w) on.
fn pack(block: &mut [u64; 16], run: &[u16], t: usize, w: usize)
    requires t_bound { (t ≤ 64) × (t ≤ length run.now) × Width w × Below w t run.now }
    requires blank { Blank block.old }
    ensures { Packed w run.now t block.new }
{
    // A stride of w, and no count: each block begins where the last one ends.
    let mut place: usize = 0;
    while place < t {
        lay(block, run, place, w.min(t - place));
        place += w;
    }
}

// From blocks of 2 * half slots and atoms to blocks of `half`; the mask has the bits of first halves.
#[derive(Clone, Copy, Debug, PartialEq, Eq)]
struct Halving {
    half: usize,
    mask: u64,
}

const TO_EIGHTS: Halving = Halving {
    half: 8,
    mask: 0x00FF_00FF_00FF_00FF,
};

const TO_FOURS: Halving = Halving {
    half: 4,
    mask: 0x0F0F_0F0F_0F0F_0F0F,
};

const TO_TWOS: Halving = Halving {
    half: 2,
    mask: 0x3333_3333_3333_3333,
};

const TO_ONES: Halving = Halving {
    half: 1,
    mask: 0x5555_5555_5555_5555,
};

impl Halving {
    // Exchanges the bits of the low word that the mask has not with those of the high word that it has.
    fn exchange(self, low: u64, high: u64) -> (u64, u64)
        requires { self.half < 64 }
        ensures { (result.0 ≡ low_of self.half self.mask low high) × (result.1 ≡ high_of self.half self.mask low high) }
    {
        (
            (low & self.mask) | ((high & self.mask) << self.half),
            ((low >> self.half) & self.mask) | (high & !self.mask),
        )
    }

    // The first word of pair k.
    fn row_of(self, k: usize) -> usize
        requires { (1 ≤ self.half) × (self.half ≤ 8) × PairAt self.half k (row_of self.half k) }
        ensures { PairAt self.half k result }
    {
        2 * self.half * (k / self.half) + k % self.half
    }

    // How many pairs the words of m atoms come from.
    fn pairs_for(self, m: usize) -> usize
        requires { (1 ≤ self.half) × (self.half ≤ 8) × (m ≤ 16) × (pairs_for self.half m ≤ 8) }
        ensures { result ≡ pairs_for self.half m }
    {
        self.half * ((m + 2 * self.half - 1) / (2 * self.half))
    }

    // Exchanges the halves of the words that the first m atoms need.
    fn turn(self, block: &mut [u64; 16], m: usize)
        requires { Stage self.half self.mask × (m ≤ 16) }
        ensures { (run : List ℕ) (t : ℕ) → Blocks (2 * self.half) run t m block.old → Blocks self.half run t m block.new }
    {
        for k in 0..self.pairs_for(m) {
            let i = self.row_of(k);
            let (low, high) = self.exchange(block[i], block[i + self.half]);
            block[i] = low;
            block[i + self.half] = high;
        }
    }
}

// Fills in the words of the first m atoms, where no number of the run has a bit from m on.
pub fn columns(cols: &mut [u64; 16], run: &[u16], t: usize, m: usize)
    requires t_bound { (t ≤ 64) × (t ≤ length run.now) × (m ≤ 16) × Below m t run.now }
    requires blank { Blank cols.old }
    ensures { Columns t run.now m cols.new }
{
    match m {
        0..=4 => pack(cols, run, t, 4),
        5..=8 => {
            pack(cols, run, t, 8);
            TO_FOURS.turn(cols, m);
        }
        _ => {
            pack(cols, run, t, 16);
            TO_EIGHTS.turn(cols, m);
            TO_FOURS.turn(cols, m);
        }
    }
    TO_TWOS.turn(cols, m);
    TO_ONES.turn(cols, m);
}
