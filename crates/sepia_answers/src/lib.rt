// Answers as the structs and numbers that C sees. Each fits 32 bits, which a `From` cannot ask, so these are functions.
#![tactic(auto)]

ghost use Rattle.std.specs.Prelude.{◌≡◌};
ghost use Rattle.answers.specs.Meaning.{answer_of};
ghost use Rattle.evaluator.specs.Meaning.{first_slot_of};
ghost use Rattle.judge.specs.Meaning.{ruling_of};
ghost use Rattle.sepia_answers.specs.Boundary.{in_c, Fits, slot_in_c, SlotFits, verdict_in_c, VerdictFits};

use answers::Refusal;
use judge::Verdict;

// A refusal's number, or 0 and the result.
#[repr(C)]
#[derive(Clone, Copy)]
pub struct SepiaAnswer {
    pub refusal: u32,
    pub value: u32,
}

pub fn plain(answer: Result<usize, Refusal>) -> SepiaAnswer
    requires { Fits (answer_of answer) }
    ensures { result ≡ in_c (answer_of answer) }
{
    match answer {
        Ok(n) => SepiaAnswer {
            refusal: 0,
            value: n as u32,
        },
        Err(r) => SepiaAnswer {
            refusal: u32::from(r),
            value: 0,
        },
    }
}

// A slot, and 0 for none.
pub fn slot_number(first: Option<usize>) -> u32
    requires { SlotFits (first_slot_of first) }
    ensures { result ≡ slot_in_c (first_slot_of first) }
{
    first.unwrap_or(0) as u32
}

// A refusal's number; or 0, the verdict's number, its value, its error figure and its shortfall.
#[repr(C)]
#[derive(Clone, Copy)]
pub struct SepiaVerdict {
    pub refusal: u32,
    pub verdict: u32,
    pub value: u32,
    pub error: u32,
    pub shortfall: i64,
}

const ZEROS: SepiaVerdict = SepiaVerdict {
    refusal: 0,
    verdict: 0,
    value: 0,
    error: 0,
    shortfall: 0,
};

pub fn plain_verdict(ruling: Result<Verdict, Refusal>) -> SepiaVerdict
    requires { VerdictFits (ruling_of ruling) }
    ensures { result ≡ verdict_in_c (ruling_of ruling) }
{
    match ruling {
        Err(r) => SepiaVerdict {
            refusal: u32::from(r),
            ..ZEROS
        },
        Ok(Verdict::Outside(v)) => SepiaVerdict {
            verdict: 0,
            value: v as u32,
            ..ZEROS
        },
        Ok(Verdict::NotBinary(v)) => SepiaVerdict {
            verdict: 1,
            value: v as u32,
            ..ZEROS
        },
        Ok(Verdict::Broken { shortfall, row }) => SepiaVerdict {
            verdict: 2,
            value: row as u32,
            shortfall,
            ..ZEROS
        },
        Ok(Verdict::Passed { rows, error }) => SepiaVerdict {
            verdict: 3,
            value: rows as u32,
            error,
            ..ZEROS
        },
    }
}
