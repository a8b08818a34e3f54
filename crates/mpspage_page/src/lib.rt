// The output of program mpspage.
#![tactic(auto)]

ghost use Rattle.std.specs.Prelude.{◌≡◌, ◌≤◌, length};
ghost use Rattle.std.proofs.lemmas.List.Edits.{sets};
ghost use Rattle.cursor.specs.Put.{Put};
ghost use Rattle.program_input.specs.Scanning.{state};
ghost use Rattle.program_rule.specs.Sizes.{refusal_room};
ghost use Rattle.program_rule.specs.Shown.{shown};
ghost use Rattle.program_rule.specs.Told.{text_work};
ghost use Rattle.mpspage_page.specs.Page.{page_text, page_work, page_printed, page_room, page};

use answers::Refusal;
use program_input::Scan;
use program_rule::Work;

// The bytes of page that program mpspage holds. Contracts call them `page_room`.
pub const PAGE: usize = 4194304;

// The work of the program: the page of a table.
struct Page;

impl Work for Page {
    ghost least = { 0 };

    ghost made = { λ room. text_work page_text (page_work room) };

    fn put(table: &[u8], t: usize, m: usize, _n: usize, out: &mut [u8]) -> Result<usize, Refusal> {
        mps_page::mps_page(table, t, m, t, out)
    }
}

// What a scan and its text stand for, from the start of `out`; the result is its length.
pub fn print(scan: Scan, text: &[u8], out: &mut [u8]) -> usize
    requires { refusal_room ≤ length out.old }
    ensures put { Put 0 (shown (page_printed (length out.old)) (state scan text.now)) out.old out.new result }
    ensures upper_bound { result ≤ length out.old }
{
    program_rule::print::<Page>(scan, text, out)
}

// The page of a whole input.
pub fn page_of(bytes: &[u8], out: &mut [u8; PAGE]) -> usize
    ensures value { (result ≡ length (page bytes.now)) × (result ≤ page_room) }
    ensures out_after { out.new ≡ sets out.old 0 (page bytes.now) }
{
    program_rule::page_of::<Page>(bytes, out)
}
