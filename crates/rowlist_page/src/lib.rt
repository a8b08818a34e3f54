// The page of program rowlist.
#![tactic(auto)]

ghost use Rattle.std.specs.Prelude.{◌≡◌, ◌++◌, ◌+◌, ◌*◌, ◌≤◌, length};
ghost use Rattle.std.proofs.lemmas.List.Edits.{sets};
ghost use Rattle.rules.specs.Rows.{rows_in};
ghost use Rattle.cursor.specs.Put.{Put};
ghost use Rattle.rowlist_text.specs.Sizes.{rows_room, listing_room};
ghost use Rattle.rowlist_text.specs.RowText.{Whole, head_text, rows_text};
ghost use Rattle.program_input.specs.Scanning.{state};
ghost use Rattle.program_rule.specs.Sizes.{node_room};
ghost use Rattle.program_rule.specs.Shown.{shown};
ghost use Rattle.program_rule.specs.Told.{text_work, Told};
ghost use Rattle.rowlist_page.specs.Page.{listing_text, list_work, listing, page};

use answers::Refusal;
use cursor::Cursor;
use program_input::Scan;
use program_rule::Work;
use rowlist_text::{LISTING, ROWS};

// The listing of `count` row records of a table of `n` nodes.
fn put_listing(rows: &[u8], count: usize, n: usize, t: usize, m: usize, out: &mut [u8]) -> usize
    requires n_bound { (n ≤ node_room) × (t ≤ 64) × (m ≤ 16) × (length rows.now ≤ rows_room) }
    requires room { listing_room ≤ length out.old }
    requires whole { Whole count rows.now }
    ensures put { Put 0 (head_text count ((m + n) * t) ++ rows_text 0 (rows_in count rows.now)) out.old out.new result }
    ensures upper_bound { result ≤ listing_room }
{
    let mut page = Cursor { out, at: 0 };
    rowlist_text::put_head(&mut page, count, (m + n) * t);
    rowlist_text::put_rows(&mut page, count, rows);
    page.at
}

// The listing of a table of `n` nodes, whose rows are written to `rows` first.
fn list_rows(
    table: &[u8],
    t: usize,
    m: usize,
    n: usize,
    rows: &mut [u8],
    out: &mut [u8],
) -> Result<usize, Refusal>
    requires { (n ≤ node_room) × (length rows.old ≡ rows_room) × (listing_room ≤ length out.old) }
    ensures { Told (text_work listing_text list_work t m n table.now) out.old out.new result }
{
    let count = rows::write_rows(table, t, m, t, rows)?;
    Ok(put_listing(rows, count, n, t, m, out))
}

// The work of the program: the listing of a table's rows.
struct Listing;

impl Work for Listing {
    ghost least = { listing_room };

    ghost made = { λ room. text_work listing_text list_work };

    fn put(table: &[u8], t: usize, m: usize, n: usize, out: &mut [u8]) -> Result<usize, Refusal> {
        let mut rows = [0u8; ROWS];
        list_rows(table, t, m, n, &mut rows, out)
    }
}

// The page that a scan and its text stand for, from the start of `out`; the result is its length.
pub fn print(scan: Scan, text: &[u8], out: &mut [u8; LISTING]) -> usize
    ensures value { (result ≡ length (shown listing (state scan text.now))) × (result ≤ listing_room) }
    ensures out_after { out.new ≡ sets out.old 0 (shown listing (state scan text.now)) }
{
    program_rule::print::<Listing>(scan, text, out)
}

// The page of a whole input.
pub fn page_of(bytes: &[u8], out: &mut [u8; LISTING]) -> usize
    ensures value { (result ≡ length (page bytes.now)) × (result ≤ listing_room) }
    ensures out_after { out.new ≡ sets out.old 0 (page bytes.now) }
{
    program_rule::page_of::<Listing>(bytes, out)
}
