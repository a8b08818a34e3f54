// Decimal numbers put behind a cursor; a number without its sign.
#![tactic(auto)]

ghost use Rattle.std.specs.Prelude.{◌≡◌, ◌≤◌, ◌<◌, nat_abs, length};
ghost use Rattle.cursor.specs.Puts.{Puts, Room};
ghost use Rattle.ints.specs.Stored.{inside};
ghost use Rattle.text.specs.Decimal.{decimal};
ghost use Rattle.text.specs.DecimalLaws.{pair_text};

use cursor::Cursor;

// The two digits of a number below 100.
fn put_pair(page: &mut Cursor, n: usize)
    requires { (n < 100) × Room page.old 2 }
    ensures { Puts (pair_text n) page.old page.new }
{
    page.put([b'0' + (n / 10) as u8, b'0' + (n % 10) as u8]);
}

// The digits of `n`, two at once where it has more than one.
// Not by `write!`: what std ensures of it at a `&mut [u8]` does not say which bytes it writes.
pub fn put_decimal(page: &mut Cursor, n: usize)
    requires { Room page.old (length (decimal n)) }
    ensures { Puts (decimal n) page.old page.new }
{
    match n {
        0..10 => page.put_byte(b'0' + n as u8),
        10..100 => put_pair(page, n),
        _ => {
            put_decimal(page, n / 100);
            put_pair(page, n % 100);
        }
    }
}

// A number without its sign.
pub fn magnitude(c: i64) -> usize
    requires { nat_abs c ≤ inside }
    ensures { result ≡ nat_abs c }
{
    c.unsigned_abs() as usize
}
