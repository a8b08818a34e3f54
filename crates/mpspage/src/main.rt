// Prints the fixed-column MPS page of a rule: T and M on line 1 of standard input, the rule on line 2.
#![tactic(auto)]

ghost use Rattle.std.specs.Prelude.{◌≤◌, length};
ghost use Rattle.program_rule.specs.Sizes.{refusal_room};

use std::io;

// Reads the input and writes its page, which is put into `page` first.
fn write_page(rt: &HostRuntime, page: &mut [u8]) -> io::Result<()>
    requires { refusal_room ≤ length page.old }
{
    let mut text = [0u8; program_rule::TEXT];
    let scan = program_stdin::read_all(&mut rt.stdin(), &mut text);
    let n = mpspage_page::print(scan, &text, page);
    rt.write_all(&page[..n])
}

fn main(rt: HostRuntime) -> io::Result<()> {
    let mut page = [0u8; mpspage_page::PAGE];
    write_page(&rt, &mut page)
}
