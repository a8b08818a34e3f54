// Lists the rows of a rule: T and M on line 1 of standard input, the rule on line 2.
#![tactic(auto)]

use std::io;

fn main(rt: HostRuntime) -> io::Result<()> {
    let mut text = [0u8; program_rule::TEXT];
    let scan = program_stdin::read_all(&mut rt.stdin(), &mut text);
    let mut page = [0u8; rowlist_text::LISTING];
    let n = rowlist_page::print(scan, &text, &mut page);
    rt.write_all(&page[..n])
}
