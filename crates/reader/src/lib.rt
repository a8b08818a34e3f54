// A rule text read into its node table: the checks, and the records copied where nothing refuses.
#![tactic(auto)]

ghost use Rattle.std.specs.Prelude.{◌≡◌, length};
ghost use Rattle.rules.specs.Outcome.{returned, buffer, read_outcome};
ghost use Rattle.answers.specs.Meaning.{answer_of};

use answers::Refusal;

// The text's node table into `out`, and its node count; or the first refusal that applies, with `out` as it was.
pub fn read(text: &[u8], m: usize, out: &mut [u8]) -> Result<usize, Refusal>
    ensures r_value { answer_of result ≡ returned (read_outcome m text.now (length out.old)) }
    ensures out_after { out.new ≡ buffer (read_outcome m text.now (length out.old)) out.old }
{
    if !(1..=16).contains(&m) {
        return Err(Refusal::Atoms);
    }
    if 1024 < text.len() {
        return Err(Refusal::LongText);
    }
    let mut scratch = [0; 1024];
    let Some(rule) = reader_levels::whole(text, &mut scratch) else {
        return Err(Refusal::Grammar);
    };
    if usize::from(rule.next()) < text.len() {
        return Err(Refusal::Grammar);
    }
    if m <= usize::from(rule.top()) {
        return Err(Refusal::AtomNumber);
    }
    if rule.flaw() {
        return Err(Refusal::Window);
    }
    let nodes = usize::from(rule.nodes());
    if 128 < nodes {
        return Err(Refusal::Nodes);
    }
    let k = 8 * nodes;
    if out.len() < k {
        return Err(Refusal::Room);
    }
    out[..k].copy_from_slice(&scratch[..k]);
    Ok(nodes)
}
