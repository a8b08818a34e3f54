// Words, lowest byte first.
#![tactic(auto)]

ghost use Rattle.std.specs.Prelude.{◌≡◌, ◌+◌, ◌*◌, ◌<◌};
ghost use Rattle.endian.specs.Words.{seven_bytes};

// A word with one more byte, which comes before its others.
pub fn grown(rest: u64, byte: u8) -> u64
    requires { rest < seven_bytes }
    ensures { result ≡ rest * 256 + byte }
{
    rest * 256 + u64::from(byte)
}
