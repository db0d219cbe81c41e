ghost use Rattle.std.specs.Prelude.{◌↔◌, IsTrue};
ghost use Rattle.std.specs.Fmt.{decimal};
ghost use Rattle.keep_names.specs.Parses.{Parses};
ghost use Rattle.keep_names.specs.Number.{HasPlainFront, IsNumber};

/// The number of 64 bits that these decimal digits write, as it prints: without a plus or zeros in front.
pub fn parse_number(digits: &str) -> Option<u64>
    ensures { Parses IsNumber decimal digits.now result }
{
    if !has_plain_front(digits) {
        return None;
    }
    digits.parse().ok()
}

/// Whether no plus stands in front, and no zero that could be left out.
fn has_plain_front(digits: &str) -> bool
    ensures { IsTrue result ↔ HasPlainFront digits.now }
{
    !matches!(digits.as_bytes(), [b'+', ..] | [b'0', _, ..])
}
