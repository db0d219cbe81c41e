ghost use Rattle.std.specs.Prelude.{◌≡◌, ◌↔◌, IfSome, IsSome, IsTrue};
ghost use Rattle.std.specs.List.{AllPass};
ghost use Rattle.keep_lines.specs.Line.{IsPassedOver, IsText, is_printed};

/// The text of a line: UTF-8 without control characters below the space.
pub(crate) fn text_of(line: &[u8]) -> Option<&str>
    ensures accepted { IsSome result ↔ IsText line.now }
    ensures value { IfSome result (λ text. text.now ≡ line.now) }
{
    if !is_printable(line) {
        return None;
    }
    std::str::from_utf8(line).ok()
}

fn is_printable(line: &[u8]) -> bool
    ensures { IsTrue result ↔ AllPass is_printed line.now }
{
    line.iter().all(|byte| b' ' <= *byte)
}

/// Whether the line asks for nothing: it is empty, or a comment.
pub(crate) fn is_passed_over(text: &str) -> bool
    ensures { IsTrue result ↔ IsPassedOver text.now }
{
    matches!(text.as_bytes(), [] | [b'#', ..])
}
