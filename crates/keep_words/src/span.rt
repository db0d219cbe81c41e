ghost use Rattle.std.specs.Prelude.{◌≡◌};
ghost use Rattle.keep_words.specs.Span.{span_in, times};

/// How many seconds a span has: a number and behind it `s`, `m`, `h`, `d` or `w`, as `7d`. A plus may stand in front.
pub fn parse_span(text: &str) -> Option<u64>
    ensures { result ≡ span_in text.now }
{
    if let Some(digits) = text.strip_suffix('s') {
        return seconds(digits, 1);
    }
    if let Some(digits) = text.strip_suffix('m') {
        return seconds(digits, 60);
    }
    if let Some(digits) = text.strip_suffix('h') {
        return seconds(digits, 3_600);
    }
    if let Some(digits) = text.strip_suffix('d') {
        return seconds(digits, 86_400);
    }
    let digits = text.strip_suffix('w')?;
    seconds(digits, 604_800)
}

fn seconds(digits: &str, unit: u64) -> Option<u64>
    ensures { result ≡ times digits.now unit }
{
    let number: u64 = digits.parse().ok()?;
    number.checked_mul(unit)
}
