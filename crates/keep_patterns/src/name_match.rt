ghost use Rattle.std.specs.Prelude.{◌≡◌};
ghost use Rattle.keep_patterns.specs.Matching as spec;
ghost use Rattle.keep_patterns.specs.Walks.{Walked, Sought};

/// How a walk through a pattern and a text ends.
#[derive(Clone, Copy)]
pub(crate) enum Stop<'a> {
    /// Both are used up.
    Whole,
    /// The text doesn't fit.
    Apart,
    /// At a star: what is behind it, and what is left of the text.
    Star(&'a [char], &'a [char]),
}

/// Whether a name fits a pattern of characters. It takes no memory.
pub(crate) fn name_fits(pattern: &[char], name: &[char]) -> bool
    ensures { result ≡ spec.name_fits pattern.now name.now }
{
    let (mut behind, mut rest) = match walk(pattern, name) {
        Stop::Whole => return true,
        Stop::Apart => return false,
        Stop::Star(behind, rest) => (behind, rest),
    };
    loop {
        match seek(behind, rest) {
            Stop::Whole => return true,
            Stop::Apart => return false,
            Stop::Star(next, left) => {
                behind = next;
                rest = left;
            }
        }
    }
}

/// To the next star, from the first tail of the text that fits so far.
#[tactic(auto, using(crate::proofs::Tails::any_tail_here))]
fn seek<'a>(pattern: &'a [char], text: &'a [char]) -> Stop<'a>
    ensures { Sought pattern.now text.now result }
{
    let mut rest = text;
    loop {
        match walk(pattern, rest) {
            Stop::Whole => return Stop::Whole,
            Stop::Star(behind, left) => return Stop::Star(behind, left),
            Stop::Apart => {}
        }
        let Some((_, after)) = rest.split_first() else {
            return Stop::Apart;
        };
        rest = after;
    }
}

/// To the next star.
fn walk<'a>(pattern: &'a [char], text: &'a [char]) -> Stop<'a>
    ensures { Walked pattern.now text.now result }
{
    let mut left = pattern;
    let mut rest = text;
    while let Some((piece, behind)) = left.split_first() {
        if *piece == '*' {
            return Stop::Star(behind, rest);
        }
        let Some((letter, after)) = rest.split_first() else {
            return Stop::Apart;
        };
        if !takes(*piece, *letter) {
            return Stop::Apart;
        }
        left = behind;
        rest = after;
    }
    if rest.is_empty() {
        Stop::Whole
    } else {
        Stop::Apart
    }
}

/// Whether a character of a pattern that is no star takes a character.
fn takes(piece: char, letter: char) -> bool
    ensures { result ≡ spec.takes piece letter }
{
    piece == '?' || piece == letter
}
