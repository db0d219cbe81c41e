ghost use Rattle.std.specs.Prelude.{◌≡◌};
ghost use Rattle.keep_patterns.specs.Matching as spec;
ghost use Rattle.keep_patterns.specs.Matching.{any_tail};
ghost use Rattle.keep_patterns.specs.Walks.{WalkedPath, SoughtPath};

use crate::letters::Letters;
use crate::name_match::name_fits;
use crate::pattern::{Component, Pattern};

/// How a walk through components and a path ends.
#[derive(Clone, Copy)]
pub(crate) enum Halt<'a> {
    /// Both are used up.
    Taken,
    /// The path doesn't fit.
    Missed,
    /// At `**`: what is behind it, and what is left of the path.
    Deep(&'a [Component], &'a [Letters]),
}

/// Whether a pattern matches a path. It takes no memory.
pub fn matches_path(pattern: &Pattern, path: &[Letters]) -> bool
    ensures { result ≡ spec.matches pattern.now.anchored pattern.now.components.items path.now }
{
    let components = pattern.components.as_slice();
    if pattern.anchored {
        path_fits(components, path)
    } else {
        fits_tail(components, path)
    }
}

/// Whether the whole path fits.
fn path_fits(components: &[Component], path: &[Letters]) -> bool
    ensures { result ≡ spec.path_fits components.now path.now }
{
    match walk(components, path) {
        Halt::Taken => true,
        Halt::Missed => false,
        Halt::Deep(behind, rest) => fits_tail(behind, rest),
    }
}

/// Whether some tail of the path fits.
fn fits_tail(components: &[Component], path: &[Letters]) -> bool
    ensures { result ≡ any_tail (spec.path_fits components.now) path.now }
{
    let mut behind = components;
    let mut rest = path;
    loop {
        match seek(behind, rest) {
            Halt::Taken => return true,
            Halt::Missed => return false,
            Halt::Deep(next, left) => {
                behind = next;
                rest = left;
            }
        }
    }
}

/// To the next `**`, from the first tail of the path that fits so far.
#[tactic(auto, using(crate::proofs::Tails::any_tail_here))]
fn seek<'a>(components: &'a [Component], path: &'a [Letters]) -> Halt<'a>
    ensures { SoughtPath components.now path.now result }
{
    let mut rest = path;
    loop {
        match walk(components, rest) {
            Halt::Taken => return Halt::Taken,
            Halt::Deep(behind, left) => return Halt::Deep(behind, left),
            Halt::Missed => {}
        }
        let Some((_, after)) = rest.split_first() else {
            return Halt::Missed;
        };
        rest = after;
    }
}

/// To the next `**`.
fn walk<'a>(components: &'a [Component], path: &'a [Letters]) -> Halt<'a>
    ensures { WalkedPath components.now path.now result }
{
    let mut left = components;
    let mut rest = path;
    while let Some((piece, behind)) = left.split_first() {
        if is_deep(piece) {
            return Halt::Deep(behind, rest);
        }
        let Some((name, after)) = rest.split_first() else {
            return Halt::Missed;
        };
        if !matches_name(piece, name) {
            return Halt::Missed;
        }
        left = behind;
        rest = after;
    }
    if rest.is_empty() {
        Halt::Taken
    } else {
        Halt::Missed
    }
}

pub(crate) fn is_deep(component: &Component) -> bool
    ensures { result ≡ spec.is_deep component.now }
{
    matches!(component, Component::AnyDepth)
}

/// Whether a component takes a name.
pub(crate) fn matches_name(component: &Component, name: &Letters) -> bool
    ensures { result ≡ spec.matches_name component.now name.now }
{
    match component {
        Component::AnyDepth => false,
        Component::Name(letters) => name_fits(letters.as_slice(), name.as_slice()),
    }
}
