ghost use Rattle.std.specs.Prelude.{◌≡◌, ◌<◌, ◌^◌};
ghost use Rattle.keep_patterns.specs.Steps.{begins, begun, step_view, stepped};
ghost use Rattle.keep_patterns.specs.Steps as spec;

use crate::letters::Letters;
use crate::matching::{is_deep, matches_name};
use crate::pattern::Component;
use crate::rest::Rest;

/// Where a walk through the components of a pattern is, from the rests of a path to those of a name below it.
#[derive(Clone, Copy)]
pub(crate) struct Step<'a> {
    pub(crate) rest: Rest,
    /// Whether the components of this rest match the path.
    pub(crate) was: bool,
    /// Whether they match the path with the name.
    pub(crate) is: bool,
    /// The rests of the path that come after this one.
    pub(crate) ahead: &'a [Rest],
}

/// Before the components of a pattern.
pub(crate) fn begin<'a>(index: usize, anchored: bool, ahead: &'a [Rest]) -> Step<'a>
    ensures { step_view result ≡ begun index anchored ahead.now }
{
    let rest = Rest {
        pattern: index,
        used: 0,
    };
    let was = begins_with(ahead, rest);
    Step {
        rest,
        was,
        is: was && !anchored,
        ahead: behind(ahead, rest),
    }
}

/// Behind one component more.
pub(crate) fn advance<'a>(stand: Step<'a>, component: &Component, name: &Letters) -> Step<'a>
    requires { stand.rest.used < 2 ^ 63 }
    ensures { step_view result ≡ stepped name.now (step_view stand.entry) component.now }
{
    let rest = Rest {
        pattern: stand.rest.pattern,
        used: stand.rest.used + 1,
    };
    let was = begins_with(stand.ahead, rest);
    let is = if is_deep(component) {
        stand.is || was
    } else {
        stand.was && matches_name(component, name)
    };
    Step {
        rest,
        was,
        is,
        ahead: behind(stand.ahead, rest),
    }
}

fn begins_with(rests: &[Rest], rest: Rest) -> bool
    ensures { result ≡ begins rest rests.now }
{
    match rests.split_first() {
        Some((first, _)) => *first == rest,
        None => false,
    }
}

/// Without the rest, where they begin with it.
fn behind<'a>(rests: &'a [Rest], rest: Rest) -> &'a [Rest]
    ensures { result.now ≡ spec.behind rest rests.now }
{
    match rests.split_first() {
        Some((first, after)) => { if *first == rest { after } else { rests } }
        None => rests,
    }
}
