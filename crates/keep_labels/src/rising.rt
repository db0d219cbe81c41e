ghost use Rattle.std.specs.Prelude.{◌≡◌, map, option_map};
ghost use Rattle.std.specs.Bool.{OnTrue};
ghost use Rattle.keep_snap.specs.Facts.{facts_view};
ghost use Rattle.keep_labels.specs.Keeping.{EachOnce};
ghost use Rattle.keep_labels.specs.Rising as spec;
ghost use Rattle.keep_labels.specs.Walk.{seen_view};

use keep_snap::SnapFacts;

/// Whether the names rise strictly, as those of a map's keys do; then none stands twice.
pub fn names_rise(taken: &[SnapFacts]) -> bool
    ensures value { result ≡ spec.names_rise None (map facts_view taken.now) }
    ensures once { OnTrue result (EachOnce (map facts_view taken.now)) }
{
    let mut last: Option<&SnapFacts> = None;
    for facts in taken {
        let rises = follows_by_name(last, facts);
        if !rises {
            return false;
        }
        last = Some(facts);
    }
    true
}

fn follows_by_name(last: Option<&SnapFacts>, facts: &SnapFacts) -> bool
    ensures { result ≡ spec.is_above (option_map seen_view last.entry) (facts_view facts.now) }
{
    match last {
        Some(last) => last.name.cmp(&facts.name).is_lt(),
        None => true,
    }
}
