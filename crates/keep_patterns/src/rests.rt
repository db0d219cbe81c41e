ghost use Rattle.std.specs.Prelude.{◌≡◌, ℕ, ◌+◌, ◌++◌, List, [], ◌∷◌, IfOk, OnOk, map, refl};
ghost use Rattle.std.specs.Cmp.{eq_by_cmp_equiv, partial_equiv_from_equiv, partial_order_from_total};
ghost use Rattle.std.specs.Ordering.{as_partial_cmp, eq_by_cmp};
ghost use Rattle.keep_patterns.specs.Matching.{is_nil};
ghost use Rattle.keep_patterns.specs.Parsing.{pattern_view};
ghost use Rattle.keep_patterns.specs.RestOrder.{rests_cmp, rests_total};
ghost use Rattle.keep_patterns.specs.Rests.{left_at};
ghost use Rattle.keep_patterns.specs.Steps.{begun, found, found_from, opened, opened_from, step_view, takes_from, walked};
ghost use Rattle.keep_patterns.specs.Steps as spec;
ghost use Rattle.keep_patterns.specs.Without.{is_matched};
ghost use Rattle.keep_patterns.specs.declared.rest.Rest as the_rest;

use crate::letters::Letters;
use crate::matching::is_deep;
use crate::pattern::{Component, Pattern};
use crate::rest::Rest;
use crate::step::{Step, advance, begin};
use std::alloc::{AllocError, Global};
use std::cmp::Ordering;
use std::marker::Model;

/// What a path has left open of patterns. Two paths that have left the same open have equal ones.
#[derive(Drop)]
pub struct Rests {
    left: Vec<Rest>,
}

impl Model for Rests {
    ghost Value = { List the_rest.Rest };

    ghost view = { λ rests. rests.left.items };
}

impl Rests {
    /// What the root leaves open.
    pub fn opening(alloc: Global, patterns: &[Pattern]) -> Result<Rests, AllocError>
        ensures { IfOk result (λ rests. rests ≡ left_at (map pattern_view patterns.now) []) }
    {
        let left = rests_at_root(alloc, patterns)?;
        Ok(Rests { left })
    }

    /// What a name below the path leaves open of the same patterns.
    pub fn below(
        &self,
        alloc: Global,
        patterns: &[Pattern],
        name: &Letters,
    ) -> Result<Rests, AllocError>
        ensures { (path : List (List ℕ)) → self.now ≡ left_at (map pattern_view patterns.now) path
            → IfOk result (λ rests. rests ≡ left_at (map pattern_view patterns.now) (path ++ name.now ∷ [])) }
    {
        let left = found_of(alloc, patterns, self.left.as_slice(), name)?;
        Ok(Rests { left })
    }

    /// Whether one of the patterns matches the path of a name below the path. It takes no memory.
    pub fn takes(&self, patterns: &[Pattern], name: &Letters) -> bool
        ensures { (path : List (List ℕ)) → self.now ≡ left_at (map pattern_view patterns.now) path
            → result ≡ is_matched (map pattern_view patterns.now) (path ++ name.now ∷ []) }
    {
        is_used_up(patterns, self.left.as_slice(), name)
    }

    /// Whether nothing is left open: no pattern matches anything below the path.
    pub fn is_empty(&self) -> bool
        ensures { result ≡ is_nil self.now }
    {
        self.left.is_empty()
    }
}

/// A clone equals its source.
impl Clone for Rests {
    ghost is_clone = { λ source made. made ≡ source };

    fn clone(&self) -> Result<Rests, AllocError> {
        let left = self.left.clone()?;
        Ok(Rests { left })
    }
}

impl PartialEq for Rests {
    ghost eq = { eq_by_cmp rests_cmp };

    ghost laws = { partial_equiv_from_equiv (eq_by_cmp_equiv rests_total) };

    fn eq(&self, other: &Rests) -> bool {
        self.cmp(other).is_eq()
    }
}

impl Eq for Rests {
    ghost laws = { eq_by_cmp_equiv rests_total };
}

impl PartialOrd for Rests {
    ghost partial_cmp = { as_partial_cmp rests_cmp };

    ghost laws = { partial_order_from_total rests_total };

    fn partial_cmp(&self, other: &Rests) -> Option<Ordering> {
        Some(self.cmp(other))
    }
}

impl Ord for Rests {
    ghost cmp = { rests_cmp };

    ghost total = { rests_total };

    ghost matches_partial_cmp = { λ _ _. refl };

    ghost matches_eq = { λ _ _. refl };

    fn cmp(&self, other: &Rests) -> Ordering {
        self.left.as_slice().cmp(other.left.as_slice())
    }
}

fn rests_at_root(alloc: Global, patterns: &[Pattern]) -> Result<Vec<Rest>, AllocError>
    ensures { IfOk result (λ left. left.items ≡ opened_from 0 (map pattern_view patterns.now)) }
{
    let mut left = Vec::new(alloc);
    for (index, pattern) in patterns.iter().enumerate() {
        push_at_root(&mut left, index, &pattern.components)?;
    }
    Ok(left)
}

fn push_at_root(
    left: &mut Vec<Rest>,
    index: usize,
    components: &[Component],
) -> Result<(), AllocError>
    ensures { OnOk result (left.new.items
        ≡ left.old.items ++ record { pattern = index; used = 0 } ∷ opened index 0 components.now) }
{
    left.push(Rest {
        pattern: index,
        used: 0,
    })?;
    for (used, component) in components.iter().enumerate() {
        if !is_deep(component) {
            return Ok(());
        }
        left.push(Rest {
            pattern: index,
            used: used + 1,
        })?;
    }
    Ok(())
}

/// What is left open behind a name.
fn found_of(
    alloc: Global,
    patterns: &[Pattern],
    rests: &[Rest],
    name: &Letters,
) -> Result<Vec<Rest>, AllocError>
    ensures { IfOk result (λ left. left.items
        ≡ found_from name.now 0 (map pattern_view patterns.now) rests.now) }
{
    let mut left = Vec::new(alloc);
    let mut ahead = rests;
    for (index, pattern) in patterns.iter().enumerate() {
        let stand = begin(index, pattern.anchored, ahead);
        let last = push_found(&mut left, stand, &pattern.components, name)?;
        ahead = last.ahead;
    }
    Ok(left)
}

/// Adds what a walk through the components finds, and tells where it ends.
fn push_found<'a>(
    left: &mut Vec<Rest>,
    begun: Step<'a>,
    components: &[Component],
    name: &Letters,
) -> Result<Step<'a>, AllocError>
    requires { begun.rest.used ≡ 0 }
    ensures last { IfOk result (λ last.
        step_view last ≡ walked name.now (step_view begun.entry) components.now) }
    ensures left { OnOk result (left.new.items
        ≡ left.old.items ++ found name.now (step_view begun.entry) components.now) }
{
    let mut stand = begun;
    for component in components {
        if stand.is {
            left.push(stand.rest)?;
        }
        stand = advance(stand, component, name);
    }
    if stand.is {
        left.push(stand.rest)?;
    }
    Ok(stand)
}

/// Whether a name uses up one of the patterns.
fn is_used_up(patterns: &[Pattern], rests: &[Rest], name: &Letters) -> bool
    ensures { result ≡ takes_from name.now 0 (map pattern_view patterns.now) rests.now }
{
    let mut ahead = rests;
    for (index, pattern) in patterns.iter().enumerate() {
        let last = walk(
            begin(index, pattern.anchored, ahead),
            &pattern.components,
            name,
        );
        if last.is {
            return true;
        }
        ahead = last.ahead;
    }
    false
}

/// To the end of the components.
fn walk<'a>(begun: Step<'a>, components: &[Component], name: &Letters) -> Step<'a>
    requires { begun.rest.used ≡ 0 }
    ensures { step_view result ≡ walked name.now (step_view begun.entry) components.now }
{
    let mut stand = begun;
    for component in components {
        stand = advance(stand, component, name);
    }
    stand
}
