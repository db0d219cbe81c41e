ghost use Rattle.std.specs.Prelude.{◌≡◌, IfOk, map, option_map, string_bytes};
ghost use Rattle.std.specs.List.{filter_map};
ghost use Rattle.keep_lines.specs.Policies.{count_in, kept_by, policy_data};
ghost use Rattle.keep_labels.specs.Keeping.{policy_view};

use crate::forget_line::{Rule, Span};
use keep_labels::{Count, Policy};
use std::alloc::{AllocError, Global};

/// The policy that the rules make. Of two rules that count alike the first holds.
pub fn policy_of(alloc: Global, rules: &[Rule]) -> Result<Policy, AllocError>
    ensures { IfOk result (λ policy. policy_view policy ≡ policy_data rules.now) }
{
    let tags = kept_tags(alloc, rules)?;
    Ok(Policy {
        last: count_of(rules, Span::Last),
        daily: count_of(rules, Span::Day),
        weekly: count_of(rules, Span::Week),
        monthly: count_of(rules, Span::Month),
        yearly: count_of(rules, Span::Year),
        tags,
    })
}

/// The count of the first rule that counts these.
fn count_of(rules: &[Rule], span: Span) -> Option<Count>
    ensures { option_map (λ count. count.number) result ≡ count_in span rules.now }
{
    for rule in rules {
        if let Some(count) = rule.count_for(span) {
            return Some(count);
        }
    }
    None
}

/// The tags whose snapshots are kept, in their order.
fn kept_tags(alloc: Global, rules: &[Rule]) -> Result<Vec<String>, AllocError>
    ensures { IfOk result (λ tags. map string_bytes tags.items ≡ filter_map kept_by rules.now) }
{
    let mut tags = Vec::new(alloc);
    for rule in rules {
        if let Rule::Tag(tag) = rule {
            tags.push(tag.clone()?)?;
        }
    }
    Ok(tags)
}
