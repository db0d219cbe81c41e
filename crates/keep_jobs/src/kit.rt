use keep_hooks::{Veto, Watch};
use keep_plan::Filter;

/// What a run has stored: its filters, vetoes and watches, each list in the order in which they were put there.
#[derive(Drop)]
pub struct Kit {
    pub filters: Vec<Filter>,
    pub vetoes: Vec<Veto>,
    pub watches: Vec<Watch>,
}

impl Kit {
    ghost use Rattle.std.specs.Prelude.{◌≡◌, option_map};
    ghost use Rattle.keep_jobs.specs.Kits.{filters_of, rule_named};

    /// The filter of this name: of several the first.
    pub fn filter(&self, name: &str) -> Option<&Filter>
        ensures { option_map (λ filter. filter.now.rule) result ≡ rule_named name.now (filters_of self.now) }
    {
        for filter in &self.filters {
            if filter.name.as_str() == name {
                return Some(filter);
            }
        }
        None
    }
}
