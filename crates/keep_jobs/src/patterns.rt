ghost use Rattle.std.specs.Prelude.{map, ok_or, string_bytes};
ghost use Rattle.keep_docs.specs.Doc.{Answers};
ghost use Rattle.keep_jobs.specs.Patterns.{patterns_in};
ghost use Rattle.keep_plan.specs.declared.plan_error.PlanError.TheVariants.{BadPattern, Memory};
ghost use Rattle.keep_patterns.specs.Parsing.{pattern_of, pattern_view};

use keep_patterns::{Pattern, PatternError, parse_pattern};
use keep_plan::PlanError;
use std::alloc::Global;

/// The patterns that the texts spell, if each spells one.
pub(crate) fn patterns_of(alloc: Global, texts: &[String]) -> Result<Vec<Pattern>, PlanError>
    ensures { Answers Memory (λ patterns. map pattern_view patterns.items)
        (ok_or (patterns_in (map string_bytes texts.now)) BadPattern) result }
{
    let mut patterns = Vec::with_capacity(alloc, texts.len())?;
    for text in texts {
        let pattern = read_pattern(alloc, text.as_str())?;
        patterns.push(pattern)?;
    }
    Ok(patterns)
}

fn read_pattern(alloc: Global, text: &str) -> Result<Pattern, PlanError>
    ensures { Answers Memory pattern_view (ok_or (pattern_of text.now) BadPattern) result }
{
    match parse_pattern(alloc, text) {
        Ok(pattern) => Ok(pattern),
        Err(PatternError::BadPattern) => Err(PlanError::BadPattern),
        Err(PatternError::Memory) => Err(PlanError::Memory),
    }
}
