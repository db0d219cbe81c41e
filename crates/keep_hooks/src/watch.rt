ghost use Rattle.std.specs.Prelude.{◌≡◌, ℕ, string_bytes};
ghost use Rattle.keep_change.specs.declared.outline.Outline.{Outline};
ghost use Rattle.keep_hooks.specs.Measures.{measure_of};
ghost use denote.Ref.{Bor};

use crate::measure::Measure;
use keep_change::Outline;

/// A count of something about an event.
pub type CountOutline = Box<dyn Fn(&Outline) -> u64 + Send>;

/// A count that is stored under a name, with the measure that says what it counts.
#[derive(Drop)]
pub struct Watch {
    name: String,
    rule: Measure,
    ask: CountOutline,
    ghost callable: { CountOutline.IsAlwaysCallable ask },
    ghost answers: { (outline : Bor Outline) (count : ℕ) → CountOutline.post ask outline count
        → count ≡ measure_of rule outline.now },
}

impl Watch {
    /// A watch of a question that counts by the measure, whatever it is asked of.
    pub fn new(name: String, rule: Measure, ask: CountOutline) -> Watch
        requires callable { CountOutline.IsAlwaysCallable ask }
        requires answers { (outline : Bor Outline) (count : ℕ) → CountOutline.post ask outline count
            → count ≡ measure_of rule outline.now }
        ensures name { result.name ≡ name }
        ensures rule { result.rule ≡ rule }
    {
        Watch { name, rule, ask }
    }

    pub fn name(&self) -> &str
        ensures { result.now ≡ string_bytes self.now.name }
    {
        self.name.as_str()
    }

    /// What the event counts for. Nothing else asks the question.
    pub fn count(&self, outline: &Outline) -> u64
        ensures { result ≡ measure_of self.now.rule outline.now }
    {
        (self.ask)(outline)
    }
}
