ghost use Rattle.std.specs.Prelude.{◌≡◌, Bool};
ghost use Rattle.std.specs.List.{position_from};
ghost use Rattle.keep_change.specs.declared.outline.Outline.{Outline};
ghost use Rattle.keep_hooks.specs.Limits.{refuses};
ghost use denote.Ref.{Bor};

use crate::limit::Limit;
use keep_change::Outline;

/// A question about an event that isn't made yet: whether to refuse it.
pub type AskOutline = Box<dyn Fn(&Outline) -> bool + Send>;

/// A question that is stored under a name, with the limit that says what it answers.
#[derive(Drop)]
pub struct Veto {
    pub name: String,
    pub rule: Limit,
    ask: AskOutline,
    ghost callable: { AskOutline.IsAlwaysCallable ask },
    ghost answers: { (outline : Bor Outline) (answer : Bool) → AskOutline.post ask outline answer
        → answer ≡ refuses rule outline.now },
}

impl Veto {
    /// A veto of a question that answers by the limit, whatever it is asked of.
    pub fn new(name: String, rule: Limit, ask: AskOutline) -> Veto
        requires callable { AskOutline.IsAlwaysCallable ask }
        requires answers { (outline : Bor Outline) (answer : Bool) → AskOutline.post ask outline answer
            → answer ≡ refuses rule outline.now }
        ensures name { result.name ≡ name }
        ensures rule { result.rule ≡ rule }
    {
        Veto { name, rule, ask }
    }

    /// Whether the veto refuses the event of this outline. Nothing else asks the question.
    pub fn refuses(&self, outline: &Outline) -> bool
        ensures { result ≡ refuses self.now.rule outline.now }
    {
        (self.ask)(outline)
    }
}

/// The place of the first veto that refuses the event. Each before it is asked, in order.
pub fn first_veto(vetoes: &[Veto], outline: &Outline) -> Option<usize>
    ensures { result ≡ position_from (λ veto. refuses veto.rule outline.now) 0 vetoes.now }
{
    for (index, veto) in vetoes.iter().enumerate() {
        if veto.refuses(outline) {
            return Some(index);
        }
    }
    None
}
