ghost use Rattle.std.specs.Prelude.{◌≡◌, [], ◌∷◌, ◌++◌, Bool, IfOk, OnOk, map};
ghost use Rattle.keep_plan.specs.Picks.{picks};
ghost use Rattle.keep_plan.specs.Taking.{named_view, taken_in};
ghost use Rattle.keep_plan.specs.Taking as spec;
ghost use Rattle.keep_snap.specs.Facts.{facts_view};
ghost use Rattle.keep_snap.specs.Snap.{snap_view};
ghost use Rattle.keep_snap.specs.declared.fact.SnapFacts.{SnapFacts};
ghost use denote.Ref.{Bor};

use crate::pick::Pick;
use keep_catalog::Catalog;
use keep_docs::DocError;
use keep_names::Id;
use keep_snap::{Snap, SnapError, SnapFacts, facts};
use std::alloc::{AllocError, Global};
use std::collections::BTreeMap;

/// A question about the facts of a snapshot.
pub type AskFacts = Box<dyn Fn(&SnapFacts) -> bool + Send>;

/// A question that is stored under a name, with the rule that says what it answers.
#[derive(Drop)]
pub struct Filter {
    pub name: String,
    pub rule: Pick,
    ask: AskFacts,
    ghost callable: { AskFacts.IsAlwaysCallable ask },
    ghost answers: { (facts : Bor SnapFacts) (answer : Bool) → AskFacts.post ask facts answer
        → answer ≡ picks rule (facts_view facts.now) },
}

impl Filter {
    /// A filter of a question that answers by the rule, whatever it is asked of.
    pub fn new(name: String, rule: Pick, ask: AskFacts) -> Filter
        requires callable { AskFacts.IsAlwaysCallable ask }
        requires answers { (facts : Bor SnapFacts) (answer : Bool) → AskFacts.post ask facts answer
            → answer ≡ picks rule (facts_view facts.now) }
        ensures name { result.name ≡ name }
        ensures rule { result.rule ≡ rule }
    {
        Filter { name, rule, ask }
    }

    /// Whether the filter takes the snapshot of these facts. Nothing else asks the question.
    pub fn takes(&self, facts: &SnapFacts) -> bool
        ensures { result ≡ picks self.now.rule (facts_view facts.now) }
    {
        (self.ask)(facts)
    }

    /// The facts of the snapshots that the filter takes, by name.
    #[tactic(auto, unfolding(crate::specs::Taking::taken_in))]
    pub fn taken(&self, alloc: Global, catalog: &Catalog) -> Result<Vec<SnapFacts>, AllocError>
        ensures { IfOk result (λ taken. map facts_view taken.items ≡ taken_in self.now.rule catalog.now) }
    {
        self.taken_of(alloc, catalog.snaps())
    }

    fn taken_of(
        &self,
        alloc: Global,
        snaps: &BTreeMap<Id, Snap>,
    ) -> Result<Vec<SnapFacts>, AllocError>
        ensures { IfOk result (λ taken. map facts_view taken.items
            ≡ spec.taken_of self.now.rule (map named_view snaps.now.entries)) }
    {
        let mut taken = Vec::new(alloc);
        for (name, snap) in snaps {
            self.take_one(alloc, *name, snap, &mut taken)?;
        }
        Ok(taken)
    }

    /// Puts the facts of the snapshot there, if the filter takes it.
    fn take_one(
        &self,
        alloc: Global,
        name: Id,
        snap: &Snap,
        taken: &mut Vec<SnapFacts>,
    ) -> Result<(), AllocError>
        ensures { OnOk result (map facts_view taken.new.items ≡ map facts_view taken.old.items
            ++ spec.taken_of self.now.rule ((name, snap_view snap.now) ∷ [])) }
    {
        match facts(alloc, snap, name) {
            Ok(facts) => {
                if self.takes(&facts) {
                    taken.push(facts)?;
                }
                Ok(())
            }
            Err(SnapError::Doc(DocError::Memory)) => Err(AllocError),
            // No snapshot that was read is without a time.
            Err(_) => Ok(()),
        }
    }
}
