ghost use Rattle.std.specs.Prelude.{◌≡◌, Bool, List, Ok, true};
ghost use Rattle.keep_repo.specs.Repository.{Repository, held};
ghost use Rattle.keep_change.specs.Change.{is_met};
ghost use Rattle.keep_change.specs.Form.{IsWellFormed};
ghost use Rattle.keep_change.specs.declared.change.Change as the_change;
ghost use Rattle.keep_plan.specs.declared.pick.Pick as the_pick;
ghost use Rattle.keep_patterns.specs.Parsing.{PatternData};
ghost use Rattle.keep_rewrite.specs.Rewriting.{rewrite_change};

/// The change of a rewrite can be committed: it is well formed, and the repository that it was planned on meets it.
pub fn a_planned_rewrite_can_be_made()
    ensures well_formed { (r : Repository) (rule : the_pick.Pick) (patterns : List PatternData) (forget : Bool)
        (c : the_change.Change) → rewrite_change r rule patterns forget ≡ Ok c → IsWellFormed c }
    ensures met { (r : Repository) (rule : the_pick.Pick) (patterns : List PatternData) (forget : Bool)
        (c : the_change.Change) → rewrite_change r rule patterns forget ≡ Ok c → is_met (held r) c ≡ true }
{}
