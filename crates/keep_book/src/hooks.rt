ghost use Rattle.std.specs.Prelude.{◌≡◌, ◌^◌, ◌≤◌, map};
ghost use Rattle.std.specs.List.{All, list_any};
ghost use Rattle.keep_hooks.specs.Guards.{HasRoom, tallies_after};
ghost use Rattle.keep_hooks.specs.Rules.{armed_of, hooks_data, rules_of, tallies_of};
ghost use Rattle.keep_hooks.specs.Written.{name_count};
ghost use Rattle.keep_book.specs.Names.{HaveNoNameTwice, names_veto, names_watch};

use keep_change::Outline;
use keep_hooks::{ArmedWatch, Guard, HookName, Veto, first_veto};
use std::alloc::AllocError;

/// The vetoes and watches that are armed, each list in its order. No name is armed twice.
#[derive(Drop)]
pub(crate) struct Hooks {
    pub vetoes: Vec<Veto>,
    pub watches: Vec<ArmedWatch>,
    ghost names: { HaveNoNameTwice (hooks_data vetoes.items watches.items) },
}

impl Guard for Hooks {
    ghost armed = { λ hooks. hooks_data hooks.vetoes.items hooks.watches.items };

    ghost tallies = { λ hooks. tallies_of hooks.watches.items };

    fn has_vetoes(&self) -> bool {
        !self.vetoes.is_empty()
    }

    fn has_watches(&self) -> bool {
        !self.watches.is_empty()
    }

    fn first(&self, outline: &Outline) -> Result<Option<HookName>, AllocError> {
        match first_veto(self.vetoes.as_slice(), outline) {
            Some(place) => Ok(Some(HookName::new(self.vetoes[place].name.clone()?))),
            None => Ok(None),
        }
    }

    fn tell(&mut self, outline: &Outline) {
        tell_all(self.watches.as_mut_slice(), outline);
    }
}

fn tell_all(watches: &mut [ArmedWatch], outline: &Outline)
    requires small { All HasRoom (tallies_of watches.old) }
    requires few { name_count outline.now ≤ 2 ^ 20 }
    ensures armed { map armed_of watches.new ≡ map armed_of watches.old }
    ensures told { tallies_of watches.new ≡ tallies_after outline.now (tallies_of watches.old) }
{
    for watch in watches.iter_mut() {
        watch.tell(outline);
    }
}

/// Whether one of the vetoes has the name.
pub(crate) fn has_veto(vetoes: &[Veto], name: &str) -> bool
    ensures { result ≡ list_any (names_veto name.now) (rules_of vetoes.now) }
{
    for veto in vetoes {
        if veto.name.as_str() == name {
            return true;
        }
    }
    false
}

/// Whether one of the watches has the name.
pub(crate) fn has_watch(watches: &[ArmedWatch], name: &str) -> bool
    ensures { result ≡ list_any (names_watch name.now) (map armed_of watches.now) }
{
    for watch in watches {
        if watch.name() == name {
            return true;
        }
    }
    false
}
