ghost use Rattle.std.specs.Prelude.{◌≡◌, ◌&&◌, false, filter, map, nat_lt, reverse, true};
ghost use Rattle.std.specs.List.{find};
ghost use Rattle.std.specs.Option.{option_map};
ghost use Rattle.keep_change.specs.Change.{Holding};
ghost use Rattle.keep_change.specs.Fold.{first_leaning};
ghost use Rattle.keep_change.specs.Holdings.{value_at};
ghost use Rattle.keep_journal.specs.History.{IsNumbered};
ghost use Rattle.keep_journal.specs.Kept.{earlier, later};
ghost use Rattle.keep_touch.specs.Finding.{first_among, first_toucher, first_writer, in_force, last_writer, sooner, held_before, StandsAlone};
ghost use Rattle.keep_touch.specs.Mentions.{is_followed, mentions, AreNoted};

use crate::mention::{Mention, above, below};
use crate::touch::Touch;
use keep_change::{Change, Member};
use keep_journal::History;
use keep_repo::Facet;

impl Touch {
    /// The first change in force after n that touches what the change writes.
    ///
    /// It takes a search for each facet that the change writes, and a look at the later changes that touch this facet,
    /// up to the first that is in force. Where n is the last change it takes none.
    pub fn first_after(&self, history: &History, n: u64, change: &Change) -> Option<u64>
        requires { AreNoted self.now history.now.journal }
        ensures { result ≡ first_leaning change.now (later history.now.journal n) }
    {
        if history.last_change() <= n {
            return None;
        }
        let adds = self.first_of(history, n, change.adds.as_slice());
        let drops = self.first_of(history, n, change.drops.as_slice());
        let sets = self.first_of(history, n, change.sets.as_slice());
        let clears = self.first_of(history, n, change.clears.as_slice());
        sooner(sooner(adds, drops), sooner(sets, clears))
    }

    /// The first change in force after n that writes the facet.
    pub fn after(&self, history: &History, n: u64, facet: Facet) -> Option<u64>
        requires { AreNoted self.now history.now.journal }
        ensures exact { result ≡ first_writer facet (later history.now.journal n) }
        // It tells what the facet held at the place of change n.
        ensures value { (end : Holding) → value_at (later history.now.journal n) end facet
            ≡ held_before history.now.journal result end facet }
    {
        if history.last_change() <= n {
            return None;
        }
        first_writing(above(self.list(facet), n), history)
    }

    /// The last change in force before n that writes the facet, and isn't final.
    pub fn before(&self, history: &History, n: u64, facet: Facet) -> Option<u64>
        requires { AreNoted self.now history.now.journal }
        ensures { result ≡ last_writer facet (earlier history.now.journal n) }
    {
        let last_final = history.final_number();
        if history.last_change() <= last_final {
            return None;
        }
        last_writing(below(above(self.list(facet), last_final), n), history)
    }

    /// The mentions of the facet by the changes after n, be they in force or not, in the order of their numbers.
    ///
    /// It takes a search. Where n is the last change it takes none.
    pub fn mentions_after(&self, history: &History, n: u64, facet: Facet) -> &[Mention]
        requires { AreNoted self.now history.now.journal }
        ensures { result.now ≡ filter (λ m. nat_lt n m.number) (mentions self.now facet) }
    {
        if history.last_change() <= n {
            return &[];
        }
        above(self.list(facet), n)
    }

    /// Whether a later change may touch what change n touches. Where it answers no, none that is in force does.
    ///
    /// It takes a search by number, and none where n is the last change. Where no note was taken back, it answers yes
    /// only where a later change, be it in force or not, touches the same.
    pub fn is_followed(&self, history: &History, n: u64) -> bool
        requires { AreNoted self.now history.now.journal }
        ensures alone { result ≡ false → StandsAlone history.now.journal n }
        ensures noted { result ≡ true → is_followed self.now n ≡ true }
    {
        n < history.last_change() && self.followed.contains(&n)
    }

    fn first_of<M: Member>(&self, history: &History, n: u64, members: &[M]) -> Option<u64>
        requires noted { AreNoted self.now history.now.journal }
        requires numbered { IsNumbered history.now.journal }
        ensures { result ≡ first_among (map M.facet_of members.now) (later history.now.journal n) }
    {
        let mut first = None;
        for member in members {
            let toucher = self.first_toucher(history, n, member.facet());
            first = sooner(first, toucher);
        }
        first
    }

    fn first_toucher(&self, history: &History, n: u64, facet: Facet) -> Option<u64>
        requires noted { AreNoted self.now history.now.journal }
        requires numbered { IsNumbered history.now.journal }
        ensures { result ≡ first_toucher facet (later history.now.journal n) }
    {
        first_in_force(above(self.list(facet), n), history)
    }

    #[tactic(auto, unfolding(crate::specs::Mentions::mentions))]
    fn list(&self, facet: Facet) -> &[Mention]
        ensures { result.now ≡ mentions self.now facet }
    {
        match self.lists.get(&facet) {
            Some(list) => list.as_slice(),
            None => &[],
        }
    }
}

/// The number of the first mention whose change is in force.
fn first_in_force(mentions: &[Mention], history: &History) -> Option<u64>
    ensures { result ≡ option_map (λ m. m.number)
        (find (λ m. in_force history.now.journal m.number) mentions.now) }
{
    let found = mentions
        .iter()
        .find(|mention| is_in_force(history, mention.number))?;
    Some(found.number)
}

/// The number of the first whose change is in force and writes the facet.
fn first_writing(mentions: &[Mention], history: &History) -> Option<u64>
    ensures { result ≡ option_map (λ m. m.number)
        (find (λ m. m.writes && in_force history.now.journal m.number) mentions.now) }
{
    let found = mentions.iter().find(|mention| is_writer(mention, history))?;
    Some(found.number)
}

/// The number of the last one.
fn last_writing(mentions: &[Mention], history: &History) -> Option<u64>
    ensures { result ≡ option_map (λ m. m.number)
        (find (λ m. m.writes && in_force history.now.journal m.number) (reverse mentions.now)) }
{
    let found = mentions
        .iter()
        .rev()
        .find(|mention| is_writer(mention, history))?;
    Some(found.number)
}

/// Whether the change is in force and writes the facet.
fn is_writer(mention: &Mention, history: &History) -> bool
    ensures { result ≡ (mention.now.writes && in_force history.now.journal mention.now.number) }
{
    mention.writes && is_in_force(history, mention.number)
}

/// Whether change n is in force and isn't final.
fn is_in_force(history: &History, n: u64) -> bool
    ensures { result ≡ in_force history.now.journal n }
{
    history.kept_change(n).is_some()
}

/// The lesser number, where there are two.
fn sooner(one: Option<u64>, other: Option<u64>) -> Option<u64>
    ensures { result ≡ sooner one other }
{
    match (one, other) {
        (Some(a), Some(b)) => Some(a.min(b)),
        (None, found) => found,
        (found, None) => found,
    }
}
