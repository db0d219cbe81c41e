ghost use Rattle.std.specs.Prelude.{◌≡◌, ◌+◌, ◌<◌, ◌≤◌};

/// How many threads a desk serves at most: each has a pass.
pub(crate) const MOST: usize = 64;

/// Who works at a desk: readers, who take views until all operators are done, and operators, each of whom makes so many
/// changes.
#[derive(Clone, Copy)]
pub(crate) struct Crew {
    pub readers: usize,
    pub operators: usize,
    pub changes: u32,
    pub ghost some: { 0 < operators },
    pub ghost few: { operators + readers ≤ 64 },
}

impl Crew {
    /// How many they are.
    pub fn size(&self) -> usize
        ensures { result ≡ self.now.operators + self.now.readers }
    {
        self.operators + self.readers
    }
}

/// The crew that three words name, if it has an operator and isn't too large.
pub(crate) fn crew_of(readers: &str, operators: &str, changes: &str) -> Option<Crew> {
    let readers = readers.parse::<usize>().ok()?;
    let operators = operators.parse::<usize>().ok()?;
    let changes = changes.parse::<u32>().ok()?;
    if operators == 0 || operators > MOST || readers > MOST - operators {
        return None;
    }
    Some(Crew {
        readers,
        operators,
        changes,
    })
}
