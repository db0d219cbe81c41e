ghost use Rattle.std.specs.Prelude.{◌≡◌, List, MatchOption, Some, option_copied, ℕ};
ghost use Rattle.keep_files.specs.Path.{LiesAtRoot, LiesRightIn};

/// The folder right above the path, if it doesn't lie at the root.
pub fn home_of(path: &str) -> Option<&str>
    ensures home { MatchOption result (LiesAtRoot path.now) (λ home. LiesRightIn path.now home.now) }
    ensures only { (home : List ℕ) → LiesRightIn path.now home → option_copied result ≡ Some home }
{
    match path.rsplit_once('/') {
        Some((home, _)) => Some(home),
        None => None,
    }
}
