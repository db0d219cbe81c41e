ghost use Rattle.std.specs.Prelude.{◌≡◌, ℕ, ◌+◌, ◌≤◌, ◌++◌, List, [], ◌∷◌, false, length, sum_by};
ghost use Rattle.keep_names.specs.Laws.{TellsApart};
ghost use Rattle.keep_patterns.specs.Parsing.{PatternData};
ghost use Rattle.keep_patterns.specs.RestOrder.{rests_cmp};
ghost use Rattle.keep_patterns.specs.Rests.{left_at};
ghost use Rattle.keep_patterns.specs.Without.{is_matched};

/// What is below two paths that have left the same open is matched below both or below none. Where nothing is left
/// open, nothing is matched. There is at most one rest more of a pattern than it has components.
pub fn what_is_left_decides()
    ensures left { (patterns : List PatternData) (one other : List (List ℕ))
        → left_at patterns one ≡ left_at patterns other
        → (below : List (List ℕ)) → left_at patterns (one ++ below) ≡ left_at patterns (other ++ below) }
    ensures matched { (patterns : List PatternData) (one other : List (List ℕ))
        → left_at patterns one ≡ left_at patterns other → (name : List ℕ) (below : List (List ℕ))
        → is_matched patterns (one ++ name ∷ below) ≡ is_matched patterns (other ++ name ∷ below) }
    ensures nothing { (patterns : List PatternData) (path : List (List ℕ)) → left_at patterns path ≡ []
        → (name : List ℕ) (below : List (List ℕ)) → is_matched patterns (path ++ name ∷ below) ≡ false }
    ensures few { (patterns : List PatternData) (path : List (List ℕ))
        → length (left_at patterns path) ≤ sum_by (λ (pattern : PatternData). length pattern.1 + 1) patterns }
{}

/// Rests of which neither come before the others are the same.
pub fn rests_tell_apart()
    ensures { TellsApart rests_cmp }
{}
