ghost use Rattle.std.specs.Prelude.{◌≡◌, ℕ, List, [], Some, codes, false, true};
ghost use Rattle.std.specs.List.{list_all, list_any};
ghost use Rattle.std.specs.Str.{IsUtf8, chars};
ghost use Rattle.keep_quoted.specs.Quote.{are_bytes, is_never, is_plain, quoted};
ghost use Rattle.keep_quoted.specs.Unquote.{unquoted};

/// A quoted name reads back, whatever its bytes are.
pub fn quoted_names_read_back()
    ensures { (name : List ℕ) → are_bytes name ≡ true → unquoted (quoted name) ≡ Some name }
{}

/// A plain name is itself quoted.
pub fn plain_names_are_quoted_so()
    ensures { (name : List ℕ) → IsUtf8 name → list_all is_plain (chars name) ≡ true → quoted name ≡ name }
{}

/// What a name is quoted as has NUL or `/` only where the name has, and is empty, `.` or `..` only where the name is.
pub fn quoted_names_are_names()
    ensures bytes { (name : List ℕ) → list_any is_never name ≡ false → list_any is_never (quoted name) ≡ false }
    ensures empty { (name : List ℕ) → are_bytes name ≡ true → quoted name ≡ [] → name ≡ [] }
    ensures one_dot { (name : List ℕ) → are_bytes name ≡ true → quoted name ≡ codes "." → name ≡ codes "." }
    ensures two_dots { (name : List ℕ) → are_bytes name ≡ true → quoted name ≡ codes ".." → name ≡ codes ".." }
{}
