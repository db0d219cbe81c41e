ghost use Rattle.std.specs.Prelude.{◌≡◌, ℕ, IfOk, List};
ghost use Rattle.std.specs.Str.{chars};

use std::alloc::{AllocError, Global};
use std::marker::Model;

/// Characters, decoded once.
#[derive(Drop)]
pub struct Letters {
    chars: Vec<char>,
}

impl Model for Letters {
    ghost Value = { List ℕ };

    ghost view = { λ s. s.chars.items };
}

impl Letters {
    /// These characters. It takes no memory.
    pub fn from_vec(chars: Vec<char>) -> Letters
        ensures { result ≡ chars.items }
    {
        Letters { chars }
    }

    pub fn as_slice(&self) -> &[char]
        ensures { result.now ≡ self.now }
    {
        self.chars.as_slice()
    }
}

/// The characters of a text.
pub fn letters_of(alloc: Global, text: &str) -> Result<Letters, AllocError>
    ensures { IfOk result (λ letters. letters ≡ chars text.now) }
{
    let letters: Vec<char> = text.chars().collect(alloc)?;
    Ok(Letters::from_vec(letters))
}
