ghost use Rattle.std.specs.Prelude.{◌≡◌, ℕ, List, string_bytes};
ghost use Rattle.std.specs.Cmp.{partial_equiv_from_equiv};
ghost use Rattle.std.specs.Cmp.Lexicographic.{nat_list_eq_equiv};
ghost use Rattle.std.specs.Str.{bytes_eq};

use std::marker::Model;

/// The name of a veto or a watch, as contracts see it by its bytes.
#[derive(Debug, Drop)]
pub struct HookName {
    text: String,
}

impl Model for HookName {
    ghost Value = { List ℕ };

    ghost view = { λ name. string_bytes name.text };
}

impl HookName {
    pub fn new(text: String) -> HookName
        ensures { result ≡ string_bytes text }
    {
        HookName { text }
    }

    pub fn as_str(&self) -> &str
        ensures { result.now ≡ self.now }
    {
        self.text.as_str()
    }
}

impl PartialEq for HookName {
    ghost eq = { bytes_eq };

    ghost laws = { partial_equiv_from_equiv nat_list_eq_equiv };

    fn eq(&self, other: &HookName) -> bool {
        self.as_str() == other.as_str()
    }
}

impl Eq for HookName {
    ghost laws = { nat_list_eq_equiv };
}
