ghost use Rattle.std.specs.Prelude.{◌≡◌, List, Option, option_map, ℕ};

use keep_names::Id;

/// Where the bytes of files come from, a piece at a time.
pub trait Pieces {
    ghost use Rattle.std.specs.Prelude.{List, Option, ℕ};
    ghost use Rattle.keep_names.specs.declared.id.Id.{Id};

    /// The bytes under each id that has any.
    ghost pieces: { Self → Id → Option (List ℕ) };

    /// The bytes of the piece of this id, if it can be had whole.
    fn piece(&self, id: Id) -> Option<&[u8]>
        ensures { option_map (λ bytes. bytes.now) result ≡ pieces self.entry.now id };
}
