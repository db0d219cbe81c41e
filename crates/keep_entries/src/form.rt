ghost use Rattle.std.specs.Prelude.{◌≡◌};
ghost use Rattle.keep_entries.specs.Shape.{form_numbered};

/// What an entry says of marks.
#[derive(Clone, Copy)]
pub(crate) enum Form {
    /// Their packs alone. Entries of this form are read, and no longer written.
    Packs,
    /// Their packs and moments.
    Moments,
}

/// The form that has the number.
pub(crate) fn form_of(number: u64) -> Option<Form>
    ensures { result ≡ form_numbered number }
{
    match number {
        1 => Some(Form::Packs),
        2 => Some(Form::Moments),
        _ => None,
    }
}
