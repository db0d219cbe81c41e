ghost use Rattle.keep_hooks.specs.Measures.{EmptyingsWriteNone, MeasuresAreSmall};

/// How much an event can count for.
pub fn measures_are_small()
    ensures small { MeasuresAreSmall }
    ensures emptying { EmptyingsWriteNone }
{}
