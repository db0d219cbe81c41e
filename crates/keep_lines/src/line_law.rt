ghost use Rattle.std.specs.Prelude.{ℕ, List};
ghost use Rattle.keep_lines.specs.Said.{HasOneCommand};

/// A line asks for one command: all commands of which it is the text say the same.
pub fn a_line_has_one_command()
    ensures { (line : List ℕ) → HasOneCommand line }
{}
