use keep_run::Run;
use std::io::IsTerminal;

/// Whether whoever typed the command wants what the text says. It is asked where standard input is a terminal, unless the
/// words say so.
pub(crate) fn agrees(run: &Run<'_>, text: &str, yes: bool) -> bool {
    if yes || !run.rt.stdin().is_terminal() {
        return true;
    }
    if eprint!(run.rt; "keep: {text}\nkeep: go on? [y/N] ").is_err() {
        return false;
    }
    let mut line = String::new(run.alloc);
    match run.rt.stdin().read_line(&mut line) {
        Ok(_) => matches!(line.trim_end(), "y" | "Y" | "yes"),
        Err(_) => false,
    }
}
