ghost use Rattle.std.specs.Prelude.{◌≡◌};
ghost use Rattle.keep_backups.specs.Sighted as spec;

use keep_sources::StatKind;

/// The word that a node has for its kind.
pub fn type_name_of(kind: &StatKind) -> &'static str
    ensures { result.now ≡ spec.type_name_of kind.now }
{
    match kind {
        StatKind::File => "file",
        StatKind::Folder => "dir",
        StatKind::Link(_) => "symlink",
        StatKind::Fifo => "fifo",
        StatKind::Socket => "socket",
        StatKind::Device => "dev",
        StatKind::CharDevice => "chardev",
    }
}
