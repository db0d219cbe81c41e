ghost use Rattle.std.specs.Prelude.{◌≡◌};
ghost use Rattle.keep_openings.specs.Unopened as spec;

use keep_disk::Cause;

/// What to do where the system doesn't let the folder be read.
pub(crate) fn folder_advice(cause: Cause) -> &'static str
    ensures { result.now ≡ spec.folder_advice cause }
{
    match cause {
        Cause::Missing => "name another folder, or make one with keep init",
        Cause::Denied | Cause::OtherSort | Cause::Away | Cause::Failed => {
            "see that all in it can be read"
        }
    }
}
