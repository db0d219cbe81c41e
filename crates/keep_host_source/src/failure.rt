use keep_sources::Why;
use std::io::{Error, ErrorKind};

/// What an error of the system says of a path.
pub(crate) fn why_of(error: &Error) -> Why {
    match error.kind() {
        ErrorKind::PermissionDenied => Why::Denied,
        ErrorKind::NotFound => Why::Gone,
        ErrorKind::NotADirectory | ErrorKind::IsADirectory => Why::Replaced,
        ErrorKind::InvalidFilename | ErrorKind::InvalidData => Why::Unsayable(1),
        _ => Why::Failed,
    }
}
