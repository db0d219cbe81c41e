use keep_targets::TargetError;
use std::io;
use std::io::ErrorKind;

/// What the system said, as restores tell it.
pub(crate) fn refusal_of(error: &io::Error) -> TargetError {
    match error.kind() {
        ErrorKind::AlreadyExists => TargetError::Taken,
        ErrorKind::PermissionDenied | ErrorKind::ReadOnlyFilesystem => TargetError::Denied,
        ErrorKind::StorageFull | ErrorKind::QuotaExceeded | ErrorKind::FileTooLarge =>
            TargetError::Full,
        ErrorKind::InvalidInput | ErrorKind::InvalidFilename => TargetError::Unsayable,
        ErrorKind::Unsupported => TargetError::Unknown,
        ErrorKind::OutOfMemory => TargetError::Memory,
        _ => TargetError::Failed,
    }
}

/// A call that is done or refused.
pub(crate) fn done_or_why(done: io::Result<()>) -> Result<(), TargetError> {
    match done {
        Ok(()) => Ok(()),
        Err(error) => Err(refusal_of(&error)),
    }
}
