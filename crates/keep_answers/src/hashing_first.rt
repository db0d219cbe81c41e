ghost use Rattle.keep_book.specs.Armed.{HasSums, IsUnchanged};

use keep_book::Book;
use keep_hashing::Hashing;
use keep_lines::{Command, JobLine, Question};
use keep_shelf::Shelf;

/// Has all blobs hashed at once where the command asks of nearly each whether its bytes are its own, which is remembered.
pub(crate) fn hash_first<S: Shelf, H: Hashing + Copy>(
    mut hashing: H,
    book: &mut Book<S>,
    command: &Command<'_>,
)
    requires { HasSums book.old }
    ensures { IsUnchanged book.old book.new }
{
    if matches!(
        command,
        Command::Job(JobLine::Mark) | Command::Question(Question::Audit)
    ) {
        book.hash_all(&mut hashing);
    }
}
