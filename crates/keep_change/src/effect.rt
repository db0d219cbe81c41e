ghost use Rattle.std.specs.Prelude.{◌≡◌, IsTrue, OnOk, OnErr, map};
ghost use Rattle.std.specs.FinMap.{insert};
ghost use Rattle.std.specs.List.{list_all};
ghost use Rattle.keep_repo.specs.Repository.{Repository, held};
ghost use Rattle.keep_change.specs.Change.{added, set, is_as_written, is_ready};
ghost use Rattle.keep_change.specs.Halves.{turned, begun_of, completed_of};
ghost use Rattle.keep_change.specs.Result as made;

use crate::change::{Change, PackMark};
use crate::stored_file::StoredFile;
use crate::turn::Turn;
use keep_repo::Repo;
use std::alloc::AllocError;

impl Change {
    /// Makes the change. Where memory runs out the repository is as it was.
    pub fn apply(&self, repo: &mut Repo) -> Result<(), AllocError>
        requires { IsTrue (is_ready (held repo.old) self.now) }
        ensures ok { OnOk result (repo.new ≡ made.result_of self.now repo.old) }
        ensures err { OnErr result (repo.new ≡ repo.old) }
    {
        self.begin(Turn::Make, repo)?;
        self.complete(Turn::Make, repo);
        Ok(())
    }

    /// Takes the change back. Where memory runs out the repository is as it was.
    pub fn unapply(&self, repo: &mut Repo) -> Result<(), AllocError>
        requires { IsTrue (is_ready (held repo.old) (made.reverse_of self.now)) }
        ensures ok { OnOk result (repo.new ≡ made.result_of (made.reverse_of self.now) repo.old) }
        ensures err { OnErr result (repo.new ≡ repo.old) }
    {
        self.begin(Turn::TakeBack, repo)?;
        self.complete(Turn::TakeBack, repo);
        Ok(())
    }

    /// The first half of a change: puts all that comes. Where memory runs out the repository is as it was.
    pub fn begin(&self, turn: Turn, repo: &mut Repo) -> Result<(), AllocError>
        requires { IsTrue (is_ready (held repo.old) (turned turn self.now)) }
        ensures ok { OnOk result (repo.new ≡ begun_of (turned turn self.now) repo.old) }
        ensures err { OnErr result (repo.new ≡ repo.old) }
    {
        put(self.coming_files(turn), self.coming_marks(turn), repo)
    }

    /// The second half: takes away all that goes. It takes no memory.
    pub fn complete(&self, turn: Turn, repo: &mut Repo)
        ensures { repo.new ≡ completed_of (turned turn self.now) repo.old }
    {
        remove(self.going_files(turn), self.going_marks(turn), repo);
    }

    /// Takes the first half back, in place of the second one. It takes no memory.
    pub fn abandon(&self, turn: Turn, repo: &mut Repo)
        ensures { (r : Repository) → IsTrue (is_ready (held r) (turned turn self.now))
            → repo.old ≡ begun_of (turned turn self.now) r → repo.new ≡ r }
    {
        self.withdraw(turn, repo);
    }

    /// Takes away all that came. It takes no memory.
    fn withdraw(&self, turn: Turn, repo: &mut Repo)
        ensures { repo.new ≡ completed_of (made.reverse_of (turned turn self.now)) repo.old }
    {
        remove(self.coming_files(turn), self.coming_marks(turn), repo);
    }

    /// Takes back what the change made of marks, and nothing else. Where memory runs out some marks are
    /// taken back: it is for a copy that is let go then.
    pub fn unapply_marks(&self, repo: &mut Repo) -> Result<(), AllocError>
        ensures ok { let marks = made.remove_marks self.now.sets (made.put_marks self.now.clears repo.old.marks) in
            OnOk result (repo.new ≡ record repo.old { marks = marks }) }
        ensures err { OnErr result (repo.new.files ≡ repo.old.files) }
    {
        put_marks_there(self.clears.as_slice(), repo)?;
        remove_marks(self.sets.as_slice(), repo);
        Ok(())
    }
}

/// Puts all of the files and marks where there are none, or nothing where memory runs out.
fn put(files: &[StoredFile], marks: &[PackMark], repo: &mut Repo) -> Result<(), AllocError>
    requires files { IsTrue (list_all (is_as_written (held repo.old)) (map added files.now)) }
    requires marks { IsTrue (list_all (is_as_written (held repo.old)) (map set marks.now)) }
    ensures ok { OnOk result (repo.new ≡ record {
      files = made.put_files files.now repo.old.files;
      marks = made.put_marks marks.now repo.old.marks;
    }) }
    ensures err { OnErr result (repo.new ≡ repo.old) }
{
    put_files(files, repo)?;
    if let Err(error) = put_marks(marks, repo) {
        remove_files(files, repo);
        return Err(error);
    }
    Ok(())
}

/// Takes the files and marks away. It takes no memory.
fn remove(files: &[StoredFile], marks: &[PackMark], repo: &mut Repo)
    ensures { repo.new ≡ record {
      files = made.remove_files files.now repo.old.files;
      marks = made.remove_marks marks.now repo.old.marks;
    } }
{
    remove_files(files, repo);
    remove_marks(marks, repo);
}

fn put_file(file: &StoredFile, repo: &mut Repo) -> Result<(), AllocError>
    ensures ok { let files = insert repo.old.files file.now.name file.now.bytes in
        OnOk result (repo.new ≡ record repo.old { files = files }) }
    ensures err { OnErr result (repo.new ≡ repo.old) }
{
    let bytes = file.bytes().clone()?;
    repo.insert_file(file.name(), bytes)
}

/// Puts all of the files, or none.
fn put_files(files: &[StoredFile], repo: &mut Repo) -> Result<(), AllocError>
    requires { IsTrue (list_all (is_as_written (held repo.old)) (map added files.now)) }
    ensures ok { let files = made.put_files files.now repo.old.files in
        OnOk result (repo.new ≡ record repo.old { files = files }) }
    ensures err { OnErr result (repo.new ≡ repo.old) }
{
    for (place, file) in files.iter().enumerate() {
        if let Err(error) = put_file(file, repo) {
            remove_files(&files[..place], repo);
            return Err(error);
        }
    }
    Ok(())
}

/// Puts all of the marks, or none.
fn put_marks(marks: &[PackMark], repo: &mut Repo) -> Result<(), AllocError>
    requires { IsTrue (list_all (is_as_written (held repo.old)) (map set marks.now)) }
    ensures ok { let marks = made.put_marks marks.now repo.old.marks in
        OnOk result (repo.new ≡ record repo.old { marks = marks }) }
    ensures err { OnErr result (repo.new ≡ repo.old) }
{
    for (place, set) in marks.iter().enumerate() {
        if let Err(error) = repo.insert_mark(set.pack, set.mark) {
            remove_marks(&marks[..place], repo);
            return Err(error);
        }
    }
    Ok(())
}

/// Puts the marks one by one, in the place of those that are there. Where memory runs out some are put.
fn put_marks_there(marks: &[PackMark], repo: &mut Repo) -> Result<(), AllocError>
    ensures ok { let marks = made.put_marks marks.now repo.old.marks in
        OnOk result (repo.new ≡ record repo.old { marks = marks }) }
    ensures err { OnErr result (repo.new.files ≡ repo.old.files) }
{
    for put in marks {
        repo.insert_mark(put.pack, put.mark)?;
    }
    Ok(())
}

fn remove_files(files: &[StoredFile], repo: &mut Repo)
    ensures { repo.new ≡ record repo.old { files = made.remove_files files.now repo.old.files } }
{
    for file in files {
        repo.remove_file(file.name());
    }
}

fn remove_marks(marks: &[PackMark], repo: &mut Repo)
    ensures { repo.new ≡ record repo.old { marks = made.remove_marks marks.now repo.old.marks } }
{
    for set in marks {
        repo.remove_mark(set.pack);
    }
}
