use keep_desk::{Desk, Pass};
use keep_names::{FileName, parse_id};
use keep_register::Naming;
use keep_repo::Repo;

/// The ids of `a` and `b`.
pub const A: &str = "ca978112ca1bbdcafac231b39a23dc4da786eff8147c4e72b9807785afee48bb";

pub const B: &str = "3e23e8160039594a33894f6564e1b1348bbd7a0088d42c4acb73eeaed59c009d";

/// What is shown: the number of the last event, and whether the indexes of the bytes `a` and `b` are there.
#[derive(Clone, Copy, Debug, PartialEq, Eq)]
pub struct Found(pub u64, pub bool, pub bool);

/// What the pass is shown now, if anything.
pub fn look<N: Naming, L>(desk: &Desk<N, L>, pass: &mut Pass<N>) -> Option<Found> {
    let shown = desk.view(pass).ok()?;
    let view = shown.get();
    let a = has_index(view.repo(), A, b"a");
    let b = has_index(view.repo(), B, b"b");
    Some(Found(view.length(), a, b))
}

/// Whether the index of this id is there, with just these bytes.
pub fn has_index(repo: &Repo, id: &str, bytes: &[u8]) -> bool {
    let Ok(id) = parse_id(id) else {
        return false;
    };
    match repo.get(FileName::index(id)) {
        Some(found) => found.as_slice() == bytes,
        None => false,
    }
}
