use keep_names::Id;
use keep_targets::Pieces;

/// Four pieces: `a` to `c` under ids whose first byte is 1 to 3, and one that can't be had under every other.
#[derive(Drop)]
pub(crate) struct Source;

impl Pieces for Source {
    ghost use Rattle.keep_host_cases.specs.Source.{piece_under};

    ghost pieces = { λ source id. piece_under id };

    fn piece(&self, id: Id) -> Option<&[u8]> {
        match id.0[0] {
            1 => Some(b"abcd"),
            2 => Some(b"ef"),
            _ => None,
        }
    }
}
