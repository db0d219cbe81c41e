ghost use Rattle.std.specs.Prelude.{◌≡◌, ◌++◌, ◌∷◌, [], IfErr, IfOk, OnOk, OnErr, List};
ghost use Rattle.keep_putting.specs.Careful.{IsCarefulFrom, IsOwnPlace, IsBeingWritten};
ghost use Rattle.keep_putting.specs.Filling.{AreHad, IsHurt, IsStopped, filling, pieces_size, writing};

use crate::hurt::Hurt;
use keep_names::Id;
use keep_targets::{Pieces, Target};

/// Makes a file of these pieces, one after another. It tells how many bytes it has, up to 2^64 - 1.
pub(crate) fn fill<T: Target, P: Pieces>(
    target: &mut T,
    pieces: &P,
    place: &str,
    content: &[Id],
) -> Result<u64, Hurt>
    ensures careful { IsOwnPlace (T.calls target.old) place.now
        → IsCarefulFrom (T.calls target.old) (T.calls target.new) }
    ensures filled { OnOk result (T.calls target.new
        ≡ T.calls target.old ++ filling (P.pieces pieces.now) place.now content.now) }
    ensures had { OnOk result (AreHad (P.pieces pieces.now) content.now) }
    ensures size { IfOk result (λ size. size ≡ pieces_size (P.pieces pieces.now) content.now) }
    ensures hurt { IfErr result (λ hurt. IsHurt (P.pieces pieces.now) place.now content.now
        (T.calls target.old) (T.calls target.new) hurt) }
{
    if let Err(refusal) = target.make_file(place) {
        return Err(Hurt::NotMade(refusal));
    }
    write(target, pieces, place, content)
}

/// Writes these pieces behind the bytes of the file that was made last.
fn write<T: Target, P: Pieces>(
    target: &mut T,
    pieces: &P,
    place: &str,
    content: &[Id],
) -> Result<u64, Hurt>
    ensures careful { IsBeingWritten (T.calls target.old) place.now
        → IsCarefulFrom (T.calls target.old) (T.calls target.new) }
    ensures written { OnOk result (T.calls target.new
        ≡ T.calls target.old ++ writing (P.pieces pieces.now) place.now content.now) }
    ensures had { OnOk result (AreHad (P.pieces pieces.now) content.now) }
    ensures size { IfOk result (λ size. size ≡ pieces_size (P.pieces pieces.now) content.now) }
    ensures hurt { IfErr result (λ hurt. IsStopped (P.pieces pieces.now) place.now content.now
        (T.calls target.old) (T.calls target.new) hurt) }
{
    let mut written = 0u64;
    for id in content {
        let Some(bytes) = pieces.piece(*id) else {
            return Err(Hurt::Lost { written });
        };
        if let Err(short) = target.append(place, bytes) {
            return Err(Hurt::Cut {
                written: written.saturating_add(short.written),
                refusal: short.refusal,
            });
        }
        written = written.saturating_add(bytes.len() as u64);
    }
    Ok(written)
}
