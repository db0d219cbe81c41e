ghost use Rattle.std.specs.Prelude.{◌≡◌, ◌+◌, ◌≤◌, length};
ghost use Rattle.keep_pack.specs.Pack.{LiesIn, bytes_at};

use keep_names::Blob;

/// The bytes of the blob that the entry lists, in its pack. None are copied.
pub fn blob_at<'a>(pack: &'a [u8], entry: &Blob) -> &'a [u8]
    requires { LiesIn pack.now entry.now }
    ensures { result.now ≡ bytes_at pack.now entry.now }
{
    let start = entry.offset as usize;
    &pack[start..start + entry.length as usize]
}
