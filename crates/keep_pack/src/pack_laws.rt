ghost use Rattle.std.specs.Prelude.{◌≡◌, ℕ, List, All, IsSomeAnd, map, slice_get};
ghost use Rattle.keep_names.specs.declared.blob.Blob.{Blob};
ghost use Rattle.keep_names.specs.declared.blob.BlobType.{BlobType};
ghost use Rattle.keep_pack.specs.Pack.{Entry, HasHeader, IsHonestPackOf, IsPack, IsPackOf, LiesIn, StandsAt};
ghost use Rattle.keep_pack.specs.Pack.{bytes_at, entries_from, listing};
ghost use Rattle.keep_pack.specs.Reading.{IsBytes, header_of};

/// A header is read exactly where the pack's grammar gives it, and each of its entries lies in the pack. Bytes
/// are a pack of one list at most, and of one list of blobs: each stands where its entry says.
pub fn headers_are_read()
    ensures read { (pack : List ℕ) (entries : List Blob) → HasHeader pack entries
        → header_of pack ≡ Ok entries }
    ensures written { (pack : List ℕ) (entries : List Blob) → IsBytes pack → header_of pack ≡ Ok entries
        → HasHeader pack entries }
    ensures within { (pack : List ℕ) (entries : List Blob) → HasHeader pack entries
        → All (LiesIn pack) entries }
    ensures alone { (pack : List ℕ) (listed others : List Entry) → IsPack pack listed → IsPack pack others
        → listed ≡ others }
    ensures blobs { (pack : List ℕ) (blobs : List (List ℕ)) (listed : List Entry) → IsPackOf pack blobs listed
        → map (bytes_at pack) (entries_from 0 listed) ≡ blobs }
{}

/// The header of a built pack is read as the list of its blobs. The k-th blob stands at the k-th entry, under
/// the SHA-256 of its bytes.
pub fn built_packs_are_honest()
    ensures read { (pack : List ℕ) (blobs : List (BlobType × List ℕ)) → IsHonestPackOf pack blobs
        → header_of pack ≡ Ok (entries_from 0 (map listing blobs)) }
    ensures stands { (pack : List ℕ) (blobs : List (BlobType × List ℕ)) (k : ℕ) (blob : BlobType × List ℕ)
        → IsHonestPackOf pack blobs → slice_get blobs k ≡ Some blob
        → IsSomeAnd (slice_get (entries_from 0 (map listing blobs)) k) (StandsAt pack blob) }
{}
