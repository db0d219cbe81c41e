ghost use Rattle.keep_names.specs.Laws.{BlobsAreOrdered, DigestsAreIds, IdsAreOrdered, KindsAreOrdered, NamesAreOrdered, TellsApart, TypesAreOrdered};
ghost use Rattle.keep_names.specs.Orders.{blob_cmp, id_cmp, name_cmp};

/// The orders in which names and blobs are listed, and by which the least of them is found.
pub fn names_are_ordered()
    ensures ids { IdsAreOrdered }
    ensures kinds { KindsAreOrdered }
    ensures names { NamesAreOrdered }
    ensures types { TypesAreOrdered }
    ensures blobs { BlobsAreOrdered }
{}

/// Whatever is hashed, an id comes out.
pub fn digests_are_ids()
    ensures { DigestsAreIds }
{}

/// Two ids, names or blobs of which neither comes before the other are one.
pub fn orders_tell_apart()
    ensures ids { TellsApart id_cmp }
    ensures names { TellsApart name_cmp }
    ensures blobs { TellsApart blob_cmp }
{}
