ghost use Rattle.std.specs.Prelude.{◌≡◌, ◌&&◌, option_map};
ghost use Rattle.std.specs.BTreeSet.{IsOrdered};
ghost use Rattle.std.specs.List.{find, list_any};
ghost use Rattle.std.specs.List.Sorted.{IsStrictlySortedBy};
ghost use Rattle.keep_catalog.specs.Kept.{IsHashedIn, IsStoredIn, listings_in};
ghost use Rattle.keep_catalog.specs.Orders.{listing_cmp};
ghost use Rattle.keep_catalog.specs.Places as spec;
ghost use Rattle.keep_catalog.specs.Places.{at};

use crate::bytes_there::is_honest;
use crate::listings::Listings;
use crate::spot::{Listing, PackedBlob, Spot};
use crate::stored::Stored;
use keep_names::{BlobId, Id};
use keep_repo::Repo;
use std::collections::BTreeSet;

/// The first of the listings whose spot the header has and is open.
pub(crate) fn first_usable(
    repo: &Repo,
    stored: &Stored,
    blob: BlobId,
    listings: &Listings,
) -> Option<(Spot, Id)>
    requires stored { IsStoredIn repo.now stored.now }
    requires hashed { IsHashedIn repo.now stored.now }
    ensures first { result ≡ option_map (λ l. (l.spot, l.index))
        (find (λ l. spec.is_stored repo.now (at blob l.spot) && spec.is_usable repo.now blob l.spot)
        (listings_in listings.now)) }
    ensures ordered { IsStrictlySortedBy listing_cmp (listings_in listings.now) }
{
    match listings {
        Listings::One(Listing { spot, index }) => {
            is_usable(repo, stored, PackedBlob { blob, spot: *spot }).then_some((*spot, *index))
        }
        Listings::More(listings) => first_unmarked_among(repo, stored, blob, listings),
    }
}

fn first_unmarked_among(
    repo: &Repo,
    stored: &Stored,
    blob: BlobId,
    listings: &BTreeSet<Listing>,
) -> Option<(Spot, Id)>
    requires stored { IsStoredIn repo.now stored.now }
    requires hashed { IsHashedIn repo.now stored.now }
    ensures first { result ≡ option_map (λ l. (l.spot, l.index))
        (find (λ l. spec.is_stored repo.now (at blob l.spot) && spec.is_usable repo.now blob l.spot) listings.now.keys) }
    ensures ordered { IsOrdered listing_cmp listings.now }
{
    for listing in listings {
        let spot = listing.spot;
        if is_usable(repo, stored, PackedBlob { blob, spot }) {
            return Some((spot, listing.index));
        }
    }
    None
}

/// Whether a header has the place, its bytes have the blob's id, and its pack has no mark.
fn is_usable(repo: &Repo, stored: &Stored, place: PackedBlob) -> bool
    requires stored { IsStoredIn repo.now stored.now }
    requires hashed { IsHashedIn repo.now stored.now }
    ensures { result ≡ (spec.is_stored repo.now place && spec.is_usable repo.now place.blob place.spot) }
{
    !repo.is_marked(place.spot.pack) && has_bytes(repo, stored, place)
}

/// Whether a header has the blob at one of the listings.
pub(crate) fn some_stored(repo: &Repo, stored: &Stored, blob: BlobId, listings: &Listings) -> bool
    requires { IsStoredIn repo.now stored.now }
    ensures value { result ≡ list_any (λ l. spec.is_stored repo.now (at blob l.spot)) (listings_in listings.now) }
    ensures ordered { IsStrictlySortedBy listing_cmp (listings_in listings.now) }
{
    match listings {
        Listings::One(listing) => {
            let spot = listing.spot;
            stored.contains_key(&PackedBlob { blob, spot })
        }
        Listings::More(listings) => some_stored_among(repo, stored, blob, listings),
    }
}

fn some_stored_among(
    repo: &Repo,
    stored: &Stored,
    blob: BlobId,
    listings: &BTreeSet<Listing>,
) -> bool
    requires { IsStoredIn repo.now stored.now }
    ensures value { result ≡ list_any (λ l. spec.is_stored repo.now (at blob l.spot)) listings.now.keys }
    ensures ordered { IsOrdered listing_cmp listings.now }
{
    for listing in listings {
        let spot = listing.spot;
        if stored.contains_key(&PackedBlob { blob, spot }) {
            return true;
        }
    }
    false
}

/// Whether a header has the blob at one of the listings, and the bytes there have its id.
pub(crate) fn some_honest(repo: &Repo, stored: &Stored, blob: BlobId, listings: &Listings) -> bool
    requires stored { IsStoredIn repo.now stored.now }
    requires hashed { IsHashedIn repo.now stored.now }
    ensures value { result ≡ list_any (λ l. spec.is_stored repo.now (at blob l.spot)
        && spec.is_honest repo.now blob l.spot) (listings_in listings.now) }
    ensures ordered { IsStrictlySortedBy listing_cmp (listings_in listings.now) }
{
    match listings {
        Listings::One(listing) => {
            let spot = listing.spot;
            has_bytes(repo, stored, PackedBlob { blob, spot })
        }
        Listings::More(listings) => some_honest_among(repo, stored, blob, listings),
    }
}

fn some_honest_among(
    repo: &Repo,
    stored: &Stored,
    blob: BlobId,
    listings: &BTreeSet<Listing>,
) -> bool
    requires stored { IsStoredIn repo.now stored.now }
    requires hashed { IsHashedIn repo.now stored.now }
    ensures value { result ≡ list_any (λ l. spec.is_stored repo.now (at blob l.spot)
        && spec.is_honest repo.now blob l.spot) listings.now.keys }
    ensures ordered { IsOrdered listing_cmp listings.now }
{
    for listing in listings {
        let spot = listing.spot;
        if has_bytes(repo, stored, PackedBlob { blob, spot }) {
            return true;
        }
    }
    false
}

/// Whether a header has the place, and its bytes have the blob's id.
fn has_bytes(repo: &Repo, stored: &Stored, place: PackedBlob) -> bool
    requires stored { IsStoredIn repo.now stored.now }
    requires hashed { IsHashedIn repo.now stored.now }
    ensures { result ≡ (spec.is_stored repo.now place && spec.is_honest repo.now place.blob place.spot) }
{
    stored.contains_key(&place) && is_honest(repo, stored, place)
}
