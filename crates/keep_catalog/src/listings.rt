ghost use Rattle.std.specs.Prelude.{◌≡◌, Some, IfOk, false, true, if◌then◌else◌};
ghost use Rattle.keep_catalog.specs.Kept.{has};
ghost use Rattle.keep_catalog.specs.Orders.{listing_eq};
ghost use Rattle.keep_catalog.specs.declared.spot.Listing as the_listing;

use crate::spot::Listing;
use std::alloc::{AllocError, Global};
use std::collections::BTreeSet;

/// The listings of a blob, at least one. Nearly each blob has one alone: it stands here, where a set has room for eleven.
#[derive(Drop)]
pub(crate) enum Listings {
    One(Listing),
    More(BTreeSet<Listing>),
}

impl Listings {
    /// These and another one.
    pub(crate) fn with(self, alloc: Global, listing: Listing) -> Result<Listings, AllocError>
        ensures { IfOk result (λ after. (l : the_listing.Listing)
            → has (Some after) l ≡ if listing_eq listing l then true else has (Some self) l) }
    {
        let mut more = match self {
            Listings::One(first) => one(alloc, first)?,
            Listings::More(listings) => listings,
        };
        more.insert(listing)?;
        Ok(Listings::More(more))
    }

    /// These without one, if others are left.
    pub(crate) fn without(self, listing: Listing) -> Option<Listings>
        ensures { (l : the_listing.Listing)
            → has result l ≡ if listing_eq listing l then false else has (Some self) l }
    {
        match self {
            Listings::One(first) => one_without(first, listing),
            Listings::More(listings) => more_without(listings, listing),
        }
    }
}

/// A set of this one.
fn one(alloc: Global, listing: Listing) -> Result<BTreeSet<Listing>, AllocError>
    ensures { IfOk result (λ set. (l : the_listing.Listing)
        → has (Some (Listings.More set)) l ≡ has (Some (Listings.One listing)) l) }
{
    let mut set = BTreeSet::new(alloc);
    set.insert(listing)?;
    Ok(set)
}

/// This one, if it is another.
fn one_without(first: Listing, listing: Listing) -> Option<Listings>
    ensures { (l : the_listing.Listing)
        → has result l ≡ if listing_eq listing l then false else has (Some (Listings.One first)) l }
{
    if first == listing {
        return None;
    }
    Some(Listings::One(first))
}

/// The set without one, if others are left.
fn more_without(mut listings: BTreeSet<Listing>, listing: Listing) -> Option<Listings>
    ensures { (l : the_listing.Listing)
        → has result l ≡ if listing_eq listing l then false else has (Some (Listings.More listings)) l }
{
    listings.remove(&listing);
    if listings.is_empty() {
        return None;
    }
    Some(Listings::More(listings))
}
