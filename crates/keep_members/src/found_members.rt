ghost use Rattle.std.specs.Prelude.{◌≡◌, IfOk, option_map, option_and_then};
ghost use Rattle.serde_json.specs.Data.{object};
ghost use Rattle.serde_json.specs.Find.{as_str, get};
ghost use Rattle.serde_json.specs.View.{members_view, view};
ghost use Rattle.keep_docs.specs.Fields.{as_whole, field};
ghost use Rattle.keep_members.specs.Found.{as_short, as_stamp, found_in, found_view};
ghost use Rattle.keep_members.specs.Members.{stamp_view, text_view};
ghost use Rattle.keep_members.specs.Stamp as spec;

use crate::stamp::Stamp;
use jiff::Timestamp;
use serde_json::{Map, Value};
use std::alloc::{AllocError, Global};

/// What the members of a node say, as far as they say it: `None` is a member that is missing or of another shape.
#[derive(Drop)]
pub struct FoundMembers {
    /// The bits of Go's os.FileMode.
    pub mode: Option<u32>,
    pub mtime: Option<Stamp>,
    pub atime: Option<Stamp>,
    pub ctime: Option<Stamp>,
    pub uid: Option<u32>,
    pub gid: Option<u32>,
    pub user: Option<String>,
    pub group: Option<String>,
    pub inode: Option<u64>,
    pub device_id: Option<u64>,
    pub size: Option<u64>,
    pub links: Option<u64>,
    pub link_target: Option<String>,
    pub device: Option<u64>,
}

/// What the members say that a node carries. A time may be written in any zone; one that no [`Stamp`] can be is `None`.
pub fn members_in(alloc: Global, carried: &Map<String, Value>) -> Result<FoundMembers, AllocError>
    ensures { IfOk result (λ found. found_view found ≡ found_in (members_view carried.now.entries)) }
{
    let user = text_at(alloc, carried, "user")?;
    let group = text_at(alloc, carried, "group")?;
    let link_target = text_at(alloc, carried, "linktarget")?;
    Ok(FoundMembers {
        mode: short_at(carried, "mode"),
        mtime: mtime_in(carried),
        atime: stamp_at(carried, "atime"),
        ctime: stamp_at(carried, "ctime"),
        uid: short_at(carried, "uid"),
        gid: short_at(carried, "gid"),
        user,
        group,
        inode: whole_at(carried, "inode"),
        device_id: whole_at(carried, "device_id"),
        size: size_in(carried),
        links: whole_at(carried, "links"),
        link_target,
        device: whole_at(carried, "device"),
    })
}

/// The size among what `members_in` finds.
pub fn size_in(carried: &Map<String, Value>) -> Option<u64>
    ensures { result ≡ (found_in (members_view carried.now.entries)).size }
{
    whole_at(carried, "size")
}

/// The time of the last modification among what `members_in` finds.
pub fn mtime_in(carried: &Map<String, Value>) -> Option<Stamp>
    ensures { option_map stamp_view result ≡ (found_in (members_view carried.now.entries)).mtime }
{
    stamp_at(carried, "mtime")
}

/// The member at a key.
fn member<'c>(carried: &'c Map<String, Value>, key: &str) -> Option<&'c Value>
    ensures { option_map (λ value. view value.now) result ≡ get key.now (object (members_view carried.now.entries)) }
{
    carried.get(key)
}

fn whole_at(carried: &Map<String, Value>, key: &str) -> Option<u64>
    ensures { result ≡ field key.now as_whole (object (members_view carried.now.entries)) }
{
    member(carried, key)?.as_u64()
}

/// A number below 2^32.
fn short_at(carried: &Map<String, Value>, key: &str) -> Option<u32>
    ensures { result ≡ field key.now as_short (object (members_view carried.now.entries)) }
{
    u32::try_from(whole_at(carried, key)?).ok()
}

fn text_at(
    alloc: Global,
    carried: &Map<String, Value>,
    key: &str,
) -> Result<Option<String>, AllocError>
    ensures { IfOk result (λ text. text_view text ≡ field key.now as_str (object (members_view carried.now.entries))) }
{
    match str_at(carried, key) {
        Some(text) => Ok(Some(String::from_str(alloc, text)?)),
        None => Ok(None),
    }
}

fn str_at<'c>(carried: &'c Map<String, Value>, key: &str) -> Option<&'c str>
    ensures { option_map (λ text. text.now) result ≡ field key.now as_str (object (members_view carried.now.entries)) }
{
    member(carried, key)?.as_str()
}

fn stamp_at(carried: &Map<String, Value>, key: &str) -> Option<Stamp>
    ensures { option_map stamp_view result ≡ field key.now as_stamp (object (members_view carried.now.entries)) }
{
    stamp_in(str_at(carried, key)?)
}

/// The instant that a text writes.
fn stamp_in(text: &str) -> Option<Stamp>
    ensures { option_map stamp_view result ≡ spec.stamp_in text.now }
{
    let instant: Timestamp = text.parse().ok()?;
    Stamp::at(instant)
}
