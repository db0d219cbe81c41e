ghost use Rattle.std.specs.Prelude.{◌≡◌, IfOk, OnOk};
ghost use Rattle.serde_json.specs.Data.{no_members, string};
ghost use Rattle.serde_json.specs.Data.{put as with_member};
ghost use Rattle.serde_json.specs.View.{members_view};
ghost use Rattle.keep_snap.specs.Written.{put_if as with_member_if, text_data, with_fields};
ghost use Rattle.keep_members.specs.Carried.{IsCarried, StandsAnywhere, counted_data, fields, owner_fields, place_fields, state_fields};
ghost use Rattle.keep_members.specs.Members.{members_data, text_view};
ghost use Rattle.keep_members.specs.Texts.{texts_view};

use crate::members::Members;
use crate::said::is_said;
use crate::time_texts::{TimeTexts, texts_of};
use keep_docs::put;
use serde_json::{Map, Value};
use std::alloc::{AllocError, Global};

/// What a node says, as the members that it carries. The keys stand in byte order, as everywhere in a document.
pub fn carried(alloc: Global, members: &Members) -> Result<Map<String, Value>, AllocError>
    ensures written { IfOk result (λ carried. IsCarried (members_data members.now) (members_view carried.entries)) }
    ensures stands { IfOk result (λ carried. StandsAnywhere (members_view carried.entries)) }
{
    is_said(members);
    let texts = texts_of(alloc, members)?;
    carried_with(alloc, members, &texts)
}

/// The members with these texts for the times.
fn carried_with(
    alloc: Global,
    members: &Members,
    texts: &TimeTexts,
) -> Result<Map<String, Value>, AllocError>
    ensures { IfOk result (λ carried. members_view carried.entries
        ≡ with_fields (fields (members_data members.now) (texts_view texts.now)) no_members) }
{
    let mut carried = Map::new(alloc);
    put_state(alloc, &mut carried, members, texts)?;
    put_owner(alloc, &mut carried, members)?;
    put_place(alloc, &mut carried, members)?;
    Ok(carried)
}

fn put_state(
    alloc: Global,
    carried: &mut Map<String, Value>,
    members: &Members,
    texts: &TimeTexts,
) -> Result<(), AllocError>
    ensures { OnOk result (members_view carried.new.entries
        ≡ with_fields (state_fields (members_data members.now) (texts_view texts.now))
        (members_view carried.old.entries)) }
{
    put_counted(alloc, carried, "mode", members.mode as u64)?;
    put_text(alloc, carried, "mtime", texts.modified.as_str())?;
    put_text(alloc, carried, "atime", texts.accessed.as_str())?;
    put_text(alloc, carried, "ctime", texts.changed.as_str())
}

fn put_owner(
    alloc: Global,
    carried: &mut Map<String, Value>,
    members: &Members,
) -> Result<(), AllocError>
    ensures { OnOk result (members_view carried.new.entries
        ≡ with_fields (owner_fields (members_data members.now)) (members_view carried.old.entries)) }
{
    put(alloc, carried, "uid", Value::from(members.uid))?;
    put(alloc, carried, "gid", Value::from(members.gid))?;
    put_text_if(alloc, carried, "user", &members.user)?;
    put_text_if(alloc, carried, "group", &members.group)
}

fn put_place(
    alloc: Global,
    carried: &mut Map<String, Value>,
    members: &Members,
) -> Result<(), AllocError>
    ensures { OnOk result (members_view carried.new.entries
        ≡ with_fields (place_fields (members_data members.now)) (members_view carried.old.entries)) }
{
    put_counted(alloc, carried, "inode", members.inode)?;
    put_counted(alloc, carried, "device_id", members.device_id)?;
    put_counted(alloc, carried, "size", members.size)?;
    put_counted(alloc, carried, "links", members.links)?;
    put_text_if(alloc, carried, "linktarget", &members.link_target)?;
    put_counted(alloc, carried, "device", members.device)
}

/// Writes a number, unless it is 0.
fn put_counted(
    alloc: Global,
    carried: &mut Map<String, Value>,
    key: &str,
    number: u64,
) -> Result<(), AllocError>
    ensures { OnOk result (members_view carried.new.entries
        ≡ with_member_if key.now (counted_data number) (members_view carried.old.entries)) }
{
    if number == 0 {
        return Ok(());
    }
    put(alloc, carried, key, Value::from(number))
}

fn put_text(
    alloc: Global,
    carried: &mut Map<String, Value>,
    key: &str,
    text: &str,
) -> Result<(), AllocError>
    ensures { OnOk result (members_view carried.new.entries
        ≡ with_member key.now (string text.now) (members_view carried.old.entries)) }
{
    let value = Value::try_from_str(alloc, text)?;
    put(alloc, carried, key, value)
}

/// Writes a text, if there is one.
fn put_text_if(
    alloc: Global,
    carried: &mut Map<String, Value>,
    key: &str,
    text: &Option<String>,
) -> Result<(), AllocError>
    ensures { OnOk result (members_view carried.new.entries
        ≡ with_member_if key.now (text_data (text_view text.now)) (members_view carried.old.entries)) }
{
    match text {
        Some(text) => put_text(alloc, carried, key, text.as_str()),
        None => Ok(()),
    }
}
