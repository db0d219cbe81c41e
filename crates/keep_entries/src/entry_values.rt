ghost use Rattle.std.specs.Prelude.{◌≡◌, ◌++◌, codes, decimal, map, OnOk};
ghost use Rattle.std.specs.List.{AllByRecursion};
ghost use Rattle.hex.specs.Hex.{IsBytes};
ghost use Rattle.json.specs.Print.{escape};
ghost use Rattle.serde_json.specs.Written.{comma_if, compact_text};
ghost use Rattle.keep_docs.specs.Fields.{id_data};
ghost use Rattle.keep_names.specs.FileName.{kind_text};
ghost use Rattle.keep_names.specs.Id.{IsDigest, id_text};
ghost use Rattle.keep_entries.specs.Entry.{FitsFile, FitsMark, FitsName};
ghost use Rattle.keep_entries.specs.Members.{list_text};
ghost use Rattle.keep_entries.specs.Spelling.{file_data, mark_data, name_data};
ghost use Rattle.keep_entries.specs.declared.form.Form.TheVariants.{Moments};

use keep_change::{PackMark, StoredFile};
use keep_names::{FileName, Id, Kind};
use keep_rope::RopeWriter;
use std::alloc::AllocError;

/// Writes the names that a list holds, without its brackets.
pub(crate) fn put_names(out: &mut RopeWriter, names: &[FileName]) -> Result<(), AllocError>
    ensures text { OnOk result (out.new ++ codes "]" ≡ out.old ++ list_text (map name_data names.now)) }
    ensures fit { OnOk result (AllByRecursion FitsName names.now) }
{
    let mut later = false;
    for name in names {
        put_comma(out, later)?;
        put_name(out, *name)?;
        later = true;
    }
    Ok(())
}

/// Writes the files that a list holds, without its brackets.
pub(crate) fn put_files(out: &mut RopeWriter, files: &[StoredFile]) -> Result<(), AllocError>
    ensures text { OnOk result (out.new ++ codes "]" ≡ out.old ++ list_text (map file_data files.now)) }
    ensures fit { OnOk result (AllByRecursion FitsFile files.now) }
{
    let mut later = false;
    for file in files {
        put_comma(out, later)?;
        put_file(out, file)?;
        later = true;
    }
    Ok(())
}

/// Writes the marks that a list holds, without its brackets.
pub(crate) fn put_marks(out: &mut RopeWriter, marks: &[PackMark]) -> Result<(), AllocError>
    ensures text { OnOk result (out.new ++ codes "]"
        ≡ out.old ++ list_text (map (mark_data Moments) marks.now)) }
    ensures fit { OnOk result (AllByRecursion FitsMark marks.now) }
{
    let mut later = false;
    for mark in marks {
        put_comma(out, later)?;
        put_mark(out, *mark)?;
        later = true;
    }
    Ok(())
}

/// Writes the packs that a list holds, without its brackets.
pub(crate) fn put_packs(out: &mut RopeWriter, packs: &[Id]) -> Result<(), AllocError>
    ensures text { OnOk result (out.new ++ codes "]" ≡ out.old ++ list_text (map id_data packs.now)) }
    ensures fit { OnOk result (AllByRecursion IsDigest packs.now) }
{
    let mut later = false;
    for pack in packs {
        put_comma(out, later)?;
        put_pack(out, *pack)?;
        later = true;
    }
    Ok(())
}

/// Writes a number.
pub(crate) fn put_number(out: &mut RopeWriter, number: u64) -> Result<(), AllocError>
    ensures { OnOk result (out.new ≡ out.old ++ decimal number) }
{
    let mut digits = itoa::Buffer::new();
    out.put(digits.format(number).as_bytes())
}

/// Writes the comma before what isn't the first.
fn put_comma(out: &mut RopeWriter, later: bool) -> Result<(), AllocError>
    ensures { OnOk result (out.new ≡ out.old ++ comma_if later) }
{
    if later {
        return out.put(b",");
    }
    Ok(())
}

/// Writes a file's name.
fn put_name(out: &mut RopeWriter, name: FileName) -> Result<(), AllocError>
    ensures text { OnOk result (out.new ≡ out.old ++ compact_text (name_data name)) }
    ensures fit { OnOk result (FitsName name) }
{
    out.put(beginning_of(name.kind))?;
    put_digits(out, name.id)?;
    out.put(b"\"")
}

/// What stands before the digits of a name: the quote, the word for the kind, and the slash.
fn beginning_of(kind: Kind) -> &'static [u8]
    ensures { result.now ≡ codes "\"" ++ (kind_text kind ++ codes "/") }
{
    match kind {
        Kind::Pack => b"\"pack/",
        Kind::Index => b"\"index/",
        Kind::Snapshot => b"\"snapshot/",
    }
}

/// Writes a file: its bytes in hex, and its name.
fn put_file(out: &mut RopeWriter, file: &StoredFile) -> Result<(), AllocError>
    ensures text { OnOk result (out.new ≡ out.old ++ compact_text (file_data file.now)) }
    ensures fit { OnOk result (FitsFile file.now) }
{
    let bytes = file.bytes();
    are_bytes(bytes.as_slice());
    out.put(b"{\"bytes\":\"")?;
    out.put_hex(bytes)?;
    out.put(b"\",\"file\":")?;
    put_name(out, file.name())?;
    out.put(b"}")
}

/// Each item of a slice of bytes is one.
fn are_bytes(bytes: &[u8])
    ensures { IsBytes bytes.now }
{}

/// Writes a mark with its moment.
fn put_mark(out: &mut RopeWriter, mark: PackMark) -> Result<(), AllocError>
    ensures text { OnOk result (out.new ≡ out.old ++ compact_text (mark_data Moments mark)) }
    ensures fit { OnOk result (FitsMark mark) }
{
    let mut moment = itoa::Buffer::new();
    out.put(b"{\"id\":\"")?;
    put_digits(out, mark.pack)?;
    out.put(b"\",\"moment\":")?;
    out.put(moment.format(mark.mark.moment).as_bytes())?;
    out.put(b"}")
}

/// Writes a pack's id.
fn put_pack(out: &mut RopeWriter, pack: Id) -> Result<(), AllocError>
    ensures text { OnOk result (out.new ≡ out.old ++ compact_text (id_data pack)) }
    ensures fit { OnOk result (IsDigest pack) }
{
    out.put(b"\"")?;
    put_digits(out, pack)?;
    out.put(b"\"")
}

/// Writes an id's digits, which stand between quotes as they are.
fn put_digits(out: &mut RopeWriter, id: Id) -> Result<(), AllocError>
    ensures { OnOk result (out.new ≡ out.old ++ escape (id_text id)) }
{
    let mut digits = [0u8; 64];
    hex::encode_to_slice(id.0, &mut digits).unwrap();
    out.put(&digits)
}
