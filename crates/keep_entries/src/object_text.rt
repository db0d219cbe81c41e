ghost use Rattle.std.specs.Prelude.{◌≡◌, ◌++◌, OnOk, codes, true};
ghost use Rattle.std.specs.List.{AllByRecursion};
ghost use Rattle.json.specs.Print.{token_text};
ghost use Rattle.json.specs.Token as token;
ghost use Rattle.serde_json.specs.Data.{Members, no_members, object};
ghost use Rattle.serde_json.specs.Written.{compact_text, members_text};
ghost use Rattle.keep_names.specs.Id.{IsDigest};
ghost use Rattle.keep_entries.specs.Entry.{FitsFile, FitsMark, FitsName};
ghost use Rattle.keep_entries.specs.Members.{first_members, last_members, middle_members};
ghost use Rattle.keep_entries.specs.declared.form.Form.TheVariants.{Moments};

use crate::entry_values::{put_files, put_marks, put_names, put_number, put_packs};
use keep_change::Change;
use keep_rope::RopeWriter;
use std::alloc::AllocError;

/// Writes a commit's opening bracket, and the members that come first.
pub(crate) fn put_first(out: &mut RopeWriter, change: &Change) -> Result<(), AllocError>
    ensures text { OnOk result ((ms : Members) → out.new ++ members_text true ms
        ≡ out.old ++ compact_text (object (first_members Moments change.now ms))) }
    ensures absent { OnOk result (AllByRecursion FitsName change.now.absent) }
    ensures adds { OnOk result (AllByRecursion FitsFile change.now.adds) }
    ensures clears { OnOk result (AllByRecursion FitsMark change.now.clears) }
    ensures drops { OnOk result (AllByRecursion FitsFile change.now.drops) }
{
    out.put(b"{\"absent\":[")?;
    put_names(out, change.absent.as_slice())?;
    out.put(b"],\"adds\":[")?;
    put_files(out, change.adds.as_slice())?;
    out.put(b"],\"clears\":[")?;
    put_marks(out, change.clears.as_slice())?;
    out.put(b"],\"drops\":[")?;
    put_files(out, change.drops.as_slice())?;
    out.put(b"]")
}

/// Writes those that come then.
pub(crate) fn put_middle(
    out: &mut RopeWriter,
    number: u64,
    change: &Change,
) -> Result<(), AllocError>
    ensures text { OnOk result ((ms : Members) → out.new ++ members_text true ms
        ≡ out.old ++ members_text true (middle_members Moments number change.now ms)) }
    ensures marked { OnOk result (AllByRecursion IsDigest change.now.marked) }
{
    out.put(b",\"event\":\"commit\",\"form\":2,\"marked\":[")?;
    put_packs(out, change.marked.as_slice())?;
    out.put(b"],\"number\":")?;
    put_number(out, number)
}

/// Writes those that come last, and the closing bracket.
pub(crate) fn put_last(out: &mut RopeWriter, change: &Change) -> Result<(), AllocError>
    ensures text { OnOk result (out.new
        ≡ out.old ++ members_text true (last_members Moments change.now no_members)) }
    ensures present { OnOk result (AllByRecursion FitsName change.now.present) }
    ensures sets { OnOk result (AllByRecursion FitsMark change.now.sets) }
    ensures unmarked { OnOk result (AllByRecursion IsDigest change.now.unmarked) }
{
    out.put(b",\"present\":[")?;
    put_names(out, change.present.as_slice())?;
    out.put(b"],\"sets\":[")?;
    put_marks(out, change.sets.as_slice())?;
    out.put(strictness(change.strict))?;
    put_packs(out, change.unmarked.as_slice())?;
    out.put(b"]}")
}

/// What stands between the marks that a change sets and the packs that it unmarks.
fn strictness(is_strict: bool) -> &'static [u8]
    ensures { result.now
        ≡ codes "],\"strict\":" ++ (token_text (token.boolean is_strict) ++ codes ",\"unmarked\":[") }
{
    if is_strict {
        b"],\"strict\":true,\"unmarked\":["
    } else {
        b"],\"strict\":false,\"unmarked\":["
    }
}
