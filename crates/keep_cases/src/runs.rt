//! Runs each case of the table through the program `keepd`, and prints what it answers, its exit status and what it
//! says on standard error.
//!
//! A line of the table is `= NAME`, which begins a case, `- WORD`, a word behind the program's name, `& DIR`, a folder
//! that another run has meanwhile, `f PATH HEX`, a file that is put there first, or a part of the script: `| TEXT` a
//! line of it, `* N TEXT` a text N times, `x HEX` bytes. Empty lines and `#` are passed over. The folders that cases
//! name lie in `data/`; what a case does there stays for the next one.

mod case;

use crate::runs::case::Case;
use std::io::{self, BufWriter, Write};

/// Answers the rows of the table.
pub(crate) fn answer(rt: &HostRuntime, rows: &[String]) -> io::Result<()> {
    let alloc = rt.alloc();
    let mut writer = BufWriter::new(alloc, rt.stdout())?;
    let mut case = Case::new(alloc);
    for row in rows {
        if let Some(name) = row.strip_prefix("= ") {
            case.run(rt, &mut writer)?;
            case.begin(alloc, name)?;
        } else {
            case.add(rt, row.as_str())?;
        }
    }
    case.run(rt, &mut writer)?;
    writer.flush()
}
