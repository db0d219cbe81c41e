//! Gives what lies in a folder beside the program to a printer, and says what the machine says of itself. The stored
//! answers are written by hand, of what `data/` has. Its part has no lines.

mod host_events;

use crate::host::host_events::Events;
use keep_host_source::{HostSource, host_name, user_id, user_name};
use keep_sources::{Scope, Taking};
use std::collections::HashMap;
use std::io;

/// Says what lies there.
pub(crate) fn answer(rt: &HostRuntime) -> io::Result<()> {
    let alloc = rt.alloc();
    let source = HostSource::new(rt.clone()?, "tree")?;
    let mut taking = Taking::new(alloc, source, Events::new(alloc))?;
    let job = Scope {
        paths: vec![in alloc; String::new(alloc)]?,
        excludes: Vec::new(alloc),
        known: HashMap::new(alloc),
    };
    if taking.take(&job).is_err() {
        println!(rt; "stopped")?;
    }
    let named = taking.skipped().len();
    let (_, events) = taking.into_parts();
    println!(rt; "{}named {named}", events.as_text())?;
    let host = host_name(rt)?;
    let user = user_name(rt)?;
    let has_names = !host.is_empty() && !user.is_empty();
    let number = user_id(rt)?;
    let is_known = number < u32::MAX;
    println!(rt; "{has_names} {is_known}")
}
