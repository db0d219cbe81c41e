use crate::failure::why_of;
use keep_sources::{StatKind, Why};
use std::alloc::Global;
use std::fs;
use std::fs::{File, Files, Metadata};
use std::os::unix::fs::FileTypeExt;

/// What sort of thing a path leads to. Only a link is read.
pub(crate) fn kind_of<R: Files<File = File> + Alloc<A = Global>>(
    rt: &R,
    place: &str,
    found: &Metadata,
) -> Result<StatKind, Why> {
    let kind = found.file_type();
    if kind.is_file() {
        Ok(StatKind::File)
    } else if kind.is_dir() {
        Ok(StatKind::Folder)
    } else if kind.is_symlink() {
        target_of(rt, place)
    } else if kind.is_fifo() {
        Ok(StatKind::Fifo)
    } else if kind.is_socket() {
        Ok(StatKind::Socket)
    } else if kind.is_block_device() {
        Ok(StatKind::Device)
    } else {
        Ok(StatKind::CharDevice)
    }
}

fn target_of<R: Files<File = File> + Alloc<A = Global>>(
    rt: &R,
    place: &str,
) -> Result<StatKind, Why> {
    match fs::read_link(rt, place) {
        Ok(target) => Ok(StatKind::Link(target.into_string())),
        Err(error) => Err(why_of(&error)),
    }
}
