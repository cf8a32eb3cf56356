//! The real files.

use crate::disk::{Done, area_named, said_done, said_read};
use crate::fault::Fault;
use crate::words::{first_word, number};
use au_io::{Disk, Failed, FileDisk};
use std::alloc::Global;
use std::fs;
use std::os::unix::fs::PermissionsExt;

/// What the calls of a disk on real files answer.
pub fn files_line(rt: HostRuntime, calls: &str) -> Result<String, Fault> {
    let mut disk = FileDisk::new(rt);
    let mut line = String::new(rt.alloc());
    for call in calls.split(';') {
        line.push_str(&said_call(rt, &mut disk, call.trim())?)?;
    }
    line.push('\n')?;
    Ok(line)
}

fn said_call(rt: HostRuntime, disk: &mut FileDisk, call: &str) -> Result<String, Fault> {
    let (call, part) = first_word(call);
    match call {
        "text" => said_text(rt, part),
        "mode" => said_mode(rt, part),
        "remove" => removed(rt, part),
        "other" => said_size(rt.alloc(), FileDisk::new(rt).size(area_named(part)?)),
        _ => said_disk_call(rt.alloc(), disk, call, part),
    }
}

fn said_disk_call(
    alloc: Global,
    disk: &mut FileDisk,
    call: &str,
    part: &str,
) -> Result<String, Fault> {
    let (area, part) = first_word(part);
    let area = area_named(area)?;
    match call {
        "write" => {
            let (place, text) = first_word(part);
            let answer = disk.write_at(area, number(place)?, text.as_bytes());
            said_done(alloc, Done::of(answer))
        }
        "cut" => said_done(alloc, Done::of(disk.cut(area, number(part)?))),
        "sync" => said_done(alloc, Done::of(disk.sync(area))),
        "size" => said_size(alloc, disk.size(area)),
        "read" => said_read(alloc, disk, area, number(part)?),
        _ => Err(Fault::NoCase),
    }
}

fn said_size(alloc: Global, answer: Result<u64, Failed>) -> Result<String, Fault> {
    match answer {
        Ok(size) => Ok(format!(in alloc; "  {size}")?),
        Err(Failed) => Ok(format!(in alloc; "  failed")?),
    }
}

// What stands in the file.
fn said_text(rt: HostRuntime, path: &str) -> Result<String, Fault> {
    match fs::read_to_string(&rt, path) {
        Ok(text) => Ok(format!(in rt.alloc(); "  [{text}]")?),
        Err(_) => Ok(format!(in rt.alloc(); "  no text")?),
    }
}

// Who may read and write the file, in octal.
fn said_mode(rt: HostRuntime, path: &str) -> Result<String, Fault> {
    match fs::metadata(&rt, path) {
        Ok(found) => Ok(format!(in rt.alloc(); "  {:o}", found.permissions().mode() & 0o777)?),
        Err(_) => Ok(format!(in rt.alloc(); "  no file")?),
    }
}

fn removed(rt: HostRuntime, path: &str) -> Result<String, Fault> {
    match fs::remove_file(&rt, path) {
        Ok(()) => Ok(format!(in rt.alloc(); "  removed")?),
        Err(_) => Ok(format!(in rt.alloc(); "  no file")?),
    }
}
