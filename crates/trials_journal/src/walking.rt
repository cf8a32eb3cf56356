//! A walk over all that stands on a disk.
ghost use Rattle.std.specs.Prelude.{◌≡◌, true, IfOk};
ghost use Rattle.au_journal.specs.Journals.{seat_of};

use crate::fault::Fault;
use au_io::{Area, MemDisk};
use au_journal::{Journal, MountFault};
use std::alloc::Global;

/// What a walk ends with: the journal and the bodies that it stands for, or the disk and why not.
pub type Walk = Result<(Journal<MemDisk>, Vec<Vec<u8>>), (MemDisk, MountFault)>;

/// Walks to the end. No case has more than eight bodies.
pub fn walk(alloc: Global, disk: MemDisk) -> Result<Walk, Fault>
    ensures { IfOk result (λ walked. IfOk walked (λ parts. (seat_of parts.0).ended ≡ true)) }
{
    let mut journal = match Journal::mount(disk) {
        Ok(journal) => journal,
        Err(failed) => return Ok(Err(failed)),
    };
    let mut bodies = Vec::new(alloc);
    for _frame in 0..8u8 {
        let n = match journal.next_length() {
            Ok(Some(n)) => n,
            Ok(None) => return Ok(Ok((journal, bodies))),
            Err(why) => return Ok(Err((journal.shut(), why))),
        };
        let mut body = vec![in alloc; 0u8; n as usize]?;
        match journal.next_frame(&mut body) {
            Ok(()) => bodies.push(body)?,
            Err(why) => return Ok(Err((journal.shut(), why))),
        }
    }
    Err(Fault::NoCase)
}

/// The bodies, with `+` between them, as the words that write them.
pub fn said_bodies(alloc: Global, bodies: &[Vec<u8>]) -> Result<String, Fault> {
    let mut said = String::new(alloc);
    for body in bodies {
        if !said.is_empty() {
            said.push('+')?;
        }
        said.push_str(&said_body(alloc, body)?)?;
    }
    Ok(said)
}

// A long body is said by its first byte and its length.
fn said_body(alloc: Global, body: &[u8]) -> Result<String, Fault> {
    match (body, str::from_utf8(body)) {
        ([first, ..], _) if body.len() > 8 => {
            Ok(format!(in alloc; "{}*{}", char::from(*first), body.len())?)
        }
        (_, Ok(text)) => Ok(format!(in alloc; "{text}")?),
        (_, Err(_)) => Ok(format!(in alloc; "{body:?}")?),
    }
}

/// Why a disk couldn't be walked.
pub fn said_fault(alloc: Global, why: MountFault) -> Result<String, Fault> {
    match why {
        MountFault::Disk => Ok(format!(in alloc; "disk")?),
        MountFault::Unformatted => Ok(format!(in alloc; "none")?),
        MountFault::Damaged { area, at } => {
            Ok(format!(in alloc; "damaged {} {at}", said_area(area))?)
        }
    }
}

/// The name of an area.
pub fn said_area(area: Area) -> &'static str {
    match area {
        Area::Head => "Head",
        Area::A => "A",
        Area::B => "B",
    }
}
