//! How the program ends.

use crate::fault::Fault;
use au_io::Area;
use au_main::Status;

/// The end of that name.
pub fn end_of(name: &str) -> Result<Status, Fault> {
    match name {
        "done" => Ok(Status::Done),
        "usage" => Ok(Status::Usage),
        "read fault" => Ok(Status::ReadFault),
        "write fault" => Ok(Status::WriteFault),
        "disk fault" => Ok(Status::DiskFault),
        "unformatted" => Ok(Status::Unformatted),
        "formatted" => Ok(Status::Formatted),
        "damaged" => Ok(Status::Damaged {
            area: Area::A,
            at: 320,
        }),
        "bad line" => Ok(Status::BadLine(1)),
        "too long" => Ok(Status::TooLong),
        "lobby fault" => Ok(Status::LobbyFault),
        "memory" => Ok(Status::Memory),
        "worn" => Ok(Status::Worn),
        _ => Err(Fault::NoCase),
    }
}

/// Adds the text of the end, and the exit status. That all was done has no text.
pub fn push_end(said: &mut String, status: Status) -> Result<(), Fault> {
    let number = status.number();
    match status {
        Status::Done => write!(said, "  no text, exit {number}")?,
        _ => write!(said, "  {status}, exit {number}")?,
    }
    Ok(())
}

/// Adds the end in short: `done`, `formatted`, `none` without a store, `disk`, or its text.
pub fn push_short(said: &mut String, status: Status) -> Result<(), Fault> {
    match status {
        Status::Done => said.push_str("done")?,
        Status::Formatted => said.push_str("formatted")?,
        Status::Unformatted => said.push_str("none")?,
        Status::DiskFault => said.push_str("disk")?,
        _ => write!(said, "{status}")?,
    }
    Ok(())
}
