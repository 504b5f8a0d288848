// Why a database is not served, in words.
use row_store::Cause;
use sqlite::{Error, ErrorCode};
use std::fs::Files;
use std::io::{Eprint, ErrorKind};
use std::path::Path;
use std::{fmt, fs};

/// Why a database is not served.
#[derive(Clone, Copy, Debug)]
pub enum Why {
    /// The folder that it is to lie in is not there.
    NoFolder,
    /// What has its name is a folder or a device.
    NoFile,
    /// The system does not open it, or SQLite left a journal beside it, which only SQLite can play back.
    NotOpened,
    /// The disk has no room beside it.
    NoRoom,
    Store(Cause),
    /// It was served until then.
    Ended(broker_dir::Why),
}

impl fmt::Display for Why {
    fn fmt<W: fmt::Write>(&self, f: &mut fmt::Formatter<W>) -> fmt::Result {
        match self {
            Why::NoFolder => f.write_str("no such folder"),
            Why::NoFile => f.write_str("not a file"),
            Why::NotOpened => f.write_str(
                "cannot be opened, or has a rollback journal of SQLite beside it",
            ),
            Why::NoRoom => f.write_str("no room on the disk"),
            Why::Store(cause) => write!(f, "{cause}"),
            Why::Ended(why) => write!(f, "{why}"),
        }
    }
}

/// Whether the folder that the file is to lie in is known to be missing.
fn lacks_folder(files: &impl Files, database: &str) -> bool {
    let Some(folder) = Path::new(database).parent() else {
        return false;
    };
    if folder.as_os_str().is_empty() {
        return false;
    }
    match fs::metadata(files, folder) {
        Ok(found) => !found.is_dir(),
        Err(error) => matches!(error.kind(), ErrorKind::NotFound | ErrorKind::NotADirectory),
    }
}

/// Whether what is no file has its name.
fn is_no_file(files: &impl Files, database: &str) -> bool {
    match fs::metadata(files, database) {
        Ok(found) => !found.is_file(),
        Err(_) => false,
    }
}

/// Why the database was not opened. Of a file that the system does not open the error says no more, so its place is
/// looked at.
pub fn why_unopened(files: &impl Files, database: &str, error: Error) -> Why {
    if error != Error::SqliteFailure(ErrorCode::CannotOpen) {
        Why::Store(Cause::Store(error))
    } else if lacks_folder(files, database) {
        Why::NoFolder
    } else if is_no_file(files, database) {
        Why::NoFile
    } else {
        Why::NotOpened
    }
}

/// Says on standard error why the database is not served.
pub fn say_why(rt: &impl Eprint, database: &str, why: Why) {
    let _ = eprintln!(rt; "{database}: {why}");
}
