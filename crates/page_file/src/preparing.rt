// A file that gets its name only once it is whole.
use crate::page::{PAGE_SIZE, first_page};
use std::alloc::Global;
use std::fs::{Files, OpenFile, OpenOptions};
use std::io::{Read, Write};
use std::os::unix::fs::OpenOptionsExt;
use std::{fs, io};

/// Who may read and write the database: its owner alone, since all messages are in it.
const MODE: u32 = 0o600;

/// A new file, which its owner alone may read. Where anything has the name, it stays as it is.
fn create<R: Files>(rt: &R, path: &str) -> io::Result<R::File> {
    let mut options = OpenOptions::new();
    options.write(true).create_new(true).mode(MODE);
    options.open(rt, path)
}

/// Writes the first page to a new file.
fn write_page<R: Files>(rt: &R, path: &str) -> io::Result<()> {
    let mut file = create(rt, path)?;
    file.write_all(&first_page())
}

/// Whether the file is the first page and no more, whoever wrote it. If so, the disk has it.
fn is_whole<R: Files>(rt: &R, path: &str) -> io::Result<bool> {
    let mut file = fs::open(rt, path)?;
    if file.metadata()?.len() != PAGE_SIZE as u64 {
        return Ok(false);
    }
    let mut found = [0; PAGE_SIZE];
    file.read_exact(&mut found)?;
    if found != first_page() {
        return Ok(false);
    }
    file.sync_all()?;
    Ok(true)
}

/// Removes the file that was to become the database. One with more bytes than its only page is somebody else's, and stays.
fn remove_part<R: Files>(rt: &R, part: &str) {
    if let Ok(found) = fs::symlink_metadata(rt, part)
        && found.is_file()
        && found.len() <= PAGE_SIZE as u64
    {
        let _ = fs::remove_file(rt, part);
    }
}

/// Gives the database's name to the file that was made for it. A link, unlike a renaming, takes no name that is there: so the file of
/// whoever was first stays. Where the file is not whole, as another program writes it at the moment, nothing is done.
fn name_whole<R: Files>(rt: &R, part: &str, path: &str) -> io::Result<()> {
    if is_whole(rt, part)? {
        fs::hard_link(rt, part, path)?;
    }
    Ok(())
}

/// Makes the database's file where there is none, so that its owner alone may read it. It is made whole as `PATH.new` and gets its name
/// then, so that no file of that name is a half one, however many programs start at once and whenever one is killed. What a kill left
/// as `PATH.new` is used where it is whole, and goes in any case: the library refuses a file of two names. Where a file cannot get a
/// second name, or for want of memory, an empty one is made, in which the library puts its own pages of 4,096 bytes. Of one that
/// cannot be made at all the library says why. It also sees to it that the disk has the name, as of each file that it opens.
pub fn prepare<R: Files>(rt: &R, alloc: Global, path: &str) {
    if let Ok(part) = format!(in alloc; "{path}.new") {
        if fs::metadata(rt, path).is_err() {
            let _ = write_page(rt, part.as_str());
            let _ = name_whole(rt, part.as_str(), path);
        }
        remove_part(rt, part.as_str());
    }
    let _ = create(rt, path);
}
