// Before the store opens the database: whether the disk has room beside it.
use std::alloc::Global;
use std::fs::{Files, OpenFile, OpenOptions};
use std::io::Write;
use std::os::unix::fs::OpenOptionsExt;
use std::{fs, io};

/// Who may read and write what is written for a try: its owner alone.
const MODE: u32 = 0o600;

/// For how many bytes the disk has to have room: the log of a commit of some hundred messages.
const ROOM: usize = 524_288;

/// How many of them are written at once.
const PIECE: usize = 4_096;

/// Writes so much to the file, and the disk has it.
fn fill<F: Write + OpenFile>(file: &mut F) -> io::Result<()> {
    let piece = [0; PIECE];
    for _ in 0..ROOM / PIECE {
        file.write_all(&piece)?;
    }
    file.sync_all()
}

/// Removes what was written for a try, now or by a start that was killed. One that is longer is somebody else's, and stays.
fn remove_trial<R: Files>(rt: &R, path: &str) {
    if let Ok(found) = fs::symlink_metadata(rt, path)
        && found.is_file()
        && found.len() <= ROOM as u64
    {
        let _ = fs::remove_file(rt, path);
    }
}

/// Whether the disk has room beside the database: a file is written there, and goes again. Where none can be made at all, the store
/// says why.
pub fn has_room<R: Files>(rt: &R, alloc: Global, database: &str) -> bool {
    let Ok(path) = format!(in alloc; "{database}-room") else {
        return true;
    };
    remove_trial(rt, path.as_str());
    let mut options = OpenOptions::new();
    options.write(true).create_new(true).mode(MODE);
    let filled = match options.open(rt, path.as_str()) {
        Ok(mut file) => fill(&mut file),
        Err(_) => return true,
    };
    remove_trial(rt, path.as_str());
    filled.is_ok()
}
