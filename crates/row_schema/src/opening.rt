// A database is opened once: what was read then says too that in each of its tables no rowid comes twice.
ghost use Rattle.std.specs.Prelude.{◌≡◌, true, false, codes, Err, IfOk, IfErr, IsTrue};
ghost use Rattle.sqlite.specs.declared.error.ErrorCode.TheVariants.{CannotOpen};
ghost use Rattle.sqlite.specs.declared.error.Error.TheVariants.{SqliteFailure};
ghost use Rattle.sqlite_wal.specs.Files.{image_at};
ghost use Rattle.sqlite_std_file.specs.File.{file_is_usable, IsFresh};
ghost use Rattle.sqlite.specs.Opening.{is_open_error};
ghost use Rattle.sqlite.specs.Start.{FindsIn};
ghost use Rattle.sqlite.specs.State.{HasCleanDisk};
ghost use Rattle.sqlite.specs.Held.{state};
ghost use Rattle.sqlite.specs.Steps.{IsEmpty, over_memory};
ghost use Rattle.sqlite.specs.Files.{file_state, Finds, FailsToOpenFiles, IsCleanLeft, IsOpened, LeavesFiles};
ghost use Rattle.row_tables.specs.Ready.{AreKeyed};

use sqlite::{
    Connection, Error, ErrorCode, FileFrom, FileStore, Files, Leftover, MemStore, Options, Start,
};
use sqlite_disk::Disk;
use sqlite_std_file::{OpenError, open as open_pair};
use std::alloc::{AllocError, Global};
use std::hash::{BuildHasher, RandomState};
use std::io::ErrorKind;

const NO_MEMORY: Error = Error::SqliteFailure(ErrorCode::OutOfMemory);

const CANNOT_OPEN: Error = Error::SqliteFailure(ErrorCode::CannotOpen);

/// What an open that fails is told as.
fn named(error: OpenError) -> Error
    ensures { IsTrue (is_open_error result) }
{
    match error {
        OpenError::OutOfMemory => NO_MEMORY,
        OpenError::Busy => Error::SqliteFailure(ErrorCode::DatabaseBusy),
        OpenError::Io(error) if error.kind() == ErrorKind::OutOfMemory => NO_MEMORY,
        _ => CANNOT_OPEN,
    }
}

/// The file and its log, made where they are missing, and locked. Neither `:memory:` nor a URI is a path.
fn files_at<S: Start>(rt: &HostRuntime, path: &str, start: S) -> Result<Files<FileFrom<S>>, Error>
    ensures memory { path.now ≡ codes ":memory:" → result ≡ Err (SqliteFailure CannotOpen) }
    ensures named { IfErr result (λ e. IsTrue (is_open_error e)) }
    ensures log { IfOk result (λ files. IsTrue (file_is_usable S.Start files.log)) }
    ensures db { IfOk result (λ files. IsTrue (file_is_usable S.Start files.db)) }
    ensures fresh { IfOk result (λ files. IsFresh true files.log × IsFresh false files.db) }
{
    if path == ":memory:" || path.starts_with("file:") {
        return Err(CANNOT_OPEN);
    }
    match open_pair(rt, path, start) {
        Ok(files) => Ok(files),
        Err(error) => Err(named(error)),
    }
}

/// The library's own, but for how many frames the log has before it is copied into the file.
fn options(rt: &HostRuntime, frames: usize) -> Result<Options, Error>
    ensures named { IfErr result (λ e. IsTrue (is_open_error e)) }
    ensures frames { IfOk result (λ options. options.checkpoint_frames ≡ frames) }
    ensures memory { IfOk result (λ options. (options.cache_pages ≡ 2000) × (options.spill_pages ≡ 2000)) }
{
    let seed = RandomState::new(rt)
        .map_err(|_| CANNOT_OPEN)?
        .hash_one(&0u8);
    let mut options = Options::new(seed);
    options.checkpoint_frames = frames;
    Ok(options)
}

/// Opens the file, or makes it, as `Connection::open` does where `S` is `Unknown`. Once the log has so many frames, the next
/// transaction that writes begins with copying it into the file. The rows of each table have each another rowid.
pub fn open<S: Start>(
    rt: &HostRuntime,
    path: &str,
    start: S,
    frames: usize,
) -> Result<Connection<FileStore<FileFrom<S>>>, Error>
    ensures memory { path.now ≡ codes ":memory:" → result ≡ Err (SqliteFailure CannotOpen) }
    ensures named { IfErr result (λ e. IsTrue (is_open_error e)) }
    ensures opened { IfOk result (λ c. HasCleanDisk (file_state c) → IsOpened c) }
    ensures found { IfOk result (λ c. HasCleanDisk (file_state c) → FindsIn (image_at S.Start) (file_state c)) }
    ensures keyed { IfOk result (λ c. HasCleanDisk (file_state c) → AreKeyed (file_state c).now) }
{
    let files = files_at(rt, path, start)?;
    let options = options(rt, frames)?;
    match open_files(rt.alloc(), files, options) {
        Ok(mut conn) => {
            conn.set_clock(rt);
            Ok(conn)
        }
        Err((error, _)) => Err(error),
    }
}

/// A database in memory, with no table.
pub fn open_in_memory(alloc: Global) -> Result<Connection<MemStore>, AllocError>
    ensures opened { IfOk result (λ c. IsEmpty (state over_memory c)) }
    ensures keyed { IfOk result (λ c. AreKeyed (state over_memory c).now) }
{
    match Connection::open_in_memory(alloc) {
        Ok(conn) => Ok(conn),
        Err(error) => Err(error),
    }
}

/// Opens the files of any disk, as `Connection::open_files` does, with what is left of them where it fails. The rows of
/// each table have each another rowid.
pub fn open_files<D: Disk + Drop>(
    alloc: Global,
    files: Files<D>,
    options: Options,
) -> Result<Connection<FileStore<D>>, (Error, Leftover<D>)>
    requires log { IsTrue (D.Disk.is_usable files.log) }
    requires db { IsTrue (D.Disk.is_usable files.db) }
    ensures named { IfErr result (λ e. IsTrue (is_open_error e.0)) }
    ensures opened { IfOk result (λ c. HasCleanDisk (file_state c) → IsOpened c) }
    ensures found { IfOk result (λ c. HasCleanDisk (file_state c) → Finds files c) }
    ensures keyed { IfOk result (λ c. HasCleanDisk (file_state c) → AreKeyed (file_state c).now) }
    ensures cause { IfErr result (λ e. IsCleanLeft e.1 → FailsToOpenFiles files e.1 e.0) }
    ensures unharmed { IfErr result (λ e. IsCleanLeft e.1 → LeavesFiles files e.1) }
{
    match Connection::open_files(alloc, files, options) {
        Ok(conn) => Ok(conn),
        Err(refused) => Err(refused),
    }
}
