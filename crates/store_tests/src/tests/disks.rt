// Databases on disks in memory that stop after so many calls, and what a stop leaves of them.
ghost use Rattle.std.specs.Prelude.{◌≡◌, IfOk, IsTrue};
ghost use Rattle.sqlite.specs.State.{HasCleanDisk};
ghost use Rattle.sqlite.specs.Held.{state};
ghost use Rattle.sqlite.specs.Files.{file_state};
ghost use Rattle.row_tables.specs.Ready.{AreKeyed};

use super::keepers::{started, store_of};
use super::keeps::{Keeps, Scene};
use super::plays::{T, U};
use super::same::same;
use super::stops::{Machine, NEVER, Outcome, Stop};
use super::works::{Work, is_done, statements};
use delivery_machine::Snapshot;
use marks::{Naming, Unnamed};
use row_schema::open_files;
use row_store::Keeper;
use sqlite::{Alter, Connection, FileStore, Files, Options};
use sqlite_disk::{Crash, Disk, Fuse, Memory};
use std::marker::Brand;
use std::process::Abort;
use stored_cell::Note;

type File = Fuse<Memory>;

type Store = FileStore<File>;

/// What two files hold.
#[derive(Drop)]
pub(super) struct Image {
    log: Vec<u8>,
    db: Vec<u8>,
}

/// What the rows of two topics show.
#[derive(Drop)]
pub(super) struct Seen {
    one: Option<Snapshot>,
    other: Option<Snapshot>,
}

/// Two disks in memory.
pub(super) struct Disks;

fn disk<R: Abort + AllocGlobal>(rt: &R, bytes: &[u8], calls: u64) -> File {
    let mut file = Memory::new(rt.alloc());
    file.write_at(0, bytes).ok().expect(rt, "no memory");
    file.sync().ok().expect(rt, "no memory");
    Fuse::new(file, calls)
}

fn image_of<R: Abort + AllocGlobal>(rt: &R, files: &Files<File>) -> Image {
    let log = files.log.inner().bytes().to_vec(rt.alloc());
    let db = files.db.inner().bytes().to_vec(rt.alloc());
    Image {
        log: log.expect(rt, "no memory"),
        db: db.expect(rt, "no memory"),
    }
}

/// What is left where the machine stops now.
fn left_in<R: Abort + AllocGlobal>(rt: &R, mut files: Files<File>, done: bool) -> Outcome<Image> {
    let written = image_of(rt, &files);
    files.log.crash();
    files.db.crash();
    Outcome {
        written,
        synced: image_of(rt, &files),
        done,
    }
}

fn options() -> Options {
    let mut options = Options::new(1);
    options.checkpoint_frames = 8;
    options
}

/// The database that the files hold, or what is left where one stopped.
fn open<R: Abort + AllocGlobal>(
    rt: &R,
    image: &Image,
    stop: Stop,
) -> Result<Connection<Store>, Outcome<Image>>
    ensures keyed { IfOk result (λ c. HasCleanDisk (file_state c) → AreKeyed (file_state c).now) }
{
    let files = Files {
        log: disk(rt, &image.log, stop.log),
        db: disk(rt, &image.db, stop.db),
    };
    assert!(rt; files.may_be_used());
    match open_files(rt.alloc(), files, options()) {
        Ok(conn) => Ok(conn),
        Err((_, left)) => Err(left_in(rt, left.into_files(), false)),
    }
}

/// What is done with a keeper over disks, and what comes of it. Only one function names the type of such a database
/// beside a keeper, which is dear to prove.
trait Errand {
    type Gain: Drop;

    /// What comes of it, and the database where it is still wanted.
    fn run<K: Keeps<Snapshot = Snapshot>, R: Abort + AllocGlobal>(
        &self,
        rt: &R,
        keeper: K,
    ) -> (Option<K::Database>, Self::Gain);
}

fn went<S: Alter + Drop, J: Naming, X: Errand, R: Abort + AllocGlobal>(
    rt: &R,
    keeper: Keeper<S, J>,
    errand: &X,
) -> (Option<S>, X::Gain) {
    let (database, gain) = errand.run(rt, keeper);
    match database {
        Some(database) => (Some(store_of(database)), gain),
        None => (None, gain),
    }
}

/// What the database stands on after the errand, and what came of it. Nothing comes of it where no keeper takes the
/// database.
fn run<S: Alter + Drop, J: Naming, X: Errand, R: Abort + AllocGlobal>(
    rt: &R,
    conn: Connection<S>,
    errand: &X,
    history: Unnamed<Note>,
) -> (Option<S>, Option<X::Gain>)
    requires book { history ≡ J.book }
    requires keyed { HasCleanDisk (state S.Store conn) → IsTrue (state S.Store conn).is_open → AreKeyed (state S.Store conn).now }
{
    match started::<S, J, R>(rt, conn, history) {
        Ok(keeper) => {
            let (store, gain) = went(rt, keeper, errand);
            (store, Some(gain))
        }
        Err(refused) => (Some(refused.store), None),
    }
}

/// Does the errand over the database, and gives back its files.
fn send<X: Errand, R: Abort + AllocGlobal>(
    rt: &R,
    conn: Connection<Store>,
    errand: &X,
) -> (Option<Files<File>>, Option<X::Gain>)
    requires keyed { HasCleanDisk (file_state conn) → AreKeyed (file_state conn).now }
{
    let (store, gain) = run::<Store, Brand, X, R>(rt, conn, errand, Unnamed::new());
    match store {
        Some(store) => (Some(store.close()), gain),
        None => (None, gain),
    }
}

/// A work is done, as far as the disks go.
#[derive(Drop)]
struct Working {
    work: Work,
}

impl Errand for Working {
    type Gain = bool;

    fn run<K: Keeps<Snapshot = Snapshot>, R: Abort + AllocGlobal>(
        &self,
        rt: &R,
        mut keeper: K,
    ) -> (Option<K::Database>, bool) {
        let done = is_done(rt, &mut keeper, self.work);
        let mut database = keeper.into_database();
        let changed = K::execute(&mut database, statements(self.work));
        (Some(database), done && changed)
    }
}

fn work_over<R: Abort + AllocGlobal>(rt: &R, conn: Connection<Store>, work: Work) -> Outcome<Image>
    requires keyed { HasCleanDisk (file_state conn) → AreKeyed (file_state conn).now }
{
    let (files, done) = send(rt, conn, &Working { work });
    left_in(rt, files.expect(rt, "no files"), done.unwrap_or(false))
}

fn shown<K: Keeps, R: Abort + AllocGlobal>(
    rt: &R,
    keeper: &mut K,
    name: &str,
) -> Option<K::Snapshot> {
    keeper.show(rt, name).expect(rt, "not loaded")
}

/// The rows of two topics are read.
struct Looking;

impl Errand for Looking {
    type Gain = Seen;

    fn run<K: Keeps<Snapshot = Snapshot>, R: Abort + AllocGlobal>(
        &self,
        rt: &R,
        mut keeper: K,
    ) -> (Option<K::Database>, Seen) {
        let one = shown(rt, &mut keeper, T);
        let other = shown(rt, &mut keeper, U);
        drop(keeper);
        (None, Seen { one, other })
    }
}

fn look_over<R: Abort + AllocGlobal>(rt: &R, conn: Connection<Store>) -> Seen
    requires keyed { HasCleanDisk (file_state conn) → AreKeyed (file_state conn).now }
{
    let (_, seen) = send(rt, conn, &Looking);
    seen.expect(rt, "not taken")
}

fn whole<R: Abort + AllocGlobal>(rt: &R, image: &Image) -> Connection<Store>
    ensures keyed { HasCleanDisk (file_state result) → AreKeyed (file_state result).now }
{
    match open(rt, image, NEVER) {
        Ok(conn) => conn,
        Err(_) => panic!(rt; "not opened"),
    }
}

fn is_same(one: &Option<Snapshot>, other: &Option<Snapshot>) -> bool {
    match (one, other) {
        (Some(one), Some(other)) => same(one, other),
        (None, None) => true,
        _ => false,
    }
}

impl Machine for Disks {
    type Image = Image;

    type Seen = Seen;

    fn empty<R: AllocGlobal>(rt: &R) -> Image {
        Image {
            log: Vec::new(rt.alloc()),
            db: Vec::new(rt.alloc()),
        }
    }

    fn work<R: Abort + AllocGlobal>(
        rt: &R,
        image: &Image,
        work: Work,
        stop: Stop,
    ) -> Outcome<Image> {
        match open(rt, image, stop) {
            Ok(conn) => work_over(rt, conn, work),
            Err(left) => left,
        }
    }

    fn see<R: Abort + AllocGlobal>(rt: &R, image: &Image) -> Seen {
        look_over(rt, whole(rt, image))
    }

    fn is_seen(one: &Seen, other: &Seen) -> bool {
        is_same(&one.one, &other.one) && is_same(&one.other, &other.other)
    }
}

/// A scene is played.
#[derive(Drop)]
struct Playing<'a, X: Scene> {
    scene: &'a X,
}

impl<X: Scene> Errand for Playing<'_, X> {
    type Gain = bool;

    fn run<K: Keeps<Snapshot = Snapshot>, R: Abort + AllocGlobal>(
        &self,
        rt: &R,
        keeper: K,
    ) -> (Option<K::Database>, bool) {
        self.scene.play(rt, keeper);
        (None, true)
    }
}

/// Plays the scene over an empty database on disks.
pub(super) fn on_disks<X: Scene, R: Abort + AllocGlobal>(rt: &R, scene: &X) {
    let (_, played) = send(rt, whole(rt, &Disks::empty(rt)), &Playing { scene });
    assert!(rt; played == Some(true));
}
