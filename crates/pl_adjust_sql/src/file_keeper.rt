//! The database files of the disk.

ghost use Rattle.std.specs.Prelude.{◌≡◌, ◌==◌, ◌↔◌, ◌++◌, ◌∷◌, [], List, Bool, None, Ok, IfOk, IfSome, IsSome, IsTrue, OnOk, OnErr, true, false, not, slice_index_or, string_bytes};
ghost use Rattle.std.specs.IoError.{error_kind};
ghost use Rattle.sqlite.specs.State.{HasCleanDisk};
ghost use Rattle.sqlite.specs.Files.{Finds, file_state};
ghost use Rattle.sqlite_disk.specs.Memory.{memory_bytes, memory_is_usable};
ghost use Rattle.pl_outside.specs.Counts.{count_end, count_plus};
ghost use Rattle.pl_spec.specs.declared.RawAdjust.{RawAdjust};
ghost use Rattle.pl_adjust_sql.specs.Beside.{IsCopyOf, read_as, suffix_of};
ghost use Rattle.pl_adjust_sql.specs.Copies.{IsOpened, IsReadFrom, IsOther};
ghost use Rattle.pl_adjust_sql.specs.Reads.{count_after};
ghost use Rattle.pl_outside.specs.Logs.{Loads};

use crate::read::read_table;
use crate::refusal::TableError;
use pl_outside::{AdjustKeeper, GivenLog, KeepError, LoadedLog, RawAdjust, Table};
use sqlite::{Connection, Error, ErrorCode, FileStore, Files, Options};
use sqlite_disk::{Disk, Memory};
use std::alloc::{AllocError, Global};
use std::fs;
use std::io::{self, ErrorKind};

// A database file that was read: its name, the connection over a copy of its bytes, and the log of what was
// read for it.
#[derive(Drop)]
struct Copied {
    name: String,
    connection: Connection<FileStore<Memory>>,
    read: GivenLog,
}

/// Database files of SQLite by their paths. The first load of a name reads the named file, and the next ones
/// of that name read the same copy, so that the tables are of one state. What the file holds no contract
/// sees; what was loaded, the log has.
#[derive(Drop)]
pub struct FileKeeper<'a> {
    rt: &'a HostRuntime,
    copy: Option<Copied>,
    log: LoadedLog,
    pub(crate) faults: u64,
}

impl<'a> FileKeeper<'a> {
    /// No file is opened yet.
    pub fn new(rt: &'a HostRuntime) -> FileKeeper<'a>
        ensures log { result.log.tables ≡ [] }
        ensures faults { result.faults ≡ 0 }
    {
        FileKeeper {
            rt,
            copy: None,
            log: LoadedLog::new(),
            faults: 0,
        }
    }
}

fn failed(faults: &mut u64) -> KeepError
    ensures count { faults.new ≡ count_plus faults.old 1 }
    ensures failed { result ≡ KeepError.Failed }
{
    *faults = faults.saturating_add(1);
    KeepError::Failed
}

impl AdjustKeeper for FileKeeper<'_> {
    ghost lists = { λ _. None };

    ghost loaded = { λ s. s.log.tables };

    ghost faults = { λ s. s.faults };

    // it counts no calls, so that their count stands at its end
    ghost calls = { λ _. count_end };

    ghost sound = { λ _. false };

    fn load(
        &mut self,
        alloc: Global,
        name: &str,
        table: Table,
        into: &mut Vec<RawAdjust>,
    ) -> Result<(), KeepError>
        ensures statement { OnOk result (IfSome self.new.copy
            (IsReadFrom table self.old.copy name.now into.old.items into.new.items)) }
        ensures kept { OnOk result (IsSome self.new.copy) }
        ensures logged { Loads self.old.log.tables self.new.log.tables name.now table
            into.old.items into.new.items result }
        ensures same { OnErr result (into.new.items ≡ into.old.items) }
        ensures count { self.new.faults ≡ count_after self.old.faults result }
    {
        let before = into.len();
        match read_named(self.rt, alloc, &mut self.copy, name, table, into) {
            Ok(()) => {
                self.log.loads(name.as_bytes(), &table, &into[before..]);
                Ok(())
            }
            Err(TableError::Memory) => Err(KeepError::Memory),
            Err(TableError::Refused) => Err(failed(&mut self.faults)),
        }
    }

    ghost use Rattle.std.proofs.Common.{rules};

    ghost sound_tells = { Prim.search rules };

    ghost lists_ascend = { Prim.search rules };
}

// Reads the table from the copy of that name, which is kept for the next one.
fn read_named(
    rt: &HostRuntime,
    alloc: Global,
    copy: &mut Option<Copied>,
    name: &str,
    table: Table,
    into: &mut Vec<RawAdjust>,
) -> Result<(), TableError>
    ensures appended { OnOk result ((rows : List RawAdjust) × (into.new.items ≡ into.old.items ++ rows)) }
    ensures same { OnErr result (into.new.items ≡ into.old.items) }
    ensures statement { OnOk result (IfSome copy.new
        (IsReadFrom table copy.old name.now into.old.items into.new.items)) }
    ensures kept { OnOk result (IsSome copy.new) }
    ensures name { IfSome copy.new (λ now. string_bytes now.name ≡ name.now) }
{
    let mut copied = named_copy(rt, alloc, copy.take(), name)?;
    let answer = read_table(alloc, &mut copied.connection, table, into);
    *copy = Some(copied);
    answer
}

// The copy that is kept, where it is of that name, and else a new one.
fn named_copy(
    rt: &HostRuntime,
    alloc: Global,
    kept: Option<Copied>,
    name: &str,
) -> Result<Copied, TableError>
    ensures name { IfOk result (λ copied. string_bytes copied.name ≡ name.now) }
    ensures once { IfSome kept (λ copied. string_bytes copied.name ≡ name.now → result ≡ Ok copied) }
    ensures opened { IsOther kept name.now → IfOk result (IsOpened name.now) }
{
    if let Some(copied) = kept {
        if copied.name.as_str() == name {
            return Ok(copied);
        }
    }
    new_copy(rt, alloc, name)
}

fn new_copy(rt: &HostRuntime, alloc: Global, name: &str) -> Result<Copied, TableError>
    ensures name { IfOk result (λ copied. string_bytes copied.name ≡ name.now) }
    ensures opened { IfOk result (IsOpened name.now) }
{
    let name_copied = String::from_str(alloc, name)?;
    let mut read = GivenLog::new();
    let files = copied_files(rt, alloc, name, &mut read)?;
    let connection = open_copy(alloc, files)?;
    Ok(Copied {
        name: name_copied,
        connection,
        read,
    })
}

// The connection over a database file and the log beside it, in memory: it finds what their bytes hold.
fn open_copy(
    alloc: Global,
    files: Files<Memory>,
) -> Result<Connection<FileStore<Memory>>, TableError>
    requires log { IsTrue (memory_is_usable files.log) }
    requires db { IsTrue (memory_is_usable files.db) }
    ensures found { IfOk result (λ connection. HasCleanDisk (file_state connection)
        → Finds files connection) }
{
    match Connection::open_files(alloc, files, Options::new(1)) {
        Ok(connection) => Ok(connection),
        Err((error, _)) => Err(open_error(&error)),
    }
}

// The file and the log beside it are read whole and opened in memory: SQLite would make a file that isn't
// there, and would write a log. An empty file is no database yet, and one whose transaction was cut off would
// first have to be fixed.
fn copied_files(
    rt: &HostRuntime,
    alloc: Global,
    name: &str,
    read: &mut GivenLog,
) -> Result<Files<Memory>, TableError>
    ensures log { IfOk result (λ files. IsTrue (memory_is_usable files.log)) }
    ensures db { IfOk result (λ files. IsTrue (memory_is_usable files.db)) }
    ensures copy { IfOk result (IsCopyOf read.old.files read.new.files name.now) }
{
    let bytes = read_whole(rt, name, read).map_err(read_error)?;
    if bytes.is_empty()
        || is_cut_off(bytes_beside(rt, alloc, name, Beside::Journal, read)?.as_slice())
    {
        return Err(TableError::Refused);
    }
    let db = copy_of(alloc, bytes.as_slice())?;
    drop(bytes);
    match log_of(rt, alloc, name, read) {
        Ok(log) => Ok(Files { log, db }),
        Err(error) => {
            drop(db);
            Err(error)
        }
    }
}

fn log_of(
    rt: &HostRuntime,
    alloc: Global,
    name: &str,
    read: &mut GivenLog,
) -> Result<Memory, TableError>
    ensures usable { IfOk result (λ disk. IsTrue (memory_is_usable disk)) }
    ensures given { IfOk result (λ disk. (found : Bool) × (read.new.files
        ≡ read_as (name.now ++ suffix_of Beside.Log) (memory_bytes disk) found ∷ read.old.files)) }
{
    let log = bytes_beside(rt, alloc, name, Beside::Log, read)?;
    copy_of(alloc, log.as_slice())
}

// Whether this is a rollback journal that is to be played back: the first byte of another one is 0.
fn is_cut_off(journal: &[u8]) -> bool
    ensures { result ≡ not (slice_index_or journal.now 0 0 == 0) }
{
    match journal {
        [] => false,
        [first, ..] => *first != 0,
    }
}

// The files that SQLite keeps beside a database file.
#[derive(Clone, Copy)]
enum Beside {
    Log,
    Journal,
}

// The bytes of such a file, and none where there is no such file.
fn bytes_beside(
    rt: &HostRuntime,
    alloc: Global,
    name: &str,
    kind: Beside,
    read: &mut GivenLog,
) -> Result<Vec<u8>, TableError>
    ensures { IfOk result (λ bytes. (found : Bool) × (read.new.files
        ≡ read_as (name.now ++ suffix_of kind) bytes.items found ∷ read.old.files)) }
{
    let path = path_beside(alloc, name, kind)?;
    match read_whole(rt, path.as_str(), read) {
        Ok(bytes) => Ok(bytes),
        Err(error) => match error.kind() {
            ErrorKind::NotFound => Ok(Vec::new(alloc)),
            _ => Err(read_error(error)),
        },
    }
}

// The bytes of the file of this path. That they are its bytes, no clause can say.
fn read_whole(rt: &HostRuntime, path: &str, read: &mut GivenLog) -> io::Result<Vec<u8>>
    ensures read { IfOk result (λ bytes. read.new.files ≡ read_as path.now bytes.items true ∷ read.old.files) }
    ensures unread { OnErr result (read.new.files ≡ read_as path.now [] false ∷ read.old.files) }
{
    read.begins(path.as_bytes());
    let bytes = fs::read(rt, path)?;
    read.gives(bytes.as_slice(), true);
    Ok(bytes)
}

// The path of such a file: that of the database file, with SQLite's suffix.
fn path_beside(alloc: Global, name: &str, kind: Beside) -> Result<String, AllocError>
    ensures { IfOk result (λ path. string_bytes path ≡ name.now ++ suffix_of kind) }
{
    match kind {
        Beside::Log => format!(in alloc; "{name}-wal"),
        Beside::Journal => format!(in alloc; "{name}-journal"),
    }
}

fn copy_of(alloc: Global, bytes: &[u8]) -> Result<Memory, TableError>
    ensures { IfOk result (λ disk. IsTrue (memory_is_usable disk) × (memory_bytes disk ≡ bytes.now)) }
{
    let mut disk = Memory::new(alloc);
    match disk.write_at(0, bytes) {
        Ok(()) => Ok(disk),
        Err(_) => Err(TableError::Memory),
    }
}

fn read_error(error: io::Error) -> TableError
    ensures { result ≡ TableError.Memory ↔ (error_kind error ≡ ErrorKind.OutOfMemory) }
{
    match error.kind() {
        ErrorKind::OutOfMemory => TableError::Memory,
        _ => TableError::Refused,
    }
}

fn open_error(error: &Error) -> TableError
    ensures { result ≡ TableError.Memory ↔ (error.now ≡ Error.SqliteFailure ErrorCode.OutOfMemory) }
{
    match error {
        Error::SqliteFailure(ErrorCode::OutOfMemory) => TableError::Memory,
        _ => TableError::Refused,
    }
}
