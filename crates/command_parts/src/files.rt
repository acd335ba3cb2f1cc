//! Files, opened and read by their names.

ghost use Rattle.std.specs.Prelude.{◌≡◌, ◌≢◌, ℕ, List, Option, Some, None, IfOk, IfErr, IfSome, map, length, vec_len};
ghost use Rattle.command_parts.specs.Complaint.{cause_words};
ghost use Rattle.command_parts.specs.Files.{AreHeld};

use crate::fault::CommandFault;
use feeders::read_whole;
use std::alloc::Global;
use std::io::{self, Read};
use std::{fs, rt};

/// The file cannot be opened.
#[derive(Clone, Copy)]
pub struct Missing;

/// Why a file cannot be read.
#[derive(Clone, Copy)]
pub enum Cause {
    /// It is a folder.
    Folder,
    /// There is none of that name.
    Absent,
    /// The one who runs the program may not read it.
    Forbidden,
}

impl Cause {
    /// It as it is printed after the file's name.
    pub fn words(self) -> &'static str
        ensures { result.now ≡ cause_words self }
    {
        match self {
            Cause::Folder => ": it is a folder",
            Cause::Absent => ": there is no such file",
            Cause::Forbidden => ": it may not be read",
        }
    }
}

/// Opens files by their names.
pub trait Files {
    type Reader: Read + Drop + Send;

    // The bytes that a file of that name holds, where they are known.
    ghost held: { Self → List ℕ → Option (List ℕ) } = { λ _ _. None };

    /// Whether what is read of the file is gone then, as of a pipe; false where there is no such file.
    fn is_read_once(&mut self, name: &str) -> bool
        ensures stays { held self.new ≡ held self.old };

    fn open(&mut self, name: &str) -> Result<Self::Reader, Missing>
        ensures reader { IfOk result (λ reader. IfSome (held self.old name.now) (λ bytes. Self.Reader.remaining reader ≡ Some bytes)) }
        ensures stays { held self.new ≡ held self.old };

    /// Why a file that cannot be read cannot, where that is known.
    fn cause(&mut self, _name: &str) -> Option<Cause>
        ensures stays { held self.new ≡ held self.old }
    {
        None
    }
}

/// The files of the machine on which the program runs.
#[derive(Drop)]
pub struct HostFiles<'r, R: rt::Files> {
    rt: &'r R,
}

impl<'r, R: rt::Files> HostFiles<'r, R> {
    pub fn new(rt: &'r R) -> Self {
        HostFiles { rt }
    }
}

impl<R: rt::Files> Files for HostFiles<'_, R>
where
    R::File: Send,
{
    type Reader = R::File;

    fn is_read_once(&mut self, name: &str) -> bool {
        match fs::metadata(self.rt, name) {
            Ok(metadata) => !metadata.is_file() && !metadata.is_dir(),
            Err(_) => false,
        }
    }

    fn open(&mut self, name: &str) -> Result<R::File, Missing> {
        match fs::open(self.rt, name) {
            Ok(file) => Ok(file),
            Err(_) => Err(Missing),
        }
    }

    /// A pipe or the like is not opened for it.
    fn cause(&mut self, name: &str) -> Option<Cause> {
        match fs::metadata(self.rt, name) {
            Ok(metadata) if metadata.is_dir() => Some(Cause::Folder),
            Ok(metadata) if metadata.is_file() => match fs::open(self.rt, name) {
                Ok(_) => None,
                Err(error) => cause_of(error),
            },
            Ok(_) => None,
            Err(error) => cause_of(error),
        }
    }
}

/// The cause that an error of the machine tells.
fn cause_of(error: io::Error) -> Option<Cause> {
    match error.kind() {
        io::ErrorKind::NotFound | io::ErrorKind::NotADirectory => Some(Cause::Absent),
        io::ErrorKind::PermissionDenied => Some(Cause::Forbidden),
        _ => None,
    }
}

/// Opens a file.
pub fn open_file<'a, F: Files>(files: &mut F, name: &'a str) -> Result<F::Reader, CommandFault<'a>>
    ensures reader { IfOk result (λ reader. IfSome (F.held files.old name.entry.now) (λ bytes. F.Reader.remaining reader ≡ Some bytes)) }
    ensures stays { F.held files.new ≡ F.held files.old }
    ensures quiet { IfErr result (λ fault. fault ≢ CommandFault.Unwritable) }
{
    match files.open(name) {
        Ok(reader) => Ok(reader),
        Err(_) => Err(CommandFault::Unreadable(name)),
    }
}

/// Opens each file, in order.
pub fn open_files<'a, F: Files>(
    alloc: Global,
    files: &mut F,
    names: &[&'a str],
) -> Result<Vec<F::Reader>, CommandFault<'a>>
    ensures held { IfOk result (λ readers. (texts : List (List ℕ)) → AreHeld (F.held files.old) (map (λ name. name.now) names.entry.now) texts → map F.Reader.remaining readers.items ≡ map (λ text. Some text) texts) }
    ensures many { IfOk result (λ readers. vec_len readers ≡ length names.entry.now) }
    ensures stays { F.held files.new ≡ F.held files.old }
    ensures quiet { IfErr result (λ fault. fault ≢ CommandFault.Unwritable) }
{
    let Ok(mut readers) = Vec::with_capacity(alloc, names.len()) else {
        return Err(CommandFault::Memory);
    };
    for name in names {
        readers.push_reserved(open_file(files, name)?);
    }
    Ok(readers)
}

/// Refuses a file that cannot be read twice.
pub fn need_again<'a, F: Files>(files: &mut F, names: &[&'a str]) -> Result<(), CommandFault<'a>>
    ensures stays { F.held files.new ≡ F.held files.old }
    ensures quiet { IfErr result (λ fault. fault ≢ CommandFault.Unwritable) }
{
    for name in names {
        if files.is_read_once(name) {
            return Err(CommandFault::ReadOnce(name));
        }
    }
    Ok(())
}

/// All the bytes of a file.
pub fn read_file<'a, F: Files>(
    alloc: Global,
    files: &mut F,
    name: &'a str,
) -> Result<Vec<u8>, CommandFault<'a>>
    ensures held { IfOk result (λ bytes. IfSome (F.held files.old name.entry.now) (λ known. bytes.items ≡ known)) }
    ensures stays { F.held files.new ≡ F.held files.old }
    ensures quiet { IfErr result (λ fault. fault ≢ CommandFault.Unwritable) }
{
    let file = open_file(files, name)?;
    match read_whole(alloc, file) {
        Ok(bytes) => Ok(bytes),
        Err(fault) => Err(CommandFault::of_input(fault, name)),
    }
}

/// All the bytes of each file, in order.
pub fn read_files<'a, F: Files>(
    alloc: Global,
    files: &mut F,
    names: &[&'a str],
) -> Result<Vec<Vec<u8>>, CommandFault<'a>>
    ensures held { IfOk result (λ texts. (known : List (List ℕ)) → AreHeld (F.held files.old) (map (λ name. name.now) names.entry.now) known → map (λ text. Some text.items) texts.items ≡ map (λ text. Some text) known) }
    ensures many { IfOk result (λ texts. vec_len texts ≡ length names.entry.now) }
    ensures stays { F.held files.new ≡ F.held files.old }
    ensures quiet { IfErr result (λ fault. fault ≢ CommandFault.Unwritable) }
{
    let Ok(mut texts) = Vec::with_capacity(alloc, names.len()) else {
        return Err(CommandFault::Memory);
    };
    for name in names {
        texts.push_reserved(read_file(alloc, files, name)?);
    }
    Ok(texts)
}
