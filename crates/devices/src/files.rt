//! The input and the output of the program: the standard streams, or files by their names.

ghost use Rattle.std.specs.Io.{WritesAtMost};

use crate::file_ids::{FileId, are_one};
use crate::retried::Retried;
use std::fs::File;
use std::io::{Error, ErrorKind, Read, Stdin, Stdout, Write};
use std::os::fd::AsRawFd;
use std::os::unix::fs::{MetadataExt, fchown};
use std::{fs, io};

// So many names beside that of the output are tried.
const TRIES: u32 = 1000;

// So many bytes of a file's name are kept in those: with `.999.part` it has at most 255.
const LONGEST: usize = 246;

// Where standard input and standard output have names.
const STDIN: &str = "/proc/self/fd/0";

const STDOUT: &str = "/proc/self/fd/1";

// So many bytes at the front of the input are kept, to tell why it begins with no frame.
const FRONT: usize = 1024;

// The streams that the bytes may come from.
#[derive(Drop)]
enum Input {
    Standard(Stdin),
    Named(File),
}

impl Read for Input {
    fn read(&mut self, buf: &mut [u8]) -> io::Result<usize> {
        match self {
            Input::Standard(input) => input.read(buf),
            Input::Named(file) => file.read(buf),
        }
    }
}

// The same error once more.
fn same_error(error: &Error) -> Error {
    match error.raw_os_error() {
        Some(code) => Error::from_raw_os_error(code),
        None => Error::from(error.kind()),
    }
}

/// Where the bytes come from, the first of them, and why no more come.
#[derive(Drop)]
pub struct Source {
    input: Retried<Input>,
    front: [u8; FRONT],
    len: usize,
    failure: Option<Error>,
}

impl Source {
    /// The file of this name, or standard input where there is no name.
    pub fn open(rt: &HostRuntime, name: Option<&str>) -> io::Result<Source> {
        let input = match name {
            None => Input::Standard(rt.stdin()),
            Some(name) => Input::Named(File::open(rt, name)?),
        };
        Ok(Source {
            input: Retried::new(input),
            front: [0; FRONT],
            len: 0,
            failure: None,
        })
    }

    // Keeps bytes that come next, while there is room.
    fn keep(&mut self, bytes: &[u8]) {
        for byte in bytes {
            if self.len >= FRONT {
                return;
            }
            self.front[self.len] = *byte;
            self.len += 1;
        }
    }

    /// Why reading failed, where it did.
    pub fn failure(&self) -> Option<&Error> {
        self.failure.as_ref()
    }

    /// The first bytes that were read.
    pub fn front(&self) -> &[u8] {
        &self.front[..self.len.min(FRONT)]
    }
}

impl Read for Source {
    fn read(&mut self, buf: &mut [u8]) -> io::Result<usize> {
        match self.input.read(buf) {
            Ok(count) => {
                self.keep(&buf[..count]);
                Ok(count)
            }
            Err(error) => {
                self.failure = Some(same_error(&error));
                Err(error)
            }
        }
    }
}

// The streams that the bytes may go to.
#[derive(Drop)]
enum Output {
    Standard(Stdout),
    Named(File),
}

impl Output {
    fn write(&mut self, buf: &[u8]) -> io::Result<usize>
        ensures bound { WritesAtMost result buf.now }
    {
        match self {
            Output::Standard(output) => output.write(buf),
            Output::Named(file) => file.write(buf),
        }
    }
}

/// Where the bytes go, and why no more are taken.
#[derive(Drop)]
pub struct Sink {
    output: Output,
    failure: Option<Error>,
}

impl Sink {
    /// Standard output.
    pub fn standard(rt: &HostRuntime) -> Sink {
        Sink {
            output: Output::Standard(rt.stdout()),
            failure: None,
        }
    }

    /// A file.
    pub fn named(file: File) -> Sink {
        Sink {
            output: Output::Named(file),
            failure: None,
        }
    }

    /// Why writing failed, where it did.
    pub fn failure(&self) -> Option<&Error> {
        self.failure.as_ref()
    }

    /// Waits until a file is on its disk.
    pub fn sync(&self) -> io::Result<()> {
        match &self.output {
            Output::Standard(_) => Ok(()),
            Output::Named(file) => file.sync_all(),
        }
    }
}

impl Write for Sink {
    fn write(&mut self, buf: &[u8]) -> io::Result<usize> {
        match self.output.write(buf) {
            Ok(count) => Ok(count),
            Err(error) => {
                if error.kind() != ErrorKind::Interrupted {
                    self.failure = Some(same_error(&error));
                }
                Err(error)
            }
        }
    }

    fn flush(&mut self) -> io::Result<()> {
        Ok(())
    }
}

// A name is free, or a file's: a rename would replace a folder or a device too.
fn check_name(rt: &HostRuntime, name: &str) -> io::Result<()> {
    match fs::metadata(rt, name) {
        Ok(found) => {
            if found.is_file() {
                Ok(())
            } else {
                Err(Error::new(
                    ErrorKind::AlreadyExists,
                    "it is a folder or a device, and only a file is replaced",
                ))
            }
        }
        Err(error) => {
            if error.kind() == ErrorKind::NotFound {
                Ok(())
            } else {
                Err(error)
            }
        }
    }
}

// Gives a new file the owner, the group and the permissions of the one of this name, where there is
// one. The permissions come last: those of another owner's program are never on a file of ours.
fn copy_permissions(rt: &HostRuntime, file: &File, name: &str) -> io::Result<()> {
    let Ok(found) = fs::metadata(rt, name) else {
        return Ok(());
    };
    let made = file.metadata()?;
    let is_same = made.uid() == found.uid() && made.gid() == found.gid();
    if !is_same && fchown(file, Some(found.uid()), Some(found.gid())).is_err() {
        return Err(Error::new(
            ErrorKind::PermissionDenied,
            "it has another owner or group, which can't be kept",
        ));
    }
    file.set_permissions(found.permissions())
}

// A file that has the number of a standard stream would get what is written there.
fn check_number(file: &File) -> io::Result<()> {
    if file.as_raw_fd() > 2 {
        Ok(())
    } else {
        Err(Error::new(
            ErrorKind::Other,
            "a standard stream is closed, and /dev/null can't be opened in its place",
        ))
    }
}

// Makes a new file ready to become the one of this name.
fn prepare(rt: &HostRuntime, file: &File, name: &str) -> io::Result<()> {
    check_number(file)?;
    copy_permissions(rt, file, name)
}

// A new file of this name, or `None` where the name is taken.
fn create_new(rt: &HostRuntime, name: &str) -> io::Result<Option<File>> {
    match File::create_new(rt, name) {
        Ok(file) => Ok(Some(file)),
        Err(error) => {
            if error.kind() == ErrorKind::AlreadyExists {
                Ok(None)
            } else {
                Err(error)
            }
        }
    }
}

// A file that isn't there, by its folder and its name there. Where that folder isn't there either, its
// whole name tells.
fn missing_id<'a>(rt: &HostRuntime, name: &'a str) -> FileId<'a> {
    let (folder, last) = match name.rsplit_once('/') {
        Some(("", last)) => ("/", last),
        Some(parts) => parts,
        None => (".", name),
    };
    match fs::metadata(rt, folder) {
        Ok(found) => FileId {
            device: found.dev(),
            inode: found.ino(),
            name: last.as_bytes(),
        },
        Err(_) => FileId {
            device: 0,
            inode: 0,
            name: name.as_bytes(),
        },
    }
}

/// The file of this name, also by another name or a link to it. `None` for a pipe, a folder and a
/// device.
pub fn id_of<'a>(rt: &HostRuntime, name: &'a str) -> Option<FileId<'a>> {
    match fs::metadata(rt, name) {
        Ok(found) => {
            if !found.is_file() {
                return None;
            }
            Some(FileId {
                device: found.dev(),
                inode: found.ino(),
                name: b"",
            })
        }
        Err(_) => Some(missing_id(rt, name)),
    }
}

/// The file that standard input or standard output is.
pub fn standard_id(rt: &HostRuntime, writes: bool) -> Option<FileId<'static>> {
    if writes {
        id_of(rt, STDOUT)
    } else {
        id_of(rt, STDIN)
    }
}

// The file that gets the output of this name: that to which a symbolic link leads, or its own.
fn target_of(rt: &HostRuntime, name: &str) -> io::Result<String> {
    match fs::symlink_metadata(rt, name) {
        Ok(found) if found.file_type().is_symlink() => {
            Ok(fs::canonicalize(rt, name)?.into_string())
        }
        _ => Ok(String::from_str(rt.alloc(), name)?),
    }
}

// A name with which one of a new file may begin: a file's name has at most 255 bytes.
fn shortened(name: &str) -> &str {
    let start = match name.rfind('/') {
        Some(at) => at + 1,
        None => 0,
    };
    if name.len() - start <= LONGEST {
        return name;
    }
    // A character has at most four bytes.
    for less in 0..4 {
        if let Some(front) = name.get(..start + LONGEST - less) {
            return front;
        }
    }
    name
}

// A new file beside the one of this name, with the same permissions, and the name that it has until
// it is whole.
fn create_beside(rt: &HostRuntime, name: &str) -> io::Result<(File, String)> {
    check_name(rt, name)?;
    let front = shortened(name);
    for number in 0..TRIES {
        let beside = format!(in rt.alloc(); "{front}.{number}.part")?;
        if let Some(file) = create_new(rt, beside.as_str())? {
            match prepare(rt, &file, name) {
                Ok(()) => return Ok((file, beside)),
                Err(error) => {
                    let _ = fs::remove_file(rt, beside.as_str());
                    return Err(error);
                }
            }
        }
    }
    Err(Error::new(
        ErrorKind::AlreadyExists,
        "all names beside it, with .0.part to .999.part, are taken",
    ))
}

/// A new file, which has another name beside its own until it is whole.
#[derive(Drop)]
pub struct NewFile {
    beside: String,
    target: String,
}

impl NewFile {
    /// A new file that is to have this name.
    pub fn create(rt: &HostRuntime, name: &str) -> io::Result<(File, NewFile)> {
        let target = target_of(rt, name)?;
        let (file, beside) = create_beside(rt, target.as_str())?;
        Ok((file, NewFile { beside, target }))
    }

    /// Another file of this name would be written over this one.
    pub fn check_apart(&self, rt: &HostRuntime, name: &str) -> io::Result<()> {
        if are_one(id_of(rt, name), id_of(rt, self.beside.as_str())) {
            Err(Error::new(
                ErrorKind::AlreadyExists,
                "the output has this name until it is whole",
            ))
        } else {
            Ok(())
        }
    }

    /// Gives it its name.
    pub fn give_name(&self, rt: &HostRuntime) -> io::Result<()> {
        fs::rename(rt, self.beside.as_str(), self.target.as_str())
    }

    /// Removes it before it has its name.
    pub fn remove(&self, rt: &HostRuntime) {
        let _ = fs::remove_file(rt, self.beside.as_str());
    }

    /// Removes it once it has its name.
    pub fn take_name(&self, rt: &HostRuntime) {
        let _ = fs::remove_file(rt, self.target.as_str());
    }
}

/// All bytes of the file of this name, or of standard input where the name is `-`.
pub fn read_whole(rt: &HostRuntime, name: &str) -> io::Result<Vec<u8>> {
    if name != "-" {
        return fs::read(rt, name);
    }
    let mut text = Vec::new(rt.alloc());
    let mut input = rt.stdin();
    match input.read_to_end(&mut text) {
        Ok(_) => Ok(text),
        Err(error) => Err(error),
    }
}
