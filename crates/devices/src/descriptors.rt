//! The descriptors 0, 1 and 2 of the process, which a caller may have closed.

use std::fs::{File, OpenOptions};
use std::io;
use std::os::fd::AsRawFd;

// The null device, and a folder that is always there.
const NULL: &str = "/dev/null";

const ROOT: &str = "/";

/// What was opened in the place of the standard streams that were closed. While it is there, no other
/// file gets their numbers.
#[derive(Drop)]
pub struct Filled {
    _files: [Option<File>; 3],
}

// The null device for reading or for writing. Where there is none, a folder, which takes no byte and
// gives none.
fn open_null(rt: &HostRuntime, writes: bool) -> io::Result<File> {
    let mut options = OpenOptions::new();
    options.read(!writes);
    options.write(writes);
    match options.open(rt, NULL) {
        Ok(file) => Ok(file),
        Err(_) => File::open(rt, ROOT),
    }
}

// A file with the lowest number that is free, where that is a standard stream's. As before, reading
// standard input fails then, and so does writing standard output. Messages are lost.
fn fill_next(rt: &HostRuntime) -> io::Result<Option<File>> {
    let file = open_null(rt, true)?;
    let number = file.as_raw_fd();
    if number > 2 {
        return Ok(None);
    }
    if number != 1 {
        return Ok(Some(file));
    }
    drop(file);
    Ok(Some(open_null(rt, false)?))
}

/// Opens each standard stream that is closed on the null device. Otherwise a file that is opened
/// later would get its number, and messages would be written into it.
///
/// # Errors
///
/// Where neither that device nor a folder can be opened.
pub fn fill_descriptors(rt: &HostRuntime) -> io::Result<Filled> {
    let mut files = [None, None, None];
    for at in 0..3 {
        match fill_next(rt)? {
            Some(file) => files[at] = Some(file),
            None => break,
        }
    }
    Ok(Filled { _files: files })
}
