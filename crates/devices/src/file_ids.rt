//! Which file a name leads to, so that no file is read and written at once.

ghost use Rattle.std.specs.Prelude.{◌≡◌};
ghost use Rattle.devices.specs.FileIds.{are_one};

/// A file by its device and its inode. One that isn't there yet has those of its folder, and its name
/// there.
#[derive(Clone, Copy)]
pub struct FileId<'a> {
    pub device: u64,
    pub inode: u64,
    /// The name in its folder of a file that isn't there. Otherwise it is empty.
    pub name: &'a [u8],
}

/// Whether two files are one.
pub fn are_one(a: Option<FileId<'_>>, b: Option<FileId<'_>>) -> bool
    ensures { result ≡ are_one a.entry b.entry }
{
    match (a, b) {
        (Some(a), Some(b)) => a.device == b.device && a.inode == b.inode && *a.name == *b.name,
        _ => false,
    }
}
