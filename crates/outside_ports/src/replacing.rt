ghost use Rattle.std.specs.Prelude.{◌≡◌, bit_and, if◌then◌else◌};

use crate::ports::SaveErr;
use std::alloc::Global;
use std::fs::{self, Metadata, OpenFile, OpenOptions, Permissions};
use std::io::{self, Error, ErrorKind, Write};
use std::os::unix::fs::{MetadataExt, OpenOptionsExt, PermissionsExt, chown};
use std::path::PathBuf;
use std::rt::Files;

/// As many links are followed from one to the next, as Linux does.
const MOST_LINKS: u32 = 40;

/// As many names are tried for the file that is written.
const MOST_NAMES: u32 = 1000;

/// The mode of a file that nobody had before, from which the system takes the user's mask.
const NEW_MODE: u32 = 0o666;

/// The mode, until all bytes are written, of a file that replaces another.
const OWN_MODE: u32 = 0o600;

/// The bits of a mode with which a program runs as the owner or the group of its file: set-user-ID and
/// set-group-ID.
const SET_ID_BITS: u32 = 0o6000;

/// Gives the file of this name these bytes. A file of its own in the same folder is written, and takes
/// the name last, so that the old file stays whole where anything fails before. A symbolic link is
/// followed; what is no regular file is written as it is.
pub fn save_file<R: Files>(rt: &R, alloc: Global, name: &str, bytes: &[u8]) -> Result<(), SaveErr> {
    let path = match followed(rt, alloc, name) {
        Ok(path) => path,
        Err(error) => return Err(save_error(&error)),
    };
    match fs::metadata(rt, path.as_path()) {
        Ok(old) if old.is_file() => replace(rt, alloc, &path, Some(&old), bytes),
        Ok(_) => write_through(rt, &path, bytes),
        Err(error) if error.kind() == ErrorKind::NotFound => {
            replace(rt, alloc, &path, None, bytes)
        }
        Err(_) => Err(SaveErr::Failed),
    }
}

// Want of memory is told from all other errors.
fn save_error(error: &Error) -> SaveErr {
    if error.kind() == ErrorKind::OutOfMemory {
        SaveErr::OutOfMemory
    } else {
        SaveErr::Failed
    }
}

// The name, or where it is a symbolic link what the last link of the chain leads to, which may be
// missing.
fn followed<R: Files>(rt: &R, alloc: Global, name: &str) -> io::Result<PathBuf> {
    let mut path = PathBuf::from_str(alloc, name)?;
    for _ in 0..MOST_LINKS {
        match fs::symlink_metadata(rt, path.as_path()) {
            Ok(data) if data.is_symlink() => {}
            Ok(_) => return Ok(path),
            Err(error) if error.kind() == ErrorKind::NotFound => return Ok(path),
            Err(error) => return Err(error),
        }
        let link = rt.read_link(alloc, path.as_path().as_str())?;
        path.pop();
        path.push(link.as_path())?;
    }
    Err(Error::from(ErrorKind::InvalidInput))
}

// Writes what is no regular file, as a device or a pipe.
fn write_through<R: Files>(rt: &R, path: &PathBuf, bytes: &[u8]) -> Result<(), SaveErr> {
    match fs::write(rt, path.as_path(), bytes) {
        Ok(()) => Ok(()),
        Err(_) => Err(SaveErr::Failed),
    }
}

// Writes a file beside `path` and gives it that name, or leaves nothing of it.
fn replace<R: Files>(
    rt: &R,
    alloc: Global,
    path: &PathBuf,
    old: Option<&Metadata>,
    bytes: &[u8],
) -> Result<(), SaveErr> {
    let mode = if old.is_some() { OWN_MODE } else { NEW_MODE };
    let (beside, file) = match create_beside(rt, alloc, path, mode) {
        Ok(created) => created,
        Err(error) => return Err(save_error(&error)),
    };
    match write_and_rename(rt, file, &beside, path, old, bytes) {
        Ok(()) => Ok(()),
        Err(_) => {
            let _ = fs::remove_file(rt, beside.as_path());
            Err(SaveErr::Failed)
        }
    }
}

// A file that was not there, in the folder of `path`.
fn create_beside<R: Files>(
    rt: &R,
    alloc: Global,
    path: &PathBuf,
    mode: u32,
) -> io::Result<(PathBuf, R::File)> {
    for number in 0..MOST_NAMES {
        let name = format!(in alloc; ".saving-{number}")?;
        let beside = path.as_path().with_file_name(alloc, name.as_str())?;
        let mut options = OpenOptions::new();
        options.write(true).create_new(true).mode(mode);
        match options.open(rt, beside.as_path()) {
            Ok(file) => return Ok((beside, file)),
            Err(error) if error.kind() == ErrorKind::AlreadyExists => {}
            Err(error) => return Err(error),
        }
    }
    Err(Error::from(ErrorKind::AlreadyExists))
}

// Writes the bytes, and gives the file the mode and the owner of the old one and then its name.
fn write_and_rename<R: Files>(
    rt: &R,
    mut file: R::File,
    beside: &PathBuf,
    path: &PathBuf,
    old: Option<&Metadata>,
    bytes: &[u8],
) -> io::Result<()> {
    file.write_all(bytes)?;
    if let Some(old) = old {
        // Nobody but root may give a file away; it is the user's own then.
        let owned = chown(rt, beside.as_path(), Some(old.uid()), Some(old.gid())).is_ok();
        let mode = replacing_mode(old.permissions().mode(), owned);
        file.set_permissions(Permissions::from_mode(mode))?;
    }
    file.sync_all()?;
    fs::rename(rt, beside.as_path(), path.as_path())
}

/// The mode of a file that replaces one of this mode: the same, but that a program in it runs as nobody
/// but its caller where the file is not `owned` by the old one's owner and group.
pub(crate) fn replacing_mode(mode: u32, owned: bool) -> u32
    ensures { result ≡ (if owned then mode else bit_and mode 0xFFFF_F3FF) }
{
    if owned { mode } else { mode & !SET_ID_BITS }
}
