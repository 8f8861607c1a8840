//! Saving a file so that a failure does not lose the old one, if a new file may replace it. No
//! clause says so; this is trusted code.
//!
//! The bytes go into a new file next to the old one, which replaces it once it is complete. This
//! needs a name that no file has, or a regular file without another hard link, and that a file like
//! it can be made next to it. Anything else is written in place: a device, a pipe, a link, a file
//! of another owner or in a folder that allows no new file, or whose neighbor's name is too long or
//! taken. A file that may not be written is not saved. After a failure the new file is removed.

use crate::streams::write_whole;
use std::fs;
use std::fs::{File, Metadata, OpenFile, OpenOptions};
use std::io::{Error, ErrorKind};
use std::os::unix::fs::{MetadataExt, OpenOptionsExt};
use std::rt::Files;

/// Where the bytes of a file go first.
#[derive(Drop)]
enum Target<F: Drop> {
    /// Into a new file.
    Beside(F),
    /// Into the file itself.
    InPlace,
    /// Nowhere, since something failed.
    Nowhere,
}

/// Saves a file, by a new one with the name `beside` if that may replace it; false if the save
/// failed.
pub fn save_file<R: Files>(rt: &R, name: &str, beside: &str, bytes: &[u8]) -> bool {
    match begin(rt, name, beside) {
        Target::Beside(file) => replace(rt, name, beside, file, bytes),
        Target::InPlace => write_in_place(rt, name, bytes),
        Target::Nowhere => false,
    }
}

/// Writes a file in place, or a new one.
fn write_in_place<R: Files>(rt: &R, name: &str, bytes: &[u8]) -> bool {
    match fs::create(rt, name) {
        Ok(mut file) => write_whole(&mut file, bytes),
        Err(_) => false,
    }
}

/// Writes a new file and renames it to the old one's name; on a failure, removes it.
fn replace<R: Files>(rt: &R, name: &str, beside: &str, file: R::File, bytes: &[u8]) -> bool {
    let mut file = file;
    let done = write_whole(&mut file, bytes) && fs::rename(rt, beside, name).is_ok();
    if !done {
        let _removed = fs::remove_file(rt, beside);
    }
    done
}

/// Decides where the bytes of the file of a name go first.
fn begin<R: Files>(rt: &R, name: &str, beside: &str) -> Target<R::File> {
    match fs::symlink_metadata(rt, name) {
        Ok(old) if !is_plain(&old) => Target::InPlace,
        Ok(old) if may_be_written(rt, name) => begin_like(rt, beside, &old),
        Err(error) if error.kind() == ErrorKind::NotFound => made(File::create_new(rt, beside)),
        Ok(_) | Err(_) => Target::Nowhere,
    }
}

/// Whether a file is a regular one without another hard link.
fn is_plain(file: &Metadata) -> bool {
    file.is_file() && file.nlink() <= 1
}

/// Whether a file may be written; it stays as it is.
fn may_be_written<R: Files>(rt: &R, name: &str) -> bool {
    OpenOptions::new().write(true).open(rt, name).is_ok()
}

/// The new file, if it was made; otherwise in place if there may be no new one, and nowhere if
/// making it failed.
fn made<F: Drop>(file: Result<F, Error>) -> Target<F> {
    match file {
        Ok(file) => Target::Beside(file),
        Err(error) => match error.kind() {
            ErrorKind::PermissionDenied
            | ErrorKind::AlreadyExists
            | ErrorKind::InvalidFilename
            | ErrorKind::ReadOnlyFilesystem => Target::InPlace,
            _ => Target::Nowhere,
        },
    }
}

/// A new file with the owner, the group and the permissions of an old one; none is left if it
/// cannot have them.
fn begin_like<R: Files>(rt: &R, beside: &str, old: &Metadata) -> Target<R::File> {
    match made(create_private(rt, beside)) {
        Target::Beside(file) if !is_made_like(&file, old) => {
            let _removed = fs::remove_file(rt, beside);
            Target::InPlace
        }
        target => target,
    }
}

/// A new file that only its owner may read.
fn create_private<R: Files>(rt: &R, name: &str) -> Result<R::File, Error> {
    OpenOptions::new()
        .write(true)
        .create_new(true)
        .mode(0o600)
        .open(rt, name)
}

/// Gives a new file the permissions of an old one; false if that failed, or if its owner or group
/// is different.
fn is_made_like<F: OpenFile>(file: &F, old: &Metadata) -> bool {
    match file.metadata() {
        Ok(new) => {
            new.uid() == old.uid()
                && new.gid() == old.gid()
                && file.set_permissions(old.permissions()).is_ok()
        }
        Err(_) => false,
    }
}
