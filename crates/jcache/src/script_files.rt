//! Files with the scripts that a shell saves.
ghost use Rattle.std.specs.Prelude.{None};

use jc_shell::Save;
use std::fs::{self, Files};
use std::io::ErrorKind;
use std::str::from_utf8;

/// Saves each script in the file of its name, in place of the file's former content. Contracts claim nothing about files: after
/// an error a file may have a prefix of the script.
#[derive(Drop)]
pub struct ScriptFiles<R> {
    files: R,
}

impl<R: Files> ScriptFiles<R> {
    /// Files in the folder where the program runs.
    pub fn new(files: R) -> ScriptFiles<R> {
        ScriptFiles { files }
    }
}

impl<R: Files> Save for ScriptFiles<R> {
    ghost calls = { λ _. None };

    fn save(&mut self, name: &[u8], script: &[u8]) -> Result<(), &'static str> {
        match from_utf8(name) {
            Ok("") => Err("no name of a file"),
            Ok(path) => match fs::write(&self.files, path, script) {
                Ok(()) => Ok(()),
                Err(error) => Err(cause(error.kind())),
            },
            Err(_) => Err("the name isn't UTF-8"),
        }
    }
}

/// Why a file couldn't be written.
fn cause(kind: ErrorKind) -> &'static str {
    match kind {
        ErrorKind::NotFound => "no such folder",
        ErrorKind::PermissionDenied => "permission denied",
        ErrorKind::IsADirectory => "is a directory",
        ErrorKind::NotADirectory => "not a directory",
        ErrorKind::ReadOnlyFilesystem => "read-only filesystem",
        ErrorKind::StorageFull => "no storage space",
        ErrorKind::InvalidInput => "no name of a file",
        ErrorKind::InvalidFilename => "name too long",
        _ => "write failed",
    }
}
