//! A run of the program on files in memory.
ghost use Rattle.std.specs.Prelude.{ℕ, List, Result, ⊤};
ghost use Rattle.settings_check.specs.declared.found.FileError.{FileError};

use crate::arguments::arguments;
use settings_check::{FileError, Files, check_streams};
use std::alloc::{AllocError, Global};

/// Files with these names and these bytes. All other names are those of no file, but for these:
/// `closed` may not be read, `folder` is a directory, and `broken` cannot be read.
#[derive(Clone, Copy)]
pub(super) struct Known<'a>(pub(super) &'a [(&'a str, &'a [u8])]);

impl Files for Known<'_> {
    ghost Gives = { λ _ _ _. ⊤ };

    fn read_file(
        &self,
        alloc: Global,
        name: &str,
    ) -> Result<Result<Vec<u8>, FileError>, AllocError> {
        for (known, bytes) in self.0 {
            if *known == name {
                return Ok(Ok(Vec::from_slice(alloc, bytes)?));
            }
        }
        Ok(Err(match name {
            "closed" => FileError::PermissionDenied,
            "folder" => FileError::IsADirectory,
            "broken" => FileError::Other,
            _ => FileError::NotFound,
        }))
    }
}

/// The status of a run, and what it writes to its output and to its errors.
pub(super) fn run(
    alloc: Global,
    coloured: bool,
    words: &[&str],
    files: Known<'_>,
    input: &[u8],
) -> Result<(u8, Vec<u8>, Vec<u8>), AllocError> {
    let words = arguments(alloc, "iox2-check", words)?;
    let mut output = Vec::new(alloc);
    let mut errors = Vec::new(alloc);
    let mut bytes = input;
    let status = check_streams(
        alloc,
        coloured,
        Ok(words),
        &files,
        &mut bytes,
        &mut output,
        &mut errors,
    );
    Ok((status, output, errors))
}
