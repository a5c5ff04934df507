//! The files of a run.
use crate::failure::Failure;
use asn1_compilation::listing_of;
use asn1_print::PrintedFile;
use std::alloc::AllocError;
use std::fs;
use std::io::{self, Write};

/// Writes the files into a folder, which is made if it is not there, or without one to standard output.
pub(crate) fn write_files<'a>(
    rt: &HostRuntime,
    folder: Option<&str>,
    files: &[PrintedFile],
) -> Result<(), Failure<'a>> {
    match folder {
        Some(folder) => write_folder(rt, folder, files),
        None => {
            let listing = listing_of(rt.alloc(), files)?;
            match io::writer(rt).write_all(listing.as_bytes()) {
                Ok(()) => Ok(()),
                Err(error) => Err(Failure::StandardOutput(error)),
            }
        }
    }
}

// Writes the files into a folder. Memory is asked for before the first is written.
fn write_folder<'a>(
    rt: &HostRuntime,
    folder: &str,
    files: &[PrintedFile],
) -> Result<(), Failure<'a>> {
    let paths = paths_in(rt, folder, files)?;
    for (path, file) in paths.into_iter().zip(files) {
        match write_file(rt, path.as_str(), file) {
            Ok(()) => {}
            Err(error) => return Err(Failure::Output(path, error)),
        }
    }
    Ok(())
}

// The paths of files in a folder.
fn paths_in(
    rt: &HostRuntime,
    folder: &str,
    files: &[PrintedFile],
) -> Result<Vec<String>, AllocError> {
    let alloc = rt.alloc();
    let mut paths = Vec::new(alloc);
    for file in files {
        let path = file.path.as_str();
        paths.push(format!(in alloc; "{folder}/{path}")?)?;
    }
    Ok(paths)
}

// Writes a file, and makes the folder that it is in.
fn write_file(rt: &HostRuntime, path: &str, file: &PrintedFile) -> io::Result<()> {
    if let Some((parent, _)) = path.rsplit_once('/') {
        fs::create_dir_all(rt, parent)?;
    }
    fs::write(rt, path, file.text.as_str())
}
