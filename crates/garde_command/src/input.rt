//! The input that a command line names.

use anyhow::{Context, Result, bail};
use std::fs;
use std::fs::File;
use std::io::Read;

/// The file of this name. An error has the name.
pub fn open_file(rt: &HostRuntime, name: &str) -> Result<File> {
    match File::open(rt, name) {
        Ok(file) => Ok(file),
        Err(error) => bail!("{name:?}: {error}"),
    }
}

/// The bytes of a file, or of standard input where there is no name. An error says which it is.
pub fn read_input(rt: &HostRuntime, file: Option<&str>) -> Result<Vec<u8>> {
    let Some(name) = file else {
        let mut bytes = Vec::new(rt.alloc());
        rt.stdin()
            .read_to_end(&mut bytes)
            .context("standard input is not read")?;
        return Ok(bytes);
    };
    match fs::read(rt, name) {
        Ok(bytes) => Ok(bytes),
        Err(error) => bail!("{name:?}: {error}"),
    }
}
