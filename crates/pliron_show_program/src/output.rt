//! What the program writes. A file is replaced only once the whole answer is written beside it.
use std::fs::{self, File, Permissions};
use std::io::{self, ErrorKind, Write};

/// Writes the answer to standard output. Errors: those of the stream, also where nobody reads it any more. Cost: linear in
/// it.
pub fn write_answer(rt: &HostRuntime, answer: &[u8]) -> io::Result<()> {
    rt.stdout().write_all(answer)
}

/// Writes lines to standard output at once. Errors: those of the stream, also where nobody reads it any more. Cost:
/// linear in them.
pub fn write_lines(rt: &HostRuntime, lines: &[u8]) -> io::Result<()> {
    let mut output = rt.stdout();
    output.write_all(lines)?;
    output.flush()
}

/// Writes the report to standard error, as far as that takes it. Cost: linear in it.
pub fn write_report(rt: &HostRuntime, report: &str) {
    let _ = eprint!(rt; "{report}");
}

// Writes the answer to a new file with these permissions.
fn write_new_file(
    rt: &HostRuntime,
    path: &str,
    answer: &[u8],
    permissions: Option<Permissions>,
) -> io::Result<()> {
    let mut file = File::create_new(rt, path)?;
    file.write_all(answer)?;
    if let Some(permissions) = permissions {
        file.set_permissions(permissions)?;
    }
    file.sync_all()
}

// Puts the answer in the place of the file: it is written beside it, and then gets its name. After an error the file is
// as before.
fn replace_file(
    rt: &HostRuntime,
    path: &str,
    answer: &[u8],
    permissions: Option<Permissions>,
) -> io::Result<()> {
    let process = std::process::id(rt.process());
    let beside = format!(in rt.alloc(); "{path}.{process}.new")?;
    let result = match write_new_file(rt, beside.as_str(), answer, permissions) {
        Ok(()) => fs::rename(rt, beside.as_str(), path),
        Err(error) => Err(error),
    };
    if result.is_err() {
        let _ = fs::remove_file(rt, beside.as_str());
    }
    result
}

/// Writes the answer to the file of this name. A file is replaced as a whole, also where a link leads to it; what isn't
/// a file, as a pipe, is written to as it is. Errors: those of the file, after which it is as before; a folder. Cost:
/// linear in the answer.
pub fn write_file(rt: &HostRuntime, name: &str, answer: &[u8]) -> io::Result<()> {
    match fs::metadata(rt, name) {
        Ok(metadata) if metadata.is_dir() => Err(io::Error::from(ErrorKind::IsADirectory)),
        Ok(metadata) if metadata.is_file() => {
            let path = fs::canonicalize(rt, name)?;
            let path = path.as_path().to_str().unwrap_or(name);
            replace_file(rt, path, answer, Some(metadata.permissions()))
        }
        Ok(_) => fs::write(rt, name, answer),
        Err(error) if error.kind() == ErrorKind::NotFound => replace_file(rt, name, answer, None),
        Err(error) => Err(error),
    }
}
