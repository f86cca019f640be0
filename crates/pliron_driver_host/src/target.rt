//! Where the module goes.
use std::fs::File;
use std::io::{self, ErrorKind, Write};

/// Standard output, or the file that is named, which is made with the first byte: so a program without an answer leaves
/// it as it is.
#[derive(Drop)]
pub struct Target<'t> {
    rt: &'t HostRuntime,
    name: Option<&'t str>,
    file: Option<File>,
}

impl<'t> Target<'t> {
    /// The file of this name, or standard output without a name. Cost: constant.
    pub fn new(rt: &'t HostRuntime, name: Option<&'t str>) -> Self {
        Target {
            rt,
            name,
            file: None,
        }
    }
}

impl Write for Target<'_> {
    fn write(&mut self, bytes: &[u8]) -> io::Result<usize> {
        let Some(name) = self.name else {
            return self.rt.stdout().write(bytes);
        };
        if self.file.is_none() {
            self.file = Some(File::create(self.rt, name)?);
        }
        match &mut self.file {
            Some(file) => file.write(bytes),
            None => Err(io::Error::from(ErrorKind::NotFound)),
        }
    }

    fn flush(&mut self) -> io::Result<()> {
        Ok(())
    }
}
