//! The program over an output that fails. `|` stands for the end of a line.
use crate::lines::in_one_line;
use pliron_dialect_mlir::{AnyMeaning, Mlir};
use pliron_driver::ClosedNotation;
use pliron_driver_instrument::Timeless;
use pliron_driver_mlir::{GenericForm, ModuleOptions, Request, run_on};
use std::alloc::Global;
use std::io::{self, ErrorKind, Write};
use std::process::Abort;

type Form = ClosedNotation<GenericForm<Mlir<AnyMeaning>>>;

/// Takes so many bytes, and then fails as a pipe that nobody reads any more.
#[derive(Drop)]
struct Pipe {
    text: Vec<u8>,
    room: usize,
}

impl Write for Pipe {
    fn write(&mut self, bytes: &[u8]) -> io::Result<usize> {
        let count = bytes.len().min(self.room);
        if count == 0 {
            return Err(io::Error::from(ErrorKind::BrokenPipe));
        }
        self.text.extend_from_slice(&bytes[..count])?;
        self.room = self.room.saturating_sub(count);
        Ok(count)
    }

    fn flush(&mut self) -> io::Result<()> {
        Ok(())
    }
}

// The status, what an output with so much room takes of a module, and what is reported.
fn ending(rt: &impl Abort, alloc: Global, room: usize) -> String {
    let request = Request {
        pipeline: "dce",
        name: "t",
        options: ModuleOptions {
            counts: false,
            verifies: false,
            times: false,
            checks: false,
        },
        prints_all: false,
    };
    let mut input = b"\"m\"() : () -> ()".as_slice();
    let mut output = Pipe {
        text: Vec::new(alloc),
        room,
    };
    let mut errors = Vec::new(alloc);
    let status = run_on::<Form, _, _, _, Timeless>(
        alloc,
        &request,
        &mut input,
        &mut output,
        &mut errors,
        Timeless,
    );
    let output = in_one_line(alloc, &output.text).expect(rt, "memory");
    let report = in_one_line(alloc, &errors).expect(rt, "memory");
    format!(in alloc; "{status} {output} => {report}").expect(rt, "memory")
}

#[test]
fn writes_all_or_ends_with_2(rt: HostRuntime) {
    let whole = ending(&rt, rt.alloc(), 100);
    assert_eq!(rt; whole.as_str(), "0 \"m\"() : () -> ()| => unchanged|");
    let part = ending(&rt, rt.alloc(), 5);
    assert_eq!(rt; part.as_str(), "2 \"m\"() => unchanged|error: broken pipe|");
    let none = ending(&rt, rt.alloc(), 0);
    assert_eq!(rt; none.as_str(), "2  => unchanged|error: broken pipe|");
}
