//! The system's files, standard output, and a writer that takes less than it is given.

use crate::shown::{show_put, show_take};
use anyhow::Result;
use std::io;
use std::io::{Printer, Write};
use tool_io::{DiskFiles, NoteSink, OutSink};

pub(crate) fn show_files(rt: &HostRuntime) -> Result<()> {
    println!(rt; "the system's files")?;
    let alloc = rt.alloc();
    let mut files = DiskFiles::new(rt);
    show_take(rt, alloc, &mut files, "no such file", 9)?;
    show_take(rt, alloc, &mut files, "two lines é", 5)?;
    show_take(rt, alloc, &mut files, "two lines é", u64::MAX)?;
    show_take(rt, alloc, &mut files, "two lines é", 4)?;
    for limit in [0, 4_095, 4_096, 10_000] {
        show_take(rt, alloc, &mut files, "/dev/zero", limit)?;
    }
    // a folder opens and can't be read
    show_take(rt, alloc, &mut files, "/", 9)
}

pub(crate) fn show_sinks(rt: &HostRuntime) -> Result<()> {
    println!(rt; "standard output")?;
    show_put(rt, &mut OutSink::new(rt), "out ")?;
    println!(rt; "standard error")?;
    show_put(rt, &mut NoteSink::new(rt.stderr()), "note\n")?;
    println!(rt; "a writer that takes 2 bytes at once and 7 in all")?;
    let narrow = Narrow {
        to: io::writer(rt),
        room: 7,
    };
    let mut sink = NoteSink::new(narrow);
    show_put(rt, &mut sink, "abcde")?;
    show_put(rt, &mut sink, "fgh")?;
    show_put(rt, &mut sink, "")?;
    show_put(rt, &mut sink, "h")
}

// Hands on two bytes at a time, in parentheses, until its room is full, and then none.
#[derive(Drop)]
struct Narrow<'a, P: Print> {
    to: Printer<'a, P>,
    room: usize,
}

impl<P: Print> Write for Narrow<'_, P> {
    fn write(&mut self, bytes: &[u8]) -> io::Result<usize> {
        let count = bytes.len().min(self.room).min(2);
        if count > 0 {
            self.to.write_all(b"(")?;
            self.to.write_all(&bytes[..count])?;
            self.to.write_all(b") ")?;
        }
        self.room -= count;
        Ok(count)
    }

    fn flush(&mut self) -> io::Result<()> {
        self.to.flush()
    }
}
