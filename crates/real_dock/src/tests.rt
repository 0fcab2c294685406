use super::*;
use crate::retry::{read_again, write_again};
use rec_base::{Dock, Failed, Lines, Name, Sink, Source, Word};
use refusal_text::{Cause, Deed};
use std::alloc::Global;
use std::fs::{self, File, OpenOptions};
use std::io::{self, Read, Write};
use std::os::fd::AsRawFd;
use std::test::Fail;

fn word(alloc: Global, text: &str) -> Result<Word, Fail> {
    Ok(Word::from_bytes(alloc, text.as_bytes())?)
}

fn file(alloc: Global, path: &str) -> Result<Name, Fail> {
    Ok(Name::File(word(alloc, path)?))
}

#[test]
fn files_are_read(rt: HostRuntime) -> Result<(), Fail> {
    let alloc: Global = rt.alloc();
    let mut dock = RealDock::new(alloc, rt, rt.stdout(), None)?;
    // A folder opens, and refuses to be read.
    for (path, want) in [
        ("/dev/zero", Ok(4)),
        ("/dev/null", Ok(0)),
        ("/", Err(Failed)),
    ] {
        let mut source = dock.open(&file(alloc, path)?)?;
        let mut buf = [7u8; 4];
        assert_eq!(rt; source.read(&mut buf), want);
        let filled = want == Ok(4);
        assert_eq!(rt; buf, if filled { [0; 4] } else { [7; 4] });
    }
    assert!(rt; dock.open(&file(alloc, "/no/such/file")?).is_err());
    assert_eq!(rt; dock.write(b"ab"), Err(Failed));
    Ok(())
}

#[test]
fn a_pipe_takes_the_recording(rt: HostRuntime) -> Result<(), Fail> {
    let alloc: Global = rt.alloc();
    let (mut reader, writer) = io::pipe(&rt)?;
    let number = writer.as_raw_fd();
    let path = format!(in alloc; "/proc/self/fd/{number}")?;
    let mut dock = RealDock::new(alloc, rt, rt.stdout(), None)?;
    dock.create(&word(alloc, &path)?)?;
    assert_eq!(rt; dock.write(b"abcd"), Ok(4));
    assert_eq!(rt; dock.force(), Ok(()));
    let mut buf = [b'.'; 6];
    assert_eq!(rt; reader.read(&mut buf)?, 4);
    assert_eq!(rt; buf.as_slice(), b"abcd..".as_slice());
    Ok(())
}

// The longest name that a folder takes. One that is cut would be another file's.
#[test]
fn a_long_name_is_taken_in_full(rt: HostRuntime) -> Result<(), Fail> {
    let alloc: Global = rt.alloc();
    let name = "n".repeat(alloc, 255)?;
    let mut dock = RealDock::new(alloc, rt, rt.stdout(), None)?;
    dock.create(&word(alloc, name.as_str())?)?;
    assert_eq!(rt; dock.write(b"ab"), Ok(2));
    assert_eq!(rt; size_of(&rt, name.as_str())?, 2);
    let mut source = dock.open(&file(alloc, name.as_str())?)?;
    let mut buf = [0; 4];
    assert_eq!(rt; source.read(&mut buf), Ok(2));
    assert_eq!(rt; buf, *b"ab\0\0");
    fs::remove_file(&rt, name.as_str())?;
    Ok(())
}

// The size of the file at a path.
fn size_of(rt: &HostRuntime, path: &str) -> Result<u64, Fail> {
    Ok(fs::metadata(rt, path)?.len())
}

#[test]
fn lines_wait_until_they_go_out(rt: HostRuntime) -> Result<(), Fail> {
    let alloc: Global = rt.alloc();
    let mut dock = RealDock::new(alloc, rt, File::create(&rt, "waiting_lines")?, None)?;
    dock.say("a")?;
    assert_eq!(rt; size_of(&rt, "waiting_lines")?, 0);
    dock.flush()?;
    assert_eq!(rt; size_of(&rt, "waiting_lines")?, 2);
    // More than goes out at once doesn't wait, but its line feed does.
    dock.say("b".repeat(alloc, 70_000)?.as_str())?;
    assert_eq!(rt; size_of(&rt, "waiting_lines")?, 70_002);
    dock.flush()?;
    let said = fs::read(&rt, "waiting_lines")?;
    fs::remove_file(&rt, "waiting_lines")?;
    assert_eq!(rt; said.len(), 70_003);
    assert!(rt; said.starts_with(b"a\nbb"));
    assert!(rt; said.ends_with(b"b\n"));
    Ok(())
}

#[test]
fn the_first_fault_is_kept(rt: HostRuntime) -> Result<(), Fail> {
    let alloc: Global = rt.alloc();
    let full = OpenOptions::new().write(true).open(&rt, "/dev/full")?;
    let mut dock = RealDock::new(alloc, rt, full, None)?;
    assert!(rt; dock.trouble().is_none());
    dock.say("fault 4")?;
    assert_eq!(rt; dock.flush(), Err(Failed));
    assert!(rt; dock.create(&word(alloc, "/no/such/folder")?).is_err());
    let Some(trouble) = dock.trouble() else {
        return Err(Fail::new("no trouble"));
    };
    assert_eq!(rt;
        (trouble.deed, trouble.name),
        (Deed::Say, "standard output")
    );
    assert_eq!(rt; dock.last_fault(), "fault 4");
    Ok(())
}

#[test]
fn a_read_that_fails_is_named(rt: HostRuntime) -> Result<(), Fail> {
    let alloc: Global = rt.alloc();
    let mut dock = RealDock::new(alloc, rt, rt.stdout(), None)?;
    let _ = dock.open(&file(alloc, "/dev/null")?)?;
    let mut source = dock.open(&file(alloc, "/")?)?;
    assert_eq!(rt; source.read(&mut [0; 4]), Err(Failed));
    dock.note_reads();
    let Some(trouble) = dock.trouble() else {
        return Err(Fail::new("no trouble"));
    };
    assert_eq!(rt; (trouble.deed, trouble.name), (Deed::Read, "/"));
    assert!(rt;
        matches!(trouble.cause, Cause::System(fault) if fault.kind() == io::ErrorKind::IsADirectory)
    );
    Ok(())
}

// A file whose first calls a signal interrupts, and whose next one takes or gives a byte.
#[derive(Drop)]
struct Interrupted {
    left: u64,
}

impl Interrupted {
    fn call(&mut self) -> io::Result<usize> {
        if self.left == 0 {
            return Ok(1);
        }
        self.left -= 1;
        Err(io::Error::from(io::ErrorKind::Interrupted))
    }
}

impl Read for Interrupted {
    fn read(&mut self, buf: &mut [u8]) -> io::Result<usize> {
        let n = self.call()?;
        Ok(n.min(buf.len()))
    }
}

impl Write for Interrupted {
    fn write(&mut self, buf: &[u8]) -> io::Result<usize> {
        let n = self.call()?;
        Ok(n.min(buf.len()))
    }

    fn flush(&mut self) -> io::Result<()> {
        Ok(())
    }
}

#[test]
fn what_a_signal_interrupts_is_tried_again(rt: HostRuntime) -> Result<(), Fail> {
    assert_eq!(rt; read_again(&mut Interrupted { left: 3 }, &mut [0; 4])?, 1);
    assert_eq!(rt; write_again(&mut Interrupted { left: 3 }, b"abcd")?, 1);
    Ok(())
}
