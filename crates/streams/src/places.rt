// Files from which bytes can be read twice: standard input itself where it is a file, else a temporary file.
use std::fmt::InlineText;
use std::fs::{File, OpenOptions};
use std::io::{ErrorKind, Read};
use std::os::unix::fs::OpenOptionsExt;
use std::random::RandomSource;
use std::{fs, io, str};

// How many names of a temporary file are tried.
const TRIES: u32 = 238328;

// A file at a place.
#[derive(Drop)]
pub struct Place {
    pub at: u64,
    pub file: File,
}

// The number in the first line that the system writes of an open file.
fn number_in(text: &[u8]) -> Option<u64> {
    let all = str::from_utf8(text).ok()?;
    let line = all.lines().next()?;
    let number = line.strip_prefix("pos:\t")?;
    number.parse::<u64>().ok()
}

// The place of standard input.
fn place_of_input(rt: HostRuntime) -> io::Result<u64> {
    let mut text = [0u8; 64];
    let mut file = File::open(&rt, "/proc/self/fdinfo/0")?;
    let count = file.read(&mut text)?;
    number_in(&text[..count]).ok_or(io::Error::from(ErrorKind::NotSeekable))
}

// Standard input opened once more, where it is a file: its own place stays as it is. A pipe that nobody writes would be waited for.
pub fn of_input(rt: HostRuntime) -> io::Result<Place> {
    if !fs::metadata(&rt, "/proc/self/fd/0")?.is_file() {
        return Err(io::Error::from(ErrorKind::NotSeekable));
    }
    let at = place_of_input(rt)?;
    let file = File::open(&rt, "/proc/self/fd/0")?;
    Ok(Place { at, file })
}

// A new file of that name, which is taken away at once, so that the file lasts as long as it is open.
fn unnamed(rt: HostRuntime, name: &str) -> io::Result<File> {
    let file = OpenOptions::new()
        .read(true)
        .write(true)
        .create_new(true)
        .mode(0o600)
        .open(&rt, name)?;
    let _ = fs::remove_file(&rt, name);
    Ok(file)
}

fn any_unnamed(rt: HostRuntime) -> io::Result<File> {
    let mut bytes = [0u8; 4];
    rt.fill_bytes(&mut bytes)?;
    let number = u32::from_le_bytes(bytes) % 16777216;
    let name = InlineText::<32>::of(format_args!("/tmp/gateway-{number:06x}"));
    unnamed(rt, name.as_str())
}

// A new file that has no name any more. A name that is taken already is no failure while others can be tried.
pub fn temporary(rt: HostRuntime) -> io::Result<Place> {
    for _ in 1..TRIES {
        match any_unnamed(rt) {
            Ok(file) => return Ok(Place { at: 0, file }),
            Err(error) if error.kind() == ErrorKind::AlreadyExists => {}
            Err(error) => return Err(error),
        }
    }
    let file = any_unnamed(rt)?;
    Ok(Place { at: 0, file })
}
