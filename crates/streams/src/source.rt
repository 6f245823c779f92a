// Where bytes are read from: standard input as it comes, or the place from which on it can be read again. Where standard input is a pipe,
// that is the start of a temporary file, into which the program puts what it reads.
ghost use Rattle.std.specs.Prelude.{◌≡◌, ◌<◌, min, length, IfOk, IfErr, IsOk};
ghost use Rattle.streams.specs.Fronts.{IsPrefixLen, ReadsBehind};
ghost use Rattle.streams.specs.Sources.{IsInput};

use crate::places::Place;
use crate::{Failed, ReadFailed, Stream, places};
use std::fs::File;
use std::io;
use std::io::{Read, Seek, SeekFrom, Write};

// Standard input itself from a place on, or another file from its start on.
#[derive(Drop)]
pub enum Source {
    Input(Place),
    Apart(Place),
}

impl Source {
    fn place(&self) -> &Place {
        match self {
            Source::Input(place) => place,
            Source::Apart(place) => place,
        }
    }

    fn stream(&self) -> Stream {
        match self {
            Source::Input(_) => Stream::Input,
            Source::Apart(_) => Stream::Apart,
        }
    }

    fn failed(&self, error: io::Error) -> Failed {
        let stream = self.stream();
        Failed { stream, error }
    }
}

// One read. A read that fails put none.
pub fn read_behind<R: Read>(
    stream: Stream,
    reader: &mut R,
    to: &mut [u8],
    done: usize,
) -> Result<usize, ReadFailed>
    ensures reads_behind { IfOk result (λ count. ReadsBehind done to.old count to.new) }
    ensures failed_behind { IfErr result (λ e. ReadsBehind done to.old e.count to.new) }
    ensures failed_puts_none { IfErr result (λ e. e.count ≡ min done (length to.old)) }
{
    let from = done.min(to.len());
    match reader.read(&mut to[from..]) {
        Ok(count) => Ok(from + count),
        Err(error) => Err(ReadFailed {
            count: from,
            failed: Failed { stream, error },
        }),
    }
}

pub fn fill<R: Read>(
    stream: Stream,
    reader: &mut R,
    to: &mut [u8],
    done: usize,
) -> Result<usize, ReadFailed>
    ensures reads_behind { IfOk result (λ count. ReadsBehind done to.old count to.new) }
    ensures failed_behind { IfErr result (λ e. ReadsBehind done to.old e.count to.new) }
    ensures failed_not_full { IfErr result (λ e. e.count < length to.new) }
{
    let mut count = done.min(to.len());
    // each read says how many bytes came
    while count < to.len() {
        let more = read_behind(stream, reader, to, count)?;
        if more == count {
            break;
        }
        count = more;
    }
    Ok(count)
}

// Where what standard input has from now on can be read again: at its own place, or in an empty temporary file.
pub fn twice(rt: HostRuntime) -> Result<Source, Failed> {
    if let Ok(place) = places::of_input(rt) {
        return Ok(Source::Input(place));
    }
    match places::temporary(rt) {
        Ok(place) => Ok(Source::Apart(place)),
        Err(error) => Err(Failed {
            stream: Stream::Apart,
            error,
        }),
    }
}

// Puts what was read of standard input behind what is there already, where it is to be read again elsewhere.
pub fn put_aside(source: &Source, bytes: &[u8]) -> Result<(), Failed>
    ensures { IsInput source.now → IsOk result }
{
    match source {
        Source::Input(_) => Ok(()),
        Source::Apart(place) => {
            let mut file = &place.file;
            file.write_all(bytes).map_err(|error| source.failed(error))
        }
    }
}

// Goes back to the source's place.
pub fn go_back(source: &Source) -> Result<(), Failed> {
    let place = source.place();
    let mut file = &place.file;
    match file.seek(SeekFrom::Start(place.at)) {
        Ok(_) => Ok(()),
        Err(error) => Err(source.failed(error)),
    }
}

// Reads on from there, until `to` is full or the bytes end.
pub fn read_again(source: &Source, to: &mut [u8]) -> Result<usize, ReadFailed>
    ensures prefix_len { IfOk result (λ count. IsPrefixLen count to.new) }
    ensures failed_prefix_len { IfErr result (λ e. IsPrefixLen e.count to.new) }
    ensures failed_not_full { IfErr result (λ e. e.count < length to.new) }
{
    let mut file = &source.place().file;
    fill(source.stream(), &mut file, to, 0)
}
