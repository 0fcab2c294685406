use super::*;
use rec_base::{Failed, Source};
use std::alloc::Global;
use std::test::Fail;

// The magic, a file header, and the header of the stream of dropped samples.
const FRONT: &[u8] =
    b"XDF:\x01\x3A\x01\0<?xml version=\"1.0\"?><info><version>1.0</version></info>\x01\xB6\x02\0\0\0\0\0<?xml version=\"1.0\"?><info><name>overruns</name><type>ledger</type><channel_count>3</channel_count><nominal_srate>0</nominal_srate><channel_format>int64</channel_format></info>";

// The headers of a stream of 32 numbers a sample, and of one of texts.
const HEADERS: &[u8] =
    b"\x01\x5C\x02\0\x01\0\0\0<info><channel_count>32</channel_count><channel_format>float32</channel_format></info>\x01\x5A\x02\0\x02\0\0\0<info><channel_count>1</channel_count><channel_format>string</channel_format></info>";

const BOUNDARY: &[u8] =
    b"\x01\x12\x05\0\x43\xA5\x46\xDC\xCB\xF5\x41\x0F\xB3\x0E\xD5\x46\x73\x83\xCB\xE4";

// What stands before 512 samples of the numbers, before the last 392, and before the seven texts.
const FULL: &[u8] = b"\x04\x0B\x12\x01\0\x03\0\x01\0\0\0\x04\0\x02\0\0";

const LAST: &[u8] = b"\x04\xD3\xD1\0\0\x03\0\x01\0\0\0\x04\x88\x01\0\0";

const TEXTS: &[u8] = b"\x01\x78\x03\0\x02\0\0\0\x01\x07";

const FOOTERS: &[u8] =
    b"\x01\x5C\x06\0\0\0\0\0<?xml version=\"1.0\"?><info><sample_count>0</sample_count><overruns>0</overruns></info>\x01\x5F\x06\0\x01\0\0\0<?xml version=\"1.0\"?><info><sample_count>5000</sample_count><overruns>0</overruns></info>\x01\x5C\x06\0\x02\0\0\0<?xml version=\"1.0\"?><info><sample_count>7</sample_count><overruns>0</overruns></info>";

// Bytes that come one a read.
#[derive(Drop)]
struct Dribble {
    bytes: Vec<u8>,
    taken: usize,
}

impl Source for Dribble {
    ghost use Rattle.std.specs.Prelude.{None};

    ghost left = { λ _. None };

    ghost faults = { λ _. 0 };

    ghost mark = { λ _. tt };

    fn read(&mut self, buf: &mut [u8]) -> Result<usize, Failed> {
        if self.taken >= self.bytes.len() || buf.is_empty() {
            return Ok(0);
        }
        buf[0] = self.bytes[self.taken];
        self.taken += 1;
        Ok(1)
    }
}

fn push_samples(file: &mut Vec<u8>, count: usize, values: &[u8]) -> Result<(), Fail> {
    for _ in 0..count {
        file.extend_from_slice(b"\x08\0\0\0\0\0\0\xF0\x3F")?;
        file.extend_from_slice(values)?;
    }
    Ok(())
}

// The chunks of a recording of 5,000 samples of 32 numbers and of seven texts of five bytes: 27 of
// them, of 70,160 bytes at most, and 686,181 bytes in all.
fn recording(alloc: Global) -> Result<Vec<u8>, Fail> {
    let mut file = FRONT.to_vec(alloc)?;
    file.extend_from_slice(HEADERS)?;
    for _ in 0..9 {
        file.extend_from_slice(FULL)?;
        push_samples(&mut file, 512, &[7; 128])?;
        file.extend_from_slice(BOUNDARY)?;
    }
    file.extend_from_slice(LAST)?;
    push_samples(&mut file, 392, &[7; 128])?;
    file.extend_from_slice(TEXTS)?;
    push_samples(&mut file, 7, b"\x01\x05hello")?;
    file.extend_from_slice(FOOTERS)?;
    Ok(file)
}

// How many chunks are given by `next`, and passed by `pass` in a second reader, of the same places and
// texts, with no more bytes held behind each than so many; and the end of both.
fn chunks_of<S: Source + Drop>(
    alloc: Global,
    first: S,
    second: S,
    most: usize,
) -> Result<String, Fail> {
    let Ok(mut giver) = FileReader::open(alloc, first, 686_181) else {
        return Ok(String::new(alloc));
    };
    let Ok(mut passer) = FileReader::open(alloc, second, 686_181) else {
        return Ok(String::new(alloc));
    };
    let mut told = String::new(alloc);
    for _ in 0..28 {
        let next = giver.next();
        let passed = passer.pass();
        match (next, passed) {
            (Next::Chunk { at, .. }, Passed::Chunk { at: place }) => {
                let same = at == place && giver.last_bytes() == passer.last_bytes();
                let few = giver.held_bytes() <= most && passer.held_bytes() <= most;
                let mark = if same && few { "" } else { "?" };
                told.push_str(&format!(in alloc; "{at}{mark} ")?)?;
            }
            (next, passed) => told.push_str(&format!(in alloc; "{next:?} {passed:?}")?)?,
        }
    }
    Ok(told)
}

#[test]
fn a_recording_is_read_byte_by_byte(rt: HostRuntime) -> Result<(), Fail> {
    let first = Dribble {
        bytes: recording(rt.alloc())?,
        taken: 0,
    };
    let second = Dribble {
        bytes: recording(rt.alloc())?,
        taken: 0,
    };
    let told = chunks_of(rt.alloc(), first, second, 70_160)?;
    assert_eq!(rt;
        told.as_str(),
        "4 64 248 342 434 70594 70614 140774 140794 210954 210974 281134 281154 351314 351334 421494 421514 491674 491694 561854 561874 632034 632054 685774 685896 685990 686087 End { at: 686181 } End { at: 686181 }"
    );
    Ok(())
}
