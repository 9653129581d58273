// Streams of the system as sources and sinks, and the words of the command line.
use sms_text::{Pulled, Put, Sink, Source};
use std::alloc::Global;
use std::env::{Env, FillError};
use std::io;
use std::io::{ErrorKind, Read, Write};
use std_edge::{FromRead, ToWrite, words_of};

// Reads two bytes, then fails, then reads two more.
#[derive(Drop)]
struct Stutter {
    calls: u32,
}

impl Read for Stutter {
    fn read(&mut self, buf: &mut [u8]) -> io::Result<usize> {
        self.calls = self.calls.saturating_add(1);
        if self.calls == 2 {
            return Err(ErrorKind::Interrupted.into());
        }
        Ok(buf.len().min(2))
    }
}

// Whether a reader gives what it reads, and then its end.
fn gives_all() -> bool {
    let mut buffer = [0; 8];
    let bytes = [3, 1, 4];
    let mut source = FromRead::new(bytes.as_slice());
    [source.pull(&mut buffer), source.pull(&mut buffer)] == [Pulled::Got(3), Pulled::End]
}

// Whether a reader fails where it fails, and only there.
fn fails_once() -> bool {
    let mut buffer = [0; 8];
    let mut source = FromRead::new(Stutter { calls: 0 });
    [
        source.pull(&mut buffer),
        source.pull(&mut buffer),
        source.pull(&mut buffer),
    ] == [Pulled::Got(2), Pulled::Failed, Pulled::Got(2)]
}

// Takes two bytes of a piece, and fails in its second flush.
#[derive(Drop)]
struct Sticky {
    flushes: u32,
}

impl Write for Sticky {
    fn write(&mut self, buf: &[u8]) -> io::Result<usize> {
        Ok(buf.len().min(2))
    }

    fn flush(&mut self) -> io::Result<()> {
        self.flushes = self.flushes.saturating_add(1);
        if self.flushes == 2 {
            return Err(ErrorKind::Other.into());
        }
        Ok(())
    }
}

// Whether a writer gains what it takes.
fn gains_all(alloc: Global) -> bool {
    let mut written = Vec::new(alloc);
    let put = ToWrite::new(&mut written).put(b"314");
    (put, written.as_slice()) == (Put::Took(3), b"314".as_slice())
}

// Whether a writer that failed is left alone.
fn is_left_alone() -> bool {
    let mut sink = ToWrite::new(Sticky { flushes: 0 });
    let puts = [sink.put(b"314"), sink.put(b"314"), sink.put(b"3")];
    (puts, sink.into_writer().flushes) == ([Put::Took(2), Put::Failed, Put::Failed], 2)
}

// Whether a full writer takes nothing.
fn takes_nothing() -> bool {
    let mut full: &mut [u8] = &mut [];
    ToWrite::new(&mut full).put(b"3") == Put::Failed
}

#[test]
fn streams_are_sources_and_sinks(rt: HostRuntime) {
    let found = [
        gives_all(),
        fails_once(),
        gains_all(rt.alloc()),
        is_left_alone(),
        takes_nothing(),
    ];
    assert_eq!(rt; found, [true, true, true, true, true]);
}

// The words that a program is started with.
#[derive(Drop)]
struct Started<'a> {
    words: &'a [&'a [u8]],
}

impl<'a> Env for Started<'a> {
    fn arg(&self, i: usize, buf: &mut [u8]) -> Result<usize, FillError> {
        match self.words.get(i) {
            Some(word) if word.len() <= buf.len() => {
                buf[..word.len()].copy_from_slice(word);
                Ok(word.len())
            }
            Some(_) => Err(FillError::TooLong),
            None => Err(FillError::NotPresent),
        }
    }

    fn var(&self, _name: &str, _buf: &mut [u8]) -> Result<usize, FillError> {
        Err(FillError::NotPresent)
    }

    fn var_at(&self, _i: usize, _buf: &mut [u8]) -> Result<usize, FillError> {
        Err(FillError::NotPresent)
    }
}

// Whether the words are these.
fn are(words: &[String], wanted: [&str; 3]) -> bool {
    words.len() == 3 && [words[0].as_str(), words[1].as_str(), words[2].as_str()] == wanted
}

// Whether these are found behind the name of the program.
fn has_words(alloc: Global, words: &[&[u8]], wanted: [&str; 3]) -> bool {
    match words_of(&(Started { words }, alloc)) {
        Ok(found) => are(found.as_slice(), wanted),
        Err(_) => false,
    }
}

// Whether words are refused, since they aren't text.
fn is_refused(alloc: Global, words: &[&[u8]]) -> bool {
    match words_of(&(Started { words }, alloc)) {
        Ok(_) => false,
        Err(none) => none.code() == 2,
    }
}

#[test]
fn words_stand_behind_the_program_s_name(rt: HostRuntime) {
    let alloc = rt.alloc();
    let found = has_words(
        alloc,
        &[b"spasm", b"rank", b"--modulus=7", b""],
        ["rank", "--modulus=7", ""],
    );
    let refused = is_refused(alloc, &[b"spasm", b"rank", b"\xff"]);
    assert_eq!(rt; [found, refused], [true, true]);
}
