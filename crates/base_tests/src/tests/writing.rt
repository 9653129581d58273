// Sinks, sources, and what is written to them.
ghost use Rattle.std.specs.Prelude.{◌<◌};

use sms_text::{
    BlockWriter, MemorySink, MemorySource, Pulled, Sink, Source, SteadySink, SteadySource,
    WriteFault, write_end, write_entry, write_head, write_number, write_text,
};
use std::alloc::{AllocError, Global};

// A sink of memory of such room that takes at most so many bytes in a put, and fails in these puts.
fn memory_sink(
    alloc: Global,
    room: usize,
    piece: usize,
    fails: &[u64],
) -> Result<MemorySink, AllocError>
    requires { 0 < piece }
{
    MemorySink::new(alloc, room, piece, Vec::from_slice(alloc, fails)?)
}

fn write_small<K: Sink>(out: &mut K) -> Result<(), WriteFault> {
    write_head(out, 2, 3)?;
    write_entry(out, 1, 3, 41)?;
    write_end(out)
}

const SMALL: &[u8] = b"2 3 M\n1 3 41\n0 0 0\n";

// Whether a sink holds this in the end, and whether the writing goes well if that is all.
fn holds(sink: Result<MemorySink, AllocError>, wanted: &[u8]) -> bool {
    match sink {
        Ok(mut sink) => {
            let result = write_small(&mut sink);
            (result.is_ok(), sink.content()) == (wanted.len() == SMALL.len(), wanted)
        }
        Err(_) => false,
    }
}

// Whether sinks hold what was written before their fault.
fn hold_until_their_fault(alloc: Global) -> bool {
    [
        holds(memory_sink(alloc, 64, 64, &[]), SMALL),
        holds(memory_sink(alloc, 64, 1, &[]), SMALL),
        holds(memory_sink(alloc, 64, 1, &[4]), b"2 3"),
        holds(memory_sink(alloc, 3, 64, &[]), b"2 3"),
        holds(memory_sink(alloc, 19, 2, &[]), SMALL),
        holds(memory_sink(alloc, 64, 64, &[1, 2]), b""),
    ] == [true, true, true, true, true, true]
}

// What a word, the largest number, the empty text and another word come to.
fn write_words<K: Sink>(out: &mut K) -> [Result<(), WriteFault>; 4] {
    [
        write_text(out, "rank "),
        write_number(out, 18446744073709551615),
        write_text(out, ""),
        write_text(out, "!"),
    ]
}

// Whether a sink whose third put fails takes the first two of them, and none for the empty text.
fn holds_words(alloc: Global) -> bool {
    match memory_sink(alloc, 64, 64, &[3]) {
        Ok(mut sink) => {
            write_words(&mut sink) == [Ok(()), Ok(()), Ok(()), Err(WriteFault)]
                && sink.content() == b"rank 18446744073709551615".as_slice()
        }
        Err(_) => false,
    }
}

// Whether all is taken by a sink that keeps nothing.
fn takes_all() -> bool {
    write_small(&mut SteadySink::new()) == Ok(())
}

// What a source answers to two calls.
fn pull_twice<S: Source>(source: &mut S) -> [Pulled; 2] {
    let mut buffer = [0; 8];
    [source.pull(&mut buffer), source.pull(&mut buffer)]
}

// Whether a source whose second pull fails gives the pieces before and behind.
fn gives_pieces(alloc: Global) -> bool {
    let Ok(fails) = Vec::from_slice(alloc, &[2]) else {
        return false;
    };
    let Ok(bytes) = Vec::from_slice(alloc, b"314") else {
        return false;
    };
    let mut source = MemorySource::new(bytes, 2, fails);
    [pull_twice(&mut source), pull_twice(&mut source)]
        == [
            [Pulled::Got(2), Pulled::Failed],
            [Pulled::Got(1), Pulled::End],
        ]
}

// Whether a source that never fails, and gives so many bytes at a time, answers this to four calls.
fn gives(alloc: Global, piece: usize, wanted: [[Pulled; 2]; 2]) -> bool
    requires { 0 < piece }
{
    match Vec::from_slice(alloc, b"314") {
        Ok(bytes) => {
            let mut source = SteadySource::new(bytes, piece);
            [pull_twice(&mut source), pull_twice(&mut source)] == wanted
        }
        Err(_) => false,
    }
}

// Adds a matrix of one entry.
fn add_small<K: Sink>(blocks: &mut BlockWriter, out: &mut K) -> Result<(), WriteFault> {
    blocks.add_head(out, 2, 3)?;
    blocks.add_entry(out, 1, 3, 41)?;
    blocks.add_end(out)
}

// What that and its sending come to, and whether the sink has nothing before and all of it then.
fn add_and_send(
    blocks: &mut BlockWriter,
    sink: &mut MemorySink,
) -> ([Result<(), WriteFault>; 2], [bool; 2]) {
    let added = add_small(blocks, sink);
    let waits = sink.content().is_empty();
    let sent = blocks.send(sink);
    let is_whole = sink.content() == SMALL;
    ([added, sent], [waits, is_whole])
}

// What a byte that is added, its sending and another sending come to.
fn add_and_send_twice<K: Sink>(
    blocks: &mut BlockWriter,
    out: &mut K,
) -> [Result<(), WriteFault>; 3] {
    [blocks.add(out, b"x"), blocks.send(out), blocks.send(out)]
}

// Whether blocks wait until they are sent, to a sink whose second put fails.
fn blocks_wait(blocks: &mut BlockWriter, alloc: Global) -> bool {
    match memory_sink(alloc, 64, 64, &[2]) {
        Ok(mut sink) => {
            add_and_send(blocks, &mut sink) == ([Ok(()), Ok(())], [true, true])
                && add_and_send_twice(blocks, &mut sink) == [Ok(()), Err(WriteFault), Ok(())]
        }
        Err(_) => false,
    }
}

#[test]
fn sinks_hold_what_was_written_before_their_fault(rt: HostRuntime) {
    let alloc = rt.alloc();
    let found = [
        hold_until_their_fault(alloc),
        holds_words(alloc),
        takes_all(),
        blocks_wait(&mut BlockWriter::new(), alloc),
    ];
    assert_eq!(rt; found, [true, true, true, true]);
}

#[test]
fn sources_give_what_they_have(rt: HostRuntime) {
    let alloc = rt.alloc();
    let ends = [Pulled::End, Pulled::End];
    let found = [
        gives_pieces(alloc),
        gives(alloc, 64, [[Pulled::Got(3), Pulled::End], ends]),
        gives(alloc, 2, [[Pulled::Got(2), Pulled::Got(1)], ends]),
    ];
    assert_eq!(rt; found, [true, true, true]);
}
