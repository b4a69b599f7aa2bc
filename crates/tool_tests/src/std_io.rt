//! The source and the sink over what the system gives: standard input and output, a pipe, and a folder, which fails. No clause says
//! which bytes reach or leave the system.

use crate::tables::same;
use js_tool_io::{Failed, ReadSource, Source, Stop, WriteSink, read_all, write_all};
use std::alloc::Global;
use std::io::{PipeReader, PipeWriter};
use std::{fs, io};

const TEXT: &[u8] = b"one\ntwo\n";

// Whether a source gives just these bytes, and then its end.
fn gives<S: Source>(alloc: Global, source: &mut S, wanted: &[u8]) -> Result<bool, Stop> {
    let mut read = read_all(alloc, source)?;
    match read.take(alloc) {
        Some(bytes) => Ok(bytes.as_slice() == wanted),
        None => Ok(wanted.is_empty()),
    }
}

// A test has an empty standard input. What it writes to standard output is let through.
#[test]
fn standard_input_ends_and_standard_output_takes(rt: HostRuntime) {
    let mut input = ReadSource::new(rt.reader());
    same(&rt, "input", gives(rt.alloc(), &mut input, b""), Ok(true));
    drop(input);
    let mut output = WriteSink::new(io::writer(&rt));
    same(&rt, "output", write_all(&mut output, TEXT), Ok(()));
    drop(output);
}

// Whether what is written into a pipe comes out of it, and then its end, since the writer is closed.
fn comes_out(alloc: Global, reader: PipeReader, writer: PipeWriter) -> Result<bool, Stop> {
    let mut output = WriteSink::new(writer);
    let written = write_all(&mut output, TEXT);
    drop(output);
    let mut input = ReadSource::new(reader);
    let read = gives(alloc, &mut input, TEXT);
    drop(input);
    Ok(read? && written.is_ok())
}

#[test]
fn what_is_written_into_a_pipe_comes_out_of_it(rt: HostRuntime) {
    let (reader, writer) = io::pipe(&rt).expect(&rt, "a pipe");
    same(&rt, "pipe", comes_out(rt.alloc(), reader, writer), Ok(true));
}

// A folder that is opened to be read gives no bytes and takes none.
#[test]
fn an_error_of_the_system_is_a_fault(rt: HostRuntime) {
    let mut input = ReadSource::new(fs::open(&rt, ".").expect(&rt, "a folder"));
    let read = gives(rt.alloc(), &mut input, b"");
    same(&rt, "input", read, Err(Stop::Fault));
    drop(input);
    let mut output = WriteSink::new(fs::open(&rt, ".").expect(&rt, "a folder"));
    same(&rt, "output", write_all(&mut output, TEXT), Err(Failed));
    drop(output);
}
