//! The worked rows that a command line can show. Standard input has a row a line, as a shell has it: the words after
//! single spaces, and for a transcript its file after ` < `. Each is given to `run`, and what it writes and answers
//! goes to standard output, which the gate compares with the stored text.
#![tactic(auto)]

use js_tool_event_log::{Status, rerun, run};
use js_tool_explain::explain;
use js_tool_io::{PlainSource, WriteSink};
use std::alloc::{AllocError, Global};
use std::io::{BufRead, BufReader, Write};
use std::sync::Wait;
use std::thread::Threads;
use std::{fs, io};

fn main(rt: HostRuntime) -> io::Result<()> {
    let rows = BufReader::new(rt.alloc(), rt.reader())?;
    for row in rows.lines(rt.alloc()) {
        let row = row?;
        println!(rt; "$ {row}")?;
        let (line, bytes) = words_and_input(&rt, row.as_str())?;
        let mut output = WriteSink::new(io::writer(&rt));
        let status = answered(&rt, rt.alloc(), line, bytes, &mut output)?;
        println!(rt; "{} {status}", status.exit_code())?;
    }
    Ok(())
}

// The words, and what stands in the file.
fn words_and_input<'r>(rt: &HostRuntime, row: &'r str) -> io::Result<(&'r str, Vec<u8>)> {
    match row.split_once(" < ") {
        Some((line, file)) => Ok((line, fs::read(rt, file)?)),
        None => Ok((row, Vec::new(rt.alloc()))),
    }
}

fn answered<R: Threads + Wait + Sync, W: Write>(
    rt: &R,
    alloc: Global,
    line: &str,
    bytes: Vec<u8>,
    output: &mut WriteSink<W>,
) -> Result<Status, AllocError> {
    let mut words = Vec::new(alloc);
    for word in line.split(' ') {
        words.push(String::from_str(alloc, word)?)?;
    }
    let mut input = PlainSource::new(bytes);
    if line == "explain" {
        return Ok(explain(alloc, &mut input, output));
    }
    if line == "rerun" {
        return Ok(rerun(alloc, &mut input, output, &mut None));
    }
    Ok(run(rt, alloc, &words, &mut input, output))
}
