//! The lines that are written to standard output.

ghost use Rattle.std.specs.Prelude.{◌≡◌, ◌++◌, IfOk, OnOk, OnErr, string_bytes};
ghost use Rattle.jetstream_table.specs.Lines.{entry_line as line_of, line_head as head_of, operation_word as word_of};

use js_store_keys::{Entry, Operation};
use std::alloc::{AllocError, Global};

fn operation_word(operation: Operation) -> &'static str
    ensures { result.now ≡ word_of operation }
{
    match operation {
        Operation::Put => "put",
        Operation::Delete => "delete",
        Operation::Purge => "purge",
    }
}

fn line_head(alloc: Global, revision: u64, operation: &str, key: &str) -> Result<String, AllocError>
    ensures { IfOk result (λ head. string_bytes head ≡ head_of revision operation.now key.now) }
{
    format!(in alloc; "{revision} {operation} {key} ")
}

fn entry_line(alloc: Global, entry: &Entry) -> Result<Vec<u8>, AllocError>
    ensures { IfOk result (λ line. line.items ≡ line_of entry.now) }
{
    let operation = operation_word(entry.operation);
    let mut line = line_head(alloc, entry.revision, operation, entry.key.as_str())?.into_bytes();
    line.extend_from_slice(entry.value.as_slice())?;
    line.push(b'\n')?;
    Ok(line)
}

/// Adds the line of an entry to the page, or nothing.
pub fn add_line(alloc: Global, page: &mut Vec<u8>, entry: &Entry) -> Result<(), AllocError>
    ensures ok { OnOk result (page.new.items ≡ page.old.items ++ line_of entry.now) }
    ensures err { OnErr result (page.new.items ≡ page.old.items) }
{
    let line = entry_line(alloc, entry)?;
    page.extend_from_slice(&line)
}
