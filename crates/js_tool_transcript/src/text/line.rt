//! Lines of the text: compact JSON arrays.

ghost use Rattle.std.specs.Prelude.{◌≡◌, ◌++◌, map, OnOk};
ghost use Rattle.serde_json.specs.Written.{compact_text};
ghost use Rattle.serde_json.specs.View.{items_of};
ghost use Rattle.serde_json.specs.Data.{array};
ghost use Rattle.js_tool_transcript.specs.Text.{cell_data, line_text};

use super::pieces::push_comma;
use super::quoted::push_quoted;
use itoa::Buffer;
use std::alloc::AllocError;

/// One cell of a line.
#[derive(Clone, Copy)]
pub enum Cell<'a> {
    Null,
    Truth(bool),
    Number(u64),
    Integer(i64),
    /// An integer, written as a text.
    Digits(i128),
    Text(&'a [u8]),
}

/// Adds a line of these cells.
#[tactic(auto, unfolding(crate::specs::Text::line_text))]
pub fn push_line(out: &mut Vec<u8>, cells: &[Cell]) -> Result<(), AllocError>
    ensures { OnOk result (out.new.items ≡ out.old.items ++ line_text (map cell_data cells.now)) }
{
    push_array(out, cells)?;
    out.push(b'\n')?;
    Ok(())
}

// The end of the array stands for itself, so the loop ends with one byte.
fn push_array(out: &mut Vec<u8>, cells: &[Cell]) -> Result<(), AllocError>
    ensures { OnOk result (out.new.items ≡ out.old.items ++ compact_text (array (items_of (map cell_data cells.now)))) }
{
    out.push(b'[')?;
    let mut later = false;
    for cell in cells {
        push_comma(out, later)?;
        push_cell(out, cell)?;
        later = true;
    }
    out.push(b']')?;
    Ok(())
}

fn push_cell(out: &mut Vec<u8>, cell: &Cell) -> Result<(), AllocError>
    ensures { OnOk result (out.new.items ≡ out.old.items ++ compact_text (cell_data cell.now)) }
{
    match cell {
        Cell::Null => out.extend_from_slice(b"null"),
        Cell::Truth(true) => out.extend_from_slice(b"true"),
        Cell::Truth(false) => out.extend_from_slice(b"false"),
        Cell::Number(n) => {
            let mut buffer = Buffer::new();
            out.extend_from_slice(buffer.format(*n).as_bytes())
        }
        Cell::Integer(n) => {
            let mut buffer = Buffer::new();
            out.extend_from_slice(buffer.format(*n).as_bytes())
        }
        Cell::Digits(n) => {
            let mut buffer = Buffer::new();
            push_quoted(out, buffer.format(*n).as_bytes())
        }
        Cell::Text(text) => push_quoted(out, *text),
    }
}
