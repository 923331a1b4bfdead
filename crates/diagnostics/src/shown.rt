//! Text as it looks on a screen: tabs as spaces, and nothing that moves the cursor or changes
//! colours.

use bstr::ByteSlice;
use std::alloc::{AllocError, Global};
use unicode_width::UnicodeWidthChar;

const TAB: usize = 8;

// What stands for a control character, which has no look of its own.
const REPLACEMENT: char = '\u{fffd}';

/// Appends a character so many times.
pub fn push_repeated(out: &mut String, c: char, count: usize) -> Result<(), AllocError> {
    for _ in 0..count {
        out.push(c)?;
    }
    Ok(())
}

// Appends a character that begins at a column, from 0. Returns the column behind it.
fn push_char(out: &mut String, c: char, column: usize) -> Result<usize, AllocError> {
    if c == '\t' {
        let width = TAB - column % TAB;
        push_repeated(out, ' ', width)?;
        return Ok(column.saturating_add(width));
    }
    match c.width() {
        Some(width) => {
            out.push(c)?;
            Ok(column.saturating_add(width))
        }
        None => {
            out.push(REPLACEMENT)?;
            Ok(column.saturating_add(1))
        }
    }
}

/// Appends bytes as text that begins at a column, from 0. Returns the column behind it.
pub fn push_bytes(
    alloc: Global,
    out: &mut String,
    bytes: &[u8],
    from: usize,
) -> Result<usize, AllocError> {
    let text = bytes.to_str_lossy(alloc)?;
    let mut column = from;
    for c in text.as_str().chars() {
        column = push_char(out, c, column)?;
    }
    Ok(column)
}

/// Appends a text.
pub fn push_text(out: &mut String, text: &str) -> Result<(), AllocError> {
    let mut column = 0;
    for c in text.chars() {
        column = push_char(out, c, column)?;
    }
    Ok(())
}
