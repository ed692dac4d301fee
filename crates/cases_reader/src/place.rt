//! Places in a text as a reader of it counts them.
//! Proved safe by the checker alone.

use std::fmt;

/// A line and a column, in bytes, both counted from 1.
#[derive(Clone, Copy)]
pub struct Place {
    line: usize,
    column: usize,
}

impl Place {
    /// The place of the byte at an offset, or of the end.
    pub fn of(text: &[u8], offset: usize) -> Place {
        let before = &text[..offset.min(text.len())];
        let feeds = before.iter().filter(|byte| **byte == b'\n').count();
        let columns = before
            .iter()
            .rev()
            .take_while(|byte| **byte != b'\n')
            .count();
        Place {
            line: feeds.saturating_add(1),
            column: columns.saturating_add(1),
        }
    }
}

impl fmt::Display for Place {
    fn fmt<W: fmt::Write>(&self, f: &mut fmt::Formatter<W>) -> fmt::Result {
        write!(f, "{}:{}", self.line, self.column)
    }
}
