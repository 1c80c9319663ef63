//! Splitting bytes into lines.
ghost use Rattle.std.specs.Prelude.{◌≡◌, ◌↔◌, [], IsTrue};
ghost use Rattle.route_lines.specs.Lines.{as_line, line_of};

use arrayvec::ArrayVec;
use std::marker::Model;
use std::mem;

/// A line without its line end: its bytes if there are at most 80, or `TooLong`.
#[derive(Drop)]
pub enum Line {
    /// The bytes before the line end.
    Text(ArrayVec<u8, 80>),
    /// There are more than 80 bytes before the line end.
    TooLong,
}

impl Line {
    /// Returns the bytes, or `None` if the line is too long.
    ///
    /// # Examples
    /// If `line` is `ok`:
    ///
    /// ```rust
    /// assert_eq!(rt; line.text(), Some(b"ok".as_slice()));
    /// ```
    pub fn text(&self) -> Option<&[u8]>
        ensures { as_line result ≡ self.now }
    {
        match self {
            Line::Text(text) => Some(text.as_slice()),
            Line::TooLong => None,
        }
    }
}

/// Returns the line that these bytes before a line end are, as `Line::text` does: `None` if there are more than 80 bytes.
///
/// # Examples
/// For a `piece` of `row` bytes; `row_is` compares:
///
/// ```rust
/// row_is(rt, row, line_text(piece).is_some(), row <= 80);
/// ```
pub fn line_text(piece: &[u8]) -> Option<&[u8]>
    ensures { as_line result ≡ line_of piece.now }
{
    if piece.len() > 80 { None } else { Some(piece) }
}

/// The bytes after the last line end.
#[derive(Clone, Copy, Debug, PartialEq, Eq)]
pub enum Rest {
    /// There are none.
    Empty,
    /// There is at least one.
    Held,
}

/// Splits a stream of bytes into lines, byte by byte. The lines don't depend on how the bytes were read.
///
/// A line ends at byte 0x0A, and is returned at this byte, never before. A carriage return is an ordinary byte. Contracts see the first
/// 80 of the bytes since the last line end, and whether there were more.
///
/// # Examples
/// ```rust
/// let mut cutter = LineCutter::new();
/// assert!(rt; cutter.feed(b'o').is_none());
/// assert!(rt; cutter.feed(b'k').is_none());
/// assert_eq!(rt; cutter.rest(), Rest::Held);
/// let line = cutter.feed(b'\n').expect(&rt, "a line");
/// assert_eq!(rt; line.text(), Some(b"ok".as_slice()));
/// ```
#[derive(Drop)]
pub struct LineCutter {
    held: ArrayVec<u8, 80>,
    more: bool,
}

impl Model for LineCutter {
    ghost use Rattle.route_lines.specs.Kept.{Kept};

    ghost Value = { Kept };

    ghost view = { λ c. record { first = c.held.items; more = c.more } };
}

impl LineCutter {
    ghost use Rattle.route_lines.specs.Lines.{kept_of, fed_answer, fed, rest_in};

    /// Makes a cutter that has read nothing.
    pub fn new() -> LineCutter
        ensures { result ≡ kept_of [] }
    {
        LineCutter {
            held: ArrayVec::new(),
            more: false,
        }
    }

    /// Takes the next byte, and returns the line that this byte ends, if it is a line end. Does not allocate.
    ///
    /// # Examples
    /// After the bytes of `ok`:
    ///
    /// ```rust
    /// let line = cutter.feed(b'\n').expect(&rt, "a line");
    /// assert_eq!(rt; line.text(), Some(b"ok".as_slice()));
    /// ```
    pub fn feed(&mut self, byte: u8) -> Option<Line>
        ensures line { result ≡ fed_answer self.old byte }
        ensures kept { self.new ≡ fed self.old byte }
    {
        if byte == b'\n' {
            let held = mem::replace(&mut self.held, ArrayVec::new());
            let more = mem::replace(&mut self.more, false);
            return Some(if more {
                Line::TooLong
            } else {
                Line::Text(held)
            });
        }
        if self.held.is_full() {
            self.more = true;
        } else {
            self.held.push(byte);
        }
        None
    }

    /// Returns whether there is no byte after the last line end, as in a new cutter.
    ///
    /// # Examples
    /// After the bytes of `ok`:
    ///
    /// ```rust
    /// let line = cutter.feed(b'\n').expect(&rt, "a line");
    /// assert_eq!(rt; line.text(), Some(b"ok".as_slice()));
    /// assert!(rt; cutter.is_new());
    /// ```
    pub fn is_new(&self) -> bool
        ensures { IsTrue result ↔ (self.now ≡ kept_of []) }
    {
        self.held.is_empty() && !self.more
    }

    /// Returns whether there are bytes after the last line end.
    ///
    /// # Examples
    /// ```rust
    /// assert!(rt; cutter.feed(b'k').is_none());
    /// assert_eq!(rt; cutter.rest(), Rest::Held);
    /// ```
    pub fn rest(&self) -> Rest
        ensures { result ≡ rest_in self.now }
    {
        if self.held.is_empty() {
            Rest::Empty
        } else {
            Rest::Held
        }
    }
}
