//! The cutter fed byte by byte, and lines read in place.
use crate::tests::rows::row_is;
use route_lines::{Line, LineCutter, Rest, line_text};
use std::process::Abort;

/// Pieces, and the length of the line that the last byte of each piece ends: none if it ends no line, 1000 if the line is too long.
const PIECES: [(&str, Option<usize>); 5] = [
    ("ok\r\n", Some(3)),
    ("\n", Some(0)),
    (
        "xxxxxxxxxxxxxxxxxxxxxxxxxxxxxxxxxxxxxxxxxxxxxxxxxxxxxxxxxxxxxxxxxxxxxxxxxxxxxxxx\n",
        Some(80),
    ),
    (
        "xxxxxxxxxxxxxxxxxxxxxxxxxxxxxxxxxxxxxxxxxxxxxxxxxxxxxxxxxxxxxxxxxxxxxxxxxxxxxxxxx\n",
        Some(1000),
    ),
    ("fl", None),
];

/// Feeds these bytes. None of them may end a line.
fn feeds(rt: &impl Abort, cutter: &mut LineCutter, bytes: &[u8]) {
    for byte in bytes {
        row_is(rt, bytes.len(), cutter.feed(*byte).is_some(), false);
    }
}

/// Feeds the piece. Only the last byte may end a line, and the line has the length `wanted`.
fn cuts(rt: &impl Abort, cutter: &mut LineCutter, piece: &str, wanted: Option<usize>) {
    let (last, others) = piece.as_bytes().split_last().expect(rt, "a byte");
    feeds(rt, cutter, others);
    let length = match cutter.feed(*last) {
        None => None,
        Some(Line::Text(text)) => Some(text.len()),
        Some(Line::TooLong) => Some(1000),
    };
    row_is(rt, piece, length, wanted);
}

#[test]
fn one_line(rt: HostRuntime) {
    let mut cutter = LineCutter::new();
    assert!(rt; cutter.feed(b'o').is_none());
    assert!(rt; cutter.feed(b'k').is_none());
    assert_eq!(rt; cutter.rest(), Rest::Held);
    let line = cutter.feed(b'\n').expect(&rt, "a line");
    assert_eq!(rt; line.text(), Some(b"ok".as_slice()));
    assert!(rt; cutter.is_new());
}

#[test]
fn pieces(rt: HostRuntime) {
    let mut cutter = LineCutter::new();
    row_is(&rt, "at first", cutter.rest(), Rest::Empty);
    for (piece, wanted) in &PIECES {
        cuts(&rt, &mut cutter, piece, *wanted);
    }
    row_is(&rt, "at the end", cutter.rest(), Rest::Held);
}

/// Checks that `line_text` gives the same line as the cutter.
fn is_in_place(rt: &impl Abort, cutter: &mut LineCutter, piece: &[u8]) {
    let row = piece.len();
    feeds(rt, cutter, piece);
    row_is(rt, row, cutter.is_new(), piece.is_empty());
    let line = cutter.feed(b'\n').expect(rt, "a line");
    row_is(rt, row, line.text(), line_text(piece));
    row_is(rt, row, cutter.is_new(), true);
    row_is(rt, row, line_text(piece).is_some(), row <= 80);
}

#[test]
fn in_place(rt: HostRuntime) {
    let longest = [b'x'; 81];
    for length in 0..82 {
        is_in_place(&rt, &mut LineCutter::new(), &longest[..length]);
    }
}
