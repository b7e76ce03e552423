//! Tokens.

use crate::place::Place;

/// A mark of one byte, or of two.
#[derive(Clone, Copy, Debug, PartialEq, Eq)]
pub enum Mark {
    /// `<<`
    ShiftLeft,
    /// `>>`
    ShiftRight,
    /// `,`
    Comma,
    /// `(`
    Open,
    /// `)`
    Close,
    /// `+`
    Plus,
    /// `-`
    Minus,
    /// `*`
    Star,
    /// `/`
    Slash,
    /// `%`
    Percent,
    /// `&`
    And,
    /// `|`
    Or,
    /// `^`
    Caret,
    /// `!`
    Bang,
    /// `~`
    Tilde,
    /// `:`
    Colon,
    /// `=`
    Equals,
    /// `@`
    At,
}

/// What a token is.
#[derive(Clone, Copy, Debug, PartialEq, Eq)]
pub enum TokenKind {
    /// A name.
    Name,
    /// A number, or a character; `None` at or above 2^64.
    Number(Option<u64>),
    /// A local label's number and `b` or `f`.
    Local,
    /// A string, with its quotes and escapes.
    String,
    /// A mark.
    Mark(Mark),
    /// A line that begins with `#@`, from there on.
    Request,
    /// The end of a statement: a newline, `;`, or nothing at the end of the file.
    End,
}

/// A token: what it is, its bytes, and where it begins. No token but `End` has a newline.
#[derive(Clone, Copy, Debug)]
pub struct Token<'a> {
    pub kind: TokenKind,
    pub text: &'a [u8],
    pub place: Place,
}
