// The grammar of patterns: each piece is read at a cursor and answers the cursor behind it, or nothing. The next piece
// starts only from a cursor.
#![tactic(auto)]

mod bytes;
mod pieces;
mod ranges;
mod text;
mod tokens;

pub use bytes::{is_letter, is_name_byte};
pub use pieces::{Arrow, next_name, spaced_transition, transitions};
pub use text::{Layout, closing, opening, whole_text};
pub use tokens::{Cursor, TextSpan, space};
