//! Lines and columns.

ghost use Rattle.std.specs.Prelude.{◌≡◌, ◌-◌, ◌≤◌, ◌<◌, ◌^◌, length};
ghost use Rattle.il_lexer.specs.Place.{line_of, column_of};

/// The line of a place, from 1: one more than the ends of lines before it. The place is in the text
/// or at its end, and the text is shorter than 2^32 - 1 bytes.
pub fn line(bytes: &[u8], at: u32) -> u32
    requires within { at ≤ length bytes.now }
    requires small { length bytes.now < 2 ^ 32 - 1 }
    ensures { result ≡ line_of bytes.now at }
{
    let mut line = 1;
    for byte in &bytes[..at as usize] {
        line = if *byte == b'\n' { line + 1 } else { line };
    }
    line
}

/// The column of a place, from 1: one more than the bytes before it in its line. The place is in the
/// text or at its end, and the text is shorter than 2^32 - 1 bytes.
pub fn column(bytes: &[u8], at: u32) -> u32
    requires within { at ≤ length bytes.now }
    requires small { length bytes.now < 2 ^ 32 - 1 }
    ensures { result ≡ column_of bytes.now at }
{
    let mut column = 1;
    for byte in &bytes[..at as usize] {
        column = if *byte == b'\n' { 1 } else { column + 1 };
    }
    column
}
