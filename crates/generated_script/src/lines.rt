//! The lines of a text, one after the other.
ghost use Rattle.std.specs.Prelude.{◌≡◌, ◌<◌, ◌∷◌, length};
ghost use Rattle.script_io.specs.Lines.{lines_of};

/// The first line of a text, without its newline, and what stands behind it.
pub fn first_line(text: &[u8]) -> (&[u8], &[u8])
    requires { 0 < length text.now }
    ensures lines { lines_of text.now ≡ result.0.now ∷ lines_of result.1.now }
    ensures shorter { length result.1.now < length text.now }
{
    for (end, byte) in text.iter().enumerate() {
        if *byte == b'\n' {
            return (&text[..end], &text[end + 1..]);
        }
    }
    (text, &text[text.len()..])
}
