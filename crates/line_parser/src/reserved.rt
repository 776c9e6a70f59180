//! Which words may be names.
ghost use Rattle.std.specs.Prelude.{◌≡◌, map};
ghost use Rattle.std.specs.List.{list_any};
ghost use Rattle.std.specs.Str.{bytes_eq};
ghost use Rattle.script_model.specs.Language.{is_name};

/// What no name may be.
const RESERVED_WORDS: [&[u8]; 21] = [
    b"if", b"then", b"else", b"bind", b"in", b"join", b"fold", b"from", b"at", b"steps", b"now",
    b"freeze", b"when", b"after", b"every", b"true", b"false", b"int", b"bool", b"text", b"node",
];

/// Whether a word is one of a table.
fn is_among(word: &[u8], table: &[&[u8]]) -> bool
    ensures { result ≡ list_any (bytes_eq word.now) (map (λ w. w.now) table.now) }
{
    for reserved in table {
        if word == *reserved {
            return true;
        }
    }
    false
}

/// Whether a word may be a name: it is not reserved.
pub(crate) fn is_name(word: &[u8]) -> bool
    ensures { result ≡ is_name word.now }
{
    !is_among(word, &RESERVED_WORDS)
}
