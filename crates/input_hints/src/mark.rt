//! The byte order mark that an input begins with.
ghost use Rattle.std.specs.Prelude.{◌≡◌};
ghost use Rattle.input_hints.specs.Marks.{is_utf16, is_utf32, mark_hint, mark_of};

/// The byte order mark (U+FEFF) that an input begins with, by the encoding of its bytes. No JSON text may begin with one.
#[derive(Clone, Copy, Debug, PartialEq, Eq)]
pub enum ByteOrderMark {
    Utf8,
    Utf16,
    Utf32,
}

impl ByteOrderMark {
    /// Returns the mark that these bytes begin with.
    pub fn of(bytes: &[u8]) -> Option<ByteOrderMark>
        ensures { result ≡ mark_of bytes.now }
    {
        if bytes.starts_with(b"\xEF\xBB\xBF") {
            Some(ByteOrderMark::Utf8)
        } else if is_utf_32(bytes) {
            Some(ByteOrderMark::Utf32)
        } else if is_utf_16(bytes) {
            Some(ByteOrderMark::Utf16)
        } else {
            None
        }
    }

    /// Returns what is wrong with a text that begins with the mark, and what helps.
    pub fn hint(self) -> &'static str
        ensures { result.now ≡ mark_hint self }
    {
        match self {
            ByteOrderMark::Utf8 =>
                "it begins with a byte order mark: save it as UTF-8 without one, as 'tail -c +4 FILE' does",
            ByteOrderMark::Utf16 =>
                "it is UTF-16, by its byte order mark: save it as UTF-8, as 'iconv -f UTF-16 -t UTF-8 FILE' does",
            ByteOrderMark::Utf32 =>
                "it is UTF-32, by its byte order mark: save it as UTF-8, as 'iconv -f UTF-32 -t UTF-8 FILE' does",
        }
    }
}

fn is_utf_32(bytes: &[u8]) -> bool
    ensures { result ≡ is_utf32 bytes.now }
{
    bytes.starts_with(b"\xFF\xFE\x00\x00") || bytes.starts_with(b"\x00\x00\xFE\xFF")
}

fn is_utf_16(bytes: &[u8]) -> bool
    ensures { result ≡ is_utf16 bytes.now }
{
    bytes.starts_with(b"\xFF\xFE") || bytes.starts_with(b"\xFE\xFF")
}
