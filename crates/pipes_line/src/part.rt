// Parts of a text.
ghost use Rattle.std.specs.Prelude.{◌≡◌};
ghost use Rattle.pipes_line.specs.Bytes as bytes;

/// Where a field stands in a text.
#[derive(Clone, Copy, Debug, PartialEq, Eq)]
pub(crate) struct Part {
    pub(crate) from: usize,
    pub(crate) to: usize,
}

/// The bytes of a text in a part of it, as far as the text reaches.
pub(crate) fn bytes_in(text: &[u8], part: Part) -> &[u8]
    ensures { result.now ≡ bytes.bytes_in text.now part }
{
    let to = part.to.min(text.len());
    &text[part.from.min(to)..to]
}
