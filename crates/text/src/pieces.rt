//! What parts a text: its lines end in line breaks, and blanks stand between the words of a line.
ghost use Rattle.std.specs.Prelude.{◌≡◌};
ghost use Rattle.text.specs.Pieces.{is_blank};

/// Whether a byte stands between words. A carriage return does, so that a line may end in both.
pub fn is_blank(byte: u8) -> bool
    ensures { result ≡ is_blank byte }
{
    matches!(byte, b' ' | b'\t' | b'\r')
}
