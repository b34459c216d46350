//! The words of a line.
ghost use Rattle.std.specs.Prelude.{◌≡◌, ℕ, List, ◌++◌};
ghost use Rattle.bundle_text.specs.Lines.{line_feed};

/// The words of a line, which ends with a line feed.
pub fn words(line: &[u8]) -> &[u8]
    ensures { (text : List ℕ) → line.now ≡ text ++ line_feed → result.now ≡ text }
{
    match line.split_last() {
        Some((_, words)) => words,
        None => line,
    }
}
