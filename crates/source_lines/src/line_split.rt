//! The lines of a text, one after another.

ghost use Rattle.std.specs.Prelude.{◌≡◌, ◌==◌, ◌<◌, ⊤, MatchOption, length, position, [], ◌∷◌};
ghost use Rattle.hpf_base.specs.Text.{lines_of};
ghost use Rattle.source_lines.specs.PhysicalLines.{physical_lines};

use crate::marks::without_return;

/// The place of the first line feed.
fn line_feed(text: &[u8]) -> Option<usize>
    ensures { result ≡ position (λ b. b == 10) text.now }
{
    text.iter().position(|b| *b == b'\n')
}

/// The first line of a text, without the line feed at its end, and the text of the lines after it; None exactly where
/// the text is empty. It takes no memory.
pub(crate) fn first_line(text: &[u8]) -> Option<(&[u8], &[u8])>
    ensures lines { MatchOption result (lines_of text.now ≡ []) (λ x. lines_of text.now ≡ x.0.now ∷ lines_of x.1.now) }
    ensures shorter { MatchOption result ⊤ (λ x. length x.1.now < length text.now) }
{
    if text.is_empty() {
        return None;
    }
    match line_feed(text) {
        Some(end) => {
            let (line, rest) = text.split_at(end);
            Some((line, rest.split_at(1).1))
        }
        None => Some(text.split_at(text.len())),
    }
}

/// The first line of a text, without a carriage return at its end either, and the text of the lines after it; None exactly
/// where the text is empty. It takes no memory.
pub fn next_line(text: &[u8]) -> Option<(&[u8], &[u8])>
    ensures lines { MatchOption result (physical_lines text.now ≡ []) (λ x. physical_lines text.now ≡ x.0.now ∷ physical_lines x.1.now) }
    ensures shorter { MatchOption result ⊤ (λ x. length x.1.now < length text.now) }
{
    let (line, rest) = first_line(text)?;
    Some((without_return(line), rest))
}
