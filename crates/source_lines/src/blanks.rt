//! Blanks at the ends of bytes.

ghost use Rattle.std.specs.Prelude.{◌≡◌, ◌-◌, ◌≤◌, length};
ghost use Rattle.std.specs.List.{list_all, prefix_len, suffix_len};
ghost use Rattle.source_lines.specs.PhysicalLines.{is_blank, without_blanks, without_blanks_after};

/// A blank, or a tab, which counts as one.
pub fn is_blank(byte: u8) -> bool
    ensures { result ≡ is_blank byte }
{
    byte == b' ' || byte == b'\t'
}

/// No byte is there but blanks.
pub fn all_blank(bytes: &[u8]) -> bool
    ensures { result ≡ list_all is_blank bytes.now }
{
    bytes.iter().all(|b| is_blank(*b))
}

/// The number of blanks in front.
fn blanks_before(bytes: &[u8]) -> usize
    ensures within { result ≤ length bytes.now }
    ensures count { result ≡ prefix_len is_blank bytes.now }
{
    for (i, b) in bytes.iter().enumerate() {
        if !is_blank(*b) {
            return i;
        }
    }
    bytes.len()
}

/// How many bytes are left without the blanks at the end.
fn end_of(bytes: &[u8]) -> usize
    ensures within { result ≤ length bytes.now }
    ensures end { result ≡ length bytes.now - suffix_len is_blank bytes.now }
{
    let mut end = bytes.len();
    while end > 0 && is_blank(bytes[end - 1]) {
        end -= 1;
    }
    end
}

/// The bytes without the blanks in front.
pub fn without_blanks(bytes: &[u8]) -> &[u8]
    ensures { result.now ≡ without_blanks bytes.now }
{
    &bytes[blanks_before(bytes)..]
}

/// The bytes without the blanks at the end.
pub(crate) fn without_blanks_after(bytes: &[u8]) -> &[u8]
    ensures { result.now ≡ without_blanks_after bytes.now }
{
    &bytes[..end_of(bytes)]
}
