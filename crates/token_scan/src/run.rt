//! Runs of bytes.

ghost use Rattle.std.specs.Prelude.{◌≡◌, ◌≤◌, length};
ghost use Rattle.std.specs.List.{prefix_len};
ghost use Rattle.token_scan.specs.Pieces.{is_in};

/// What a run is of.
#[derive(Clone, Copy)]
pub(crate) enum Run {
    /// Letters, digits and underscores.
    Word,
    Digits,
    /// Any bytes but this one.
    Without(u8),
}

/// Whether a byte may stand in the run.
fn is_in(run: Run, byte: u8) -> bool
    ensures { result ≡ is_in run byte }
{
    match run {
        Run::Word => byte.is_ascii_alphanumeric() || byte == b'_',
        Run::Digits => byte.is_ascii_digit(),
        Run::Without(other) => byte != other,
    }
}

/// The number of bytes of the run at the front.
pub(crate) fn run_len(run: Run, bytes: &[u8]) -> usize
    ensures within { result ≤ length bytes.now }
    ensures count { result ≡ prefix_len (is_in run) bytes.now }
{
    for (i, b) in bytes.iter().enumerate() {
        if !is_in(run, *b) {
            return i;
        }
    }
    bytes.len()
}
