//! Numbers as the words of a job and of the command line have them.
ghost use Rattle.std.specs.Prelude.{◌≡◌};
ghost use Rattle.job_lines.specs.Forms.{begins_plain};

/// Whether a number begins with another digit than `0`.
pub(crate) fn begins_plain(digits: &[u8]) -> bool
    ensures { result ≡ begins_plain digits.now }
{
    match digits {
        [first, ..] => *first != b'0',
        [] => false,
    }
}
