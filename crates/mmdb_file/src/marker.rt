//! The marker before the metadata.
ghost use Rattle.std.specs.Prelude.{◌≡◌, ◌-◌, ◌+◌, ◌≤◌, ◌<◌, length, IfSome, IsTrue};
ghost use Rattle.mmdb_file.specs.Marker.{marker, begins, last_marker as last_marker_of};

/// The bytes AB CD EF and then `MaxMind.com`.
pub(crate) const MARKER: [u8; 14] = [
    0xAB, 0xCD, 0xEF, b'M', b'a', b'x', b'M', b'i', b'n', b'd', b'.', b'c', b'o', b'm',
];

/// How long the marker is.
pub(crate) const MARKER_LEN: usize = 14;

/// Where the last marker begins, sought from the end.
pub(crate) fn last_marker(bytes: &[u8]) -> Option<usize>
    ensures offset { result ≡ last_marker_of bytes.now }
    ensures within { IfSome result (λ offset. offset + 14 ≤ length bytes.now) }
{
    let mut offset = bytes.len();
    while offset > 0 {
        offset -= 1;
        if begins_marker(&bytes[offset..]) {
            return Some(offset);
        }
    }
    None
}

#[tactic(auto, unfolding(crate::specs::Marker::marker))]
fn begins_marker(bytes: &[u8]) -> bool
    ensures value { result ≡ begins marker bytes.now }
    ensures long { IsTrue result → 14 ≤ length bytes.now }
{
    matches!(
        bytes,
        [
            0xAB,
            0xCD,
            0xEF,
            b'M',
            b'a',
            b'x',
            b'M',
            b'i',
            b'n',
            b'd',
            b'.',
            b'c',
            b'o',
            b'm',
            ..
        ]
    )
}
