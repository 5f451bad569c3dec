//! Where the last look-up found what it looked for.
/// Where the last look-up found the speaker, its feed and the entry: each is looked for there
/// first, the feed where `make_ready` did not find it.
///
/// That spares halvings where addresses ascend. Any numbers serve, and what is answered hangs on
/// none of them.
#[derive(Clone, Copy, Debug, Default)]
pub struct Near {
    pub speaker: usize,
    pub feed: usize,
    pub entry: usize,
}
