//! Where the last look-up found what it looked for, for each kind of source.
use authority::Near as NearEntry;

/// Where the last look-up found what it looked for: there it is looked for first.
///
/// That spares halvings where addresses ascend. Any numbers serve, and what is answered hangs on
/// none of them.
#[derive(Clone, Copy, Debug, Default)]
pub struct Near {
    pub over: usize,
    pub entry: NearEntry,
    pub delegation: usize,
}
