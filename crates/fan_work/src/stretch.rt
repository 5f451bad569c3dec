//! The pieces of a list of items.
ghost use Rattle.std.specs.Prelude.{◌≡◌, ◌+◌, ◌-◌, ◌≤◌, ◌<◌, ◌++◌, length};
ghost use Rattle.fan_work.specs.Stretches.{AreHalves, IsStretch};
ghost use Rattle.fan_work.specs.Pieces.{piece_start};

/// Neighbouring pieces: those from `from` up to but not including `to`, where so many items are cut
/// into so many pieces.
#[derive(Clone, Copy)]
pub(crate) struct Stretch {
    pub pieces: u32,
    pub count: usize,
    pub from: u32,
    pub to: u32,
}

impl Stretch {
    // How many items stand before this piece.
    #[tactic(auto, unfolding(crate::specs::Pieces::piece_start))]
    fn start_of(&self, piece: u32) -> usize
        requires some { 0 < self.now.pieces }
        requires piece { piece ≤ self.now.pieces }
        ensures { result ≡ piece_start self.now.pieces self.now.count piece }
    {
        (u128::from(piece) * self.count as u128 / u128::from(self.pieces)) as usize
    }
}

/// The two halves of a stretch of two or more pieces, each with its items.
pub(crate) fn halves<A>(stretch: Stretch, items: &[A]) -> ((Stretch, &[A]), (Stretch, &[A]))
    requires stretch { IsStretch stretch (length items.now) }
    requires many { stretch.from + 1 < stretch.to }
    ensures halves { AreHalves stretch result.0.0 result.1.0 }
    ensures left { IsStretch result.0.0 (length result.0.1.now) }
    ensures right { IsStretch result.1.0 (length result.1.1.now) }
    ensures left_smaller { result.0.0.to - result.0.0.from < stretch.to - stretch.from }
    ensures right_smaller { result.1.0.to - result.1.0.from < stretch.to - stretch.from }
    ensures items { result.0.1.now ++ result.1.1.now ≡ items.now }
{
    let middle = stretch.from + (stretch.to - stretch.from) / 2;
    let taken = stretch.start_of(middle) - stretch.start_of(stretch.from);
    let (left, right) = items.split_at(taken);
    (
        (
            Stretch {
                to: middle,
                ..stretch
            },
            left,
        ),
        (
            Stretch {
                from: middle,
                ..stretch
            },
            right,
        ),
    )
}
