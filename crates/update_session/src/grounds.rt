//! Touched grounds that marks share.
ghost use Rattle.std.specs.Prelude.{◌≡◌, IfOk};
ghost use Rattle.update_session.specs.Kept.{IsNoted};

use geo_addr::Memory;
use source_changes::GroundList;
use std::alloc::Global;
use std::marker::Model;
use std::sync::Arc;

/// Grounds in a list that is never changed, for whoever shares it.
#[derive(Drop)]
pub(crate) struct Grounds {
    list: Arc<GroundList>,
}

impl Model for Grounds {
    ghost use Rattle.std.specs.Prelude.{List};
    ghost use Rattle.std.specs.Arc.{arc_value};
    ghost use Rattle.geo_addr.specs.Ranges.{Ends};

    ghost Value = { List Ends };

    ghost view = { λ g. arc_value g.list };
}

impl Grounds {
    ghost use Rattle.std.specs.Prelude.{◌≡◌, IfOk};

    /// The same grounds in a list of their own.
    pub(crate) fn of(alloc: Global, grounds: &GroundList) -> Result<Grounds, Memory>
        ensures { IfOk result (λ list. list ≡ grounds.now) }
    {
        let list = Arc::new(alloc, grounds.copied(alloc)?)?;
        Ok(Grounds { list })
    }

    /// The list once more, shared.
    pub(crate) fn share(&self) -> Result<Grounds, Memory>
        ensures { IfOk result (λ same. same ≡ self.now) }
    {
        let list = Arc::try_clone(&self.list)?;
        Ok(Grounds { list })
    }

    /// The grounds.
    pub(crate) fn list(&self) -> &GroundList
        ensures { result.now ≡ self.now }
    {
        &self.list
    }
}

/// The grounds in a list to share: the one that was noted, or a new one.
pub(crate) fn listed(
    alloc: Global,
    noted: &Option<Grounds>,
    grounds: &GroundList,
) -> Result<Grounds, Memory>
    requires { IsNoted noted.now grounds.now }
    ensures { IfOk result (λ list. list ≡ grounds.now) }
{
    match noted {
        Some(list) => list.share(),
        None => Grounds::of(alloc, grounds),
    }
}
