//! What is kept as a world.
ghost use Rattle.std.specs.Prelude.{◌≡◌};
ghost use Rattle.au_catalog.specs.Settling.{catalog_of};
ghost use Rattle.au_kept.specs.Keeping.{desk_of};
ghost use Rattle.au_world.specs.Sound.{IsSoundWorld};

use crate::laws::keepings_are_sound_worlds;
use au_kept::Keeping;
use au_world::World;

/// What is kept, with the changes of open transactions, as the world of queries. It is sound, copies
/// nothing and takes no memory.
pub fn world(keeping: &Keeping) -> World<'_>
    ensures catalog { result.catalog.now ≡ catalog_of keeping.now.kept }
    ensures grants { result.grants.now ≡ keeping.now.kept.grants }
    ensures desk { result.desk.now ≡ desk_of keeping.now }
    ensures records { result.records.now ≡ keeping.now.kept.trail }
    ensures sound { IsSoundWorld result }
{
    keeping.holds_together();
    keepings_are_sound_worlds();
    World {
        catalog: keeping.catalog(),
        grants: keeping.grants(),
        desk: keeping.desk(),
        records: keeping.trail(),
    }
}
