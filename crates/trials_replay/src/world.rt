//! What the lines are asked of.
ghost use Rattle.std.specs.Prelude.{IfOk};
ghost use Rattle.au_catalog.specs.Staging.{IsOrdered};
ghost use Rattle.au_replay.specs.Sights.{IsSorted};

use au_catalog::Catalog;
use au_grants::Grants;
use au_replay::{GrantsSeen, Sight};
use au_txn::Desk;
use std::alloc::Global;
use trials_lines::Fault;

/// What is kept, without a trail.
#[derive(Drop)]
pub struct World {
    pub catalog: Catalog,
    pub grants: Grants,
    pub desk: Desk,
    pub instance: u32,
}

impl World {
    /// Nothing is kept.
    pub fn new(alloc: Global) -> Result<World, Fault>
        ensures { IfOk result (λ world. IsOrdered world.catalog) }
    {
        let desk = Desk::new(alloc)?;
        Ok(World {
            catalog: Catalog::new(alloc),
            grants: Grants::new(alloc),
            desk,
            instance: 0,
        })
    }
}

/// From here on nothing is kept.
pub fn begin_anew(alloc: Global, world: &mut World) -> Result<(), Fault>
    requires { IsOrdered world.old.catalog }
    ensures { IsOrdered world.new.catalog }
{
    *world = World::new(alloc)?;
    Ok(())
}

/// The world, as changes are tested against it.
pub fn sight(world: &World) -> Sight<'_>
    requires { IsOrdered world.now.catalog }
    ensures { IsSorted result }
{
    sight_with(world, GrantsSeen::Held(&world.grants))
}

/// The world with these grants, as changes are tested against it.
pub fn sight_with<'a>(world: &'a World, grants: GrantsSeen<'a>) -> Sight<'a>
    requires { IsOrdered world.now.catalog }
    ensures { IsSorted result }
{
    let catalog = &world.catalog;
    Sight {
        users: catalog.users.as_slice(),
        roles: catalog.roles.as_slice(),
        grants,
        tables: catalog.tables.as_slice(),
        desk: &world.desk,
        policies: catalog.policies.as_slice(),
        enabled: catalog.enabled.as_slice(),
        fga: catalog.fga.as_slice(),
        instance: world.instance,
    }
}
