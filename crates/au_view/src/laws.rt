//! The law of what is kept as a world.
ghost use Rattle.std.specs.Prelude.{◌≡◌};
ghost use Rattle.au_catalog.specs.Settling.{catalog_of};
ghost use Rattle.au_kept.specs.Keeping.{Contents, HoldsTogether, desk_of};
ghost use Rattle.au_world.specs.Sound.{IsSoundWorld};
ghost use Rattle.au_world.specs.declared.world.World.{World as State};

/// A world that has the catalogue, the desk and the records of a keeping is sound: what a keeping
/// holds in every state is enough. It does nothing, and states the law for its callers.
pub fn keepings_are_sound_worlds()
    ensures { (contents : Contents) (world : State) → HoldsTogether contents.kept (desk_of contents)
        → world.catalog.now ≡ catalog_of contents.kept → world.desk.now ≡ desk_of contents → world.records.now ≡ contents.kept.trail → IsSoundWorld world }
{
    au_kept::worlds_are_sound();
}
