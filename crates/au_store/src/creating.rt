//! Making a store.
ghost use Rattle.std.specs.Prelude.{◌≡◌, IfOk};
ghost use Rattle.au_io.specs.Disk.{Passes, Stays};
ghost use Rattle.au_io.specs.Moments.{Leaves, LeavesSince};
ghost use Rattle.au_journal.specs.Creation.{IsSelectedFormatted, OthersAreBlank};
ghost use Rattle.au_journal.specs.Frames.{IsLimit};
ghost use Rattle.au_journal.specs.Walk.{IsStill, IsUnformatted};
ghost use Rattle.au_image.specs.Image.{image_of};
ghost use Rattle.au_opening.specs.Opening.{opening};
ghost use Rattle.rec_codec.specs.Frames.{IsSpellable, framed};
ghost use Rattle.au_store.specs.Creating.{CreateCause, CreateLeaves, IsMade};

use crate::{Created, Store};
use au_base::Memory;
use au_engine::Engine;
use au_io::{Clock, Disk};
use au_journal::{Formatting, Journal};
use au_step::images_come_back;
use std::alloc::Global;

impl<D: Disk, C: Clock> Store<D, C> {
    /// Makes a store that nobody has used yet, whose SYS has this password and whose journal has this
    /// limit. It syncs the three areas first, and does nothing else where the selected area is
    /// formatted. A crash at any moment leaves what could be there before, or areas that aren't
    /// formatted, or the whole store. Where it failed it can be made again.
    pub fn create(alloc: Global, disk: &mut D, sys_password: &[u8], limit: u32) -> Created
        requires { IsLimit limit }
        ensures formatted { D.told → result ≡ Created.Formatted → IsSelectedFormatted (D.meaning disk.old).reads }
        ensures unformatted { D.told → result ≡ Created.Done → IsUnformatted (D.meaning disk.old).reads }
        ensures untouched { result ≡ Created.Formatted → Stays (D.meaning disk.old) (D.meaning disk.new) }
        ensures synced { result ≡ Created.Formatted → IsStill (D.meaning disk.new) }
        ensures uncalled { result ≡ Created.Memory → disk.new ≡ disk.old }
        ensures done { D.told → result ≡ Created.Done → Leaves (IsMade limit (opening sys_password.now)) (D.meaning disk.new) }
        ensures any_moment { D.told → Leaves OthersAreBlank (D.meaning disk.old)
            → LeavesSince (CreateLeaves (D.meaning disk.old) (opening sys_password.now)) (D.meaning disk.old) (D.meaning disk.new) }
        ensures again { D.told → Leaves OthersAreBlank (D.meaning disk.old) → LeavesSince OthersAreBlank (D.meaning disk.old) (D.meaning disk.new) }
        ensures time { Passes (D.meaning disk.old) (D.meaning disk.new) }
        ensures cause { CreateCause result (D.faults disk.old) (D.faults disk.new) }
    {
        images_come_back();
        match opening_image(alloc, sys_password) {
            Err(_) => Created::Memory,
            Ok(framed) => match Journal::format(disk, &framed, limit) {
                Formatting::Done => Created::Done,
                Formatting::Formatted => Created::Formatted,
                Formatting::Disk => Created::Disk,
            },
        }
    }
}

// The framed image of what a new store keeps.
fn opening_image(alloc: Global, password: &[u8]) -> Result<Vec<u8>, Memory>
    ensures bytes { IfOk result (λ bytes. bytes.items ≡ framed (image_of (opening password.now))) }
    ensures spellable { IfOk result (λ bytes. IsSpellable (image_of (opening password.now))) }
{
    let engine = Engine::of_new_store(alloc, password)?;
    let framed = engine.image(alloc);
    drop(engine);
    framed
}
