//! A law of images.
ghost use Rattle.std.specs.Prelude.{◌≡◌, [], true};
ghost use Rattle.au_entries.specs.declared.kept.Kept.{Kept as AnyKept};
ghost use Rattle.au_entries.specs.Changing.{changed_all};
ghost use Rattle.au_entries.specs.Imaging.{image_changes, nothing};
ghost use Rattle.au_entries.specs.Lawful.{IsLawful};
ghost use Rattle.au_entries.specs.Replaying.{AllGoOn, Conditions};

/// The changes of an image of what is lawful go on from nothing, one after another, and make of
/// nothing what was kept, but for the trail and the last stamp, which an image has beside them. It
/// does nothing, and states the law for its callers.
pub fn images_come_back()
    ensures goes { (conditions : Conditions) (kept : AnyKept) → IsLawful conditions kept → AllGoOn conditions true nothing (image_changes kept) }
    ensures back { (conditions : Conditions) (kept : AnyKept) → IsLawful conditions kept → changed_all conditions.tree (image_changes kept) nothing ≡ record kept { trail = []; last = record { 0 = 0 } } }
{
    au_grants::grants_in_order_come_back();
}
