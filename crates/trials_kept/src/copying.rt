//! What is kept, led back from its image.
ghost use Rattle.std.specs.Prelude.{◌≡◌, []};
ghost use Rattle.au_base.specs.declared.numbers.ClientNo.{ClientNo as Client};
ghost use Rattle.au_entries.specs.Imaging.{nothing};
ghost use Rattle.au_txn.specs.Logs.{changes_of};

use au_kept::Keeping;
use rec_codec::read;
use std::alloc::Global;
use trials_lines::Fault;

/// Whether the framed image makes of nothing what has this image.
pub fn comes_back(alloc: Global, image: &[u8]) -> Result<bool, Fault> {
    let mut blank = Keeping::blank(alloc)?;
    leads_to(alloc, &mut blank, image)
}

fn leads_to(alloc: Global, blank: &mut Keeping, image: &[u8]) -> Result<bool, Fault>
    requires blank { blank.old.kept ≡ nothing }
    requires alone { (client : Client) → changes_of client blank.old.logs ≡ [] }
{
    match read(alloc, body_in(image))? {
        None => Ok(false),
        Some(frame) => {
            let goes = blank.replay(alloc, frame)?;
            Ok(goes && is_image(alloc, blank, image)?)
        }
    }
}

/// Whether these bytes are the framed image of what is kept.
pub fn is_image(alloc: Global, keeping: &Keeping, framed: &[u8]) -> Result<bool, Fault> {
    Ok(keeping.image(alloc)?.as_slice() == framed)
}

// The body of the frame: the bytes behind its length and before its gate.
fn body_in(framed: &[u8]) -> &[u8] {
    framed.get(8..framed.len().saturating_sub(1)).unwrap_or(&[])
}
