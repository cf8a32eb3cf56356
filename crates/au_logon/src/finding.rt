//! Users, found by halving.
ghost use Rattle.std.specs.Prelude.{◌≡◌, ◌≤◌, true, false, IsTrue, length, map};
ghost use Rattle.std.specs.List.Sorted.{IsPartitionPoint};
ghost use Rattle.au_base.specs.Order.{is_in_order, name_before};
ghost use Rattle.au_logon.specs.Admitting.{has_verifier, is_with};

use au_base::Name;

/// Whether a user has this name and this verifier. The users stand in byte order.
pub fn has_verifier(users: &[(Name, [u8; 32])], name: &Name, verifier: &[u8; 32]) -> bool
    requires order { IsTrue (is_in_order name_before (map (λ user. user.0) users.now)) }
    ensures { result ≡ has_verifier users.now name.now verifier.now }
{
    let place = name_place(users, name);
    if place < users.len() {
        return is_with(&users[place], name, verifier);
    }
    false
}

fn is_with(user: &(Name, [u8; 32]), name: &Name, verifier: &[u8; 32]) -> bool
    ensures { result ≡ is_with name.now verifier.now user.now }
{
    user.0 == *name && user.1 == *verifier
}

// The place behind the users whose names come before this one.
fn name_place(users: &[(Name, [u8; 32])], name: &Name) -> usize
    requires order { IsTrue (is_in_order name_before (map (λ user. user.0) users.now)) }
    ensures bound { result ≤ length users.now }
    ensures place { IsPartitionPoint (λ user. name_before user.0 name.now ≡ true) (λ user. name_before user.0 name.now ≡ false) users.now result }
{
    users.partition_point(|user| user.0 < *name)
}
