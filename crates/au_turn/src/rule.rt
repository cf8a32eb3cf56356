//! The rule of a turn's table, and what each of its steps tells.
use crate::held::Held;
use crate::view::View;
use atomic_table::{Join, Play, Split, TableRule};
use std::marker::{Brand, PhantomData};
use std::snapshot::Snapshot;

/// The rule. It holds between any two steps, whoever makes them.
pub struct InTurn;

impl<T: Held> TableRule<Option<T>, View<T::Entry>, Snapshot<T>> for InTurn {
    ghost use Rattle.au_turn.specs.Rule.{Kept};
    ghost use Rattle.au_turn.specs.View.{newcomer};

    ghost holds = { λ _. Kept T.stands };

    ghost first = { λ about. newcomer (T.first about.value) };
}

/// The word goes from free to held, and the value comes out with the pass.
pub(crate) struct Take;

impl<T: Held> Play<Option<T>, View<T::Entry>> for Take {
    ghost use Rattle.au_turn.specs.Rule.{Taken};

    ghost then = { Taken T.stands };
}

/// The lists of which one is announced.
pub trait Telling<E> {
    ghost use Rattle.std.specs.Prelude.{List};

    ghost told: { List E → Type 0 };
}

impl<E> Telling<E> for Brand {
    ghost told = { λ _. Unit {0} };
}

/// The holder says which entries it is about to make known.
pub(crate) struct Announce<B> {
    marker: PhantomData<B>,
}

impl<T: Held, B: Telling<T::Entry>> Play<Option<T>, View<T::Entry>> for Announce<B> {
    ghost use Rattle.au_turn.specs.Rule.{Announced};

    ghost then = { Announced T.stands B.told };
}

/// The word goes from held to free, one turn later, and the value goes back into the slot.
pub(crate) struct Release;

impl<T: Held> Play<Option<T>, View<T::Entry>> for Release {
    ghost use Rattle.au_turn.specs.Rule.{Released};

    ghost then = { Released T.stands };
}

/// The second half of a join: both lists that were seen are known to begin the one that is seen.
pub(crate) struct Meet;

impl<S, E> Play<S, View<E>> for Meet {
    ghost use Rattle.au_turn.specs.Rule.{Met};

    ghost then = { Met };
}

/// The holder puts back the slot with nothing in it, and keeps the value for good.
pub(crate) struct Empty;

impl<T, E> Play<Option<T>, View<E>> for Empty {
    ghost use Rattle.au_turn.specs.Rule.{Emptied};

    ghost then = { Emptied };
}

/// A pass is cut in two: the second has seen as much and made nothing.
pub(crate) struct Part;

impl<E> Split<View<E>> for Part {
    ghost use Rattle.au_turn.specs.View.{newcomer};

    ghost left = { λ v. v };

    ghost right = { λ v. newcomer v.seen };
}

/// Two passes become one: it has seen what the one that saw more has seen.
pub(crate) struct Both;

impl<E> Join<View<E>> for Both {
    ghost use Rattle.au_turn.specs.View.{joined, gone};

    ghost both = { joined };

    ghost spent = { gone };
}
