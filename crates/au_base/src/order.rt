//! Values that stand in an order.
ghost use Rattle.std.specs.Prelude.{◌≡◌, ◌≢◌, ◌≤◌, ◌<◌, ◌↔◌, ◌⊎◌, Bool, List, IsTrue, length, take, drop, not, vec_capacity, vec_len};
ghost use Rattle.std.specs.List.{AllPairs, Contains, filter};
ghost use Rattle.au_base.specs.Order.{IsIrreflexive, IsNewAmong, IsTransitive, is_in_order, name_before, placed};
ghost use Rattle.au_base.specs.OrderLaws.{names_irreflexive, names_transitive};

use crate::Name;

/// What stands in an order: of two values one comes before the other, or neither does.
pub trait InOrder {
    ghost before: { Self → Self → Bool };

    /// Whether it comes before the other.
    fn comes_before(&self, other: &Self) -> bool
        ensures { result ≡ before self.now other.now };

    ghost transitive: { IsTransitive before };

    ghost irreflexive: { IsIrreflexive before };
}

/// Names stand in the order of their bytes.
impl InOrder for Name {
    ghost before = { name_before };

    ghost transitive = { names_transitive };

    ghost irreflexive = { names_irreflexive };

    fn comes_before(&self, other: &Self) -> bool {
        self < other
    }
}

/// How many elements come before the value: the place, from 0, at which it stands among them. The
/// elements stand in order, and are halved until the place is found.
pub fn place_in_order<T: InOrder>(elements: &[T], value: &T) -> usize
    requires { IsTrue (is_in_order T.before elements.now) }
    ensures count { result ≡ length (filter (λ other. T.before other value.now) elements.now) }
    ensures bound { result ≤ length elements.now }
    ensures front { take result elements.now ≡ filter (λ other. T.before other value.now) elements.now }
    ensures rest { drop result elements.now ≡ filter (λ other. not (T.before other value.now)) elements.now }
{
    elements.partition_point(|element| element.comes_before(value))
}

/// Places the value among elements that stand in order. The vector has room for it, and the call
/// takes no memory.
pub fn insert_reserved<T: InOrder + Drop>(elements: &mut Vec<T>, value: T)
    requires order { IsTrue (is_in_order T.before elements.old.items) }
    requires room { vec_len elements.old < vec_capacity elements.old }
    ensures items { elements.new.items ≡ placed T.before value elements.old.items }
    ensures capacity { vec_capacity elements.new ≡ vec_capacity elements.old }
{
    let place = place_in_order(elements.as_slice(), &value);
    let inserted = elements.insert(place, value);
    drop(inserted);
}

/// Elements in order stand in order with a new one. It does nothing, and states the law for its
/// callers.
pub fn placed_stands_in_order<T: InOrder>()
    ensures { (value : T) (elements : List T) → IsTrue (is_in_order T.before elements) → IsNewAmong T.before value elements → IsTrue (is_in_order T.before (placed T.before value elements)) }
{}

/// What stands among elements with a new one is the new one or one of the elements. It does
/// nothing, and states the law for its callers.
pub fn placed_has_both<T: InOrder>()
    ensures { (value : T) (elements : List T) (other : T) → Contains (placed T.before value elements) other ↔ ((value ≡ other) ⊎ Contains elements other) }
{}

/// No element of a list in order stands there twice. It does nothing, and states the law for its
/// callers.
pub fn nothing_in_order_stands_twice<T: InOrder>()
    ensures { (elements : List T) → IsTrue (is_in_order T.before elements) → AllPairs (λ a b. a ≢ b) elements }
{}
