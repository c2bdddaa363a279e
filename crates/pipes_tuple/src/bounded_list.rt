// Lists with a limit.
ghost use Rattle.std.specs.Prelude.{◌≡◌, ◌≤◌, ◌↔◌, IfOk, IfSome, IsSome, length, vec_len};
ghost use Rattle.std.specs.Cmp.Lexicographic.{pointwise, lists_per, lists_equiv};

use pipes_time::Memory;
use std::marker::Model;

/// A list of at most `N` items.
#[derive(Debug, Drop)]
pub struct BoundedList<T, const N: usize> {
    items: Vec<T>,
}

impl<T, const N: usize> Model for BoundedList<T, N> {
    ghost use Rattle.std.specs.Prelude.{List, ◌≤◌, vec_len};

    ghost Value = { List T };

    ghost view = { λ l. l.items.items };

    ghost invariant = { λ l. vec_len l.items ≤ N };
}

impl<T: Drop, const N: usize> BoundedList<T, N> {
    /// The list of these items, unless there are more than `N`.
    pub fn new(items: Vec<T>) -> Option<BoundedList<T, N>>
        ensures exact { IsSome result ↔ (vec_len items ≤ N) }
        ensures value { IfSome result (λ list. list ≡ items.items) }
    {
        if items.len() <= N {
            Some(BoundedList { items })
        } else {
            None
        }
    }

    /// The items, in order.
    pub fn as_slice(&self) -> &[T]
        ensures value { result.now ≡ self.now }
        ensures bound { length self.now ≤ N }
    {
        self.items.as_slice()
    }
}

impl<T: Copy, const N: usize> BoundedList<T, N> {
    /// A list equal to this one.
    pub fn copy(&self) -> Result<BoundedList<T, N>, Memory>
        ensures { IfOk result (λ list. list ≡ self.now) }
    {
        let items = Vec::from_slice(*self.items.allocator(), self.items.as_slice())?;
        Ok(BoundedList { items })
    }
}

impl<T: PartialEq, const N: usize> PartialEq for BoundedList<T, N> {
    ghost eq = { pointwise T.eq };

    ghost laws = { lists_per T.PartialEq.laws };

    fn eq(&self, other: &BoundedList<T, N>) -> bool {
        self.items.as_slice() == other.items.as_slice()
    }
}

impl<T: Eq, const N: usize> Eq for BoundedList<T, N> {
    ghost laws = { lists_equiv T.Eq.laws };
}
