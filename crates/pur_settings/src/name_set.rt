//! Sets of names that answer at once.

ghost use Rattle.std.specs.Prelude.{◌≡◌, ◌<◌, ℕ, [], ◌∷◌, List, Option, Some, length};
ghost use Rattle.std.specs.List.{slice_get};
ghost use Rattle.pur_settings.specs.Sets.{each_once, is_in};
ghost use Rattle.pur_settings.specs.declared.editions.Edition.{Edition};

use crate::editions::Edition;
use std::marker::{Model, PhantomData};

/// A sort of names: a finite type. Each of its members has a rank, its place in the list of all, and texts name some of
/// them, which ones depends on the edition of the settings text.
pub(crate) trait Sort: Copy {
    ghost all: { List Self };

    ghost rank: { Self → ℕ };

    ghost named: { Edition → List ℕ → Option Self };

    // The member's place in the list of all.
    fn place(self) -> usize
        ensures number { result ≡ rank self }
        ensures within { result < length all }
        ensures member { slice_get all (rank self) ≡ Some self };

    // The member that a text names.
    fn find(edition: Edition, text: &str) -> Option<Self>
        ensures { result ≡ named edition text.now };
}

/// A set of names of one sort: for each of its members whether it is in the set. Contracts see the members that are in it,
/// each once, in the order of the list of all.
#[derive(Drop)]
pub(crate) struct NameSet<S: Sort, const N: usize> {
    holds: [bool; N],
    sort: PhantomData<S>,
}

impl<S: Sort, const N: usize> Model for NameSet<S, N> {
    ghost use Rattle.std.specs.Prelude.{◌≡◌, List, length};
    ghost use Rattle.pur_settings.specs.Private.Sets.{held};

    ghost Value = { List S };

    ghost view = { λ set. held S.rank S.all set.holds };

    ghost invariant = { λ set. length S.all ≡ N };
}

impl<S: Sort, const N: usize> NameSet<S, N> {
    // The empty set.
    pub(crate) fn new() -> NameSet<S, N>
        requires { length S.all ≡ N }
        ensures { result ≡ [] }
    {
        NameSet {
            holds: [false; N],
            sort: PhantomData,
        }
    }

    // Whether one is in the set.
    pub(crate) fn contains(&self, one: S) -> bool
        ensures { result ≡ is_in S.rank self.now one }
    {
        self.holds[one.place()]
    }

    // Puts one into the set.
    pub(crate) fn insert(&mut self, one: S)
        ensures { self.new ≡ each_once S.rank S.all (one ∷ self.old) }
    {
        self.holds[one.place()] = true;
    }
}
