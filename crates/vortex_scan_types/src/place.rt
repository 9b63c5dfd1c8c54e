// Numbers of roots, and places.
ghost use Rattle.std.specs.Prelude.{◌≡◌, ◌++◌, ◌∷◌, [], IfOk};

use std::alloc::{AllocError, Global};
use std::marker::Model;
use vortex_buffer::Items;

/// The number of a root: of a partition's rank among those that a scan chose.
#[derive(Clone, Copy, Debug, PartialEq, Eq, PartialOrd, Ord, Hash)]
pub struct RootId(pub u64);

/// Where a batch's work stands among all work: a list of numbers, in lexicographic order.
#[derive(PartialEq, Eq, PartialOrd, Ord, Hash)]
pub struct Place {
    numbers: Items<u64>,
}

impl Drop for Place {
    fn drop(self) {
        let Place { numbers: _numbers } = self;
    }
}

impl Model for Place {
    ghost use Rattle.std.specs.Prelude.{ℕ, List};

    ghost Value = { List ℕ };

    ghost view = { λ p. p.numbers };

    ghost inverse = { λ l. record { numbers = l } };
}

impl Place {
    /// These numbers. It takes the vector's memory and none besides.
    pub fn from_vec(numbers: Vec<u64>) -> Place
        ensures { result ≡ numbers.items }
    {
        Place {
            numbers: Items::from_vec(numbers),
        }
    }

    /// The numbers.
    pub fn as_slice(&self) -> &[u64]
        ensures { result.now ≡ self.now }
    {
        self.numbers.as_slice()
    }

    /// The place of a root.
    pub fn of_root(alloc: Global, root: RootId) -> Result<Place, AllocError>
        ensures { IfOk result (λ place. place ≡ root.0 ∷ []) }
    {
        let mut numbers = Vec::new(alloc);
        numbers.push(root.0)?;
        Ok(Place::from_vec(numbers))
    }

    /// This place followed by a number.
    pub fn followed_by(&self, alloc: Global, number: u64) -> Result<Place, AllocError>
        ensures { IfOk result (λ place. place ≡ self.now ++ number ∷ []) }
    {
        let mut numbers = Vec::from_slice(alloc, self.as_slice())?;
        numbers.push(number)?;
        Ok(Place::from_vec(numbers))
    }

    /// A copy of this place.
    pub fn copy(&self, alloc: Global) -> Result<Place, AllocError>
        ensures { IfOk result (λ place. place ≡ self.now) }
    {
        let numbers = Vec::from_slice(alloc, self.as_slice())?;
        Ok(Place::from_vec(numbers))
    }
}
