// Places of rows, as the columns of indices hold them.
ghost use Rattle.std.specs.Prelude.{◌≡◌, ◌<◌, ◌↔◌, ℕ, All, ◌&&◌, IsTrue, length, map, nat_lt, not};
ghost use Rattle.vortex_array_rows.specs.Taken.{SetPlacesBelow};

use vortex_buffer::BitBuffer;

/// A place in a list, in the width in which a column of indices holds it. Its meaning is the number of the place, so that
/// what is taken is said by the list `map place places` of numbers.
///
/// The unsigned native types and `usize` are places. A pass over them reads each in its own width: none is turned into a
/// list of `usize` first.
pub trait RowIndex: Copy {
    ghost place: { Self → ℕ };

    /// The number of the place.
    fn place(self) -> usize
        ensures { result ≡ place self };
}

impl RowIndex for u8 {
    ghost place = { λ n. n };

    #[inline(always)]
    fn place(self) -> usize {
        self as usize
    }
}

impl RowIndex for u16 {
    ghost place = { λ n. n };

    #[inline(always)]
    fn place(self) -> usize {
        self as usize
    }
}

impl RowIndex for u32 {
    ghost place = { λ n. n };

    #[inline(always)]
    fn place(self) -> usize {
        self as usize
    }
}

impl RowIndex for u64 {
    ghost place = { λ n. n };

    #[inline(always)]
    fn place(self) -> usize {
        self as usize
    }
}

impl RowIndex for usize {
    ghost place = { λ n. n };

    #[inline(always)]
    fn place(self) -> usize {
        self
    }
}

/// Whether all places are below a bound, as those of a list of so many rows are.
pub fn places_below<P: RowIndex>(places: &[P], bound: usize) -> bool
    ensures { IsTrue result ↔ All (λ place. place < bound) (map P.place places.now) }
{
    for i in 0..places.len() {
        if places[i].place() >= bound {
            return false;
        }
    }
    true
}

/// Whether all places whose bit is set are below a bound.
pub fn set_places_below<P: RowIndex>(places: &[P], valid: &BitBuffer, bound: usize) -> bool
    requires same_length { length places.now ≡ length valid.now }
    ensures { IsTrue result ↔ SetPlacesBelow bound (map P.place places.now) valid.now }
{
    for i in 0..places.len() {
        if is_outside(places[i], valid.value(i), bound) {
            return false;
        }
    }
    true
}

// Whether a place that is valid is not below a bound.
#[inline(always)]
fn is_outside<P: RowIndex>(place: P, valid: bool, bound: usize) -> bool
    ensures { result ≡ (valid && not (nat_lt (P.place place) bound)) }
{
    valid && place.place() >= bound
}
