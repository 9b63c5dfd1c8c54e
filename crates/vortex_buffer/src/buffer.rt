// Values of a plain type, which stay as they are.
ghost use Rattle.std.specs.Prelude.{◌≡◌, ◌<◌, ◌==◌, IfOk, length, slice_index_or};

use std::alloc::{AllocError, Global};
use std::marker::Model;

/// Values of a plain type that stay as they are. Contracts see the list of them.
pub struct Buffer<T: Copy> {
    values: Vec<T>,
}

impl<T: Copy> Drop for Buffer<T> {
    fn drop(self) {
        let Buffer { values: _values } = self;
    }
}

impl<T: Copy> Model for Buffer<T> {
    ghost use Rattle.std.specs.Prelude.{List};

    ghost Value = { List T };

    ghost view = { λ b. b.values.items };
}

impl<T: Copy> Buffer<T> {
    /// A buffer of these values. It takes the vector's memory and none besides.
    pub fn from_vec(values: Vec<T>) -> Buffer<T>
        ensures { result ≡ values.items }
    {
        Buffer { values }
    }

    /// The values in a vector. It takes no memory.
    pub fn into_vec(self) -> Vec<T>
        ensures { result.items ≡ self }
    {
        let Buffer { values } = self;
        values
    }

    /// A buffer of a copy of these values.
    pub fn from_slice(alloc: Global, values: &[T]) -> Result<Buffer<T>, AllocError>
        ensures { IfOk result (λ b. b ≡ values.now) }
    {
        Ok(Buffer {
            values: Vec::from_slice(alloc, values)?,
        })
    }

    /// The values.
    pub fn as_slice(&self) -> &[T]
        ensures { result.now ≡ self.now }
    {
        self.values.as_slice()
    }

    /// How many values there are.
    pub fn len(&self) -> usize
        ensures { result ≡ length self.now }
    {
        self.values.len()
    }

    /// Whether there is no value.
    pub fn is_empty(&self) -> bool
        ensures { result ≡ (length self.now == 0) }
    {
        self.values.is_empty()
    }

    /// The value at a place.
    pub fn get(&self, i: usize) -> T
        requires { i < length self.now }
        ensures { result ≡ slice_index_or self.now i result }
    {
        self.values[i]
    }

    /// A second buffer of the same values.
    pub fn try_clone(&self, alloc: Global) -> Result<Buffer<T>, AllocError>
        ensures { IfOk result (λ b. b ≡ self.now) }
    {
        Buffer::from_slice(alloc, self.values.as_slice())
    }
}
