// Lists of bytes, as texts and binary values are, one after another in one buffer.
ghost use Rattle.std.specs.Prelude.{◌≡◌, ◌==◌, ◌<◌, ◌≤◌, ◌+◌, ◌-◌, ◌^◌, ◌++◌, ◌∷◌, [], EachIndex, length, map, IfOk, OnOk, OnErr, slice_index, slice_index_or, slice_range, vec_capacity, vec_len};
ghost use Rattle.std.specs.Cmp.Lexicographic.{slice_cmp};
ghost use Rattle.std.specs.Ordering.{is_eq, nat_cmp};
ghost use Rattle.vortex_array_lists.specs.Fronts.{front_number};
ghost use Rattle.vortex_array_lists.specs.Pieces.{pieces, IsChain, start_at};

use crate::fronts::{equal_between, front_between, order_between};
use std::alloc::{AllocError, Global};
use std::cmp::Ordering;
use std::marker::Model;

/// Lists of bytes, one after another in one buffer. Contracts see the list of them.
pub struct ByteLists {
    bytes: Vec<u8>,
    ends: Vec<usize>,
}

impl Drop for ByteLists {
    fn drop(self) {
        let ByteLists {
            bytes: _bytes,
            ends: _ends,
        } = self;
    }
}

impl Model for ByteLists {
    ghost use Rattle.std.specs.Prelude.{List, ℕ, length};
    ghost use Rattle.vortex_array_lists.specs.Pieces.{pieces, IsChain};

    ghost Value = { List (List ℕ) };

    ghost view = { λ b. pieces b.bytes.items 0 b.ends.items };

    ghost invariant = { λ b. IsChain 0 b.ends.items (length b.bytes.items) };
}

impl ByteLists {
    /// No list yet. It takes no memory.
    pub fn new(alloc: Global) -> ByteLists
        ensures { result ≡ [] }
    {
        ByteLists {
            bytes: Vec::new(alloc),
            ends: Vec::new(alloc),
        }
    }

    /// No list yet, and room for so many, but for their bytes.
    pub fn with_capacity(alloc: Global, count: usize) -> Result<ByteLists, AllocError>
        ensures { IfOk result (λ lists. lists ≡ []) }
    {
        Ok(ByteLists {
            bytes: Vec::new(alloc),
            ends: Vec::with_capacity(alloc, count)?,
        })
    }

    /// How many lists of bytes there are.
    pub fn len(&self) -> usize
        ensures { result ≡ length self.now }
    {
        self.ends.len()
    }

    /// Whether there is none.
    pub fn is_empty(&self) -> bool
        ensures { result ≡ (length self.now == 0) }
    {
        self.len() == 0
    }

    /// The bytes of list `i`.
    pub fn get(&self, i: usize) -> &[u8]
        requires { i < length self.now }
        ensures { result.now ≡ slice_index_or self.now i [] }
    {
        piece(&self.bytes, &self.ends, i)
    }

    /// How list `i` stands to another, whose front is `front_of` of it: byte by byte, and a list before those that go on
    /// behind its end.
    #[inline(always)]
    pub fn compare_with(&self, i: usize, other: &[u8], front: u64) -> Ordering
        requires inside { i < length self.now }
        requires front { front ≡ front_number other.now }
        ensures { result ≡ slice_cmp nat_cmp (slice_index_or self.now i []) other.now }
    {
        piece_order(&self.bytes, &self.ends, i, other, front)
    }

    /// How list `i` stands to list `j` of others, as `compare_with` says.
    #[inline(always)]
    pub fn compare(&self, i: usize, others: &ByteLists, j: usize) -> Ordering
        requires inside { i < length self.now }
        requires others { j < length others.now }
        ensures { result ≡ slice_cmp nat_cmp (slice_index_or self.now i []) (slice_index_or others.now j []) }
    {
        self.compare_with(i, others.get(j), others.front(j))
    }

    /// Whether list `i` is another, whose front is `front_of` of it. The lengths are asked first.
    #[inline(always)]
    pub fn equals_with(&self, i: usize, other: &[u8], front: u64) -> bool
        requires inside { i < length self.now }
        requires front { front ≡ front_number other.now }
        ensures { result ≡ is_eq (slice_cmp nat_cmp (slice_index_or self.now i []) other.now) }
    {
        piece_equals(&self.bytes, &self.ends, i, other, front)
    }

    /// Whether list `i` is list `j` of others. The lengths are asked first.
    #[inline(always)]
    pub fn equals(&self, i: usize, others: &ByteLists, j: usize) -> bool
        requires inside { i < length self.now }
        requires others { j < length others.now }
        ensures { result ≡ is_eq (slice_cmp nat_cmp (slice_index_or self.now i []) (slice_index_or others.now j [])) }
    {
        let other = others.get(j);
        if self.get(i).len() != other.len() {
            return false;
        }
        self.equals_with(i, other, others.front(j))
    }

    /// The front of list `i`, as `front_of` tells it. For most lists it is one load.
    #[inline(always)]
    pub fn front(&self, i: usize) -> u64
        requires { i < length self.now }
        ensures { result ≡ front_number (slice_index_or self.now i []) }
    {
        piece_front(&self.bytes, &self.ends, i)
    }

    /// Puts a list of bytes behind the others. Where memory runs out, nothing has changed.
    pub fn push(&mut self, value: &[u8]) -> Result<(), AllocError>
        ensures pushed { OnOk result (self.new ≡ self.old ++ value.now ∷ []) }
        ensures kept { OnErr result (self.new ≡ self.old) }
    {
        self.ends.reserve(1)?;
        self.bytes.extend_from_slice(value)?;
        let end = self.bytes.len();
        let _ = self.ends.push(end);
        Ok(())
    }

    /// Puts the lists of others from `start` up to `end` behind these, their bytes as one run. Where memory runs out, nothing
    /// has changed.
    pub fn push_part(
        &mut self,
        lists: &ByteLists,
        start: usize,
        end: usize,
    ) -> Result<(), AllocError>
        requires order { start ≤ end }
        requires within { end ≤ length lists.now }
        ensures pushed { OnOk result (self.new ≡ self.old ++ slice_range lists.now start end) }
        ensures kept { OnErr result (self.new ≡ self.old) }
    {
        let (from, to) = run_of(lists.bytes.len(), &lists.ends, start, end);
        let before = self.bytes.len();
        self.ends.reserve(end - start)?;
        self.bytes.extend_from_slice(&lists.bytes[from..to])?;
        push_moved(&mut self.ends, &lists.ends[start..end], from, before);
        Ok(())
    }

    /// The lists from `start` up to `end`, without it. Their bytes are copied as one run.
    pub fn slice(&self, alloc: Global, start: usize, end: usize) -> Result<ByteLists, AllocError>
        requires order { start ≤ end }
        requires within { end ≤ length self.now }
        ensures ok { IfOk result (λ part. part ≡ slice_range self.now start end) }
    {
        let mut part = ByteLists::with_capacity(alloc, end - start)?;
        part.push_part(self, start, end)?;
        Ok(part)
    }

    /// The same lists again.
    pub fn try_clone(&self, alloc: Global) -> Result<ByteLists, AllocError>
        ensures ok { IfOk result (λ lists. lists ≡ self.now) }
    {
        Ok(ByteLists {
            bytes: Vec::from_slice(alloc, &self.bytes)?,
            ends: Vec::from_slice(alloc, &self.ends)?,
        })
    }
}

// Where the pieces from `start` up to `end` begin and end.
fn run_of(len: usize, ends: &[usize], start: usize, end: usize) -> (usize, usize)
    requires order { start ≤ end }
    requires inside { end ≤ length ends.now }
    requires chain { IsChain 0 ends.now len }
    ensures order { result.0 ≤ result.1 }
    ensures within { result.1 ≤ len }
    ensures start { result.0 ≡ start_at 0 ends.now start }
    ensures end { result.1 ≡ start_at 0 ends.now end }
{
    (start_of(ends, start), start_of(ends, end))
}

// Puts the ends of a part behind the others, moved from where the part began to where it begins now.
#[inline(always)]
fn push_moved(ends: &mut Vec<usize>, part: &[usize], from: usize, to: usize)
    requires room { vec_len ends.old + length part.now ≤ vec_capacity ends.old }
    requires above { EachIndex part.now (λ k. from ≤ slice_index part.now k) }
    requires fits { EachIndex part.now (λ k. to + (slice_index part.now k - from) < 2 ^ 64) }
    ensures { ends.new.items ≡ ends.old.items ++ map (λ end. to + (end - from)) part.now }
{
    for end in part {
        let _ = ends.push(to + (*end - from));
    }
}

// Piece i of the bytes.
fn piece<'a>(bytes: &'a [u8], ends: &[usize], i: usize) -> &'a [u8]
    requires inside { i < length ends.now }
    requires chain { IsChain 0 ends.now (length bytes.now) }
    ensures { result.now ≡ slice_index_or (pieces bytes.now 0 ends.now) i [] }
{
    let (start, end) = bounds_of(bytes.len(), ends, i);
    &bytes[start..end]
}

// The front of piece i.
#[inline(always)]
fn piece_front(bytes: &[u8], ends: &[usize], i: usize) -> u64
    requires inside { i < length ends.now }
    requires chain { IsChain 0 ends.now (length bytes.now) }
    ensures { result ≡ front_number (slice_index_or (pieces bytes.now 0 ends.now) i []) }
{
    let (start, end) = bounds_of(bytes.len(), ends, i);
    front_between(bytes, start, end)
}

// How piece i stands to a list of this front.
#[inline(always)]
fn piece_order(bytes: &[u8], ends: &[usize], i: usize, other: &[u8], front: u64) -> Ordering
    requires inside { i < length ends.now }
    requires chain { IsChain 0 ends.now (length bytes.now) }
    requires front { front ≡ front_number other.now }
    ensures { result ≡ slice_cmp nat_cmp (slice_index_or (pieces bytes.now 0 ends.now) i []) other.now }
{
    let (start, end) = bounds_of(bytes.len(), ends, i);
    order_between(bytes, start, end, other, front)
}

// Whether piece i is a list of this front.
#[inline(always)]
fn piece_equals(bytes: &[u8], ends: &[usize], i: usize, other: &[u8], front: u64) -> bool
    requires inside { i < length ends.now }
    requires chain { IsChain 0 ends.now (length bytes.now) }
    requires front { front ≡ front_number other.now }
    ensures { result ≡ is_eq (slice_cmp nat_cmp (slice_index_or (pieces bytes.now 0 ends.now) i []) other.now) }
{
    let (start, end) = bounds_of(bytes.len(), ends, i);
    equal_between(bytes, start, end, other, front)
}

// Where piece i begins and ends.
fn bounds_of(len: usize, ends: &[usize], i: usize) -> (usize, usize)
    requires inside { i < length ends.now }
    requires chain { IsChain 0 ends.now len }
    ensures order { result.0 ≤ result.1 }
    ensures within { result.1 ≤ len }
    ensures start { result.0 ≡ start_at 0 ends.now i }
    ensures end { result.1 ≡ slice_index ends.now i }
{
    (start_of(ends, i), ends[i])
}

// Where piece i begins; behind the last one, where that ends.
fn start_of(ends: &[usize], i: usize) -> usize
    requires { i ≤ length ends.now }
    ensures { result ≡ start_at 0 ends.now i }
{
    if i == 0 { 0 } else { ends[i - 1] }
}
