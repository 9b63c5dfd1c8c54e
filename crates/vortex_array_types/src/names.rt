// Names, texts and bytes: key types, whose order, equality and hash are those of their bytes.
ghost use Rattle.std.specs.Prelude.{◌≡◌, IfOk, nat_eq, refl, string_bytes};
ghost use Rattle.std.proofs.Common.{rules};
ghost use Rattle.std.specs.Cmp.{partial_equiv_from_equiv, partial_order_from_own_ties};
ghost use Rattle.std.specs.Cmp.Lexicographic.{nat_list_eq_equiv, pointwise, slice_cmp};
ghost use Rattle.std.specs.Cmp.Rules.{comparing, hashing};
ghost use Rattle.std.specs.Hash as fed;
ghost use Rattle.std.specs.Ordering.{as_partial_cmp, nat_cmp};

use std::alloc::{AllocError, Global};
use std::cmp::Ordering;
use std::fmt;
use std::hash::{Hash, Hasher};
use std::marker::Model;
use vortex_buffer::Items;

/// A text. Contracts see its bytes.
pub struct Text {
    text: String,
}

impl Drop for Text {
    fn drop(self) {
        let Text { text: _text } = self;
    }
}

impl Model for Text {
    ghost use Rattle.std.specs.Prelude.{ℕ, List, string_bytes};

    ghost Value = { List ℕ };

    ghost view = { λ t. string_bytes t.text };
}

impl Text {
    /// A copy of this text.
    pub fn from_str(alloc: Global, text: &str) -> Result<Text, AllocError>
        ensures { IfOk result (λ t. t ≡ text.now) }
    {
        Ok(Text {
            text: String::from_str(alloc, text)?,
        })
    }

    /// The text.
    pub fn as_str(&self) -> &str
        ensures { result.now ≡ self.now }
    {
        self.text.as_str()
    }

    /// A second text of the same letters.
    pub fn try_clone(&self, alloc: Global) -> Result<Text, AllocError>
        ensures { IfOk result (λ t. t ≡ self.now) }
    {
        Text::from_str(alloc, self.as_str())
    }
}

impl PartialEq for Text {
    ghost eq = { pointwise nat_eq };

    ghost laws = { partial_equiv_from_equiv nat_list_eq_equiv };

    fn eq(&self, other: &Text) -> bool {
        self.text == other.text
    }
}

impl Eq for Text {
    ghost laws = { nat_list_eq_equiv };
}

impl PartialOrd for Text {
    ghost partial_cmp = { as_partial_cmp (slice_cmp nat_cmp) };

    ghost laws = { partial_order_from_own_ties (Prim.search (comparing, rules)) (Prim.search (comparing, rules)) };

    fn partial_cmp(&self, other: &Text) -> Option<Ordering> {
        Some(self.cmp(other))
    }
}

impl Ord for Text {
    ghost cmp = { slice_cmp nat_cmp };

    ghost total = { Prim.search (comparing, rules) };

    ghost matches_partial_cmp = { λ x y. refl };

    ghost matches_eq = { Prim.search (comparing, rules) };

    fn cmp(&self, other: &Text) -> Ordering {
        self.text.cmp(&other.text)
    }
}

impl Hash for Text {
    ghost hash_input = { fed.str };

    ghost respects_eq = { Prim.search (hashing, rules) };

    fn hash<H: Hasher>(&self, state: &mut H) {
        self.text.as_str().hash(state);
    }
}

/// The name of a column.
#[derive(PartialEq, Eq, PartialOrd, Ord, Hash)]
pub struct Name {
    text: Text,
}

impl Drop for Name {
    fn drop(self) {
        let Name { text: _text } = self;
    }
}

impl Model for Name {
    ghost use Rattle.std.specs.Prelude.{ℕ, List};

    ghost Value = { List ℕ };

    ghost view = { λ n. n.text };

    ghost inverse = { λ l. record { text = l } };
}

impl Name {
    /// A copy of this text.
    pub fn from_str(alloc: Global, text: &str) -> Result<Name, AllocError>
        ensures { IfOk result (λ t. t ≡ text.now) }
    {
        Ok(Name {
            text: Text::from_str(alloc, text)?,
        })
    }

    /// The text of the name.
    pub fn as_str(&self) -> &str
        ensures { result.now ≡ self.now }
    {
        self.text.as_str()
    }

    /// A second name of the same text.
    pub fn try_clone(&self, alloc: Global) -> Result<Name, AllocError>
        ensures { IfOk result (λ n. n ≡ self.now) }
    {
        Name::from_str(alloc, self.as_str())
    }
}

impl fmt::Display for Name {
    ghost use Rattle.std.specs.Prelude.{Some};

    ghost output = { λ n. Some n };

    fn fmt<W: fmt::Write>(&self, f: &mut fmt::Formatter<W>) -> fmt::Result {
        let name = self.as_str();
        write!(f, "{name}")
    }
}

impl fmt::Debug for Name {
    fn fmt<W: fmt::Write>(&self, f: &mut fmt::Formatter<W>) -> fmt::Result {
        let name = self.as_str();
        write!(f, "{name:?}")
    }
}

/// A list of bytes.
#[derive(PartialEq, Eq, PartialOrd, Ord, Hash)]
pub struct Bytes {
    items: Items<u8>,
}

impl Drop for Bytes {
    fn drop(self) {
        let Bytes { items: _items } = self;
    }
}

impl Model for Bytes {
    ghost use Rattle.std.specs.Prelude.{ℕ, List};

    ghost Value = { List ℕ };

    ghost view = { λ b. b.items };

    ghost inverse = { λ l. record { items = l } };
}

impl Bytes {
    /// A copy of these bytes.
    pub fn from_slice(alloc: Global, bytes: &[u8]) -> Result<Bytes, AllocError>
        ensures { IfOk result (λ b. b ≡ bytes.now) }
    {
        let items = Vec::from_slice(alloc, bytes)?;
        Ok(Bytes {
            items: Items::from_vec(items),
        })
    }

    /// The bytes.
    pub fn as_slice(&self) -> &[u8]
        ensures { result.now ≡ self.now }
    {
        self.items.as_slice()
    }

    /// A second list of the same bytes.
    pub fn try_clone(&self, alloc: Global) -> Result<Bytes, AllocError>
        ensures { IfOk result (λ b. b ≡ self.now) }
    {
        Bytes::from_slice(alloc, self.as_slice())
    }
}
