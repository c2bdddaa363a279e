// Texts.
ghost use Rattle.std.specs.Prelude.{◌≡◌, ◌<◌, ◌≤◌, ◌↔◌, length, IfOk, nat_eq, Some, refl};
ghost use Rattle.std.specs.Ordering.{nat_cmp};
ghost use Rattle.std.specs.Cmp.{partial_equiv_from_equiv};
ghost use Rattle.std.specs.Cmp.Lexicographic.{pointwise, slice_cmp, texts_ties, texts_po};
ghost use Rattle.std.specs.Cmp.Lexicographic.{nat_list_eq_equiv, nat_list_cmp_total};
ghost use Rattle.std.specs.Cmp.Rules.{hashing};
ghost use Rattle.std.specs.Hash as fed;
ghost use Rattle.std.proofs.Common.{rules};

use pipes_time::Memory;
use std::alloc::Global;
use std::cmp::Ordering;
use std::hash::{Hash, Hasher};
use std::marker::Model;

/// The most bytes that a [`Text`] has.
pub const LONGEST_TEXT: usize = 65_535;

/// UTF-8 of at most [`LONGEST_TEXT`] bytes, ordered by bytes.
#[derive(Debug, Drop)]
pub struct Text {
    text: String,
}

impl Model for Text {
    ghost use Rattle.std.specs.Prelude.{List, ℕ, ◌≤◌, length, string_bytes};

    ghost Value = { List ℕ };

    ghost view = { λ t. string_bytes t.text };

    ghost invariant = { λ t. length (string_bytes t.text) ≤ 65535 };
}

/// Why there is no [`Text`] of a text.
#[derive(Clone, Copy, Debug, PartialEq, Eq)]
pub enum TextFault {
    /// It has more than [`LONGEST_TEXT`] bytes.
    TooLong,
    /// Out of memory.
    Memory,
}

impl Text {
    /// A copy of the text, unless it is too long.
    pub fn new(alloc: Global, text: &str) -> Result<Text, TextFault>
        ensures value { IfOk result (λ made. made ≡ text.now) }
        ensures too_long { (result ≡ Err TextFault.TooLong) ↔ (LONGEST_TEXT < length text.now) }
    {
        if text.len() > LONGEST_TEXT {
            return Err(TextFault::TooLong);
        }
        match String::from_str(alloc, text) {
            Ok(text) => Ok(Text { text }),
            Err(_) => Err(TextFault::Memory),
        }
    }

    /// The text itself.
    pub fn as_str(&self) -> &str
        ensures value { result.now ≡ self.now }
        ensures bound { length self.now ≤ LONGEST_TEXT }
    {
        self.text.as_str()
    }

    /// A text equal to this one.
    pub fn copy(&self) -> Result<Text, Memory>
        ensures { IfOk result (λ text. text ≡ self.now) }
    {
        let text = String::from_str(*self.text.allocator(), self.text.as_str())?;
        Ok(Text { text })
    }
}

impl PartialEq for Text {
    ghost eq = { pointwise nat_eq };

    ghost laws = { partial_equiv_from_equiv nat_list_eq_equiv };

    fn eq(&self, other: &Text) -> bool {
        self.as_str() == other.as_str()
    }
}

impl Eq for Text {
    ghost laws = { nat_list_eq_equiv };
}

impl PartialOrd for Text {
    ghost partial_cmp = { λ x y. Some (slice_cmp nat_cmp x y) };

    ghost laws = { texts_po };

    fn partial_cmp(&self, other: &Text) -> Option<Ordering> {
        Some(self.cmp(other))
    }
}

impl Ord for Text {
    ghost cmp = { slice_cmp nat_cmp };

    ghost total = { nat_list_cmp_total };

    ghost matches_partial_cmp = { λ x y. refl };

    ghost matches_eq = { λ x y. texts_ties x y };

    fn cmp(&self, other: &Text) -> Ordering {
        self.as_str().cmp(other.as_str())
    }
}

impl Hash for Text {
    ghost hash_input = { fed.str };

    ghost respects_eq = { Prim.search (hashing, rules) };

    fn hash<H: Hasher>(&self, state: &mut H) {
        self.as_str().hash(state);
    }
}
