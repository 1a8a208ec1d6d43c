//! What holds of all elements and integers, as functions that do nothing: the
//! clauses are the laws.
ghost use Rattle.std.specs.Prelude.{◌≡◌, ◌<◌, ◌≤◌, ◌^◌, ◌↔◌, ℕ, List, Some, length};
ghost use Rattle.sgp_der.specs.Element.{element, IsTag};
ghost use Rattle.sgp_der.specs.Fields.{only_at};
ghost use Rattle.sgp_der.specs.Laws.{ElementsSplit, FieldAgain, OneContent, ReadAgain};
ghost use Rattle.sgp_der.specs.Number.{IsUint, uint, uint_of};

use crate::form::MOST_CONTENT;
use crate::number::MOST_UINT;

/// An element's bytes determine its tag and content, and no element is a
/// proper prefix of another.
pub fn elements_split()
    ensures { ElementsSplit }
{}

/// What `put_head`, `put_octets` and `put_uint` append is read again by `next`
/// and `field`, whatever follows, and by `only`.
pub fn elements_read_again()
    ensures next { (tag : ℕ) (content rest : List ℕ) → IsTag tag → length content ≤ MOST_CONTENT
        → ReadAgain tag content rest }
    ensures field { (tag : ℕ) (content rest : List ℕ) → IsTag tag → length content ≤ MOST_CONTENT
        → FieldAgain tag content rest }
    ensures only { (tag : ℕ) (content : List ℕ) → IsTag tag → length content ≤ MOST_CONTENT
        → only_at tag (element tag content) ≡ Some content }
{}

/// A number has one content, which is its shortest two's complement: 1 to
/// 9 octets below 2^64.
pub fn integers_have_one_content()
    ensures spelled { (n : ℕ) → IsUint (uint n) n }
    ensures one { OneContent }
    ensures some { (n : ℕ) → 1 ≤ length (uint n) }
    ensures few { (n : ℕ) → n < 2 ^ 64 → length (uint n) ≤ MOST_UINT }
{}

/// The content that `put_uint` appends is read again by `uint`, which reads
/// nothing else.
pub fn integers_read_again()
    ensures again { (n : ℕ) → n < 2 ^ 64 → uint_of (uint n) ≡ Some n }
    ensures exact { (content : List ℕ) (n : ℕ) → (uint_of content ≡ Some n)
        ↔ (IsUint content n × (n < 2 ^ 64)) }
{}
