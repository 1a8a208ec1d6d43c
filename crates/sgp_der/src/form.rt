//! The tag octet and the forms of a length (X.690, 8.1.2 and 8.1.3), for
//! reader and writer.

/// The low five bits of a tag octet. Where all are set, more tag octets follow.
pub(crate) const TAG_NUMBER: u8 = 0x1f;

/// Stands before a length of one octet, when the length isn't below 80 itself.
pub(crate) const ONE_OCTET: u8 = 0x81;

/// Stands before a length of two octets.
pub(crate) const TWO_OCTETS: u8 = 0x82;

/// Stands before a length of three octets.
pub(crate) const THREE_OCTETS: u8 = 0x83;

/// The greatest content of an element, in octets: what three octets of length can say.
pub const MOST_CONTENT: usize = 0xff_ffff;

/// The most octets that stand before a content: a tag and four of length.
pub const MOST_HEAD: usize = 5;

/// The least length that needs one octet after `ONE_OCTET`.
pub(crate) const FROM_ONE_OCTET: usize = 0x80;

/// The least length that needs two octets.
pub(crate) const FROM_TWO_OCTETS: usize = 0x100;

/// The least length that needs three octets.
pub(crate) const FROM_THREE_OCTETS: usize = 0x1_0000;
