//! How a log keeps operations and replies.
ghost use Rattle.std.specs.Prelude.{◌≡◌, ◌+◌, ◌<◌, ◌≤◌, ◌++◌, length, vec_len, vec_capacity};
ghost use Rattle.k42_kinds.specs.Packing.{Packing, IsPacked, IsReplyLabel};

/// The tags of replies are below this.
pub const REPLY_TAGS: u8 = 240;

/// What stands in the head of an entry: what the value is called, and a number that is part of it.
#[derive(Clone, Copy, Debug, PartialEq, Eq)]
pub struct Label {
    pub tag: u8,
    pub small: u32,
}

/// So many words of 64 bits, and bytes.
#[derive(Clone, Copy, Debug, PartialEq, Eq)]
pub struct Size {
    pub words: usize,
    pub bytes: usize,
}

/// A value that a log keeps: a label in the head of its entry, and words and bytes behind those of
/// other values.
pub trait Packed: Copy + Drop {
    /// How it is packed and unpacked.
    ghost packing: { Packing Self };

    /// The tag and the small number for the head; what is unpacked by them is what was packed.
    fn label(&self) -> Label
        ensures label { result ≡ packing.label self.now }
        ensures packed { IsPacked packing self.now };

    /// How many words and bytes a value has at most, each below 65,536.
    fn most() -> Size
        ensures most { result ≡ packing.most }
        ensures few { (result.words < 65_536) × (result.bytes < 65_536) };

    /// How many a value with this label has.
    fn size(label: Label) -> Size
        ensures { result ≡ packing.size label };

    /// Puts its words and bytes behind the others, for which there is room.
    fn pack(&self, words: &mut Vec<u64>, bytes: &mut Vec<u8>)
        requires words { vec_len words.old + length (packing.words self.now) ≤ vec_capacity words.old }
        requires bytes { vec_len bytes.old + length (packing.bytes self.now) ≤ vec_capacity bytes.old }
        ensures words { words.new.items ≡ words.old.items ++ packing.words self.now }
        ensures bytes { bytes.new.items ≡ bytes.old.items ++ packing.bytes self.now }
        ensures words_room { vec_capacity words.new ≡ vec_capacity words.old }
        ensures bytes_room { vec_capacity bytes.new ≡ vec_capacity bytes.old };

    /// The value with this label and just these words and bytes, which fit behind it.
    fn unpack(label: Label, words: &[u64], bytes: &[u8]) -> Self
        requires { packing.Fits label words.now bytes.now }
        ensures { result ≡ packing.unpack label words.now bytes.now };
}

/// A reply that a log keeps.
pub trait PackedReply: Packed {
    /// Its label has a tag below `REPLY_TAGS` and no small number. It only says so, and does nothing.
    fn label_is_low(&self)
        ensures { IsReplyLabel (Self.packing.label self.now) };
}
