//! Operations and replies that no other crate knows, to be kept in a log: those of a badge, which
//! has a number and a holder.
ghost use Rattle.std.specs.Prelude.{◌≡◌, ◌+◌, ◌≤◌, ◌++◌, length, vec_len, vec_capacity};
ghost use Rattle.log_tests.specs.Badges.{op_packing, reply_packing};

use k42_kinds::{Label, Name, Packed, PackedReply, Size, Text};
use k42_limits::{NAME_BYTES, TEXT_BYTES};

/// What is asked of a badge.
#[derive(Clone, Copy, Debug, PartialEq, Eq)]
pub enum BadgeOp {
    /// To bear this number.
    Number(u64),
    /// To be held under this name.
    Give(Name),
}

/// What it replies.
#[derive(Clone, Copy, Debug, PartialEq, Eq)]
pub enum BadgeReply {
    /// The number that it bore.
    Bore(u64),
    /// What stands on it.
    Reads(Text),
}

/// Puts bytes behind others, for which there is room.
fn push_all(bytes: &mut Vec<u8>, more: &[u8])
    requires { vec_len bytes.old + length more.now ≤ vec_capacity bytes.old }
    ensures bytes { bytes.new.items ≡ bytes.old.items ++ more.now }
    ensures room { vec_capacity bytes.new ≡ vec_capacity bytes.old }
{
    for byte in more {
        bytes.push_reserved(*byte);
    }
}

impl Packed for BadgeOp {
    ghost packing = { op_packing };

    #[tactic(auto, using(crate::proofs::BadgeLemmas::packed_op))]
    fn label(&self) -> Label {
        match self {
            BadgeOp::Number(_) => Label { tag: 0, small: 0 },
            BadgeOp::Give(name) => Label {
                tag: 1,
                small: u32::from(name.len()),
            },
        }
    }

    fn most() -> Size {
        Size {
            words: 1,
            bytes: NAME_BYTES,
        }
    }

    fn size(label: Label) -> Size {
        match label.tag {
            0 => Size { words: 1, bytes: 0 },
            _ => Size {
                words: 0,
                bytes: (label.small as usize).min(NAME_BYTES),
            },
        }
    }

    fn pack(&self, words: &mut Vec<u64>, bytes: &mut Vec<u8>) {
        match self {
            BadgeOp::Number(number) => words.push_reserved(*number),
            BadgeOp::Give(name) => push_all(bytes, name.bytes()),
        }
    }

    fn unpack(label: Label, words: &[u64], bytes: &[u8]) -> BadgeOp {
        match label.tag {
            0 => BadgeOp::Number(words[0]),
            _ => BadgeOp::Give(Name::again(bytes)),
        }
    }
}

impl Packed for BadgeReply {
    ghost packing = { reply_packing };

    #[tactic(auto, using(crate::proofs::BadgeLemmas::packed_reply))]
    fn label(&self) -> Label {
        let tag = match self {
            BadgeReply::Bore(_) => 0,
            BadgeReply::Reads(text) => 1 + text.len(),
        };
        Label { tag, small: 0 }
    }

    fn most() -> Size {
        Size {
            words: 1,
            bytes: TEXT_BYTES,
        }
    }

    fn size(label: Label) -> Size {
        match label.tag {
            0 => Size { words: 1, bytes: 0 },
            tag => Size {
                words: 0,
                bytes: usize::from(tag.saturating_sub(1)).min(TEXT_BYTES),
            },
        }
    }

    fn pack(&self, words: &mut Vec<u64>, bytes: &mut Vec<u8>) {
        match self {
            BadgeReply::Bore(number) => words.push_reserved(*number),
            BadgeReply::Reads(text) => push_all(bytes, text.bytes()),
        }
    }

    fn unpack(label: Label, words: &[u64], bytes: &[u8]) -> BadgeReply {
        match label.tag {
            0 => BadgeReply::Bore(words[0]),
            _ => BadgeReply::Reads(Text::again(bytes)),
        }
    }
}

impl PackedReply for BadgeReply {
    #[tactic(auto, using(crate::proofs::BadgeLemmas::low_reply))]
    fn label_is_low(&self) {
        if let BadgeReply::Reads(text) = self {
            let _len = text.len();
        }
    }
}
