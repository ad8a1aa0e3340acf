//! How a log keeps the operations and replies of the three kinds.
ghost use Rattle.std.specs.Prelude.{◌≡◌, ◌+◌, ◌≤◌, ◌++◌, length, vec_len, vec_capacity};
ghost use Rattle.k42_kinds.specs.PackedCalls.{op_packing, reply_packing};

use crate::name::Name;
use crate::operation::{Op, Reply};
use crate::packed::{Label, Packed, PackedReply, Size};
use crate::text::Text;
use k42_limits::{NAME_BYTES, TEXT_BYTES};

/// No words and no bytes.
const NOTHING: Size = Size { words: 0, bytes: 0 };

/// Puts bytes behind others, for which there is room.
fn push_all(bytes: &mut Vec<u8>, more: &[u8])
    requires { vec_len bytes.old + length more.now ≤ vec_capacity bytes.old }
    ensures bytes { bytes.new.items ≡ bytes.old.items ++ more.now }
    ensures room { vec_capacity bytes.new ≡ vec_capacity bytes.old }
{
    for byte in more {
        bytes.push_reserved(*byte);
    }
}

impl Packed for Op {
    ghost packing = { op_packing };

    #[inline(always)]
    #[tactic(auto, using(crate::proofs::PackedLemmas::packed_op))]
    fn label(&self) -> Label {
        match self {
            Op::Add(amount) => Label {
                tag: 0,
                small: *amount,
            },
            Op::Get => Label { tag: 1, small: 0 },
            Op::Drain => Label { tag: 2, small: 0 },
            Op::Bind(key, _) => Label {
                tag: 3,
                small: u32::from(key.len()),
            },
            Op::Find(key) => Label {
                tag: 4,
                small: u32::from(key.len()),
            },
            Op::Unbind(key) => Label {
                tag: 5,
                small: u32::from(key.len()),
            },
            Op::Size => Label { tag: 6, small: 0 },
            Op::Write(page, text) => Label {
                tag: 7,
                small: u32::from(text.len()) * 65_536 + u32::from(*page),
            },
            Op::Read(page) => Label {
                tag: 8,
                small: u32::from(*page),
            },
            Op::Dirty => Label { tag: 9, small: 0 },
            Op::Clean => Label { tag: 10, small: 0 },
            Op::Seen => Label { tag: 11, small: 0 },
        }
    }

    fn most() -> Size {
        Size {
            words: 1,
            bytes: TEXT_BYTES,
        }
    }

    fn size(label: Label) -> Size {
        match label.tag {
            3 => Size {
                words: 1,
                bytes: (label.small as usize).min(NAME_BYTES),
            },
            4 | 5 => Size {
                words: 0,
                bytes: (label.small as usize).min(NAME_BYTES),
            },
            7 => Size {
                words: 0,
                bytes: (label.small as usize / 65_536).min(TEXT_BYTES),
            },
            _ => NOTHING,
        }
    }

    #[inline(always)]
    fn pack(&self, words: &mut Vec<u64>, bytes: &mut Vec<u8>) {
        match self {
            Op::Bind(key, number) => {
                words.push_reserved(*number);
                push_all(bytes, key.bytes());
            }
            Op::Find(key) | Op::Unbind(key) => push_all(bytes, key.bytes()),
            Op::Write(_, text) => push_all(bytes, text.bytes()),
            _ => {}
        }
    }

    fn unpack(label: Label, words: &[u64], bytes: &[u8]) -> Op {
        match label.tag {
            0 => Op::Add(label.small),
            1 => Op::Get,
            2 => Op::Drain,
            3 => Op::Bind(Name::again(bytes), words[0]),
            4 => Op::Find(Name::again(bytes)),
            5 => Op::Unbind(Name::again(bytes)),
            6 => Op::Size,
            7 => Op::Write((label.small % 65_536) as u16, Text::again(bytes)),
            8 => Op::Read((label.small % 65_536) as u16),
            9 => Op::Dirty,
            10 => Op::Clean,
            _ => Op::Seen,
        }
    }
}

impl Packed for Reply {
    ghost packing = { reply_packing };

    #[inline(always)]
    #[tactic(auto, using(crate::proofs::PackedLemmas::packed_reply))]
    fn label(&self) -> Label {
        let tag = match self {
            Reply::Done => 0,
            Reply::Taken => 1,
            Reply::None => 2,
            Reply::Number(_) => 3,
            Reply::Zero => 4,
            Reply::Gone => 5,
            Reply::Text(text) => 6 + text.len(),
        };
        Label { tag, small: 0 }
    }

    fn most() -> Size {
        Size {
            words: 1,
            bytes: TEXT_BYTES,
        }
    }

    fn size(label: Label) -> Size {
        match label.tag {
            3 => Size { words: 1, bytes: 0 },
            tag => Size {
                words: 0,
                bytes: usize::from(tag.saturating_sub(6)).min(TEXT_BYTES),
            },
        }
    }

    #[inline(always)]
    fn pack(&self, words: &mut Vec<u64>, bytes: &mut Vec<u8>) {
        match self {
            Reply::Number(number) => words.push_reserved(*number),
            Reply::Text(text) => push_all(bytes, text.bytes()),
            _ => {}
        }
    }

    fn unpack(label: Label, words: &[u64], bytes: &[u8]) -> Reply {
        match label.tag {
            0 => Reply::Done,
            1 => Reply::Taken,
            2 => Reply::None,
            3 => Reply::Number(words[0]),
            4 => Reply::Zero,
            5 => Reply::Gone,
            _ => Reply::Text(Text::again(bytes)),
        }
    }
}

impl PackedReply for Reply {
    #[inline(always)]
    #[tactic(auto, using(crate::proofs::PackedLemmas::low_reply))]
    fn label_is_low(&self) {
        if let Reply::Text(text) = self {
            // How long a text is at most is known where its length is read.
            let _len = text.len();
        }
    }
}
