//! How a log keeps what a table of routes is asked and what it replies.
ghost use Rattle.co_limiter.specs.PackedRoutes.{route_packing, route_reply_packing};

use crate::routing::{RouteOp, RouteReply};
use k42_kinds::{Label, Packed, PackedReply, Size};

impl Packed for RouteOp {
    ghost packing = { route_packing };

    #[tactic(auto, using(crate::proofs::PackedRouteLemmas::packed_op))]
    fn label(&self) -> Label {
        let (tag, small) = match self {
            RouteOp::Find(address) => (0, *address),
            RouteOp::Add(prefix, _, hop) => {
                // How large a hop is at most is known where it is read.
                let _hop = *hop;
                (1, *prefix)
            }
            RouteOp::Remove(prefix, _) => (2, *prefix),
        };
        Label { tag, small }
    }

    fn most() -> Size {
        Size { words: 1, bytes: 1 }
    }

    fn size(label: Label) -> Size {
        let (words, bytes) = match label.tag {
            0 => (0, 0),
            1 => (1, 1),
            _ => (0, 1),
        };
        Size { words, bytes }
    }

    fn pack(&self, words: &mut Vec<u64>, bytes: &mut Vec<u8>) {
        match self {
            RouteOp::Find(_) => {}
            RouteOp::Add(_, bits, hop) => {
                words.push_reserved(u64::from(*hop));
                bytes.push_reserved(*bits);
            }
            RouteOp::Remove(_, bits) => bytes.push_reserved(*bits),
        }
    }

    fn unpack(label: Label, words: &[u64], bytes: &[u8]) -> RouteOp {
        match label.tag {
            0 => RouteOp::Find(label.small),
            1 => RouteOp::Add(label.small, bytes[0], (words[0] % 4_294_967_296) as u32),
            _ => RouteOp::Remove(label.small, bytes[0]),
        }
    }
}

impl Packed for RouteReply {
    ghost packing = { route_reply_packing };

    #[tactic(auto, using(crate::proofs::PackedRouteLemmas::packed_reply))]
    fn label(&self) -> Label {
        let tag = match self {
            RouteReply::Hop(Some(hop)) => {
                let _hop = *hop;
                0
            }
            RouteReply::Hop(None) => 1,
            RouteReply::Done => 2,
            RouteReply::Gone => 3,
        };
        Label { tag, small: 0 }
    }

    fn most() -> Size {
        Size { words: 1, bytes: 0 }
    }

    fn size(label: Label) -> Size {
        let words = if label.tag == 0 { 1 } else { 0 };
        Size { words, bytes: 0 }
    }

    fn pack(&self, words: &mut Vec<u64>, _bytes: &mut Vec<u8>) {
        if let RouteReply::Hop(Some(hop)) = self {
            words.push_reserved(u64::from(*hop));
        }
    }

    fn unpack(label: Label, words: &[u64], _bytes: &[u8]) -> RouteReply {
        match label.tag {
            0 => RouteReply::Hop(Some((words[0] % 4_294_967_296) as u32)),
            1 => RouteReply::Hop(None),
            2 => RouteReply::Done,
            _ => RouteReply::Gone,
        }
    }
}

impl PackedReply for RouteReply {
    #[tactic(auto, using(crate::proofs::PackedRouteLemmas::low_reply))]
    fn label_is_low(&self) {}
}
