//! Values whose labels leave room for more.
ghost use Rattle.std.specs.Prelude.{◌<◌};
ghost use Rattle.k42_either.specs.declared.few_tags.TheConstants.{FEW_TAGS, FEWER_TAGS};

use k42_kinds::{Op, Packed, Reply};

/// Twice as many tags are those of replies.
pub const FEW_TAGS: u8 = 120;

/// Twice as many are `FEW_TAGS`.
pub const FEWER_TAGS: u8 = 60;

/// A packed value whose tag leaves room to tell of which of two types the value is.
pub trait FewTags: Packed {
    /// It only says so, and does nothing.
    fn tag_is_low(&self)
        ensures { (Self.packing.label self.now).tag < FEW_TAGS };
}

/// One whose tag leaves room to tell so twice.
pub trait FewerTags: FewTags {
    /// It only says so, and does nothing.
    fn tag_is_lower(&self)
        ensures { (Self.packing.label self.now).tag < FEWER_TAGS };
}

impl FewTags for Op {
    fn tag_is_low(&self) {
        self.tag_is_lower();
    }
}

impl FewerTags for Op {
    #[tactic(auto, using(crate::proofs::LowTags::lower_op))]
    fn tag_is_lower(&self) {}
}

impl FewTags for Reply {
    fn tag_is_low(&self) {
        self.tag_is_lower();
    }
}

impl FewerTags for Reply {
    #[tactic(auto, using(crate::proofs::LowTags::lower_reply))]
    fn tag_is_lower(&self) {
        if let Reply::Text(text) = self {
            // How long a text is at most is known where its length is read.
            let _len = text.len();
        }
    }
}
