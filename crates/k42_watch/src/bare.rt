//! Layouts that know of no layer.
ghost use Rattle.std.specs.Prelude.{◌≡◌};
ghost use Rattle.k42_shapes.specs.Shapes.{IsKnownTag, is_dead_tag};
ghost use Rattle.k42_kinds.specs.Watched.{Asking};
ghost use Rattle.k42_watch.specs.Bare.{TakesNoSeen, KeepsState, AsksByTag};

use k42_kinds::Layout;

/// A layout round which a layer can be placed: it places none itself.
pub trait Bare: Layout {
    /// Which operations ask for the count, and what they are told.
    ghost asking: { Asking Self.Op Self.Reply };

    /// Whether the operation asks for the count: how many calls there were since the layer was placed,
    /// modulo 2^64. A layout whose `asking` asks nothing has a count that nobody can read.
    fn asks_count(op: &Self::Op) -> bool
        ensures { result ≡ asking.asks op.now };

    /// What is told of the count, by whether the object is dead; the count is `None` where there is
    /// no layer.
    fn tell_count(dead: bool, seen: Option<u64>) -> Self::Reply
        ensures { result ≡ asking.tells dead seen };

    /// Whether an object in this state is at its end.
    fn has_ended(&self, state: &Self::State) -> bool
        ensures { result ≡ (Self.object self.now).is_ended state.now };

    /// Its object leaves the count to the layer.
    ghost takes_no_seen: { (layout : Self) → TakesNoSeen asking (Self.object layout) };

    /// Every swap of its object but a destroy leaves the state.
    ghost keeps_state: { (layout : Self) → KeepsState (Self.object layout) };

    /// A live layout is asked for by a number, and the dead one by a destroy.
    ghost asks_by_tag: { (layout : Self) → IsKnownTag (Self.shapes layout) (Self.tag_of layout)
        → AsksByTag (is_dead_tag (Self.shapes layout) (Self.tag_of layout)) (Self.act_of layout) };
}
