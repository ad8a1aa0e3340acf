//! The types of a system, for the three kinds.
ghost use Rattle.std.specs.Prelude.{◌≡◌, ◌<◌, Some, length, slice_get};
ghost use Rattle.co_system.specs.Systems as systems;
ghost use Rattle.co_system.specs.Systems.{kinds_of};

use co_any::AnyLayout;
use k42_kinds::{KindName, LayoutName, Reply};
use k42_watch::{Layer, Watch};

/// The layouts in which such a system keeps its objects, any of which may have a layer.
pub type SystemLayout = Watch<AnyLayout>;

pub type System = k42_runtime::System<SystemLayout>;

pub type Plan = k42_runtime::Plan<SystemLayout>;

/// What one caller steps with.
pub type Pass = k42_runtime::Pass<SystemLayout>;

pub type Call = k42_runtime::Call<SystemLayout>;

pub type CallStep = k42_runtime::CallStep<Reply>;

pub type History = k42_runtime::History<SystemLayout>;

pub type Unclosed = k42_runtime::Unclosed<SystemLayout>;

/// How an object of this kind starts, in this layout and with no layer.
pub fn kept_as(kind: KindName, layout: LayoutName) -> SystemLayout
    ensures { result ≡ systems.kept_as kind layout }
{
    Watch {
        inner: AnyLayout::of(kind, layout),
        layer: Layer::Keep,
    }
}

/// The kind of an object.
pub fn kind_of(system: &System, object: u32) -> KindName
    requires { object < length system.now.plan.objects }
    ensures { slice_get (kinds_of system.now.plan) object ≡ Some result }
{
    system.declared(object).inner.kind
}
