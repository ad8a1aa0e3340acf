//! Colours and shapes, once for the whole document.
ghost use Rattle.std.specs.Prelude.{◌≡◌, ◌++◌, OnOk};
ghost use Rattle.record_picture.specs.Style.{shapes, colours, style, marks};

use crate::pieces::put_fixed;
use k42_memory::Memory;

#[tactic(auto, unfolding(crate::specs::Style::shapes))]
fn put_shapes(out: &mut Vec<u8>) -> Result<(), Memory>
    ensures { OnOk result (out.new.items ≡ out.old.items ++ shapes) }
{
    put_fixed(
        out,
        b"<style>text{font:10px 'DejaVu Sans Mono',Menlo,Consolas,monospace}.v{font-size:14px;font-weight:bold}.n{font-weight:bold}.k{text-anchor:end}.l{fill:#f4f4f4}.f{fill:#d0d0d0}.s{stroke:currentColor;stroke-width:4}.x{fill:none;stroke:#e00000;stroke-width:4}.y{fill:#fff;fill-opacity:.7;pointer-events:none}.b{fill:#fff;stroke:currentColor;stroke-width:2}.h{fill:currentColor}.m{fill:none;stroke:#000;stroke-width:2}\n",
    )
}

#[tactic(auto, unfolding(crate::specs::Style::colours))]
fn put_colours(out: &mut Vec<u8>) -> Result<(), Memory>
    ensures { OnOk result (out.new.items ≡ out.old.items ++ colours) }
{
    put_fixed(
        out,
        b".o0,.o8{color:#0072b2}.o1,.o9{color:#e69f00}.o2,.o10{color:#009e73}.o3,.o11{color:#cc79a7}.o4,.o12{color:#56b4e9}.o5,.o13{color:#d55e00}.o6,.o14{color:#f0e442}.o7,.o15{color:#000}.o8,.o9,.o10,.o11,.o12,.o13,.o14,.o15{stroke-dasharray:6 3}.o0 .n,.o0 .k,.o8 .n,.o8 .k,.o7 .n,.o7 .k,.o15 .n,.o15 .k{fill:#fff}</style>\n",
    )
}

#[tactic(auto, unfolding(crate::specs::Style::marks))]
fn put_marks(out: &mut Vec<u8>) -> Result<(), Memory>
    ensures { OnOk result (out.new.items ≡ out.old.items ++ marks) }
{
    put_fixed(
        out,
        b"<defs><g id='box'><rect class='b' width='146' height='46'/><path class='h' d='M0 0h146v14H0z'/></g><path id='busy' class='m' d='M131 33v9m6-9v9'/><path id='spent' class='m' d='M130 33h9v9h-9z'/><path id='gone' class='m' d='M130 33l9 9m0-9l-9 9'/></defs>\n",
    )
}

/// Adds the colours, and the shapes that others use.
#[tactic(auto, unfolding(crate::specs::Style::style))]
pub fn put_style(out: &mut Vec<u8>) -> Result<(), Memory>
    ensures { OnOk result (out.new.items ≡ out.old.items ++ style) }
{
    put_shapes(out)?;
    put_colours(out)?;
    put_marks(out)
}
