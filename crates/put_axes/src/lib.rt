// The axis of a step as its text.
#![tactic(auto)]

ghost use Rattle.std.specs.Prelude.{◌≡◌, ◌+◌, ◌^◌, ◌≤◌, ◌<◌};
ghost use Rattle.paper.specs.Query.{Axis};
ghost use Rattle.paper.specs.Items.{axis_number};
ghost use Rattle.paper.specs.Printing.{axis_text, axis_text_limit};
ghost use Rattle.pen.specs.Putting.{Puts};
ghost use Rattle.put_axes.specs.Along.{along};

// Puts the name of an axis; what is no axis has none.
fn put_axis(out: &mut [u8], pen: usize, axis: u32) -> usize
    requires { pen < 2 ^ 39 }
    ensures puts { (a : Axis) → axis ≡ axis_number a → Puts (axis_text a) pen out.old out.new result }
    ensures upper_bound { result ≤ pen + axis_text_limit }
{
    match axis {
        item::SELF => pen::put(out, pen, b"self"),
        item::CHILD => pen::put(out, pen, b"child"),
        item::PARENT => pen::put(out, pen, b"parent"),
        item::DESCENDANT_OR_SELF => pen::put(out, pen, b"descendant-or-self"),
        item::ANCESTOR_OR_SELF => pen::put(out, pen, b"ancestor-or-self"),
        item::DESCENDANT => pen::put(out, pen, b"descendant"),
        item::ANCESTOR => pen::put(out, pen, b"ancestor"),
        item::FOLLOWING_SIBLING => pen::put(out, pen, b"following-sibling"),
        item::PRECEDING_SIBLING => pen::put(out, pen, b"preceding-sibling"),
        item::FOLLOWING => pen::put(out, pen, b"following"),
        item::PRECEDING => pen::put(out, pen, b"preceding"),
        _ => pen,
    }
}

// Puts the axis of a step and `::`; the short form leaves out child.
pub fn put_along(out: &mut [u8], pen: usize, axis: u32, brief: bool) -> usize
    requires { pen < 2 ^ 38 }
    ensures puts { (a : Axis) → axis ≡ axis_number a → Puts (along brief a) pen out.old out.new result }
    ensures upper_bound { result ≤ pen + axis_text_limit + 2 }
{
    let child = brief & (axis == item::CHILD);
    if child {
        return pen;
    }
    let named = put_axis(out, pen, axis);
    let colon = pen::put_byte(out, named, b':');
    pen::put_byte(out, colon, b':')
}
