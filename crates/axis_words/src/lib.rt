// The words that name axes.
#![tactic(auto)]

ghost use Rattle.std.specs.Prelude.{◌≡◌, ◌<◌};
ghost use Rattle.paper.specs.Reading.{axis_named};
ghost use Rattle.paper.specs.Told.{found};
ghost use Rattle.paper.specs.Items.{axes};
ghost use Rattle.axis_words.specs.AxisWords.{word_at, axis_code};

// The word of an axis, by its number.
fn word_of(axis: u32) -> &'static [u8]
    requires { axis < axes }
    ensures { result.now ≡ word_at axis }
{
    match axis {
        item::SELF => b"self",
        item::CHILD => b"child",
        item::PARENT => b"parent",
        item::DESCENDANT_OR_SELF => b"descendant-or-self",
        item::ANCESTOR_OR_SELF => b"ancestor-or-self",
        item::DESCENDANT => b"descendant",
        item::ANCESTOR => b"ancestor",
        item::FOLLOWING_SIBLING => b"following-sibling",
        item::PRECEDING_SIBLING => b"preceding-sibling",
        item::FOLLOWING => b"following",
        _ => b"preceding",
    }
}

// The number of the axis that a word names.
pub fn axis_of(word: &[u8]) -> Option<u32>
    ensures { found result ≡ axis_code (axis_named word.now) }
{
    for axis in 0..item::AXES {
        if word_of(axis) == word {
            return Some(axis);
        }
    }
    None
}
