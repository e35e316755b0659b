// Words of a text compared with a given one.
#![tactic(auto)]

ghost use Rattle.std.specs.Prelude.{◌+◌, ◌≤◌, ◌≡◌, length, take, drop};
ghost use Rattle.paper.specs.Tools.{same};

// Is this the word that stands in the text?
#[tactic(auto, using(paper::proofs::Same::same_pointwise))]
pub fn same_word(text: &[u8], start: usize, len: usize, word: &[u8]) -> bool
    requires { start + len ≤ length text.now }
    ensures { result ≡ same word.now (take len (drop start text.now)) }
{
    word == &text[start..start + len]
}
