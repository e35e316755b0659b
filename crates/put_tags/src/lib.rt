// A text with its columns and marks, and the tags of its elements put into the lent bytes from a place on as far as these go: a start tag, and the end tags of the elements that are open.
#![tactic(auto)]

ghost use Rattle.std.specs.Prelude.{List, [], ◌∷◌, ◌++◌, ℕ, ◌≡◌, ◌+◌, ◌^◌, ◌≤◌, ◌<◌, length, get_or};
ghost use Rattle.pen.specs.Putting.{Puts};
ghost use Rattle.put_tags.specs.Lending.{MarkedText, marked_text, Lent, IsLent};
ghost use Rattle.put_tags.specs.Tags.{name_at, Open, Closable, Says};

use std::marker::Model;

// Puts a tag: what opens it, a name and `>`.
fn put_tag(out: &mut [u8], pen: usize, opener: &[u8], name: &[u8]) -> usize
    requires { (pen + length name.now < 2 ^ 39) × (length opener.now ≤ 2) }
    ensures { Puts (opener.now ++ name.now ++ (62 ∷ [])) pen out.old out.new result }
{
    let opened = pen::put(out, pen, opener);
    let named = pen::put(out, opened, name);
    pen::put(out, named, b">")
}

// Puts a tag of the element that begins here.
fn tag_at(text: &[u8], begin: usize, opener: &[u8], out: &mut [u8], pen: usize) -> usize
    requires { (begin < length text.now) × (length text.now < 2 ^ 38) × (pen < 2 ^ 38) × (length opener.now ≤ 2) }
    ensures { Puts (opener.now ++ name_at text.now begin ++ (62 ∷ [])) pen out.old out.new result }
{
    let from = begin + 1;
    let to = token::run_end(text, from);
    put_tag(out, pen, opener, &text[from..to])
}

// Puts the start tag of the element that begins here.
pub fn start_at(text: &[u8], begin: usize, out: &mut [u8], pen: usize) -> usize
    requires { (begin < length text.now) × (length text.now < 2 ^ 38) × (pen < 2 ^ 38) }
    ensures { Puts (60 ∷ name_at text.now begin ++ (62 ∷ [])) pen out.old out.new result }
{
    tag_at(text, begin, b"<", out, pen)
}

// What the columns say of a node: its parent, its kind, and where it begins and ends.
#[derive(Clone, Copy)]
pub struct Line {
    pub up: usize,
    pub kind: u16,
    pub begin: usize,
    pub end: usize,
}

// A text, the columns of its nodes, and marks, judged or not.
#[derive(Drop)]
pub struct Given<'a> {
    text: &'a [u8],
    parents: &'a [u16],
    kinds: &'a [u16],
    begins: &'a [u16],
    ends: &'a [u16],
    marks: &'a [u8],
}

impl<'a> Model for Given<'a> {
    ghost Value = { MarkedText };

    ghost view = { λ m. marked_text m.text.now m.parents.now m.kinds.now m.begins.now m.ends.now m.marks.now };
}

impl<'a> Given<'a> {
    // All that is lent.
    pub fn new(
        text: &'a [u8],
        parents: &'a [u16],
        kinds: &'a [u16],
        begins: &'a [u16],
        ends: &'a [u16],
        marks: &'a [u8],
    ) -> Given<'a>
        ensures { result ≡ marked_text text.now parents.now kinds.now begins.now ends.now marks.now }
    {
        Given {
            text,
            parents,
            kinds,
            begins,
            ends,
            marks,
        }
    }

    // How many nodes there are.
    pub fn nodes(&self) -> usize
        ensures { result ≡ length self.now.parents }
    {
        self.parents.len()
    }

    // The text.
    pub fn text(&self) -> &[u8]
        ensures { result.now ≡ self.now.text }
    {
        self.text
    }

    // The mark of a node.
    pub fn mark(&self, node: usize) -> u8
        requires { node < length self.now.marks }
        ensures { result ≡ get_or self.now.marks node 0 }
    {
        self.marks[node]
    }

    // The line of a node.
    pub fn line(&self, node: usize) -> Line
        requires { (node < length self.now.parents) × (node < length self.now.kinds) × (node < length self.now.begins) × (node < length self.now.ends) }
        ensures { Says self.now.parents self.now.kinds self.now.begins self.now.ends node result.up result.kind result.begin result.end }
    {
        let parents = self.parents;
        Line {
            up: parents[node] as usize,
            kind: self.kinds[node],
            begin: self.begins[node] as usize,
            end: self.ends[node] as usize,
        }
    }

    // Puts the end tags of the elements that are open, up to one that stays open.
    pub fn close(&self, out: &mut [u8], pen: usize, top: usize, up: usize) -> usize
        requires { Closable self.now.text self.now.parents self.now.begins pen top up }
        ensures { (bytes : List ℕ) → Open self.now.text self.now.parents self.now.begins top up bytes → Puts bytes pen out.old out.new result }
    {
        let mut at = pen;
        let mut inner = top;
        while inner != up {
            at = tag_at(self.text, self.begins[inner] as usize, b"</", out, at);
            inner = self.parents[inner] as usize;
        }
        at
    }

    // The same, where it was judged.
    pub fn judged(&self) -> Marked<'a>
        requires { IsLent self.now }
        ensures { result ≡ self.now }
    {
        Marked {
            given: Given {
                text: self.text,
                parents: self.parents,
                kinds: self.kinds,
                begins: self.begins,
                ends: self.ends,
                marks: self.marks,
            },
        }
    }
}

// A text, the columns of its nodes, and the marks of its kept part.
#[derive(Drop)]
pub struct Marked<'a> {
    given: Given<'a>,
}

impl<'a> Model for Marked<'a> {
    ghost Value = { MarkedText };

    ghost view = { λ m. m.given };

    ghost invariant = { λ m. IsLent m.given };
}

impl<'a> Marked<'a> {
    // All that is lent, where it was judged.
    pub fn new(
        text: &'a [u8],
        parents: &'a [u16],
        kinds: &'a [u16],
        begins: &'a [u16],
        ends: &'a [u16],
        marks: &'a [u8],
    ) -> Marked<'a>
        requires { Lent text.now parents.now kinds.now begins.now ends.now marks.now }
        ensures { result ≡ marked_text text.now parents.now kinds.now begins.now ends.now marks.now }
    {
        Marked {
            given: Given::new(text, parents, kinds, begins, ends, marks),
        }
    }

    // How many nodes there are.
    pub fn nodes(&self) -> usize
        ensures counted { result ≡ length self.now.parents }
        ensures lent { IsLent self.now }
    {
        self.given.nodes()
    }

    // The mark of a node.
    pub fn mark(&self, node: usize) -> u8
        requires { node < length self.now.marks }
        ensures { result ≡ get_or self.now.marks node 0 }
    {
        self.given.mark(node)
    }

    // Puts the end tags of the elements that are open, up to one that stays open.
    pub fn close(&self, out: &mut [u8], pen: usize, top: usize, up: usize) -> usize
        requires { Closable self.now.text self.now.parents self.now.begins pen top up }
        ensures { (bytes : List ℕ) → Open self.now.text self.now.parents self.now.begins top up bytes → Puts bytes pen out.old out.new result }
    {
        self.given.close(out, pen, top, up)
    }

    // The same, as one that may be judged or not.
    pub fn given(&self) -> &Given<'a>
        ensures { result.now ≡ self.now }
    {
        &self.given
    }
}

#[cfg(test)]
mod tests {
    use super::Given;

    // An element alone, with its columns and marks, is judged.
    #[test]
    fn judges(rt: HostRuntime) {
        let given = Given::new(b"<a/>", &[0, 0], &[0, 2], &[0, 0], &[4, 4], &[1, 1]);
        let marked = given.judged();
        assert_eq!(rt; marked.nodes(), 2);
        assert_eq!(rt; marked.mark(1), 1);
    }
}
