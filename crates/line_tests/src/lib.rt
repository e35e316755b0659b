// Lent columns against a line: a number at an index, the kind of a name that was looked for, where a line begins.
#![tactic(auto)]

ghost use Rattle.std.specs.Prelude.{ℕ, ◌<◌, ◌≡◌, List};
ghost use Rattle.std.proofs.Math.Option.{Option, some};
ghost use Rattle.paper.specs.Limits.{names_limit};
ghost use Rattle.paper.specs.Told.{found};
ghost use Rattle.line_tests.specs.Telling.{Tells, Has, NamedAt};

// Has the column this number at the index?
pub fn says(column: &[u16], n: usize, number: usize) -> bool
    ensures { Tells result (Has column.now n number) }
{
    n < column.len() && usize::from(column[n]) == number
}

// Has the column the kind of an element of this name, which the list has?
pub fn kind_is(kind: &[u16], n: usize, number: Option<usize>) -> bool
    requires { (v : ℕ) → found number ≡ some v → v < names_limit }
    ensures { (look : List ℕ → Option ℕ) (name : List ℕ) → found number ≡ look name → Tells result (NamedAt look name kind.now n) }
{
    match number {
        Some(v) => says(kind, n, usize::from(paper::ELEMENT_KIND) + v),
        None => false,
    }
}

// Have the columns a line of these that begins there?
pub fn begins_line(parent: &[u16], begin: &[u16], n: usize, up: u16, first: usize) -> bool
    ensures { Tells result (Has parent.now n up × Has begin.now n first) }
{
    says(parent, n, usize::from(up)) & says(begin, n, first)
}
