// Is a word a name?
#![tactic(auto)]

ghost use Rattle.std.specs.Prelude.{◌≤◌, ◌≡◌, length, drop};
ghost use Rattle.paper.specs.Names.{name_start, name_part, is_name, name_parts};

// May a name start with this byte?
pub fn name_start(b: u8) -> bool
    ensures { result ≡ name_start b }
{
    (b'A' <= b) & (b <= b'Z') | (b'a' <= b) & (b <= b'z') | (b == b'_')
}

// May a name go on with this byte?
pub fn name_part(b: u8) -> bool
    ensures { result ≡ name_part b }
{
    if name_start(b) {
        return true;
    }
    (b'0' <= b) & (b <= b'9') | (b == b'.') | (b == b'-')
}

// May a name go on with all bytes from `from` on?
fn name_parts(word: &[u8], from: usize) -> bool
    requires { from ≤ length word.now }
    ensures { result ≡ name_parts (drop from word.now) }
{
    word[from..].iter().all(|&b| name_part(b))
}

// Is this a name?
pub fn is_name(word: &[u8]) -> bool
    ensures { result ≡ is_name word.now }
{
    if word.len() == 0 {
        false
    } else {
        name_start(word[0]) & name_parts(word, 1)
    }
}
