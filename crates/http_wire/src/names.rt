//! Header lines by their names, without regard to case.

ghost use Rattle.std.specs.Prelude.{◌≡◌, ◌<◌, length, None, Some, IsTrue, ◌↔◌, MatchOption};
ghost use Rattle.http_wire.specs.Names.{IsFirst, IsNamed, NoneNamed, line, value_of};

use crate::head::Head;

impl Head {
    /// The value of the first header line that has the name, without regard to case.
    pub fn value_of(&self, name: &[u8]) -> Option<&[u8]>
        ensures { MatchOption result (value_of self.now.lines name.now ≡ None)
            (λ value. value_of self.now.lines name.now ≡ Some value.now) }
    {
        match first_of(self, name) {
            Some(i) => Some(self.value(i)),
            None => None,
        }
    }
}

/// The first line that has the name.
pub fn first_of(head: &Head, name: &[u8]) -> Option<usize>
    ensures { MatchOption result (NoneNamed name.now head.now.lines) (IsFirst name.now head.now.lines) }
{
    for i in 0..head.len() {
        if is_named(head, i, name) {
            return Some(i);
        }
    }
    None
}

/// Whether line `i` has the name.
pub fn is_named(head: &Head, i: usize, name: &[u8]) -> bool
    requires { i < length head.now.lines }
    ensures { IsTrue result ↔ IsNamed name.now (line head.now.lines i).0 }
{
    head.name(i).eq_ignore_ascii_case(name)
}
