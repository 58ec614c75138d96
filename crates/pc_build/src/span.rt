//! The variables of a table, and those between them.

ghost use Rattle.std.specs.Prelude.{◌<◌, ◌≤◌, ◌+◌, All};
ghost use Rattle.pc_build.specs.Demands.{Spans};

/// Variables from a first one on, so many.
#[derive(Clone, Copy, Debug)]
pub(crate) struct Span {
    pub first: u32,
    pub count: u32,
}

/// The fewest variables that have all of these, which are among so many.
pub(crate) fn span_of(variables: &[u32], count: u32) -> Span
    requires { All (λ variable. variable < count) variables.now }
    ensures spans { Spans variables.now result }
    ensures inside { result.first + result.count ≤ count }
{
    let [head, ..] = variables else {
        return Span { first: 0, count: 0 };
    };
    let mut first = *head;
    let mut last = *head;
    for variable in variables {
        first = first.min(*variable);
        last = last.max(*variable);
    }
    Span {
        first,
        count: last - first + 1,
    }
}
