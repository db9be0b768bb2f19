// A node of a text. Its operands are the numbers of earlier nodes.
ghost use Rattle.std.specs.Prelude.{◌≡◌};
ghost use Rattle.text.specs.Nodes.{sort_of};

#[derive(Clone, Copy, Debug, PartialEq, Eq)]
pub enum Node {
    // Tests: every packet passes; field and value; two tests; two tests; one test.
    Always,
    Is(u8, u16),
    Both(u16, u16),
    Either(u16, u16),
    Not(u16),
    // Policies: a test; field and value; two policies; two policies.
    Keep(u16),
    Put(u8, u16),
    And(u16, u16),
    Then(u16, u16),
}

#[derive(Clone, Copy, Debug, PartialEq, Eq)]
pub enum Sort {
    Test,
    Policy,
}

impl Node {
    pub fn sort(self) -> Sort
        ensures value { result ≡ sort_of self }
    {
        match self {
            Node::Always | Node::Is(_, _) | Node::Both(_, _) | Node::Either(_, _) | Node::Not(_) =>
                Sort::Test,
            Node::Keep(_) | Node::Put(_, _) | Node::And(_, _) | Node::Then(_, _) => Sort::Policy,
        }
    }
}
