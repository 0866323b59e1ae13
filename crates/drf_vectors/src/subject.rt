//! The values that questions are about. One function owns the value of every question and passes references to the others, because each function that
//! owns a value needs a proof of dropping it.
use crate::answer::Answer;
use drf_role::{ClientPath, Label, Name, NodePath, Role};

/// A value that a question can be about.
pub trait Subject: Sized + Drop {
    /// Returns the value of a text, or appends the error and returns `None`.
    fn from_text(answer: &mut Answer, text: &str) -> Option<Self>;
}

/// Asks a question about the value of a text.
pub fn asked<S: Subject, F: FnOnce(&mut Answer, &S)>(answer: &mut Answer, text: &str, ask: F)
    requires { F.IsAlwaysCallable ask }
{
    if let Some(subject) = S::from_text(answer, text) {
        ask(answer, &subject);
    }
}

/// Returns the values of both texts.
fn both<A: Subject, B: Subject>(answer: &mut Answer, one: &str, other: &str) -> Option<(A, B)> {
    let one = A::from_text(answer, one)?;
    let other = B::from_text(answer, other)?;
    Some((one, other))
}

/// Returns the values of the texts before and after the first `mark`.
pub fn read_both<A: Subject, B: Subject>(
    answer: &mut Answer,
    text: &str,
    mark: char,
) -> Option<(A, B)> {
    let Some((one, other)) = text.split_once(mark) else {
        answer.say("half a question");
        return None;
    };
    both(answer, one, other)
}

/// Adds the value of each text between marks.
pub fn read_all<S: Subject>(
    answer: &mut Answer,
    all: &mut Vec<S>,
    text: &str,
    mark: char,
) -> Option<()> {
    for text in text.split(mark) {
        let one = S::from_text(answer, text)?;
        answer.found(all.push(one))?;
    }
    Some(())
}

impl<A: Subject, B: Subject> Subject for (A, B) {
    fn from_text(answer: &mut Answer, text: &str) -> Option<(A, B)> {
        read_both(answer, text, ' ')
    }
}

impl Subject for u32 {
    fn from_text(answer: &mut Answer, text: &str) -> Option<u32> {
        answer.found(text.parse::<u32>())
    }
}

impl Subject for u64 {
    fn from_text(answer: &mut Answer, text: &str) -> Option<u64> {
        answer.found(text.parse::<u64>())
    }
}

impl Subject for Name {
    fn from_text(answer: &mut Answer, text: &str) -> Option<Name> {
        answer.found(Name::read(answer.alloc(), text))
    }
}

impl Subject for Label {
    fn from_text(answer: &mut Answer, text: &str) -> Option<Label> {
        answer.found(Label::read(answer.alloc(), text))
    }
}

impl Subject for Role {
    fn from_text(answer: &mut Answer, text: &str) -> Option<Role> {
        answer.found(Role::read(answer.alloc(), text))
    }
}

impl Subject for ClientPath {
    fn from_text(answer: &mut Answer, text: &str) -> Option<ClientPath> {
        let (role, framework) = read_both::<Role, Name>(answer, text, ':')?;
        Some(ClientPath::from_parts(role, framework))
    }
}

/// The text of a node is a client `ROLE:FRAMEWORK`, or a role, which means the node of the role.
impl Subject for NodePath {
    fn from_text(answer: &mut Answer, text: &str) -> Option<NodePath> {
        let (role, framework) = text.split_once(':').unwrap_or((text, "."));
        let (role, framework) = both::<Role, Name>(answer, role, framework)?;
        let client = ClientPath::from_parts(role, framework);
        let len = if text.contains(':') {
            client.len()
        } else {
            client.role().len().min(client.len())
        };
        answer.found(client.node(len))
    }
}
