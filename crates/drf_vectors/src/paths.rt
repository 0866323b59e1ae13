//! Questions about roles, and about clients, which are written `role:framework`.
use crate::answer::Answer;
use drf_role::{ClientPath, NodePath, Role};

/// Appends the number of a role's parts, and the parts.
pub fn parts(answer: &mut Answer, role: &Role) {
    answer.show(&role.len());
    for part in role.parts() {
        answer.say(" ");
        answer.say(part);
    }
}

/// Answers whether a role is the default role, in two ways.
pub fn is_default(answer: &mut Answer, role: &Role) {
    answer.show(&role.is_default());
    answer.say(if *role == Role::default_role(answer.alloc()) {
        " true"
    } else {
        " false"
    });
}

/// Answers whether the first role is the second or below it.
pub fn is_within(answer: &mut Answer, roles: &(Role, Role)) {
    answer.show(&roles.0.is_within(&roles.1));
}

/// Appends the role, the framework and the parts of a client.
pub fn client(answer: &mut Answer, client: &ClientPath) {
    answer.say(client.role().text());
    answer.say(" ");
    answer.say(client.framework().text());
    answer.say(": ");
    answer.show(&client.len());
    for i in 0..client.len() {
        answer.say(" ");
        answer.say(client.part(i));
    }
}

/// Appends a node and its last part.
fn node(answer: &mut Answer, node: &NodePath) {
    answer.say(" ");
    answer.say(node.text());
    answer.say("(");
    answer.say(node.part(node.len() - 1));
    answer.say(")");
}

/// Appends each node of a client.
fn nodes_of_copy(answer: &mut Answer, client: &ClientPath) {
    answer.show(&client.len());
    for i in 0..client.len() {
        if let Some(found) = answer.found(client.node(i + 1)) {
            node(answer, &found);
        }
    }
}

/// Appends each node of a copy of a client.
pub fn nodes(answer: &mut Answer, client: &ClientPath) {
    if let Some(copy) = answer.found(client.copy()) {
        nodes_of_copy(answer, &copy);
    }
}

/// Answers whether two clients are equal.
pub fn is_same_client(answer: &mut Answer, clients: &(ClientPath, ClientPath)) {
    answer.show(&(clients.0 == clients.1));
}
