//! The keys of each event and the kinds of their values. The keys are in the order in which `drf_lines` reads them.

/// The kind of the value of a key.
#[derive(Clone, Copy, PartialEq, Eq)]
pub(crate) enum Kind {
    Name,
    Role,
    Roles,
    Bundle,
    Limit,
    Weight,
    Number,
    Tasks,
}

/// Returns the kind of the value of a key. It is the same in all events that have the key.
pub(crate) fn kind_of(key: &str) -> Kind {
    match key {
        "role" => Kind::Role,
        "roles" => Kind::Roles,
        "total" | "resources" | "use" => Kind::Bundle,
        "limit" => Kind::Limit,
        "weight" => Kind::Weight,
        "offer" | "at" | "refuse_ms" => Kind::Number,
        "tasks" => Kind::Tasks,
        _ => Kind::Name,
    }
}

/// The only optional key.
pub(crate) const OPTIONAL: &str = "refuse_ms";

/// The names of all events.
pub(crate) const EVENTS: &str =
    "add_agent remove_agent activate_agent deactivate_agent set_agent add_framework set_framework remove_framework suppress revive accept decline rescind finish reserve unreserve set_weight set_limit cycle report";

/// Returns the keys of an event other than `event`. An accept of several tasks and an accept of one task have different keys.
pub(crate) fn keys_of(event: &str, has_tasks: bool) -> Option<&'static str> {
    match event {
        "add_agent" | "set_agent" => Some("agent total"),
        "remove_agent" | "activate_agent" | "deactivate_agent" => Some("agent"),
        "add_framework" | "set_framework" => Some("framework roles"),
        "remove_framework" => Some("framework"),
        "suppress" | "revive" => Some("framework role"),
        "accept" if has_tasks => Some("tasks framework offer at refuse_ms"),
        "accept" => Some("task use framework offer at refuse_ms"),
        "decline" => Some("framework offer at refuse_ms"),
        "rescind" => Some("offer"),
        "finish" => Some("framework task"),
        "reserve" | "unreserve" => Some("agent role resources"),
        "set_weight" => Some("role weight"),
        "set_limit" => Some("role limit"),
        "cycle" => Some("at"),
        "report" => Some(""),
        _ => None,
    }
}

/// Returns the keys whose texts are read after all shapes have been found valid. For an accept, `framework` comes first.
pub(crate) fn text_keys_of(event: &str, has_tasks: bool) -> &'static str {
    match event {
        "accept" if has_tasks => "framework tasks",
        "accept" => "framework task use",
        _ => keys_of(event, has_tasks).unwrap_or(""),
    }
}

/// The keys of a task in a list of tasks.
pub(crate) const TASK_KEYS: &str = "task use";
