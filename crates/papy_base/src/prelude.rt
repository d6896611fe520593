// What the scripts declare that every set begins with, and the members that every script without parent has.

/// How many scripts the prelude has. They have the numbers from 0 on.
pub const PRELUDE_COUNT: usize = 6;

/// How many scripts of the prelude, its first ones, are libraries: no types, and without the members of other scripts.
pub const LIBRARY_COUNT: usize = 3;

/// What a script of the prelude declares.
pub struct StandardScript {
    /// Its name.
    pub name: &'static str,
    /// The name of its parent, none where it has none.
    pub parent: Option<&'static str>,
    /// Whether it is one of the libraries.
    pub is_library: bool,
    /// The functions of its empty state, but for the members that every script without parent has.
    pub functions: &'static [StandardFunction],
}

/// What a function of the prelude declares, or a member that every script without parent has.
pub struct StandardFunction {
    /// Its name.
    pub name: &'static str,
    /// The word of its result's type, none where it gives nothing.
    pub result: Option<&'static str>,
    /// What it does.
    pub body: StandardBody,
    /// Its parameters, in their order.
    pub parameters: &'static [StandardParameter],
}

/// What a function of the prelude does.
#[derive(Clone, Copy)]
pub enum StandardBody {
    /// It is Global and Native.
    Native,
    /// It is an event that does nothing.
    EmptyEvent,
    /// It calls OnEndState, gives the state the name that it takes, and calls OnBeginState.
    ChangeState,
    /// It returns the name of the state.
    ReturnState,
}

/// A parameter of a function of the prelude.
pub struct StandardParameter {
    /// The word of its type.
    pub kind: &'static str,
    /// Its name.
    pub name: &'static str,
    /// The value where an argument is left out. Such a parameter has the type Int.
    pub default: Option<i32>,
}

/// The scripts that every set begins with, by their numbers.
#[rattlefmt::skip]
pub static PRELUDE: [StandardScript; PRELUDE_COUNT] = [
    StandardScript { name: "Debug", parent: None, is_library: true, functions: &[TRACE] },
    StandardScript { name: "Utility", parent: None, is_library: true, functions: &[RANDOM_INT] },
    StandardScript { name: "Scene", parent: None, is_library: true, functions: &[SLEEP] },
    StandardScript { name: "Form", parent: None, is_library: false, functions: &[] },
    StandardScript { name: "Quest", parent: Some("Form"), is_library: false, functions: &[ON_INIT] },
    StandardScript { name: "ObjectReference", parent: Some("Form"), is_library: false, functions: &[ON_INIT] },
];

#[rattlefmt::skip]
const TRACE: StandardFunction = StandardFunction {
    name: "Trace", result: None, body: StandardBody::Native,
    parameters: &[
        StandardParameter { kind: "String", name: "asTextToPrint", default: None },
        StandardParameter { kind: "Int", name: "aiSeverity", default: Some(0) },
    ],
};

#[rattlefmt::skip]
const RANDOM_INT: StandardFunction = StandardFunction {
    name: "RandomInt", result: Some("Int"), body: StandardBody::Native,
    parameters: &[
        StandardParameter { kind: "Int", name: "aiMin", default: Some(0) },
        StandardParameter { kind: "Int", name: "aiMax", default: Some(100) },
    ],
};

#[rattlefmt::skip]
const SLEEP: StandardFunction = StandardFunction {
    name: "Sleep", result: None, body: StandardBody::Native,
    parameters: &[StandardParameter { kind: "Int", name: "turns", default: None }],
};

#[rattlefmt::skip]
const ON_INIT: StandardFunction =
    StandardFunction { name: "OnInit", result: None, body: StandardBody::EmptyEvent, parameters: &[] };

/// The members that every script without parent has, but for the libraries, in their order.
#[rattlefmt::skip]
pub static STATE_MEMBERS: [StandardFunction; 4] = [
    StandardFunction {
        name: "GotoState", result: None, body: StandardBody::ChangeState,
        parameters: &[StandardParameter { kind: "String", name: "asNewState", default: None }],
    },
    StandardFunction { name: "GetState", result: Some("String"), body: StandardBody::ReturnState, parameters: &[] },
    StandardFunction { name: "OnBeginState", result: None, body: StandardBody::EmptyEvent, parameters: &[] },
    StandardFunction { name: "OnEndState", result: None, body: StandardBody::EmptyEvent, parameters: &[] },
];
