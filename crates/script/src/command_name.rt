ghost use Rattle.std.specs.Prelude.{◌≡◌, IfSome, IfNone, true};
ghost use Rattle.script.specs.Shapes.{is_of_session, parts_of, repeated_of, written};
ghost use Rattle.script.specs.declared.command_name.CommandName.{CommandName as Name};

use crate::Part;

/// The names that commands have, and `table`.
#[derive(Clone, Copy)]
pub enum CommandName {
    Table,
    Row,
    Begin,
    Insert,
    Update,
    Delete,
    Undo,
    Commit,
    Get,
    Spools,
    Start,
    Scan,
    Digest,
    Seal,
    Load,
    Feed,
    Apply,
    Fence,
    Switch,
    Abandon,
    Side,
    Pairs,
    Rest,
}

impl CommandName {
    pub fn read(text: &str) -> Option<CommandName>
        ensures known { IfSome result (λ name. text.now ≡ written name) }
        ensures unknown { IfNone result ((name : Name) → text.now ≡ written name → ⊥) }
    {
        match text {
            "table" => Some(CommandName::Table),
            "row" => Some(CommandName::Row),
            "begin" => Some(CommandName::Begin),
            "insert" => Some(CommandName::Insert),
            "update" => Some(CommandName::Update),
            "delete" => Some(CommandName::Delete),
            "undo" => Some(CommandName::Undo),
            "commit" => Some(CommandName::Commit),
            "get" => Some(CommandName::Get),
            "spools" => Some(CommandName::Spools),
            "start" => Some(CommandName::Start),
            "scan" => Some(CommandName::Scan),
            "digest" => Some(CommandName::Digest),
            "seal" => Some(CommandName::Seal),
            "load" => Some(CommandName::Load),
            "feed" => Some(CommandName::Feed),
            "apply" => Some(CommandName::Apply),
            "fence" => Some(CommandName::Fence),
            "switch" => Some(CommandName::Switch),
            "abandon" => Some(CommandName::Abandon),
            "side" => Some(CommandName::Side),
            "pairs" => Some(CommandName::Pairs),
            "rest" => Some(CommandName::Rest),
            _ => None,
        }
    }

    /// The same, of a name that a session's command may have.
    pub fn read_of_session(text: &str) -> Option<CommandName>
        ensures known { IfSome result (λ name. (is_of_session name ≡ true) × (text.now ≡ written name)) }
        ensures unknown { IfNone result ((name : Name) → is_of_session name ≡ true → text.now ≡ written name → ⊥) }
    {
        let name = CommandName::read(text)?;
        name.is_of_session().then_some(name)
    }

    /// Whether it is the name of a command that a session may have.
    pub fn is_of_session(self) -> bool
        ensures { result ≡ is_of_session self }
    {
        matches!(
            self,
            CommandName::Begin
                | CommandName::Insert
                | CommandName::Update
                | CommandName::Delete
                | CommandName::Undo
                | CommandName::Commit
        )
    }

    /// What the fields behind the name spell, one part each.
    pub fn parts(self) -> &'static [Part]
        ensures { result.now ≡ parts_of self }
    {
        match self {
            CommandName::Table => &[Part::Number, Part::Kind],
            CommandName::Row => &[Part::Cell],
            CommandName::Begin | CommandName::Undo | CommandName::Commit => &[Part::Label],
            CommandName::Insert => &[Part::Label, Part::Cell],
            CommandName::Update => &[Part::Label, Part::Rid, Part::Cell],
            CommandName::Delete => &[Part::Label, Part::Rid],
            CommandName::Get => &[Part::Rid],
            CommandName::Spools => &[Part::Spools],
            CommandName::Start => &[Part::Number, Part::Number, Part::Dealing, Part::Spec],
            CommandName::Scan | CommandName::Feed | CommandName::Apply => &[
                Part::Number,
                Part::Number,
            ],
            CommandName::Digest
            | CommandName::Seal
            | CommandName::Load
            | CommandName::Side
            | CommandName::Pairs => &[Part::Number],
            CommandName::Fence | CommandName::Switch | CommandName::Abandon => &[],
            CommandName::Rest => &[Part::Spec],
        }
    }

    /// What any further fields spell, if there may be some.
    pub fn repeated(self) -> Option<Part>
        ensures { result ≡ repeated_of self }
    {
        match self {
            CommandName::Table => Some(Part::Kind),
            CommandName::Row | CommandName::Insert | CommandName::Update => Some(Part::Cell),
            CommandName::Start => Some(Part::Spec),
            _ => None,
        }
    }

    /// How its record is written.
    pub fn usage(self) -> &'static str {
        match self {
            CommandName::Table => "table,L,KIND,..",
            CommandName::Row => "row,CELL,..",
            CommandName::Begin => "begin,A",
            CommandName::Insert => "insert,A,CELL,..",
            CommandName::Update => "update,A,RID,CELL,..",
            CommandName::Delete => "delete,A,RID",
            CommandName::Undo => "undo,A",
            CommandName::Commit => "commit,A",
            CommandName::Get => "get,RID",
            CommandName::Spools => "spools,KIND",
            CommandName::Start => "start,W,Q,DEALING,SPEC,..",
            CommandName::Scan => "scan,R,W",
            CommandName::Digest => "digest,W",
            CommandName::Seal => "seal,W",
            CommandName::Load => "load,I",
            CommandName::Feed => "feed,I,K",
            CommandName::Apply => "apply,I,K",
            CommandName::Fence => "fence",
            CommandName::Switch => "switch",
            CommandName::Abandon => "abandon",
            CommandName::Side => "side,I",
            CommandName::Pairs => "pairs,K",
            CommandName::Rest => "rest,SPEC",
        }
    }
}
