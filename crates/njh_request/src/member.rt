//! Members of what a request's body holds.

ghost use Rattle.std.specs.Prelude.{◌≡◌};
ghost use Rattle.njh_request.specs.Members.{member_of, name_of, takes};

use std::fmt;

/// A member of a body, or of a user in one.
#[derive(Clone, Copy, Debug, PartialEq, Eq)]
pub enum Member {
    /// What is ordered for files.
    Command,
    /// In whose name.
    Owner,
    /// Who is told something.
    To,
    /// What he is told.
    Text,
    /// How a line is to be.
    State,
    /// Whether that waits until no file is on the streams.
    WhenIdle,
    /// A user's node.
    Node,
    /// The user there.
    User,
    /// The name of an order.
    Name,
    /// The last second in which it may be carried out.
    Until,
    /// Who orders it.
    By,
    /// The table file that is compared.
    File,
}

/// What an object is, by which it has its members.
#[derive(Clone, Copy, Debug, PartialEq, Eq)]
pub(crate) enum Form {
    /// An order for a customer's files.
    Order,
    /// A message to a customer's user.
    Message,
    /// How a line is to be.
    Line,
    /// The end of the service.
    Stop,
    /// That the table file is read.
    Reload,
    /// That a table file is compared.
    Diff,
    /// A user.
    User,
}

impl Member {
    /// The member of a name.
    pub(crate) fn of(key: &str) -> Option<Member>
        ensures { result ≡ member_of key.now }
    {
        match key {
            "command" => Some(Member::Command),
            "owner" => Some(Member::Owner),
            "to" => Some(Member::To),
            "text" => Some(Member::Text),
            "state" => Some(Member::State),
            "when_idle" => Some(Member::WhenIdle),
            "node" => Some(Member::Node),
            "user" => Some(Member::User),
            "name" => Some(Member::Name),
            "until" => Some(Member::Until),
            "by" => Some(Member::By),
            "file" => Some(Member::File),
            _ => None,
        }
    }

    /// What it is called.
    pub fn name(self) -> &'static str
        ensures { result.now ≡ name_of self }
    {
        match self {
            Member::Command => "command",
            Member::Owner => "owner",
            Member::To => "to",
            Member::Text => "text",
            Member::State => "state",
            Member::WhenIdle => "when_idle",
            Member::Node => "node",
            Member::User => "user",
            Member::Name => "name",
            Member::Until => "until",
            Member::By => "by",
            Member::File => "file",
        }
    }
}

impl fmt::Display for Member {
    ghost use Rattle.std.specs.Prelude.{Some};
    ghost use Rattle.njh_request.specs.Members.{name_of};

    ghost output = { λ member. Some (name_of member) };

    fn fmt<W: fmt::Write>(&self, f: &mut fmt::Formatter<W>) -> fmt::Result {
        f.write_str(self.name())
    }
}

impl Form {
    /// Whether an object of this form may have a member.
    pub(crate) fn takes(self, member: Member) -> bool
        ensures { result ≡ takes self member }
    {
        match (self, member) {
            (Form::Order, Member::Command | Member::Owner) => true,
            (Form::Message, Member::To | Member::Text) => true,
            (Form::Line, Member::State | Member::WhenIdle) => true,
            (Form::Stop, Member::WhenIdle) => true,
            (Form::Diff, Member::File) => true,
            (Form::User, Member::Node | Member::User) => true,
            (Form::User, _) => false,
            (_, Member::Name | Member::Until | Member::By) => true,
            (_, _) => false,
        }
    }
}
