//! What an operator asks of a hub that runs.

/// What is asked of a hub that runs, by its console.
#[derive(Clone, Copy)]
pub enum ConsoleCommand<'a> {
    /// How the hub is.
    Status {
        /// Only whether something is wrong, by the status to end with.
        quiet: bool,
    },
    /// What its customers have.
    Customers,
    /// How lines are.
    Lines {
        /// The customer whose lines, or else the line; all customers' lines if none is named.
        name: Option<&'a str>,
    },
    /// Which nodal messages wait on a line.
    Messages {
        /// The line.
        line: &'a str,
    },
    /// Which files there are.
    Files {
        /// Whose files; all customers' if none is named.
        customer: Option<&'a str>,
        /// Which of them.
        choice: Choice<'a>,
    },
    /// To change a customer's files of a name.
    Change {
        /// What becomes of them.
        change: Change<'a>,
        /// The customer.
        customer: &'a str,
        /// The name of the files.
        file: &'a str,
        /// Whose files; if nobody is named they have to be one owner's.
        owner: Option<Owner<'a>>,
    },
    /// To change a customer's files that are chosen, name by name.
    ChangeMany {
        /// What becomes of them.
        change: Change<'a>,
        /// The customer.
        customer: &'a str,
        /// Which files.
        choice: Choice<'a>,
        /// Only to say what would be ordered.
        dry_run: bool,
    },
    /// To tell a user something.
    Tell {
        /// The customer whose user it is.
        customer: &'a str,
        /// The user's node.
        node: &'a str,
        /// The user.
        user: &'a str,
        /// What is told.
        text: &'a str,
    },
    /// What came of an order.
    Outcome {
        /// Its name, or its number.
        order: &'a str,
    },
    /// To end a line's connection and let none in.
    Stop {
        /// The line.
        line: &'a str,
        /// Only once no file is on its streams.
        when_idle: bool,
    },
    /// To let a line have connections again.
    Start {
        /// The line.
        line: &'a str,
    },
    /// To end the service.
    Shutdown {
        /// Only once no file is on a stream.
        when_idle: bool,
    },
    /// To read the table file, whatever its time.
    Reload,
    /// What a table file would change.
    Diff {
        /// Its name.
        file: &'a str,
    },
}

/// A user at a node, written `LYON.ANNA`.
#[derive(Clone, Copy)]
pub struct Owner<'a> {
    /// The node.
    pub node: &'a str,
    /// The user.
    pub user: &'a str,
}

/// What becomes of files.
#[derive(Clone, Copy)]
pub enum Change<'a> {
    /// They wait, and aren't sent.
    Hold,
    /// They don't wait any more.
    Release,
    /// They are gone.
    Cancel,
    /// They are for another node.
    Reroute(&'a str),
}

/// Which files are chosen: those to which all of this applies that is said.
#[derive(Clone, Copy)]
pub struct Choice<'a> {
    /// Only those of this owner.
    pub owner: Option<Owner<'a>>,
    /// Only those for this node.
    pub node: Option<&'a str>,
    /// Only those in this state.
    pub state: Option<FileState>,
    /// Only those of this kind.
    pub kind: Option<FileKind>,
    /// Only those of which it is known that they came so many seconds ago, or longer.
    pub age: Option<u64>,
}

/// A state of files.
#[derive(Clone, Copy, Debug, PartialEq, Eq)]
pub enum FileState {
    /// They go out in their turn.
    Ready,
    /// They wait for a command.
    Held,
    /// The peer has refused them.
    Refused,
    /// They go out now.
    Sending,
}

/// A kind of files.
#[derive(Clone, Copy, Debug, PartialEq, Eq)]
pub enum FileKind {
    /// Jobs, which are SYSIN.
    In,
    /// Output, which is SYSOUT.
    Out,
}
