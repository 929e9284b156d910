//! Which files of an answer are chosen.

ghost use Rattle.std.specs.Prelude.{◌≡◌, IfErr, IfOk, option_map};
ghost use Rattle.serde_json.specs.View.{view};
ghost use Rattle.njh_arguments.specs.Choices.{choice_view, owner_view, viewed_owner};
ghost use Rattle.njh_ctl.specs.Chosen.{IsFile, file_view, has_choice, is_as_old, is_as_wanted, is_chosen, is_owned_by};
ghost use Rattle.njh_ctl.specs.Chosen.{kind_text, state_text, wanted_by};
ghost use Rattle.njh_ctl.specs.Faults.{IsPlain};

use crate::answers::{member, text_in};
use crate::fault::CtlFault;
use njh_arguments::{Choice, FileKind, FileState, Owner};
use serde_json::Value;

/// What is asked of a file of an answer.
#[derive(Clone, Copy)]
pub(crate) struct FileFacts<'a> {
    pub(crate) name: &'a str,
    pub(crate) owner: Owner<'a>,
    /// The node that it is for.
    pub(crate) node: &'a str,
    pub(crate) state: &'a str,
    pub(crate) kind: &'a str,
    /// When it came, in seconds since 1970, if that is known.
    pub(crate) came: Option<u64>,
}

/// Which files are looked for, and at which moment.
#[derive(Clone, Copy)]
pub(crate) struct Filter<'a> {
    pub(crate) choice: Choice<'a>,
    /// Now, in seconds since 1970.
    pub(crate) now: u64,
}

/// What is asked of a file of an answer.
pub(crate) fn facts_of(file: &Value) -> Result<FileFacts<'_>, CtlFault>
    ensures facts { IfOk result (λ facts. IsFile (view file.now) (file_view facts)) }
    ensures fault { IfErr result IsPlain }
{
    let owner = member(file, "owner")?;
    let destination = member(file, "destination")?;
    let name = text_in(file, "name")?;
    let owner_node = text_in(owner, "node")?;
    let owner_user = text_in(owner, "user")?;
    let node = text_in(destination, "node")?;
    let state = text_in(file, "state")?;
    let kind = text_in(file, "kind")?;
    let came = file.get("came").and_then(Value::as_u64);
    Ok(FileFacts {
        name,
        owner: Owner {
            node: owner_node,
            user: owner_user,
        },
        node,
        state,
        kind,
        came,
    })
}

/// Whether a file is chosen.
pub(crate) fn is_chosen(filter: Filter<'_>, facts: FileFacts<'_>) -> bool
    ensures { result ≡ is_chosen (wanted_by filter.entry) (file_view facts.entry) }
{
    is_owned_by(facts.owner, filter.choice.owner)
        && is_as_wanted(facts.node, filter.choice.node)
        && is_in_state(facts.state, filter.choice.state)
        && is_of_kind(facts.kind, filter.choice.kind)
        && is_as_old(filter.now, filter.choice.age, facts.came)
}

/// Whether anything is asked of files.
pub(crate) fn has_choice(choice: Choice<'_>) -> bool
    ensures { result ≡ has_choice (choice_view choice.entry) }
{
    choice.owner.is_some()
        || choice.node.is_some()
        || choice.state.is_some()
        || choice.kind.is_some()
        || choice.age.is_some()
}

fn is_owned_by(owner: Owner<'_>, wanted: Option<Owner<'_>>) -> bool
    ensures { result ≡ is_owned_by (owner_view owner.entry) (viewed_owner wanted.entry) }
{
    match wanted {
        Some(wanted) => owner.node == wanted.node && owner.user == wanted.user,
        None => true,
    }
}

/// Whether a text is the one that is looked for, if one is.
pub(crate) fn is_as_wanted(text: &str, wanted: Option<&str>) -> bool
    ensures { result ≡ is_as_wanted text.now (option_map (λ wanted. wanted.now) wanted.entry) }
{
    match wanted {
        Some(wanted) => text == wanted,
        None => true,
    }
}

fn is_in_state(state: &str, wanted: Option<FileState>) -> bool
    ensures { result ≡ is_as_wanted state.now (option_map state_text wanted) }
{
    match wanted {
        Some(FileState::Ready) => state == "READY",
        Some(FileState::Held) => state == "HELD",
        Some(FileState::Refused) => state == "REFUSED",
        Some(FileState::Sending) => state == "SENDING",
        None => true,
    }
}

fn is_of_kind(kind: &str, wanted: Option<FileKind>) -> bool
    ensures { result ≡ is_as_wanted kind.now (option_map kind_text wanted) }
{
    match wanted {
        Some(FileKind::In) => kind == "IN",
        Some(FileKind::Out) => kind == "OUT",
        None => true,
    }
}

/// Whether a file is known to have come so many seconds ago or longer, if that is asked.
fn is_as_old(now: u64, age: Option<u64>, came: Option<u64>) -> bool
    ensures { result ≡ is_as_old now age came }
{
    match age {
        Some(age) => match came {
            Some(came) => age <= now && came <= now - age,
            None => false,
        },
        None => true,
    }
}
