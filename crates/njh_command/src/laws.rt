//! Laws of the definitions. Each function does nothing: its contract is the law.

ghost use Rattle.njh_command.specs.CommandLaws.{CommandsKeepHeaders, CommandsMoveFilesSo, ReroutesNameNodes};

/// A message of a user moves no whole file, or the user's own of one name, and these in one of four
/// ways: they are held or released, go to another node, or are cancelled. A command that does one
/// of these or nothing is known to all that stands on this law.
pub fn commands_move_files_so()
    ensures { CommandsMoveFilesSo }
{}

/// A node that a message reroutes files to is a name.
pub fn reroutes_name_nodes()
    ensures { ReroutesNameNodes }
{}

/// Whole files with headers that read have them whatever a user says.
pub fn commands_keep_headers()
    ensures { CommandsKeepHeaders }
{}
