//! The marks of lines as up, for whoever runs them to set. A route with a second line goes by them.

ghost use Rattle.std.specs.Prelude.{◌≡◌, ◌<◌, false, length, map, slice_index_or, slice_set, vec_len};
ghost use Rattle.njh_table.specs.Marks.{customer_marked, customer_unmarked, line_marked};
ghost use Rattle.njh_table.specs.TableFile.{no_customer};

use crate::LineId;
use crate::customer::NamedCustomer;
use crate::line::NamedLine;
use crate::tables::Tables;

impl Tables {
    ghost use Rattle.njh_table.specs.Marks.{without_marks, with_mark};
    ghost use Rattle.njh_table.specs.TableFile.{HasLine};

    /// Marks a line as up, or takes the mark away. Takes no memory.
    pub fn set_up(&mut self, id: LineId, up: bool)
        requires { HasLine self.old id }
        ensures { self.new ≡ with_mark id up self.old }
    {
        mark_line(&mut self.customers, id, up);
    }

    /// Takes the marks of all lines away. Takes no memory.
    pub fn set_all_down(&mut self)
        ensures { self.new ≡ without_marks self.old }
    {
        take_marks(&mut self.customers);
    }
}

/// One line of one customer has this mark.
fn mark_line(customers: &mut Vec<NamedCustomer>, id: LineId, up: bool)
    requires customer { id.customer < vec_len customers.old }
    requires line { id.number < length (slice_index_or customers.old.items id.customer no_customer).lines }
    ensures { customers.new.items ≡ slice_set customers.old.items id.customer
        (customer_marked id.number up (slice_index_or customers.old.items id.customer no_customer)) }
{
    customers[usize::from(id.customer)].set_up(id.number, up);
}

/// No line of the customers has a mark.
fn take_marks(customers: &mut Vec<NamedCustomer>)
    ensures { customers.new.items ≡ map customer_unmarked customers.old.items }
{
    for index in 0..customers.len() {
        customers[index].set_all_down();
    }
}

/// None of the lines has a mark.
fn take_line_marks(lines: &mut Vec<NamedLine>)
    ensures { lines.new.items ≡ map (line_marked false) lines.old.items }
{
    for index in 0..lines.len() {
        lines[index].set_up(false);
    }
}

impl NamedCustomer {
    fn set_up(&mut self, line: u16, up: bool)
        requires { line < length self.old.lines }
        ensures { self.new ≡ customer_marked line up self.old }
    {
        self.lines[usize::from(line)].set_up(up);
    }

    fn set_all_down(&mut self)
        ensures { self.new ≡ customer_unmarked self.old }
    {
        take_line_marks(&mut self.lines);
    }
}

impl NamedLine {
    fn set_up(&mut self, up: bool)
        ensures { self.new ≡ line_marked up self.old }
    {
        self.up = up;
    }
}
