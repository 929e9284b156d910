//! Laws of a spool file, and of a hub that is opened from it. Each function does nothing: its
//! contract is the law.

ghost use Rattle.std.specs.Prelude.{◌≡◌, ℕ, ◌<◌, false, List, [], length};
ghost use Rattle.std.specs.List.{AllByRecursion};
ghost use Rattle.njh_hub.specs.WholeHub.{Part, part, part_at_open};
ghost use Rattle.njh_keeper.specs.Opened.{AreBack, hub_opened, is_own, own_files, part_opened};
ghost use Rattle.njh_keeper.specs.LinesLost.{LeftAsLinesLost, OpenedAsLinesLost, StartedAgain};
ghost use Rattle.njh_keeper.specs.OpenedFiles.{HasOpened};
ghost use Rattle.njh_keeper.specs.SetAside.{all_refused, all_taken_up, is_aside, names_in, put_back, spool_tried};
ghost use Rattle.njh_keeper.specs.Keeper.{IsSettledFrom, Keeping, MayLeave, left_in};
ghost use Rattle.njh_turns.specs.Keeping.{LeavesOnly};
ghost use Rattle.njh_spool.specs.Restoring.{KeptFile};
ghost use Rattle.njh_spoolfile.specs.Kept.{File, SpoolContents, Whole, with_file};
ghost use Rattle.njh_spoolfile.specs.Shelf.{shown};
ghost use Rattle.njh_spoolfile.specs.CommitState.{CommitState, Stands};
ghost use Rattle.njh_table.specs.Accepted.{AreDistinct};
ghost use Rattle.njh_table.specs.Entries.{CustomerEntry};
ghost use Rattle.njh_table.specs.TableFile.{TableFile, customer_at, entry_of};

use njh_spoolfile::only_the_last_commit;
use sqlite::Alter;

/// A customer of a hub that was opened from files of its own has these, in their order and with all
/// their records: Held if they were Held or their node has no route, else Ready. Its lines are
/// down, and nothing waits.
pub fn files_stand_again()
    ensures { (entry : CustomerEntry) (ws : List Whole) → AreBack (part_at_open entry) ws
        → HasOpened entry ws (part_opened entry ws) }
{}

/// A customer was opened, and whatever events came, it had these whole files when the hub ended. If
/// a hub is opened again from them, by the customer's old entry with whatever routes, each can be
/// put back, and the customer has on it what it alone would have if the sessions of all its lines
/// were lost and it were then given these routes; but for messages, which are not kept, and what
/// `bare` of `LinesLost.antt` names of a line. So it is with what a crash left of them.
pub fn opened_again_as_after_the_loss_of_all_lines()
    ensures had { OpenedAsLinesLost }
    ensures left { LeftAsLinesLost }
{}

/// A hub was opened from a spool file, and whatever events came, and whosever they were, a crash left
/// there the whole files of its customers as it had them. If a hub is opened again from that, by the
/// old entries with whatever routes, each customer has on it what it alone, over its own events,
/// would have if the sessions of all its lines were lost and it were then given these routes; but
/// for what `opened_again_as_after_the_loss_of_all_lines` leaves out.
pub fn started_again_each_is_alone()
    ensures { StartedAgain }
{}

/// The whole files that a customer has after the opening are those of its own, with or without the
/// mark of one that is set aside, that can be put back one after the other, whatever files others
/// have: all of them if each can be put back.
pub fn each_has_what_can_be_put_back()
    ensures own { (table : TableFile) (spool : SpoolContents) → AreDistinct (names_in table) → (c : ℕ)
        → c < length table.customers → own_files (customer_at table c).name (spool_tried table spool)
        ≡ put_back (part_at_open (entry_of (customer_at table c)))
        (own_files (customer_at table c).name (all_taken_up spool)) }
    ensures all { (p : Part) (ws : List Whole) → AreBack p ws → put_back p ws ≡ ws }
{}

/// Where no file is set aside, before the opening or in it, the spool file stays as it is.
pub fn nothing_is_set_aside()
    ensures { (table : TableFile) (spool : SpoolContents)
        → AllByRecursion (λ e. is_aside e.1.customer ≡ false) spool.files → all_refused table spool ≡ []
        → spool_tried table spool ≡ spool }
{}

/// What a customer has after the opening is decided by its own entry and its own files: on two
/// hubs, of two tables and two spool files in which these are the same, it has the same.
pub fn own_files_decide()
    ensures { (table other : TableFile) (spool kept : SpoolContents) (c d : ℕ)
        → c < length table.customers → d < length other.customers
        → entry_of (customer_at table c) ≡ entry_of (customer_at other d)
        → own_files (customer_at table c).name spool ≡ own_files (customer_at other d).name kept
        → part c (hub_opened table spool) ≡ part d (hub_opened other kept) }
{}

/// A whole file of another customer that comes last into a spool file changes nothing of this
/// one's.
pub fn a_file_of_another_does_not_show()
    ensures { (entry : CustomerEntry) (name : List ℕ) (id : ℕ) (file : File) (spool : SpoolContents)
        → AllByRecursion (λ e. e.0 < id) spool.files → is_own name file ≡ false
        → part_opened entry (own_files name (with_file id file spool)) ≡ part_opened entry (own_files name spool) }
{}

/// A crash leaves of the customers' whole files those that the spool file has as its last commit.
pub fn a_crash_leaves_what_was_committed<S: Alter>()
    ensures { (keeper : Keeping S) (s : CommitState) (left : List (List KeptFile))
        → Stands s (shown S.Store keeper.store)
        → MayLeave S.Store keeper left → left ≡ left_in keeper.names s.kept }
{
    only_the_last_commit::<S>();
}

/// After the opening of a hub, from a spool file that held a spool before, a crash leaves of the
/// customers' whole files those that the hub has, until something else is committed.
pub fn a_crash_leaves_what_was_opened<S: Alter>()
    ensures { (before behind : Keeping S) (table : TableFile) (parts : List Part) (s : CommitState)
        → IsSettledFrom S.Store before behind table parts → Stands s (shown S.Store before.store)
        → LeavesOnly (MayLeave S.Store behind) parts }
{
    a_crash_leaves_what_was_committed::<S>();
}
