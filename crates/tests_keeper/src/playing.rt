//! Plays what peers send, in words, on a hub whose files are kept after each step, and looks at
//! what is kept.

ghost use Rattle.std.specs.Prelude.{List, OnOk};
ghost use Rattle.njh_hub.specs.WholeHub.{Part};
ghost use Rattle.njh_turns.specs.Keeping.{LeadsHub};

use crate::lending::{Trial, kill};
use crate::networks::{CUSTOMERS, customer_of, line_of};
use crate::numbered_lines::NumberedLines;
use crate::orders::{Ordered, order_on};
use crate::same::{check_same, listing};
use crate::spool_files::SpoolFiles;
use njh_command::Replies;
use njh_encode::encode_script;
use njh_hub::Hub;
use njh_spoolfile::{Origin, Store};
use njh_table::LineId;
use njh_turns::{Depot, KeepFault, Keeper};
use std::alloc::Global;
use std::rt::HostRuntime;
use std::str;
use std::test::Fail;

/// After this line the program is killed, and begins again.
const KILL: &str = "# kill\n";

/// With this line a run begins in which no route leads to NICE.
const WITHOUT_NICE: &str = "# NICE has no route\n";

/// With this line a run begins in which ACME has room for one block.
const ONE_BLOCK: &str = "# one block for ACME\n";

/// Plays lines of words. Beside those of `encode` these are known:
///
/// `# kill`: the program is killed and begins again, with all lines down. `# NICE has no route`,
/// directly after that: in this run no route leads to NICE. `# one block for ACME`, there too: in
/// this run its files have room for one block. `# cut 20`: of the file that follows 20 blocks
/// come, up to `# uncut`. `# order ACME LYON.ANNA HOLD LYON.42`: so the operator orders in the name
/// of that user, and `# tell ACME METZ.PAUL GOOD MORNING` tells one something. `# ACME has LYON.42
/// TO METZ PAUL OUT 4 RECORDS READY, ..`: these whole files of the customer are kept. Then and
/// before the program is killed all that is kept is what the hub has.
pub(crate) fn play(rt: &HostRuntime, name: &str, words: &str) -> Result<(), Fail> {
    drop(SpoolFiles::of(rt, name)?);
    play_on(rt, name, words)
}

/// Plays lines of words with the spool file that the test of this name left.
pub(crate) fn play_on(rt: &HostRuntime, name: &str, words: &str) -> Result<(), Fail> {
    let alloc = rt.alloc();
    let mut files = SpoolFiles::left_by(rt, name)?;
    let mut script = Vec::new(alloc);
    encode_script(alloc, &mut words.as_bytes(), &NumberedLines, &mut script)?;
    for run in str::from_utf8(&script)?.split(KILL) {
        if run.starts_with(ONE_BLOCK) {
            files.take_room()?;
        } else {
            files.give_routes(!run.starts_with(WITHOUT_NICE))?;
        }
        let files = &files;
        files.try_on(&Run { files, words: run })?;
    }
    Ok(())
}

/// A run of the program, at whose end it is killed.
#[derive(Drop)]
struct Run<'a> {
    files: &'a SpoolFiles<'a>,
    words: &'a str,
}

impl Trial for Run<'_> {
    type Told = ();

    fn run<S: Origin + Drop>(&self, store: Store<S>) -> Result<(), Fail> {
        let mut keeper = self.files.keeper(store);
        let played = play_kept(self.files, &mut keeper, self.words);
        kill(keeper.into_store());
        played
    }
}

/// Plays a run with a keeper.
fn play_kept<D: Depot>(files: &SpoolFiles<'_>, keeper: &mut D, run: &str) -> Result<(), Fail> {
    let mut hub = files.hub_of(keeper)?;
    let played = play_lines(files, keeper, &mut hub, run);
    drop(hub);
    played
}

/// Plays the lines of a run on a hub that was just opened.
fn play_lines<D: Depot>(
    files: &SpoolFiles<'_>,
    keeper: &mut D,
    hub: &mut Hub,
    run: &str,
) -> Result<(), Fail>
    requires { D.says.knows keeper.old hub.old }
{
    check_times(keeper, hub)?;
    let mut left = u32::MAX;
    for line in run.lines() {
        left = play_line(files, keeper, hub, line, left)?;
    }
    check_kept(files, hub, "at the end", None)
}

/// Plays a line of a run while so many blocks come, and answers how many come from now on.
fn play_line<K: Keeper>(
    files: &SpoolFiles<'_>,
    keeper: &mut K,
    hub: &mut Hub,
    line: &str,
    left: u32,
) -> Result<u32, Fail>
    requires { K.says.knows keeper.old hub.old }
    ensures { OnOk result (K.says.knows keeper.new hub.new) }
{
    if let Some(note) = line.strip_prefix("# ") {
        return match order_on(files.allocator(), note)? {
            Some(ordered) => {
                play_order(keeper, hub, &ordered)?;
                Ok(left)
            }
            None => take_note(files, hub, note, left),
        };
    }
    if left > 0 && !line.is_empty() {
        play_event(files, keeper, hub, line)?;
        return Ok(left.saturating_sub(1));
    }
    Ok(left)
}

/// A depot that opened a hub knows when each whole file of the two customers came, and of no more.
fn check_times<D: Depot>(depot: &D, hub: &Hub) -> Result<(), Fail> {
    for customer in 0..2 {
        let count = hub.file_count(customer);
        for index in 0..count {
            if depot.came(customer, index).is_none() {
                return Err("when a file came that was put back isn't known".into());
            }
        }
        if depot.came(customer, count).is_some() {
            return Err("a file came that isn't there".into());
        }
    }
    Ok(())
}

/// Does what a note says, and answers how many blocks come from now on.
fn take_note(files: &SpoolFiles<'_>, hub: &Hub, note: &str, left: u32) -> Result<u32, Fail> {
    let (word, rest) = note.split_once(" ").unwrap_or((note, ""));
    if word == "cut" {
        return Ok(rest.parse::<u32>()?);
    }
    if word == "uncut" {
        return Ok(u32::MAX);
    }
    if let (Some(customer), Some(wanted)) = (customer_of(word), rest.strip_prefix("has")) {
        check_kept(files, hub, note, Some((customer, wanted.trim())))?;
    }
    Ok(left)
}

/// Plays a line of a script.
fn play_event<K: Keeper>(
    files: &SpoolFiles<'_>,
    keeper: &mut K,
    hub: &mut Hub,
    line: &str,
) -> Result<(), Fail>
    requires { K.says.knows keeper.old hub.old }
    ensures { OnOk result (K.says.knows keeper.new hub.new) }
{
    let (event, rest) = line.split_once(" ").ok_or("no event")?;
    let (name, digits) = rest.split_once(" ").unwrap_or((rest, ""));
    let id = line_of(name).ok_or("no line")?;
    match event {
        "BYTES" => play_bytes(files, keeper, hub, id, digits),
        "TICK" => play_tick(files.allocator(), keeper, hub, id),
        "LOST" => play_loss(files.allocator(), keeper, hub, id),
        _ => Err("no such event".into()),
    }
}

/// Plays an order.
fn play_order<K: Keeper>(keeper: &mut K, hub: &mut Hub, ordered: &Ordered) -> Result<(), Fail>
    requires { K.says.knows keeper.old hub.old }
    ensures { OnOk result (K.says.knows keeper.new hub.new) }
{
    let mut replies = Replies::new();
    hub.order(ordered.customer, &ordered.order, &mut replies)?;
    keep(keeper, hub, ordered.customer)?;
    Ok(())
}

/// Plays a tick.
fn play_tick<K: Keeper>(
    alloc: Global,
    keeper: &mut K,
    hub: &mut Hub,
    id: LineId,
) -> Result<(), Fail>
    requires { K.says.knows keeper.old hub.old }
    ensures { OnOk result (K.says.knows keeper.new hub.new) }
{
    let mut out = Vec::new(alloc);
    hub.tick(id, &mut out)?;
    drop(out);
    keep(keeper, hub, id.customer)?;
    Ok(())
}

/// Plays the loss of a line.
fn play_loss<K: Keeper>(
    alloc: Global,
    keeper: &mut K,
    hub: &mut Hub,
    id: LineId,
) -> Result<(), Fail>
    requires { K.says.knows keeper.old hub.old }
    ensures { OnOk result (K.says.knows keeper.new hub.new) }
{
    let mut out = Vec::new(alloc);
    hub.lost(id, &mut out)?;
    drop(out);
    keep(keeper, hub, id.customer)?;
    Ok(())
}

/// Plays bytes, in as many steps as they need.
fn play_bytes<K: Keeper>(
    files: &SpoolFiles<'_>,
    keeper: &mut K,
    hub: &mut Hub,
    id: LineId,
    digits: &str,
) -> Result<(), Fail>
    requires { K.says.knows keeper.old hub.old }
    ensures { OnOk result (K.says.knows keeper.new hub.new) }
{
    let bytes = hex::decode(files.allocator(), digits)?;
    let mut left = bytes.as_slice();
    for _ in 0..bytes.len() {
        if left.is_empty() {
            return Ok(());
        }
        let taken = play_step(files.allocator(), keeper, hub, id, left)?;
        left = left.get(taken..).unwrap_or(&[]);
    }
    Ok(())
}

/// Plays a step by bytes, and answers how many it took.
fn play_step<K: Keeper>(
    alloc: Global,
    keeper: &mut K,
    hub: &mut Hub,
    id: LineId,
    piece: &[u8],
) -> Result<usize, Fail>
    requires { K.says.knows keeper.old hub.old }
    ensures { OnOk result (K.says.knows keeper.new hub.new) }
{
    let mut out = Vec::new(alloc);
    let taken = hub.take(id, piece, &mut out)?;
    drop(out);
    keep(keeper, hub, id.customer)?;
    Ok(taken)
}

/// Keeps what a step of a customer made of its files, as at the end of a round.
fn keep<K: Keeper>(keeper: &mut K, hub: &Hub, customer: u16) -> Result<(), KeepFault>
    requires { (before : List Part) × K.says.knows keeper.old before × LeadsHub customer before hub.now }
    ensures { OnOk result (K.says.knows keeper.new hub.now) }
{
    keeper.follow(hub, customer)?;
    keeper.settle()
}

/// Checks that what is kept is what the hub has, and that these files of a customer are, where they
/// are given.
fn check_kept(
    files: &SpoolFiles<'_>,
    hub: &Hub,
    moment: &str,
    wanted: Option<(u16, &str)>,
) -> Result<(), Fail> {
    let kept = files.hub_left()?;
    let checked = check_hub(files.allocator(), &kept, hub, moment, wanted);
    drop(kept);
    checked
}

/// Checks the same of a hub that was opened from what is kept.
fn check_hub(
    alloc: Global,
    kept: &Hub,
    hub: &Hub,
    moment: &str,
    wanted: Option<(u16, &str)>,
) -> Result<(), Fail> {
    for customer in CUSTOMERS {
        check_same(kept, hub, customer, moment)?;
    }
    let Some((customer, wanted)) = wanted else {
        return Ok(());
    };
    let found = listing(alloc, kept, customer)?;
    if found.as_str() != wanted {
        return Err(Fail::new(format_args!("{found} is kept, and not {wanted}")));
    }
    Ok(())
}
