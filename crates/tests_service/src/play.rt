//! Plays the cases of a file, each on a service of its own, and says of each whether what is seen
//! is what it wants.

use crate::case::{Case, End};
use crate::network::{SceneLog, SceneNetwork, SceneTables};
use crate::scene::Scene;
use crate::serving::{Plan, Player, Rounds, serve};
use crate::world::World;
use njh_log::LogStyle;
use njh_sites::Listening;
use std::alloc::Global;
use std::{fs, io};

/// How many rounds a second of a service may take, if each of its lines is due ten times and
/// something happens fifty times.
const ROUNDS: u64 = 100;

/// How long all that is seen is looked at, in milliseconds.
const WHOLE: u64 = 31_900;

/// How much longer a service is looked at that is to have ended.
const MORE: u64 = 5_000;

/// Plays each case of a file.
pub(crate) fn play_file(rt: &HostRuntime, texts: &str, file: &str) -> io::Result<()> {
    let cases = fs::read_to_string(rt, file)?;
    for rows in cases.as_str().split("\n\n") {
        play_case(rt, texts, rows)?;
    }
    Ok(())
}

/// Plays the case of some rows.
fn play_case(rt: &HostRuntime, texts: &str, rows: &str) -> io::Result<()> {
    let (first, rest) = rows.split_once('\n').unwrap_or((rows, ""));
    let Some(name) = first.strip_prefix("case ") else {
        return println!(rt; "no name of a case: {first}");
    };
    let mut case = Case::new(rt.alloc());
    for row in rest.lines() {
        if !case.read(rt, texts, row)? {
            println!(rt; "{name}: no act, and no end: {row}")?;
        }
    }
    try_case(rt, name, &case)
}

/// Plays a case, and says what came of it.
fn try_case(rt: &HostRuntime, name: &str, case: &Case) -> io::Result<()> {
    let alloc = rt.alloc();
    let world = World::new(alloc, &case.acts, case.shows);
    let is_served = play_in(alloc, &world, case)?;
    let now = world.now();
    let bytes = world.into_seen();
    if !has_come(case.end, is_served, now) {
        return println!(rt; "{name} is at {now}, and its lines are served: {is_served}");
    }
    let seen = str::from_utf8(&bytes).unwrap_or("no text");
    let wanted = str::from_utf8(&case.wanted).unwrap_or("no wanted text");
    compare(rt, name, seen_of(case.end, seen), wanted)
}

/// Whether a case came to its end: whether its lines are served, and what time it is then.
fn has_come(end: Option<End>, is_served: bool, now: u64) -> bool {
    match end {
        Some(End::Until(end)) => is_served && end <= now,
        Some(End::Ends(end)) => is_served && now == end,
        Some(End::Whole(_)) => is_served && WHOLE <= now,
        Some(End::Refused) => !is_served,
        None => false,
    }
}

/// What is compared of all that was seen.
fn seen_of(end: Option<End>, seen: &str) -> &str {
    match end {
        Some(End::Whole(_)) => seen,
        Some(End::Refused) => seen,
        _ => after_start(seen),
    }
}

/// What comes after the line that says that the lines are served.
fn after_start(seen: &str) -> &str {
    match seen.split_once(" 0 files\n") {
        Some((_, after)) => after,
        None => "not ready",
    }
}

/// Says whether what was seen is what is wanted, or the first line that isn't.
fn compare(rt: &HostRuntime, name: &str, seen: &str, wanted: &str) -> io::Result<()> {
    if seen == wanted {
        return println!(rt; "ok {name}");
    }
    let mut lines = seen.lines();
    for line in wanted.lines() {
        let found = lines.next().unwrap_or("nothing more");
        if found != line {
            return println!(rt; "{name} wants: {line}\n{name} sees: {found}");
        }
    }
    println!(rt; "{name} sees: {}", lines.next().unwrap_or("nothing more"))
}

/// Serves the lines of a case in a world up to its end. Answers whether they are served.
fn play_in<'a>(alloc: Global, world: &'a World<'a>, case: &Case) -> io::Result<bool> {
    let (end, style, strict) = match case.end {
        Some(End::Until(end)) => (end, LogStyle::PLAIN, false),
        Some(End::Ends(end)) => (end.saturating_add(MORE), LogStyle::PLAIN, false),
        Some(End::Whole(style)) => (WHOLE, style, false),
        Some(End::Refused) => (0, LogStyle::PLAIN, true),
        None => return Ok(false),
    };
    let listening = Listening {
        address: case.address,
        strict,
    };
    let plan = Plan {
        alloc,
        tables: case.tables.as_str(),
        listening,
        style,
    };
    serve_in(Scene::World(world), plan, &mut Until { world, end })
}

/// Serves lines in a scene while somebody plays. Answers whether they are served.
pub(crate) fn serve_in<P: Player>(
    scene: Scene<'_>,
    plan: Plan<'_>,
    player: &mut P,
) -> io::Result<bool> {
    let alloc = plan.alloc;
    serve(
        plan,
        SceneNetwork { scene },
        SceneLog { scene },
        SceneTables { alloc, scene },
        player,
    )
}

/// Plays what happens in a world up to a moment.
#[derive(Drop)]
struct Until<'a> {
    world: &'a World<'a>,
    end: u64,
}

impl Player for Until<'_> {
    /// Rounds up to the moment, but no more than there may be.
    fn play<H: Rounds>(&mut self, hub: &mut H) -> io::Result<bool> {
        for _ in 0..self.end.saturating_mul(ROUNDS) / 1000 {
            if self.world.now() >= self.end {
                break;
            }
            hub.round();
        }
        Ok(true)
    }
}
