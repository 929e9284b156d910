//! Two hubs that are joined line to line: their session stays up for an hour, whoever calls and
//! whoever dials, after a text that either sent last, and after a frame that was lost each way. If
//! their passwords differ none comes up, and their logs stay short.
//!
//! A row of `joined.txt` has the case's name, which hub calls and which one dials (0 and 1), the
//! name of what the first hub's peer sends or `nothing`, whether the frame is lost that the first
//! hub sends by that or passwords differ (`refuses`), and how many texts each hub sends in all, or
//! `any`.

use crate::joint::Joint;
use crate::play::serve_in;
use crate::scene::Scene;
use crate::serving::{Plan, Player, Rounds};
use crate::texts::bytes_of;
use njh_log::LogStyle;
use njh_sites::Listening;
use std::alloc::{AllocError, Global};
use std::net::{IpAddr, Ipv4Addr};
use std::{fs, io};

/// An hour, in milliseconds.
const HOUR: u64 = 3_600_000;

/// When the peer of the first hub sends.
const SENDS: u64 = 600_000;

/// When a frame of the first hub is lost, and when one of the second.
const LOSSES: [u64; 2] = [1_200_000, 1_800_000];

/// More steps than an hour takes, with a quiet of each hub every tenth of a second and four steps a
/// quiet.
const STEPS: u32 = 400_000;

/// What the tables of the first hub have of their own: its name, the other one's, its line to LYON,
/// and that line if it isn't the one to the other hub.
const FIRST: [&str; 4] = [
    "HUBA",
    "HUBB",
    "p1",
    r#", { name = "p1", node = "LYON", role = "answer", block = 1024, streams = 4, port = 1 }"#,
];

/// The same of the second hub.
const SECOND: [&str; 4] = ["HUBB", "HUBA", "j1", ""];

/// Who does what. The hubs are 0 and 1.
#[derive(Clone, Copy)]
struct Case {
    /// Which hub calls.
    calls: usize,
    /// Which hub dials.
    dials: usize,
    /// Whether the first hub's peer sends something.
    sends: bool,
    /// Whether the frame is lost that the first hub sends by that.
    loses_it: bool,
    /// Whether the hubs have different passwords.
    refuses: bool,
    /// How many texts each hub sends in all.
    texts: Option<[u32; 2]>,
}

/// A number of a row. No hub has a larger one than 1.
fn number_of(word: &str) -> usize {
    word.parse::<usize>().unwrap_or(9)
}

/// How many texts each hub sends, unless any number is right.
fn texts_of(words: &str) -> Option<[u32; 2]> {
    let (first, second) = words.split_once(' ')?;
    Some([first.parse::<u32>().ok()?, second.parse::<u32>().ok()?])
}

/// Plays each row.
pub(crate) fn join_each(rt: &HostRuntime, texts: &str) -> io::Result<()> {
    let rows = fs::read_to_string(rt, "joined.txt")?;
    for row in rows.as_str().lines() {
        let (name, rest) = row.split_once(' ').unwrap_or((row, ""));
        let (calls, rest) = rest.split_once(' ').unwrap_or((rest, ""));
        let (dials, rest) = rest.split_once(' ').unwrap_or((rest, ""));
        let (script, rest) = rest.split_once(' ').unwrap_or((rest, ""));
        let (fate, rest) = rest.split_once(' ').unwrap_or((rest, ""));
        let sends = script != "nothing";
        let bytes = bytes_of(rt.alloc(), texts, if sends { script } else { "" })?;
        let case = Case {
            calls: number_of(calls),
            dials: number_of(dials),
            sends,
            loses_it: fate == "loses",
            refuses: fate == "refuses",
            texts: texts_of(rest),
        };
        join(rt, row, name, case, &bytes)?;
    }
    Ok(())
}

/// Joins two hubs for an hour, and says what came of it.
fn join(rt: &HostRuntime, row: &str, name: &str, case: Case, script: &[u8]) -> io::Result<()> {
    let joint = Joint::new(rt.alloc(), script);
    let alloc = rt.alloc();
    let mut first = First {
        alloc,
        joint: &joint,
        case,
    };
    let is_served = serve_one(alloc, &joint, 0, case, &mut first)?;
    if !is_served || joint.now() < HOUR {
        return println!(rt; "{row}: it spins at {}", joint.now());
    }
    for number in 0..2 {
        let wrong = if case.refuses {
            wrong_of_refused(&joint, number)
        } else {
            wrong_in(&joint, number, case)
        };
        if let Some(wrong) = wrong {
            return println!(rt; "{row}: of hub {number} {wrong}");
        }
    }
    println!(rt; "ok {name} {} {}", case.calls, case.dials)
}

/// What is wrong of a hub: it dials, or it listens and anybody may sign on; it connects once and its
/// session goes up, and nothing else but commands that it answered.
fn wrong_in(joint: &Joint<'_>, number: usize, case: Case) -> Option<&'static str> {
    let commands = joint.told(number, " j1: command of LYON.ANNA: LIST: ");
    let others = joint.told(number, " j1: ").saturating_sub(commands);
    let wanted = if case.dials == number { 3 } else { 4 };
    if others != wanted {
        return Some("its log");
    }
    if joint.told(number, " j1: session up with ") != 1 {
        return Some("its session");
    }
    let (frames, texts) = joint.sent(number);
    // One every two seconds, with the turn for a second each, and some more after each text.
    if frames <= 1000 || 2500 <= frames {
        return Some("how many frames it sent");
    }
    match case.texts {
        Some(wanted) if wanted.get(number) != Some(&texts) => Some("how many texts it sent"),
        _ => None,
    }
}

/// What is wrong of a hub whose sign-ons are refused, or that refuses them: it connects, less and
/// less often, so that an hour has no more lines than these, and no session goes up.
fn wrong_of_refused(joint: &Joint<'_>, number: usize) -> Option<&'static str> {
    if joint.told(number, " j1: session up with ") != 0 {
        return Some("its session");
    }
    let lines = joint.told(number, " j1: ");
    if lines < 100 || 250 < lines {
        return Some("how many lines its log has");
    }
    None
}

/// The text of a hub's tables. Its line to the other hub comes first.
fn text_of(alloc: Global, number: usize, case: Case) -> Result<String, AllocError> {
    let [hub, other, lyons, further] = if number == 0 { FIRST } else { SECOND };
    let role = if case.calls == number {
        "call"
    } else {
        "answer"
    };
    let site = if case.dials == number {
        "connect = \"10.0.0.1:9000\""
    } else {
        "port = 9000"
    };
    let password = match (case.refuses, number) {
        (false, _) => "",
        (true, 0) => "password = \"OPEN\", ",
        (true, _) => "password = \"SHUT\", ",
    };
    format!(in alloc;
        r#"
capacity = 100
[[customer]]
name = "ACME"
hub = "{hub}"
quota = 100
files = 8
line = [{{ name = "j1", node = "{other}", role = "{role}", block = 1024, streams = 4, {password}{site} }}{further}]
route = [{{ node = "{other}", line = "j1" }}, {{ node = "LYON", line = "{lyons}" }}]
"#
    )
}

/// Serves a hub while somebody plays.
fn serve_one<P: Player>(
    alloc: Global,
    joint: &Joint<'_>,
    number: usize,
    case: Case,
    player: &mut P,
) -> io::Result<bool> {
    let text = text_of(alloc, number, case)?;
    let listening = Listening {
        address: IpAddr::V4(Ipv4Addr::new(10, 0, 0, 1)),
        strict: false,
    };
    let plan = Plan {
        alloc,
        tables: text.as_str(),
        listening,
        style: LogStyle::PLAIN,
    };
    serve_in(Scene::Joint(joint, number), plan, player)
}

/// Plays on the first hub: serves the second one beside it.
#[derive(Drop)]
struct First<'a> {
    alloc: Global,
    joint: &'a Joint<'a>,
    case: Case,
}

impl Player for First<'_> {
    fn play<H: Rounds>(&mut self, hub: &mut H) -> io::Result<bool> {
        let mut both = Both {
            first: hub,
            joint: self.joint,
            case: self.case,
        };
        serve_one(self.alloc, self.joint, 1, self.case, &mut both)
    }
}

/// Plays on both hubs.
#[derive(Drop)]
struct Both<'a, F> {
    first: &'a mut F,
    joint: &'a Joint<'a>,
    case: Case,
}

impl<F: Rounds> Player for Both<'_, F> {
    fn play<H: Rounds>(&mut self, hub: &mut H) -> io::Result<bool> {
        go_on(self.joint, self.first, hub, self.case);
        Ok(true)
    }
}

/// Rounds of both hubs, as their waits are over, up to the end of the hour, with what happens meanwhile.
fn go_on<F: Rounds, S: Rounds>(joint: &Joint<'_>, first: &mut F, second: &mut S, case: Case) {
    let mut is_sent = !case.sends;
    let mut lost = [false; 2];
    for _ in 0..STEPS {
        let now = joint.now();
        if now >= HOUR {
            return;
        }
        if now >= SENDS && !is_sent {
            is_sent = true;
            joint.play();
            if case.loses_it {
                joint.lose(0);
            }
        }
        for number in 0..2 {
            if now >= LOSSES[number] && !lost[number] && !case.refuses {
                lost[number] = true;
                joint.lose(number);
            }
        }
        if joint.is_awake(0) {
            first.round();
        }
        if joint.is_awake(1) {
            second.round();
        }
        joint.pass();
    }
}
