//! The lines of the input.

/// What a line says. Visitors have numbers.
#[derive(Clone, Copy)]
pub(crate) enum Step<'a> {
    /// A visitor comes, of whom so many bytes come at once.
    Visits(usize, usize),
    /// It sends this.
    Sends(usize, &'a str),
    /// It takes so many bytes more, and then none.
    Takes(usize, usize),
    /// It sends no more.
    Ends(usize),
    /// It has gone: it takes nothing any more.
    Goes(usize),
    /// So many milliseconds pass.
    Waits(u64),
    /// The console has rounds until it has nothing to do.
    Runs,
    /// Nothing.
    Nothing,
}

/// What a line says.
pub(crate) fn step_of(line: &str) -> Step<'_> {
    let (word, rest) = line.split_once(' ').unwrap_or((line, ""));
    let (number, text) = rest.split_once(' ').unwrap_or((rest, ""));
    let visitor = number.parse::<usize>().unwrap_or(0);
    match word {
        "visits" => Step::Visits(visitor, text.parse::<usize>().unwrap_or(10_000)),
        "sends" => Step::Sends(visitor, text),
        "takes" => Step::Takes(visitor, text.parse::<usize>().unwrap_or(0)),
        "ends" => Step::Ends(visitor),
        "goes" => Step::Goes(visitor),
        "waits" => Step::Waits(number.parse::<u64>().unwrap_or(0)),
        "runs" => Step::Runs,
        _ => Step::Nothing,
    }
}
