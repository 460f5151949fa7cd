// Jobs.
use crate::count::count_of;
use crate::options::{Options, Read, is_file, options_of};

/// The ticks of a run whose words name no number.
const DEFAULT_TICKS: u64 = 100_000_000;

/// The most files of a job, and the most that a program is made of by `gen`.
const MOST_FILES: usize = 400;

const MOST_MADE: u64 = 400;

/// The files of a job, and what the words say of how they are elaborated.
#[derive(Clone, Copy)]
pub struct Files<'a> {
    /// The state of a mixed order of steps, where one is asked for.
    pub order: Option<u64>,
    /// Names with commas between them, for which a `version` holds.
    pub versions: Option<&'a [u8]>,
    /// The paths of 1 to 400 files.
    pub paths: &'a [String],
}

/// What the words ask for.
#[derive(Clone, Copy)]
pub enum Job<'a> {
    /// Runs a program, in at most so many ticks.
    Run { ticks: u64, files: Files<'a> },
    /// Elaborates a program.
    Check { files: Files<'a> },
    /// Prints the value of each evaluation at compile time.
    Audit { files: Files<'a> },
    /// Makes a program of so many files, 1 to 400, and runs it.
    Gen { n: u64 },
}

/// The files of a job with these options and paths.
fn files_of<'a>(options: Options<'a>, paths: &'a [String]) -> Option<Files<'a>> {
    if paths.is_empty() || MOST_FILES < paths.len() {
        return None;
    }
    for path in paths {
        if !is_file(path.as_bytes()) {
            return None;
        }
    }
    Some(Files {
        order: options.order,
        versions: options.versions,
        paths,
    })
}

/// The job of `run` behind that word.
fn run_of(words: &[String]) -> Option<Job<'_>> {
    let Read { options, rest } = options_of(words)?;
    let files = files_of(options, rest)?;
    let ticks = match options.ticks {
        Some(ticks) => ticks,
        None => DEFAULT_TICKS,
    };
    Some(Job::Run { ticks, files })
}

/// The files of `check` and `audit` behind that word; these take no ticks.
fn judged_of(words: &[String]) -> Option<Files<'_>> {
    let Read { options, rest } = options_of(words)?;
    if options.ticks.is_some() {
        return None;
    }
    files_of(options, rest)
}

/// The job of `gen` behind that word.
fn gen_of(words: &[String]) -> Option<Job<'_>> {
    let [word] = words else {
        return None;
    };
    let n = count_of(word.as_bytes())?;
    if 1 <= n && n <= MOST_MADE {
        Some(Job::Gen { n })
    } else {
        None
    }
}

/// The job of the words behind the program's name, or nothing where they are no job:
///
/// - `run [--ticks N] [--order N] [--version IDS] FILE...`
/// - `check [--order N] [--version IDS] FILE...`, and `audit` likewise
/// - `gen N`
///
/// The options stand before the files, each at most once and in any order. A number is decimal
/// without a needless 0, at most 10^18, and in `gen` from 1 to 400. IDS are identifiers with
/// commas between them. There are 1 to 400 files; the word of a file isn't empty and doesn't begin
/// with `-`.
pub fn job_of(words: &[String]) -> Option<Job<'_>> {
    let [command, rest @ ..] = words else {
        return None;
    };
    match command.as_bytes() {
        b"run" => run_of(rest),
        b"check" => {
            let files = judged_of(rest)?;
            Some(Job::Check { files })
        }
        b"audit" => {
            let files = judged_of(rest)?;
            Some(Job::Audit { files })
        }
        b"gen" => gen_of(rest),
        _ => None,
    }
}
