// The options of a command.
use crate::count::count_of;
use crate::versions::are_names;

/// The options that stand before the files of a job.
#[derive(Clone, Copy)]
pub(crate) struct Options<'a> {
    pub(crate) ticks: Option<u64>,
    pub(crate) order: Option<u64>,
    pub(crate) versions: Option<&'a [u8]>,
}

/// The options, and the words behind them.
#[derive(Clone, Copy)]
pub(crate) struct Read<'a> {
    pub(crate) options: Options<'a>,
    pub(crate) rest: &'a [String],
}

/// The options with one more, where that is one, is new and has a value of its sort.
fn with_option<'a>(options: Options<'a>, option: &[u8], value: &'a [u8]) -> Option<Options<'a>> {
    match option {
        b"--ticks" => match (options.ticks, count_of(value)) {
            (None, Some(ticks)) => Some(Options {
                ticks: Some(ticks),
                ..options
            }),
            _ => None,
        },
        b"--order" => match (options.order, count_of(value)) {
            (None, Some(order)) => Some(Options {
                order: Some(order),
                ..options
            }),
            _ => None,
        },
        b"--version" => match options.versions {
            None if are_names(value) => Some(Options {
                versions: Some(value),
                ..options
            }),
            _ => None,
        },
        _ => None,
    }
}

/// Whether a word may be that of a file.
pub(crate) fn is_file(word: &[u8]) -> bool {
    match word {
        [] => false,
        [first, ..] => *first != b'-',
    }
}

/// The options that begin the words, each at most once and in any order, or nothing where one is
/// wrong.
pub(crate) fn options_of(words: &[String]) -> Option<Read<'_>> {
    let mut options = Options {
        ticks: None,
        order: None,
        versions: None,
    };
    let mut rest = words;
    for _ in 0..u64::MAX {
        match rest {
            [option, value, later @ ..] if !is_file(option.as_bytes()) => {
                options = with_option(options, option.as_bytes(), value.as_bytes())?;
                rest = later;
            }
            _ => break,
        }
    }
    Some(Read { options, rest })
}
