// The words of a command line.
ghost use Rattle.std.specs.Prelude.{◌≡◌, ◌≤◌, ◌∷◌, ℕ, List, IfSome, MatchOption, option_and_then};
ghost use Rattle.dc_top.specs.Words.{texts_of, is_file, count_from, count_of, run_of, job_of};

/// The ticks of a run whose words name no number.
const DEFAULT_TICKS: u64 = 100_000_000;

/// The most ticks that words can ask for.
const MOST_TICKS: u64 = 1_000_000_000_000_000_000;

/// A file that is to be run, and the most ticks of the run.
#[derive(Clone, Copy)]
pub struct Job<'a> {
    pub file: &'a [u8],
    pub ticks: u64,
}

fn is_file(word: &[u8]) -> bool
    ensures { result ≡ is_file word.now }
{
    match word {
        [] => false,
        [first, ..] => *first != b'-',
    }
}

/// The number with one digit more, where the byte is a digit and the number isn't above the limit.
fn with_digit(value: u64, byte: u8) -> Option<u64>
    requires { value ≤ 1000000000000000000 }
    ensures value { (rest : List ℕ) → count_from value (byte ∷ rest) ≡ option_and_then (λ v. count_from v rest) result }
    ensures within { IfSome result (λ v. v ≤ 1000000000000000000) }
{
    if !byte.is_ascii_digit() {
        return None;
    }
    let next = value * 10 + u64::from(byte - b'0');
    if next <= MOST_TICKS { Some(next) } else { None }
}

fn digits(word: &[u8]) -> Option<u64>
    ensures { result ≡ count_from 0 word.now }
{
    let mut value = 0;
    for byte in word {
        match with_digit(value, *byte) {
            Some(next) => value = next,
            None => return None,
        }
    }
    Some(value)
}

/// The number that a word writes in decimal, without a needless 0 in front.
#[tactic(auto, unfolding(crate::specs::Words::count_of))]
fn count_of(word: &[u8]) -> Option<u64>
    ensures { result ≡ count_of word.now }
{
    match word {
        [] => None,
        [b'0', _, ..] => None,
        _ => digits(word),
    }
}

fn run_of<'a>(file: &'a [u8], ticks: u64) -> Option<Job<'a>>
    ensures { MatchOption result (run_of file.entry.now ticks ≡ None) (λ job. run_of file.entry.now ticks ≡ Some (record { file = job.file.now; ticks = job.ticks })) }
{
    if is_file(file) {
        Some(Job { file, ticks })
    } else {
        None
    }
}

/// The job of the words `run FILE` and `run --ticks N FILE`, or none where the words are no job.
pub fn job_of(words: &Vec<String>) -> Option<Job<'_>>
    ensures { MatchOption result (job_of (texts_of words.now.items) ≡ None) (λ job. job_of (texts_of words.now.items) ≡ Some (record { file = job.file.now; ticks = job.ticks })) }
{
    match words.as_slice() {
        [command, file] => {
            if command.as_str() == "run" {
                run_of(file.as_bytes(), DEFAULT_TICKS)
            } else {
                None
            }
        }
        [command, option, count, file] => {
            if command.as_str() == "run" && option.as_str() == "--ticks" {
                run_of(file.as_bytes(), count_of(count.as_bytes())?)
            } else {
                None
            }
        }
        _ => None,
    }
}
