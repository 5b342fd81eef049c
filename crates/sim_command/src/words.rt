ghost use Rattle.std.specs.Prelude.{◌≡◌, ◌<◌, ◌≤◌, ◌^◌, ◌*◌, ◌+◌, map, length, true, IsTrue};
ghost use Rattle.std.specs.List.{list_all};
ghost use Rattle.sim_command.specs.Seen.{IsCommand};
ghost use Rattle.sim_command.specs.Words.{command, number_after, is_digit, is_count, is_cycles, cycles_of};

use sim_host::Name;

/// What the words ask for.
#[derive(Clone, Copy)]
pub enum Command<'a> {
    /// To run the design of the file of this name, with the cycle `limit` as the last one.
    Run { design: &'a Name, limit: u32 },
}

fn are_digits(word: &[u8]) -> bool
    ensures { result ≡ list_all is_digit word.now }
{
    word.iter().all(|byte| *byte >= 48 && *byte <= 57)
}

fn is_count_word(word: &[u8]) -> bool
    ensures { result ≡ is_count word.now }
{
    word.len() >= 1 && word.len() <= 10 && are_digits(word)
}

fn number_of(word: &[u8]) -> u64
    requires short { length word.now ≤ 10 }
    requires digits { list_all is_digit word.now ≡ true }
    ensures { result ≡ number_after 0 word.now }
{
    let mut number = 0u64;
    for byte in word {
        number = number * 10 + u64::from(*byte - 48);
    }
    number
}

// The number of cycles that a word spells.
fn cycles_in(word: &[u8]) -> Option<u32>
    ensures { result ≡ cycles_of word.now }
{
    if !is_count_word(word) {
        return None;
    }
    let number = number_of(word);
    if number >= 1 && number <= 10_000_000 {
        Some(number as u32)
    } else {
        None
    }
}

/// The command that the words are, or `None` where they are usage.
pub(crate) fn read_command(words: &[Name]) -> Option<Command<'_>>
    ensures { IsCommand result (command words.now) }
{
    match words {
        [verb, design, cycles] if verb.bytes() == b"run".as_slice() => match cycles_in(
            cycles.bytes(),
        ) {
            Some(limit) => Some(Command::Run { design, limit }),
            None => None,
        },
        _ => None,
    }
}
