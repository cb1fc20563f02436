//! An answer as one signed number.
ghost use Rattle.std.specs.Prelude.{◌≡◌, ◌<◌, pos, neg_ℤ, Err, IfOk};
ghost use Rattle.roostcord.specs.Word.{word_of};

use reading::Refusal;

// A word has eight bits for the number, twelve for the first value and ten for the second.
const NUMBERS: usize = 256;

const FIRST_VALUES: usize = 4096;

const SECOND_VALUES: usize = 1024;

// A count, or minus a refusal's word. Kept: `as`, here and in `minus`, since it is proved to fit.
pub(crate) fn word(answer: Result<usize, Refusal>) -> i32
    requires { IfOk answer (λ n. n < 2147483648) }
    ensures { result ≡ word_of answer }
{
    match answer {
        Ok(n) => n as i32,
        Err(why) => refusal_word(why),
    }
}

// A refusal as an answer: its number, and each of its values in bits of its own.
pub(crate) fn refusal_word(why: Refusal) -> i32
    ensures { result ≡ word_of (Err why) }
{
    let first = why.first() % FIRST_VALUES;
    let second = why.second() % SECOND_VALUES;
    minus(usize::from(why.number()) + NUMBERS * (first + FIRST_VALUES * second))
}

fn minus(word: usize) -> i32
    requires { word < 2147483648 }
    ensures { result ≡ neg_ℤ (pos word) }
{
    -(word as i32)
}
