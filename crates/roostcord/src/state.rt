//! A pieces state in the first bytes of what C lends: the count taken and the edition in two bytes, then the bytes that are kept.
ghost use Rattle.std.specs.Prelude.{◌≡◌, ◌+◌, ◌*◌, ◌<◌, ◌≤◌, IfOk, Some, None, get_or, length};
ghost use Rattle.std.specs.Option.{option_copied};
ghost use Rattle.reading.specs.Pick.{pick};
ghost use Rattle.roostcord.specs.State.{state_size, short, edition_in, arrived_in, asked, fresh_in, fresh_after, feed_in, feed_after, taken_in};

use pieces::KEPT;
use reading::Refusal;
use rules::Edition;

const STATE_SIZE: usize = 2 + KEPT;

// A count has twelve bits, and the edition the one above them.
const COUNTS: usize = 4096;

const HEADS: usize = 2 * COUNTS;

// Makes the first bytes a state of an edition that has taken nothing.
#[tactic(auto, unfolding(crate::specs::State::fresh_in, crate::specs::State::fresh_after))]
pub(crate) fn fresh(state: &mut [u8], edition: u32) -> Result<usize, Refusal>
    ensures answer { result ≡ fresh_in edition state.old }
    ensures later { state.new ≡ fresh_after edition state.old }
    ensures small { IfOk result (λ n. n ≤ 2048) }
{
    let edition = rules::edition_of(edition)?;
    if state.len() < STATE_SIZE {
        return Err(Refusal::ListTooShort);
    }
    state[..STATE_SIZE].copy_from_slice(&[0; STATE_SIZE]);
    state[1] = mark(edition);
    Ok(0)
}

// Feeds a piece to the state in the first bytes: the count of bytes taken.
#[tactic(auto, unfolding(crate::specs::State::feed_in, crate::specs::State::feed_after))]
pub(crate) fn feed(state: &mut [u8], offset: usize, piece: &[u8]) -> Result<usize, Refusal>
    ensures answer { result ≡ feed_in state.old offset piece.now }
    ensures later { state.new ≡ feed_after state.old offset piece.now }
    ensures small { IfOk result (λ n. n ≤ 2048) }
{
    if state.len() < STATE_SIZE {
        return Err(Refusal::ListTooShort);
    }
    let head = head_in(state);
    let taken = head % COUNTS;
    let total = pieces::accept(taken, offset, piece.len())?;
    // The edition's bit stays, above the count; as one number the two bytes are stored at once.
    // Kept: `as`, since that number is proved to fit.
    let later = head % HEADS + piece.len();
    state[..2].copy_from_slice(&(later as u16).to_le_bytes());
    pieces::lay(&mut state[2..STATE_SIZE], taken, piece);
    Ok(total)
}

// The count of bytes that a state has taken.
#[tactic(auto, unfolding(crate::specs::State::taken_in))]
pub(crate) fn taken(state: &[u8]) -> Result<usize, Refusal>
    ensures answer { result ≡ taken_in state.now }
    ensures small { IfOk result (λ n. n ≤ 4095) }
{
    if state.len() < STATE_SIZE {
        return Err(Refusal::ListTooShort);
    }
    Ok(head_in(state) % COUNTS)
}

// What has arrived of the image, as far as it is kept: a part of the state, where there is one.
pub(crate) fn arrived(state: &[u8]) -> Option<&[u8]>
    ensures { option_copied result ≡ pick (short state.now) None (Some (arrived_in state.now)) }
{
    let kept = state.get(2..STATE_SIZE)?;
    let taken = head_in(state) % COUNTS;
    Some(&kept[..taken.min(KEPT)])
}

// The edition that a state says.
pub(crate) fn edition(state: &[u8]) -> Edition
    requires { 2 ≤ length state.now }
    ensures { result ≡ edition_in state.now }
{
    if head_in(state) / COUNTS % 2 == 1 {
        Edition::First
    } else {
        Edition::Second
    }
}

// The two bytes before what is kept as one number: the count in twelve bits, and above them the edition's.
fn head_in(state: &[u8]) -> usize
    requires { 2 ≤ length state.now }
    ensures { result ≡ get_or state.now 0 0 + 256 * get_or state.now 1 0 }
{
    u16::from_le_bytes([state[0], state[1]]).into()
}

// An edition's bit, as it stands in a state's second byte.
fn mark(edition: Edition) -> u8
    ensures { result ≡ Rattle.roostcord.specs.State.mark edition }
{
    match edition {
        Edition::First => 16,
        Edition::Second => 0,
    }
}
