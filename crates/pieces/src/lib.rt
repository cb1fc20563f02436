//! An image that arrives in pieces, each with its offset. The state goes in by value and comes back.
//! A piece is taken where its offset is the count taken, so a burst that comes twice can shift nothing.
#![tactic(auto)]

ghost use Rattle.std.specs.Prelude.{◌≡◌};
ghost use Rattle.reading.specs.Lent.{listed};
ghost use Rattle.decoders.specs.Identity.{identity_of};
ghost use Rattle.decoders.specs.Timing.{timings_of};
ghost use Rattle.manufacturing.specs.Block.{manufacturing_of};
ghost use Rattle.manufacturing.specs.Part.{part_kept_of};
ghost use Rattle.crc.specs.Base.{base_crc_of};
ghost use Rattle.rules.specs.Lint.{lint_of, lint_answer_of, findings_of};
ghost use Rattle.pieces.specs.Fed.{fresh_pieces, fresh_by, overlaid, accepted_at, fed_by, kept_of};

use decoders::identity::IdentityAndBase;
use decoders::timing::Timings;
use findings::Finding;
use manufacturing::{DateMode, Manufacturing, PartNumber};
use reading::Refusal;
use rules::{Edition, LintRecords, Linted};

/// The most bytes that an image has.
pub const LONGEST: usize = 2048;

/// How many of its first bytes are kept: all that any definition looks at.
pub const KEPT: usize = 555;

// The bytes of a burst, as the station sends them.
const BURST: usize = 16;

/// The bytes kept, 0 where none has arrived yet, the count of bytes taken, and the edition that it got when fresh.
// Kept: a plain record without a Model, since `Holds`, `run_holds` and `run-same` speak of its fields.
#[derive(Clone, Copy, Debug, PartialEq, Eq)]
pub struct Pieces {
    pub kept: [u8; KEPT],
    pub taken: usize,
    pub edition: Edition,
}

/// The state after a piece, with the answer. A state that refused a piece is as it was.
#[derive(Clone, Copy, Debug, PartialEq, Eq)]
pub struct Fed {
    pub state: Pieces,
    pub answer: Result<usize, Refusal>,
}

impl Pieces {
    /// A state that has taken nothing.
    pub fn of(edition: Edition) -> Self
        ensures { result ≡ fresh_pieces edition }
    {
        Self {
            kept: [0; KEPT],
            taken: 0,
            edition,
        }
    }

    /// The same by the edition's number. One that is none is refused, and the state is edition 2's.
    // Kept: the state beside its answer and not in an `Ok`, since `fresh_by` and `fed_by` give a state with each refusal too.
    pub fn fresh(edition: u32) -> Fed
        ensures { result ≡ fresh_by edition }
    {
        match rules::edition_of(edition) {
            Ok(edition) => Fed {
                state: Self::of(edition),
                answer: Ok(0),
            },
            Err(why) => Fed {
                state: Self::of(Edition::Second),
                answer: Err(why),
            },
        }
    }

    /// Takes the piece where `accept` does, and else stays as it was.
    pub fn feed(mut self, offset: usize, piece: &[u8]) -> Fed
        ensures { result ≡ fed_by self offset piece.now }
    {
        let taken = self.taken;
        let answer = accept(taken, offset, piece.len());
        if let Ok(total) = answer {
            lay(&mut self.kept, taken, piece);
            self.taken = total;
        }
        Fed {
            state: self,
            answer,
        }
    }

    /// The count of bytes taken.
    pub fn count(self) -> usize
        ensures { result ≡ self.taken }
    {
        self.taken
    }

    /// The identity of the image that has arrived, from the bytes that are kept of it. So are all questions answered.
    pub fn identity(self) -> Result<IdentityAndBase, Refusal>
        ensures { result ≡ identity_of (kept_of self) }
    {
        decoders::identity::decode_identity_and_base(self.arrived())
    }

    /// Its timings.
    pub fn timings(self) -> Result<Timings, Refusal>
        ensures { result ≡ timings_of (kept_of self) }
    {
        decoders::timing::decode_timings(self.arrived())
    }

    /// Its manufacturing block.
    pub fn manufacturing(self, mode: DateMode) -> Result<Manufacturing, Refusal>
        ensures { result ≡ manufacturing_of mode (kept_of self) }
    {
        manufacturing::decode_manufacturing(self.arrived(), mode)
    }

    /// Its part number, by value since the state is taken by value.
    pub fn part_number(self) -> PartNumber
        ensures { result ≡ part_kept_of (kept_of self) }
    {
        manufacturing::part_number_kept(self.arrived())
    }

    /// Whether its base CRC is right, checked on the bytes that were taken and not on a copy of the reader's.
    pub fn verify_base_crc(self) -> Result<bool, Refusal>
        ensures { result ≡ base_crc_of (kept_of self) }
    {
        crc::verify_base_crc(self.arrived())
    }

    /// Its lint under the state's edition, by value.
    pub fn lint_image(self) -> Linted
        ensures { result ≡ lint_of self.edition (kept_of self) }
    {
        rules::lint_image(self.arrived(), self.edition)
    }

    /// The same with the findings in a lent list of at least fifteen places.
    pub fn lint(self, list: &mut [Finding]) -> Result<LintRecords, Refusal>
        ensures answer { result ≡ lint_answer_of self.edition (kept_of self) list.old }
        ensures later { list.new ≡ listed 15 (findings_of self.edition (kept_of self)) list.old }
    {
        rules::lint(self.arrived(), self.edition, list)
    }

    // What has arrived of the bytes that are kept.
    fn arrived(&self) -> &[u8]
        ensures { result.now ≡ kept_of self.now }
    {
        &self.kept[..self.taken.min(KEPT)]
    }
}

/// The rule: a piece of `len` bytes at `offset`, after `taken` bytes. The offset is looked at before the length.
pub fn accept(taken: usize, offset: usize, len: usize) -> Result<usize, Refusal>
    ensures { result ≡ accepted_at taken offset len }
{
    if offset != taken {
        return Err(Refusal::WrongOffset(taken));
    }
    // A total that no usize holds is too long as well.
    let total = taken.saturating_add(len);
    if LONGEST < total {
        return Err(Refusal::TooLong);
    }
    Ok(total)
}

/// Lays `piece` over `kept` from `at` on; what would stand past its end is dropped. A burst that has room goes in at once.
#[tactic(auto, using(std::proofs::lemmas::Grind::common_steps, crate::proofs::Laws::over_laid))]
pub fn lay(kept: &mut [u8], at: usize, piece: &[u8])
    ensures { kept.new ≡ overlaid kept.old at piece.now }
{
    if let Some(burst) = piece.as_array::<BURST>()
        && BURST <= kept.len()
        && at <= kept.len() - BURST
    {
        // Read whole before it is written: one load and one store.
        let burst = *burst;
        kept[at..at + BURST].copy_from_slice(&burst);
        return;
    }
    lay_part(kept, at, piece)
}

// As many bytes as there is room for. Out of line, so that feeding a burst saves no registers for it.
#[inline(never)]
#[tactic(auto, using(std::proofs::lemmas::Grind::common_steps, crate::proofs::Laws::over_laid))]
fn lay_part(kept: &mut [u8], at: usize, piece: &[u8])
    ensures { kept.new ≡ overlaid kept.old at piece.now }
{
    if at < kept.len() {
        reading::copy_bytes(piece, &mut kept[at..]);
    }
}
