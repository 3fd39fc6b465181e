// Answers of the calls on planes and slices, handed out: the number is returned, positions and lengths go into the places that
// the caller lends for them.
ghost use Rattle.std.specs.Prelude.{◌≡◌, List, ℕ};
ghost use Rattle.questions.specs.answers.Size.{size_says};
ghost use Rattle.calls.specs.Told.{content};
ghost use Rattle.preview.specs.Answer.{preview_says};
ghost use Rattle.preview.specs.report.Report.{report_says};
ghost use Rattle.outs.specs.plane.Planes.{coded_as, decoded_as, previewed_as, reported_as, length_places, length_parts};
ghost use Rattle.outs.specs.frame.Outs.{handed, handed_by};
ghost use Rattle.questions.specs.answers.Code.{code_says};
ghost use Rattle.questions.specs.answers.Read.{read_says};

use ask::Refusal;
use calls::Positions;
use questions::answers::{Lengths, Refused};

// Of a call that codes or reads: both positions, as they were given where it is refused.
pub fn positions_out(
    answer: Result<Positions, Refused>,
    dc_at: &mut usize,
    ac_at: &mut usize,
) -> u32
    ensures coded { (dcs : List ℕ) (acs : List ℕ)
        → coded_as result dc_at.new ac_at.new dcs acs ≡ content (code_says answer dcs acs) }
    ensures read { (lent : List (List ℕ))
        → decoded_as result dc_at.new ac_at.new lent ≡ content (read_says answer lent) }
{
    let (number, at) = match answer {
        Ok(end) => (0, end),
        Err(refused) => (refused.no.number(), refused.start),
    };
    *dc_at = at.dc;
    *ac_at = at.ac;
    number
}

// Of a preview or a block report: the position after the plane's stream; a refusal leaves the place as it was.
pub fn position_out(answer: Result<usize, Refusal>, at: &mut usize) -> u32
    ensures preview { (upper : List ℕ) (lower : List ℕ)
        → previewed_as result at.new upper lower ≡ content (preview_says at.old answer upper lower) }
    ensures report { (bytes : List ℕ)
        → reported_as result at.new bytes ≡ content (report_says at.old answer bytes) }
{
    match answer {
        Err(no) => no.number(),
        Ok(end) => {
            *at = end;
            0
        }
    }
}

// Of a size call: both lengths; a refusal leaves their places as they were.
pub fn size_out(answer: Result<Lengths, Refusal>, dc_len: &mut usize, ac_len: &mut usize) -> u32
    ensures { handed result (length_places dc_len.new ac_len.new)
        ≡ handed_by (size_says answer) length_parts (length_places dc_len.old ac_len.old) }
{
    match answer {
        Err(refusal) => refusal.number(),
        Ok(l) => {
            *dc_len = l.dc;
            *ac_len = l.ac;
            0
        }
    }
}
