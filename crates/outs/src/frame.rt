// Answers of the calls on frames, handed out: the number is returned, the rest of the answer goes into the places that the
// caller lends for it. A refusal leaves them as they were; a refused part has offset 0 and length 0.
//
// Numbers stand here for truth values, kinds and verdicts, and places for the parts of an answer: they are those of C.
ghost use Rattle.std.specs.Prelude.{◌≡◌, List, ℕ};
ghost use Rattle.ask.specs.Ask.{Answer};
ghost use Rattle.layout.specs.Views.{layout_says, row_says, is_ac};
ghost use Rattle.parser.specs.Views.{frame_says, view_says};
ghost use Rattle.tables.specs.Quality.{quality_preset};
ghost use Rattle.builder.specs.Build.{Built};
ghost use Rattle.builder.specs.Views.{HeaderCall};
ghost use Rattle.builder.specs.streams.Views.{StreamCall, complete_says};
ghost use Rattle.builder.specs.declared.Builder.{Builder};
ghost use Rattle.shown.specs.Shown.{was_accepted};
ghost use Rattle.outs.specs.frame.Outs.{is_on, flag_of, handed, handed_by, row_places, row_parts};
ghost use Rattle.outs.specs.frame.Outs.{layout_places, layout_parts, frame_places, frame_parts, view_places, view_parts, empty_part};
ghost use Rattle.outs.specs.frame.Outs.{build_places, build_parts};

use ask::Refusal;
use builder::Builder;
use builder::streams::Refused;
use layout::{Kind, Layout};
use parser::View;
use parser::head::Header;

// A truth value as a number.
pub fn flag(b: bool) -> u32
    ensures { result ≡ flag_of b }
{
    u32::from(b)
}

// Which stream is meant: DC by 0, AC by any other number.
pub fn kind_of(ac: u32) -> Kind
    ensures { is_ac result ≡ is_on ac }
{
    if 0 < ac { Kind::Ac } else { Kind::Dc }
}

// Whether rows come out of the new picture, by the slice's number.
pub fn from_new(verdict: u32) -> u32
    ensures { result ≡ flag_of (was_accepted verdict) }
{
    flag(verdict == 0)
}

// Of a size's geometry.
pub fn layout_out(
    answer: Result<Layout, Refusal>,
    aligned_height: &mut usize,
    slices: &mut usize,
    luma: &mut usize,
    chroma: &mut usize,
    max_dc_len: &mut usize,
    max_ac_len: &mut usize,
) -> u32
    ensures { handed result
        (layout_places aligned_height.new slices.new luma.new chroma.new
        max_dc_len.new max_ac_len.new)
        ≡ handed_by (layout_says answer) layout_parts
        (layout_places aligned_height.old slices.old luma.old chroma.old
        max_dc_len.old max_ac_len.old) }
{
    match answer {
        Err(no) => no.number(),
        Ok(l) => {
            *aligned_height = l.aligned_height;
            *slices = l.slices;
            *luma = l.luma;
            *chroma = l.chroma;
            *max_dc_len = l.max_dc_len;
            *max_ac_len = l.max_ac_len;
            0
        }
    }
}

// Of a coded row: whether it is a row of the image, and which one.
pub fn row_out(answer: Option<usize>, row: &mut usize) -> u32
    ensures { row_places result row.new ≡ row_parts row.old (row_says answer) }
{
    match answer {
        None => 0,
        Some(i) => {
            *row = i;
            1
        }
    }
}

// Of a quality that is asked: the one in force, and its preset.
pub fn quality_out(quality: u8, kept: &mut u8, preset: &mut usize)
    ensures { (kept.new ≡ (quality_preset quality).quality) × (preset.new ≡ (quality_preset quality).index) }
{
    let p = tables::quality::quality_preset(quality);
    *kept = p.quality;
    *preset = p.index;
}

// Of a frame's header.
pub fn frame_out(
    answer: Result<Header, Refusal>,
    interlaced: &mut u32,
    quality: &mut u32,
    dc_shift: &mut u32,
    header_len: &mut usize,
    ac: &mut u32,
) -> u32
    ensures { handed result
        (frame_places interlaced.new quality.new dc_shift.new header_len.new ac.new)
        ≡ handed_by (frame_says answer) frame_parts
        (frame_places interlaced.old quality.old dc_shift.old header_len.old ac.old) }
{
    match answer {
        Err(no) => no.number(),
        Ok(h) => {
            *interlaced = flag(h.interlaced);
            *quality = u32::from(h.quality);
            *dc_shift = u32::from(h.dc_shift);
            *header_len = h.header_len;
            *ac = flag(h.ac);
            0
        }
    }
}

// Of a slice's stream: where it lies in the frame.
pub fn view_out(answer: Result<View, Refusal>, offset: &mut usize, len: &mut usize) -> u32
    ensures { handed result (view_places offset.new len.new) ≡ handed_by (view_says answer) view_parts empty_part }
{
    match answer {
        Err(no) => {
            *offset = 0;
            *len = 0;
            no.number()
        }
        Ok(view) => {
            *offset = view.offset;
            *len = view.len;
            0
        }
    }
}

// Of a header that was written, or not: the builder's state.
pub fn header_out(
    answer: Result<Builder, Refusal>,
    ac_turn: &mut u32,
    next: &mut usize,
    at: &mut usize,
) -> u32
    ensures { (out out' : List ℕ) (a : Answer Built) → HeaderCall answer out out' a → handed result
        (build_places out' ac_turn.new next.new at.new)
        ≡ handed_by a build_parts
        (build_places out ac_turn.old next.old at.old) }
{
    match answer {
        Err(refused) => refused.number(),
        Ok(b) => {
            *ac_turn = flag(b.ac_turn());
            *next = b.next();
            *at = b.at();
            0
        }
    }
}

// Of a stream that was put, or not: the builder's state.
pub fn stream_out(
    answer: Result<Builder, Refused>,
    ac_turn: &mut u32,
    next: &mut usize,
    at: &mut usize,
) -> u32
    ensures { (was : Builder) (out out' : List ℕ) (a : Answer Built) → StreamCall was answer out out' a → handed result
        (build_places out' ac_turn.new next.new at.new)
        ≡ handed_by a build_parts
        (build_places out ac_turn.old next.old at.old) }
{
    match answer {
        Err(refused) => refused.no.number(),
        Ok(s) => {
            *ac_turn = flag(s.ac_turn());
            *next = s.next();
            *at = s.at();
            0
        }
    }
}

// Of a frame that is complete, or not.
pub fn complete_out(answer: Result<bool, Refusal>, complete: &mut u32) -> u32
    ensures { handed result complete.new ≡ handed_by (complete_says answer) flag_of complete.old }
{
    match answer {
        Err(size) => size.number(),
        Ok(b) => {
            *complete = flag(b);
            0
        }
    }
}
