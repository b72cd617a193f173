//! Gathers lines with long texts in parts, so that no block holds the whole text.

ghost use Rattle.std.specs.Prelude.{◌≡◌, ◌+◌, ◌*◌, ◌≤◌, IfErr, OnOk, OnErr, length};
ghost use Rattle.std.specs.List.{flat_map};
ghost use Rattle.lx_scan.specs.ItemParts.{NamesKindAmong};
ghost use Rattle.lx_piece.specs.Plans.{kinds_of};
ghost use Rattle.lx_listing.specs.Gathered.{Gathers};
ghost use Rattle.lx_listing.specs.Lines.{escaped};
ghost use Rattle.lx_listing.specs.Parts.{WrotePart};
ghost use Rattle.lx_listing.specs.Printing.{WrotePrefix};

use crate::gathering::Gathering;
use crate::sink::LineSink;
use lx_line::{LineStyle, TextEscape, place_any_text};
use lx_piece::{Plan, ReaderFault};
use lx_scan::Item;

/// Number of bytes of a longer text that are placed at a time. They need memory for six times as many bytes and 16 more.
pub(crate) const PART: usize = 4_096;

const ROOM: usize = 24_592;

// Gathers a part of a text, escaped.
fn gather_part<S: LineSink>(
    sink: &mut Gathering<S>,
    room: &mut [u8],
    text: &[u8],
) -> Result<(), ReaderFault>
    requires { 6 * length text.now + 16 ≤ length room.old }
    ensures ok { OnOk result (Gathers S.wrote sink.old (flat_map escaped text.now) sink.new) }
    ensures err { OnErr result
        (WrotePrefix (Gathers S.wrote) sink.old (flat_map escaped text.now) sink.new) }
    ensures device { IfErr result (λ fault. fault ≡ ReaderFault.Device) }
{
    let end = place_any_text::<TextEscape>(room, 0, text);
    sink.gather(&room[..end])
}

// Gathers a text, escaped. It allocates nothing, so no allocation can fail within a line.
fn gather_text<S: LineSink>(sink: &mut Gathering<S>, text: &[u8]) -> Result<(), ReaderFault>
    ensures ok { OnOk result (Gathers S.wrote sink.old (flat_map escaped text.now) sink.new) }
    ensures err { OnErr result
        (WrotePrefix (Gathers S.wrote) sink.old (flat_map escaped text.now) sink.new) }
    ensures device { IfErr result (λ fault. fault ≡ ReaderFault.Device) }
{
    let mut room = [0; ROOM];
    let mut done = 0;
    while done < text.len() {
        let end = done + PART.min(text.len() - done);
        gather_part(sink, &mut room, &text[done..end])?;
        done = end;
    }
    Ok(())
}

// Gathers the line of an item with this text, if it has one, with the text in parts.
pub(crate) fn gather_long<L: LineStyle, S: LineSink>(
    style: &L,
    sink: &mut Gathering<S>,
    block: &mut Vec<u8>,
    plan: &Plan,
    file: u32,
    item: &Item,
    text: &[u8],
) -> Result<(), ReaderFault>
    requires { NamesKindAmong (kinds_of plan.now) item.now }
    ensures ok { OnOk result (Gathers S.wrote sink.old
        ((L.style style.now).line_with plan.now.table file item.now text.now) sink.new) }
    ensures part { IfErr result (λ fault. WrotePart (Gathers S.wrote) sink.old fault
        ((L.style style.now).line_with plan.now.table file item.now text.now) sink.new) }
{
    block.clear();
    let Ok(goes_on) = style.push_start(block, plan, file, item, text) else {
        return Err(ReaderFault::Memory);
    };
    if !goes_on {
        return sink.gather(block.as_slice());
    }
    sink.gather(block.as_slice())?;
    gather_text(sink, text)?;
    sink.gather(b"\n")?;
    Ok(())
}
